//! Values that are computed anew only where they may differ, and watches that tell which of them changed.
//!
//! `Graph` holds atoms and computed keys, as `Values` of `signal_values`, and at most 64 watches. A watch has a key, and
//! what was last told of its value. Contracts see a `Graph` as its values and its watches (`specs/Seen.antt`).
//! The crate stands on `signal_values` for what is fresh and what a key comes to.
#![tactic(auto)]

pub mod graph;
pub mod news;
mod slots;
pub mod watch;

pub use graph::Graph;
pub use news::News;
pub use signal_values::{Ask, Rules};
pub use watch::{MOST_WATCHES, WatchFault, WatchId};
