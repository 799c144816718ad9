//! Live views of a store: what a view tells now, and which of the watched views changed since they were told.
//!
//! Contracts see a client's watches as a list by number of the view and what was last told of it (`specs/Watches.antt`), and
//! say for which of these lists a store's watches stand. What a view tells is what `shape_tree` defines of the records. The
//! crate stands on `record_store` for the store and for what is due.
#![tactic(auto)]

mod telling;
mod views;

pub use record_store::{WatchFault, WatchId};
pub use views::{told, view, watch};
