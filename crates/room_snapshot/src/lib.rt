//! A saved room as one line of JSON, both ways, and a saved room that is brought to a newer schema.
//!
//! Contracts see a `SavedRoom` of `room_model` as a `SavedTree` (`saved_tree`): its two clocks, its
//! records with a clock each and its tombstones with a clock each, in order. What a line is is said
//! in the direction of printing: each saved room with the versions of its schema has one value, by
//! `line_val`. The crate stands on `rooms_val`, `migrate_steps`, `migrate_seq`, `schema_core` and `room_model`, and
//! on `thiserror` for the text of its faults.
#![tactic(auto)]

mod documents;
mod entries;
pub mod fault;
mod ids;
pub mod laws;
mod line;
pub mod printing;
mod raising;
pub mod snapshot;
mod tombs;

pub use fault::SnapFault;
pub use ids::bad_id;
pub use printing::print;
pub use raising::raise;
pub use room_model::{SavedRecord, SavedRoom, SavedTomb};
pub use snapshot::{Snapshot, read};
