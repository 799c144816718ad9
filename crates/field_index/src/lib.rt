//! An index of the records of one type by the values of one field.
//!
//! Contracts see a `FieldIndex` as a record of the type's name, the field, the field's values by id (pairs whose ids
//! rise), and the epoch of the last refresh. `specs/Index.antt` says which values the records of a map give. The crate
//! stands on `rooms_val` for values, on `record_valid` for what an id is, and on `shape_tree` for what a query asks.
#![tactic(auto)]

pub mod ids;
pub mod index;
mod laws;
mod place;
mod sorted_values;

pub use ids::is_id_of;
pub use index::FieldIndex;
pub use laws::{index_follows_writes, queries_by_index};
