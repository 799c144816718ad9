//! Queries over the records of a store, with an optional index of one field, and the refresh of an index.
//!
//! Contracts see a store as its map of records, and an index as the values that it holds by id. `shape_tree` says which
//! records meet a query, and `field_index` which values an index of a map holds. The crate stands on `doc_store` for
//! stores, and on `record_store` for what was written since an epoch.
#![tactic(auto)]

pub mod asking;
pub mod refreshing;

pub use asking::ids;
pub use refreshing::refresh;
