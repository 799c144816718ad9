//! A store of records by id, with transactions that nest.
//!
//! Contracts see a `DocStore` as a map of records (`records`, pairs whose ids rise), the maps at which its open
//! transactions began (`begun`, the newest first), and a rest that no call changes (`rest`). `MapDoc` is the plain store:
//! a tree of slots and a journal of what stood in them. `apply` is the step of a document under a schema, on any store,
//! and `step_record` what it does to one record. The crate stands on `doc_model` for the step and its inverse, and on
//! `schema_core` for what is admitted.
#![tactic(auto)]

mod journal;
pub mod map_doc;
mod slots;
pub mod step;
pub mod store;

pub use map_doc::MapDoc;
pub use rooms_val::TxnFault;
pub use step::{apply, step_record};
pub use store::{DocStore, MOST_OPEN};
