//! What an edit is completed to before it is made, and why an edit is refused.
//!
//! Contracts see a wanted diff and the completed one as `RecordOps`, a schema as a `SchemaTree` and a store as its records.
//! The crate stands on `doc_store` for stores and on `schema_core` for schemas.
#![tactic(auto)]

mod after;
mod chains;
pub mod completion;
pub mod fault;
pub mod laws;
mod placing;
pub mod reaching;
mod records;
mod removing;
mod rules;
mod whole;

pub use completion::complete;
pub use fault::EditFault;
