//! The schema of a document: which types of records there are, which records are admitted under which ids, and how
//! records of older versions are brought up.
//!
//! Contracts see a `Schema` as a `SchemaTree`, by `schema_tree`: the types by name, each with its scope and its check as a
//! tree, and the sequences of migrations. A row of types is seen as its name with the rest, by `row_tree`, and a record as
//! the value `Data`. The crate stands on `record_valid` for checks and ids and on `migrate_steps` and `migrate_seq` for
//! migrations.
#![tactic(auto)]

pub mod fault;
mod names;
pub mod row;
pub mod schema;

pub use fault::{RecordFault, SchemaFault};
pub use row::{Scope, TypeRow};
pub use schema::Schema;
