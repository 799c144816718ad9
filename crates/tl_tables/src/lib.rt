//! The tables of a whiteboard's records: the schema at each version.
//!
//! The tables stand twice, in the same order and words: as rows in `src/`, and as rows of trees in `specs/`. `schema_at`
//! is proved to give the schema of the rows in `specs/`. A row that isn't there at every version says from which version
//! on, or up to which one, it is. The crate stands on `schema_core`, and names `record_valid` for checks,
//! `migrate_steps` for migrations and `migrate_seq` for sequences that fit together.
#![tactic(auto)]

mod fields;
mod listed;
mod migrations;
mod parts;
mod rules;
mod shapes;
pub mod tables;
mod types;

pub use tables::{NEWEST_VERSION, TableFault, schema_at};
