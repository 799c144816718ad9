//! Migrations of records, one at a time: the steps that one is made of, and what it makes of a record and of a map of
//! records.
//!
//! Contracts see a step, a migration and a sequence with their fields. What they make of a record is told of the value
//! `Data` that it stands for. Which migrations somebody misses, and in which order they are run, is left to who calls. The
//! crate stands on `rooms_val`.
#![tactic(auto)]

pub mod migration;
mod row;
pub mod step;

pub use migration::{Filter, MigScope, Migration, Sequence, migrate, migrate_each};
pub use step::{MigStep, Way};
