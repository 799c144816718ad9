//! Sequences of migrations of records, and the plan that brings records to the newest versions and back.
//!
//! Contracts see a `Serialized` as a list of names with versions that rises by name, a set of `Sequences` as the list of
//! its sequences in the order of their ids (`sequences_of`), and a `Plan` as the places of its migrations in that list
//! (`places_in`). What migrations make of a record is told of the value `Data` that it stands for. The crate stands on
//! `rooms_val`, on `migrate_steps` for what one migration makes of a record, and on `thiserror` for the text of its faults.
#![tactic(auto)]

mod build;
pub mod fault;
pub mod laws;
mod order;
pub mod place;
pub mod plan;
pub mod sequences;
pub mod serialized;

pub use fault::{Ids, PlanFault, SeqFault};
pub use place::Place;
pub use plan::Plan;
pub use sequences::Sequences;
pub use serialized::Serialized;
