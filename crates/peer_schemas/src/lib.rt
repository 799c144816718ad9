//! What the schemas of the tables decide for rooms and clients.
//!
//! `room_model` takes what schemas decide as one record of functions. `specs/Clients.antt` says which record the tables
//! decide: for a client, by its version alone; for a room, by its schema. `laws` says that this record is lawful, and that
//! each schema of the tables decides what its version does. The crate stands on `side_effects` for what an edit is completed
//! to and on `sync_client` for which records are presences.
#![tactic(auto)]

pub mod fault;
pub mod laws;

pub use fault::edit_fault;
