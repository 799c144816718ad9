//! What a schema decides for rooms and their clients.
//!
//! `room_model` takes what schemas decide as one record of functions. `specs/Decided.antt` says which record a `Schema` of
//! `schema_core` decides for a room. The crate stands on both, and what rooms and clients of the code do stands on it.
#![tactic(auto)]

pub mod scope;

pub use scope::is_presence;
