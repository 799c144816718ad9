//! A client: it edits a document by itself, and keeps in step with a room where it is connected to one.
//!
//! A client keeps a replica (`client_replica`), and beside it how far it is with its room: its connection, the clock that
//! it has reached, how many of the pending works were sent, its own presence, and the reason for which the room won't have
//! it. Contracts say for which of `room_model`'s clients, with which base, a client stands: a call returns what the
//! definition says, and afterwards the client stands for the definition's next. The crate stands on `client_replica`.
#![tactic(auto)]

mod check;
pub mod client;
mod counts;
pub mod fault;
pub mod laws;
mod presence;

pub use client::SyncClient;
pub use fault::{PresenceFault, TakeFault};
pub use room_model::fault::ConnectFault;
