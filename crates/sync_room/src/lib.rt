//! A room that one thread calls: who enters it, what it accepts of whom, what it sends to whom, and
//! who leaves.
//!
//! Contracts relate a [`Room`] to a room of `room_model`'s definitions (`Stands`): for each that it
//! stands for, a call replies what the definition does, and afterwards the room stands for the
//! definition's next. They see a session's number and whether it is in a room (`IsIn`). The crate
//! stands on `room_history` for the records and what is kept of how they came about, on
//! `room_messages` for what is sent, and on `slab`.
#![tactic(auto)]

mod drain;
mod ending;
pub mod enter;
mod find;
mod handle;
pub mod room;
pub mod session;
mod sessions;

pub use enter::EnterFault;
pub use room::Room;
pub use room_model::{LoadFault, SavedRecord, SavedRoom, SavedTomb};
pub use session::SessionId;
