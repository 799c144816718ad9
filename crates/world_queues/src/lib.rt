//! The messages in flight between the sessions of a world and its room.
//!
//! [`Queues`] has for each session what it sent and the room wasn't given yet, and what the room
//! gave out and its client wasn't given yet. It knows neither the room nor the clients. Contracts
//! see both as lists of lists by the numbers of sessions, `to_room` and `to_client` of
//! `specs/Queues.antt`. The crate stands on `sync_msgs` for the messages.
#![tactic(auto)]

mod channel;
pub mod queues;

pub use queues::Queues;
