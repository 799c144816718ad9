//! What goes between a client and its room, as Rust values.
//!
//! A client asks to be connected, pushes its edits and its presence, and pings; the room answers with what the client
//! lacks, tells what happened since, and ends a session for a reason. Contracts see each message as it is, with its texts
//! as bytes, its diffs as `RecordOps` and its schema as names of sequences with versions; a presence in a push stands for
//! an operation by `change_of`, and `Events` are a list. The crate stands on `rooms_val`, `field_ops`, `migrate_steps` and
//! `migrate_seq`.
#![tactic(auto)]

pub mod client_message;
pub mod data_event;
pub mod end_reason;
pub mod events;
pub mod out;
pub mod server_message;

pub use client_message::ClientMessage;
pub use data_event::{Action, DataEvent};
pub use end_reason::EndReason;
pub use events::Events;
pub use out::Out;
pub use server_message::{Hydration, ServerMessage};
