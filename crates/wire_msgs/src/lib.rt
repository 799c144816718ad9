//! The text of messages between a client and its room: reading both ways, and the value of each.
//!
//! Contracts see messages as `sync_msgs` has them. What stands for what is said in the direction of
//! printing: each message has one value, by `client_val` and `server_val`, and a text stands for a
//! message where it is read as that value. The crate stands on `rooms_val`, `field_ops`,
//! `migrate_steps`, `migrate_seq` and `sync_msgs`, and on `thiserror` for the text of its faults.
#![tactic(auto)]

mod client;
mod depth;
mod entries;
mod events;
pub mod fault;
mod fields;
mod keys;
pub mod laws;
pub mod message;
mod parts;
mod print;
pub mod read;
mod server;
pub mod types;

pub use fault::MsgFault;
pub use message::Message;
pub use read::{read_client, read_server};
