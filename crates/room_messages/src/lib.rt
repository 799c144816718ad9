//! The messages of a room to its sessions, by what the room keeps of its history.
//!
//! [`snapshot`] makes what a session is sent that asked to be connected, and [`updates`] what a
//! session is sent of the entries above its sent clock. Contracts say that these are the messages
//! that `room_model` defines of the history, for every history of which the room keeps what there is
//! to keep. Neither changes the room. The crate stands on `room_history` and `room_accept`, and on
//! the crates of records and messages below them.
#![tactic(auto)]

mod ids;
pub mod laws;
pub mod snapshot_message;
mod states;
mod told;
pub mod updates_message;

pub use snapshot_message::{Request, snapshot};
pub use updates_message::updates;
