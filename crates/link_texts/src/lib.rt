//! The texts of a link between a client and a server of rooms: the one that names a room, what the
//! others say, and what goes out for what a session is given.
//!
//! Contracts see texts as bytes, an assembler as `wire_text` has it, and a link as its `Exchange`
//! where it tells one. What a join says is `specs/Joins.antt`, what any other text says is
//! `specs/Hearing.antt`, and what goes out is `specs/Sending.antt`. The crate stands on `wire_text` for
//! pieces, on `wire_msgs` for messages, and on `room_link` for links.
#![tactic(auto)]

mod fault;
mod hearing;
mod join;
mod sending;

pub use fault::{Unheard, WireFault};
pub use hearing::{LONGEST_MESSAGE, hear, take_piece};
pub use join::Join;
pub use sending::Sent;
