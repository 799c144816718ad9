//! A client's end of a link: what it says to a server of rooms, and the messages of a room that it waits for.
//!
//! Contracts see a link as its `Exchange` where it tells one, an assembler as `wire_text` has it, and texts as bytes. What
//! is said is `specs/Sayings.antt`, what goes out for it `specs/Sending.antt`; what a text says is `specs/Hearing.antt`, and
//! how a wait for a message ends `specs/Waiting.antt`. The crate stands on `link_texts` for the text that names a room and
//! for what both ends of a link share, on `wire_text` for pieces, on `wire_msgs` for messages, and on `room_link` for links.
#![tactic(auto)]

mod hearing;
mod saying;
mod sending;
mod waiting;

pub use hearing::{LONGEST_REPLY, hear};
pub use saying::Saying;
pub use sending::send_all;
pub use waiting::{Heard, MOST_IDLES, wait_for_message};
