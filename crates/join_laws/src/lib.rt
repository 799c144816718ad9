//! What holds of a client that joins a room and that a session of the room serves.
//!
//! The crate has definitions in `specs/` and laws as functions that do nothing. A client goes its way by
//! steps (`specs/Ways.antt`): it does something by itself, or a message comes to it. A session of a legal
//! list of a room's events serves it (`specs/Serving.antt`) if what the session was given begins with what
//! came to the client, and what the client said begins with what the session sent. The same over a link,
//! whose texts are the pieces of messages (`specs/Texts.antt`), is `specs/Linked.antt`. Where the first
//! lines of a script of `join_job` lead a client is `specs/Scripted.antt`. The laws stand over the
//! definitions of `join_job`, `room_join`, `room_events` and `room_model` and of those below alone; what
//! schemas decide is an argument of all of them.
#![tactic(auto)]

pub mod links;
pub mod scripts;
pub mod texts;
pub mod ways;
