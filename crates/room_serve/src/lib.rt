//! Links to clients, served: the texts that come over a link are a session's messages to a running room, what
//! the room gives goes out, and a report says what was done. Workers serve one link after another, each in a
//! thread of its own.
//!
//! Contracts see a link as its `Exchange`, where it tells one, and what a link's texts and idles make of a
//! session as a `Course`: a relation over what came, the session's events and what went out. The events are
//! those of `room_events`, as `room_run` tells them of a pass. The crate knows no socket.
#![tactic(auto)]

mod account;
mod conversation;
mod joining;
mod report;
mod service;
mod tally;
mod workers;

pub use link_texts::WireFault;
pub use report::Report;
pub use service::serve_link;
pub use tally::Tally;
pub use workers::serve;
