//! Rooms that are served by workers, and closed: what their links came to, what happened in each room, and the
//! lines that say so.
//!
//! Contracts see workers and links as `room_link` tells them, reports as `room_serve` does, and a closed room
//! by its pen: a legal list of `room_events`. Once a room is closed, what a report says of its link is told by the
//! room's pen, in place of what the link's session knew. The crate knows no socket.
#![tactic(auto)]

mod closing;
mod job;
mod lines;
mod opening;
mod writing;

pub use job::{Served, serve_job};
