//! The jobs of `rooms replay --save` and `rooms restore`: the room that a recording leaves is written
//! as the line of a saved room, and a recording goes on from such a line.
//!
//! Lines are read by `recording_lines`; a saved room's line by `room_snapshot`, which also brings it to
//! the schema of the header. The room begins from it (`sync_room`), and the events go on in the world
//! over that room as in `replay_job`. What is written is defined in `specs/`.
#![tactic(auto)]

pub mod laws;
pub mod restore;
pub mod save;
mod seek;

pub use restore::restore_job;
pub use save::save_job;
