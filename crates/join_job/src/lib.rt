//! The job of a client on a link to a room that plays a script.
//!
//! A script is a recording of one client. Its lines are read one by one (`recording_lines`) and taken (`script`): as the
//! header, with which the client joins its room, or as an event that the client does (`step`). What a line says goes out on
//! the link before what it prints is written, and both before the source is read on (`play`). What a script writes and says,
//! where the link tells what is to come over it, is defined in `specs/`: what one line comes to in `Turns`, and a whole
//! script in `Playing`. The link is the next of a worker (`worker`), by `Working`.
#![tactic(auto)]

pub mod ending;
pub mod play;
mod script;
mod step;
mod texts;
pub mod worker;

pub use ending::{End, JoinEnd};
pub use play::join_link;
pub use worker::{WORKER_FAILED, join_job};
