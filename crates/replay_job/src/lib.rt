//! The job of `rooms replay`: a recording is read from a source, and what it prints is written to a sink.
//!
//! A recording's lines are read one by one (`recording_lines`) and taken (`replay`): as the header, or
//! as an event of `rec_format` that happens in a `ViewedWorld` of `world_views`. What a line prints is
//! written (`play`, `texts`, `writing`) before the source is read on. What a recording writes is
//! defined in `specs/`.
#![tactic(auto)]

pub mod laws;
pub mod play;
pub mod replay;
pub mod texts;
pub mod writing;

pub use play::replay_job;
