//! The job of `rooms make`: a recording is made by a seed, and written or summed up to a sink.
//!
//! A made recording's events come from `load_maker`; nobody watches in it, and they happen in a `World`
//! of `sync_world`, as they are drawn. What is written of it is defined in `specs/`.
#![tactic(auto)]

pub mod make;
mod making;

pub use make::make_job;
