//! The lines of a recording, read from a source piece by piece, so that a recording of any length is
//! read in the memory of one buffer and of the line that is being gathered.
//!
//! Contracts see a `LineReader` as the line that it gave or gathers, the bytes that wait in its
//! buffer, and how many more it may read; what is to come from it is what it holds, followed by what
//! its source has left. How a recording is cut into lines is defined in `specs/Lines.antt`. The crate
//! stands on `room_link`, and on `thiserror` for its faults.
#![tactic(auto)]

pub mod fault;
pub mod line_reader;
pub mod lines;
