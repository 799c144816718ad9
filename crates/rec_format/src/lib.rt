//! The text of recordings: the header and the events that are read, and the lines that are printed.
//!
//! Contracts see events, headers and lines of the world as `room_model` has them; `RecordedEvent`
//! and `PrintedLine` add watches and queries. What stands for what is said in the direction of
//! printing: each event has one value, by `recorded_val`, and a line stands for an event where it
//! is read as that value. The crate stands on `rooms_val`, `field_ops`, `sync_msgs` and
//! `room_model`, on `shape_tree` and `view_vals` for views and queries, on `wire_msgs` for the
//! messages of a trace, and on `thiserror` for the text of its faults.
#![tactic(auto)]

mod clips;
mod entries;
pub mod fault;
pub mod fields;
pub mod laws;
pub mod out;
pub mod print;
pub mod printed;
pub mod read;
pub mod recorded;
mod rows;
mod verb;

pub use fault::LineFault;
pub use out::{print_line, print_out, reason_text};
pub use print::{print_event, print_recorded};
pub use printed::PrintedLine;
pub use read::{read_header, read_line};
pub use recorded::RecordedEvent;
pub use room_model::{Event, Header, OutLine};
pub use verb::Verb;
