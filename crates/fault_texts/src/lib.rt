//! The text of each fault by which a recording is refused, as a fault line has it.
//!
//! The text is the name of the innermost fault. After the name stand, each behind a space, the id
//! that the fault carries, and why a record isn't admitted or a client can't connect. Contracts see
//! a text as its bytes; `specs/Texts.antt` has the text of each fault. The crate stands on the
//! crates of the faults: `rec_format` for lines, `room_model` and `side_effects` for events,
//! `room_snapshot`, `migrate_seq` and `room_model` for saved rooms.
#![tactic(auto)]

mod edit;
mod line;
mod record;
mod saved;
mod step;
mod words;

pub use edit::edit_fault_text;
pub use line::line_fault_text;
pub use saved::{bad_record_text, load_fault_text, plan_fault_text, snap_fault_text};
pub use step::step_fault_text;
