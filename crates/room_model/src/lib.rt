//! The definitions that room, client, recordings and world share: what a room's history is, which part of a push is
//! accepted, which messages follow from a history, what each event makes of a room, its clients and what is in flight
//! between them, and what is printed.
//!
//! What schemas decide is an argument of all of them, so that they hold at any version: what the room's schema does is one
//! of rooms, and what it and those of clients do one of worlds. The crate has definitions in `specs/`, the types and the
//! limits that they share with the code, and laws as functions without code. Of the types `IdList` has calls, which take no
//! memory; `ClipFault`, `PasteFault` and `LoadFault` can be made of an `OutOfMemory`, and have a text.
//!
//! The crate stands on `rooms_val`, `index_keys`, `field_ops`, `record_valid`, `doc_model`, `migrate_steps`, `migrate_seq`
//! and `sync_msgs`, and on `thiserror` for the text of faults.
#![tactic(auto)]

pub mod accepting;
pub mod acting;
pub mod bases;
pub mod clip_fault;
pub mod connection;
pub mod event;
pub mod fault;
pub mod handled;
pub mod histories;
pub mod history;
pub mod id_list;
pub mod limits;
pub mod line;
pub mod load_fault;
pub mod rooms;
pub mod saved;

pub use clip_fault::{ClipFault, PasteFault};
pub use connection::Connection;
pub use event::{Event, Header};
pub use fault::{ConnectFault, StepFault};
pub use handled::Handled;
pub use history::{Author, Entry};
pub use id_list::IdList;
pub use line::OutLine;
pub use load_fault::LoadFault;
pub use saved::{SavedRecord, SavedRoom, SavedTomb};
