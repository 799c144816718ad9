//! Lists of what happens in a room, apart from threads and tables: which lists are legal, and what
//! a room is after one.
//!
//! An event is a call of a room with its session and the room's reply. A list of events has the
//! oldest first. It is legal if each of its events happens in the room that those before it make,
//! so that each reply is that of the definitions in `room_model`. The crate has the type of events,
//! definitions in `specs/`, and laws as functions without code. Contracts see an event as it is,
//! with its messages as those of `sync_msgs`. What schemas decide is an argument, and so is the
//! clock from which on the room refuses pushes. It stands on `room_model` and `sync_msgs`.
#![tactic(auto)]

pub mod events;
pub mod legal;
pub mod room_event;
pub mod rooms;
pub mod sessions;
pub mod telling;

pub use events::RoomEvents;
pub use room_event::RoomEvent;
