//! A room that several threads call, over a table of single atomic steps.
//!
//! A [`RunningRoom`] has a room and its pen, the stored history of what happened in it. Who calls it takes the turn, calls
//! the room, stores each call in the pen, and gives the turn back. A [`Pass`] is a session's; it knows a beginning of the
//! pen (`seen`) and the events that it made (`mine`). A [`Gone`] is what a pass becomes. Contracts see what a pass knows as
//! its `View`, and the room that it belongs to as the number of that room's table, with the room as it was opened. That says
//! what the room's schema decides, and from which clock on it refuses pushes.
//!
//! The crate stands on `sync_room` for the room, on `room_events` for which histories are legal, and on `atomic_table` for
//! the steps.
#![tactic(auto)]

mod calls;
mod close;
mod crossing;
mod held;
mod one_call;
mod passes;
pub mod running;
mod turn;
mod turns;
pub mod views;

pub use close::Closed;
pub use crossing::may_cross_threads;
pub use passes::{Gone, Pass, PassFault};
pub use running::RunningRoom;
