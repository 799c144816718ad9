//! What plays the tests of the calls of a running room: tables of calls of one thread, and sessions of several threads.
//!
//! A player tells the first difference. It says nothing in contracts but that passes stay of their room: what a running room answers is
//! looked at where the tests are run. Each history that a running room wrote is written out as a script of `test_with_rooms`, whose rows
//! are its events with their replies, and is played by one thread in a new room.
#![tactic(auto)]

mod cast;
mod crowd;
mod pens;
mod sayings;
mod scripts;
mod talks;

pub use crowd::crowd_difference;
pub use pens::replay_difference;
pub use scripts::first_difference;
