//! A board that several clients draw on: a room, its clients, and what is on the way between them, in one value.
//!
//! Each call of a [`Board`] is one event of `room_model`'s worlds, and [`Board::settle`] lets everything that is on the way
//! arrive. No call asks anything of its caller that would want a proof: what can't happen is refused by a [`BoardFault`].
//! Contracts say for which world of the definitions a board stands (`specs/Standing.antt`), and what a call makes of it
//! (`specs/Calls.antt`, `specs/Moving.antt`). The crate stands on `sync_world`.
#![tactic(auto)]

mod acts;
pub mod board;
pub mod fault;
mod moving;
mod shows;
mod texts;

pub use board::{Board, ClientId};
pub use fault::BoardFault;
