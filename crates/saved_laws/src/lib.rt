//! What holds of what is saved of a room that calls make: something is saved of each, a room begins
//! from that, and clients that connect to that room are answered as by the room that was saved.
//!
//! The crate has definitions in `specs/` and laws as functions without code, over the definitions of
//! `room_model` and `room_history`. A room's schema is an argument of all of them.
#![tactic(auto)]

pub mod answers;
pub mod loading;
