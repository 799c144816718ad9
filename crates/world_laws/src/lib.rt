//! What holds in every world that can be reached: of sessions and clocks, of what is in flight and
//! pending, and of who changes what.
//!
//! The crate has definitions in `specs/` and laws as functions without code, over the definitions of
//! `room_model`, whose worlds they speak of. What schemas decide is an argument of all of them. It
//! stands on `room_model` and the crates below it.
#![tactic(auto)]

pub mod channels;
pub mod deliveries;
pub mod pending;
pub mod presences;
pub mod requests;
pub mod restoring;
pub mod worlds;
