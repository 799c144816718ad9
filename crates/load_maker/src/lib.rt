//! Made recordings: the events of a recording that is drawn from a seed.
//!
//! A recording begins with the same events for every seed: four clients of the versions 3, 3, 2 and
//! 1 come, enter and share a page. Then follow as many draws as are wanted. Contracts see a
//! [`Maker`] as the state of its generator. `draw_of` of `specs/Draws.antt` says what is drawn,
//! `events_of` of `specs/Made.antt` which events that makes, `specs/Records.antt` with which
//! records. The crate stands on `rooms_val`, `field_ops` and `room_model` for events and what is in
//! them, on `rand_pcg` and `rand_core` for the generator, and on `itoa` for decimals.
#![tactic(auto)]

mod draw;
mod events;
pub mod maker;
mod records;

pub use maker::Maker;
