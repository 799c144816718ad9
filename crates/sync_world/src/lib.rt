//! A world: a room, the clients over it, and what is in flight between them, event by event.
//!
//! [`World::step`] lets one event of a recording happen, and returns the lines that it prints.
//! Contracts say for which world of `room_model`'s definitions a [`World`] stands
//! (`specs/Standing.antt`): the room for its room, each peer for its client with the base that it
//! has of the room, and the messages in flight for the notices that they tell. So what holds of
//! every world that can be reached (`world_laws`) holds of what the code shows. The crate stands on
//! `sync_room`, `sync_peer`, `clip_content` and `world_queues`.
#![tactic(auto)]

mod changes;
mod clients;
mod clips;
pub mod laws;
mod live;
mod marks;
mod sessions;
mod shows;
mod views;
pub mod world;

pub use changes::changed_by;
pub use world::World;
