//! A client's replica of a room's document: a base, and pending works over it.
//!
//! A replica keeps one store, which has the base's document with the pending edits replayed, and a stash of what stood
//! there under the ids that the edits name. So no copy of the base is kept: the base is the store's records with the stash
//! written over them. The presence of others, the other part of the base, stands beside the store. What a room tells is
//! done to the base beside store and stash, and what is shown is written where that changes it. Contracts say for which
//! base and pending items of `room_model` a replica stands. The crate stands on `doc_store` for stores and on `room_model`
//! for what events make of a replica.
#![tactic(auto)]

mod new_base;
mod own;
mod replay;
pub mod replica;
mod stash;
mod stepping;
pub mod work;

pub use replica::Replica;
pub use work::Work;
