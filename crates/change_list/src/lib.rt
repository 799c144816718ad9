//! Ids with the clock of their last change, live or dead, and which of them changed after a clock.
//!
//! A [`ChangeList`] is what a room keeps of its records' history: each id that it has, and each
//! that it had not long ago. Contracts see the live and the dead changes as two lists in the order
//! of their last change, where the dead begin, and how many new ids need no memory
//! (`specs/Changes.antt`). The crate stands on `links_core`, whose lists hold the ids in that
//! order, on `rooms_val` for texts and steps, and on `room_model` for how many dead are remembered.
#![tactic(auto)]

mod change_list;
mod entries;
mod gather;
mod prune;

pub use change_list::ChangeList;
pub use entries::Change;
