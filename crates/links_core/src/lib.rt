//! Doubly linked lists of node numbers, threaded by index through one vector.
//!
//! A node has no content: whoever uses the lists keeps a vector of contents beside them, by node number. Contracts see
//! a [`Links`] as its lists, each a list of node numbers, with how many nodes were made and how many more can be made
//! without memory (`specs/Lists.antt`). The crate stands on std alone.
#![tactic(auto)]

mod links;
mod nodes;

pub use links::{Links, ListId};
