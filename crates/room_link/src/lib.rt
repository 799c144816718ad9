//! The outside of a program, as traits: a source of bytes, a sink for bytes, a link to a peer, and
//! what accepts links, each with a count of its faults; and a gate, which may hold a server's
//! workers. Each but the gate has a form in memory whose listed calls fail, and a form that never
//! fails; a gate has a form that holds nobody, and one by which a test holds workers. Source and sink
//! have real forms here, over standard input and output.
//!
//! Contracts see a source as its count of faults and what is left to be read, a sink as its count and
//! what it holds, a link as its count and its `Exchange` (what is left to come, and what went out),
//! and what accepts links as its count and its `Worker` (the links that are left, and those that were
//! given back), where each tells these. The forms in memory tell. The real ones tell nothing of
//! content, and are trusted for what reaches and leaves the system. The crate stands on `sync_msgs`
//! for the reason of a close, and on `rooms_val` for texts.
#![tactic(auto)]

use thiserror::Error;

pub mod accept;
pub mod gate;
pub mod held_gate;
pub mod link;
pub mod memory_accept;
pub mod memory_link;
pub mod memory_sink;
pub mod memory_source;
pub mod passing;
pub mod script;
pub mod sink;
pub mod source;
pub mod standard;
pub mod writing;

/// A read or a write failed, and the count of faults of what was called rose.
#[derive(Clone, Copy, Debug, PartialEq, Eq, Error)]
#[error("reading or writing failed")]
pub struct Failed;
