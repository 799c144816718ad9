//! How many pending edits name each id. Contracts see the ids that are named, which rise by bytes, each with its count. The
//! crate stands on `field_ops` for diffs.
#![tactic(auto)]

pub mod names;

pub use names::EditNames;
