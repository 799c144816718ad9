//! What a document is to clients and rooms: what diffs make of it, what brings back what they changed, and what a client can
//! take back.
//!
//! A document is a map of records by id, `Pairs` of `rooms_val`, and a diff is `RecordOps` of `field_ops`. The definitions
//! stand in `specs/`; they take as an argument which records are admitted under which ids. The crate has no code but its
//! laws, functions that do nothing and whose contracts say what holds of the definitions. It stands on `rooms_val` and
//! `field_ops`.
#![tactic(auto)]

pub mod documents;
pub mod inverses;
pub mod marks;
pub mod merging;
pub mod restoring;
