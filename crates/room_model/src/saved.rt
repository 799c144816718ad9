//! What is saved of a room.
use rooms_val::{Text, Val};

/// A record of a room's document that is saved.
#[derive(Drop)]
pub struct SavedRecord {
    /// The record, a map that says its id under `id`.
    pub record: Val,
    /// The clock of the last entry that named it, from 1.
    pub clock: i64,
}

/// An id of a room's document that was removed, and is remembered.
#[derive(Drop)]
pub struct SavedTomb {
    /// The id.
    pub id: Text,
    /// The clock of its removal, above the room's start.
    pub clock: i64,
}

/// What is saved of a room: its document, the removals that it remembers, and its clocks. The
/// presence of sessions isn't saved.
#[derive(Drop)]
pub struct SavedRoom {
    /// The room's clock, from 0.
    pub clock: i64,
    /// The clock up to which removals are forgotten, from 0 to the room's clock.
    pub start: i64,
    /// The records of the document.
    pub documents: Vec<SavedRecord>,
    /// The removed ids that are remembered.
    pub tombstones: Vec<SavedTomb>,
}
