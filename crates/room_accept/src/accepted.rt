//! What a room accepts.
use crate::size::DocumentSize;
use room_model::Entry;
use rooms_val::{Text, Val};

/// What a room accepts of a push.
#[derive(Drop)]
pub struct Accepted {
    /// The entry that the push makes.
    pub entry: Entry,
    /// What stands after the entry under each id that its diff names, in the order of the ids.
    pub after: Vec<(Text, Option<Val>)>,
    /// How large the document is after the entry.
    pub size: DocumentSize,
}
