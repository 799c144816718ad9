//! What a replica has pending.
use field_ops::Diff;
use rooms_val::Val;

/// What was done at a replica and no room has answered.
#[derive(Drop)]
pub enum Work {
    /// An edit of the document.
    Edit(Diff),
    /// A record by which others are to see who works here.
    Presence(Val),
}
