//! The entries of a room's history.
use field_ops::Diff;
use sync_msgs::Action;

/// Of whose push an entry comes.
#[derive(Drop)]
pub struct Author {
    /// The number of the session that pushed, from 0.
    pub session: u64,
    /// The number that the push said.
    pub client_clock: i64,
    /// What the room made of the push.
    pub action: Action,
}

/// What a room accepted of a push, perhaps nothing, or what an end of a session or the room's beginning changed.
#[derive(Drop)]
pub struct Entry {
    /// What was accepted, of the document and of the author's presence; its ids rise.
    pub diff: Diff,
    /// Of whose push it comes, if of anybody's.
    pub author: Option<Author>,
}
