//! How far a client is with its room.

/// How far a client is with its room, and on which session.
#[derive(Clone, Copy, Debug, PartialEq, Eq)]
pub enum Connection {
    /// It has no session.
    Off,
    /// It waits on this session to be answered.
    Asking(u64),
    /// It is connected by this session.
    Open(u64),
}
