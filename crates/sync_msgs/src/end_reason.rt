//! Why a room ends a session.

/// Why a room ended a session. Its text on the wire is the name in capitals, with `_` between words.
#[derive(Clone, Copy, Debug, PartialEq, Eq)]
pub enum EndReason {
    /// The client's protocol or schema is older than what the room can speak.
    ClientTooOld,
    /// The client's protocol or schema is newer than the room's, or names migrations that the room doesn't know.
    ServerTooOld,
    /// The client sent a message out of its turn, a record that isn't admitted, or an id that isn't the document's.
    InvalidRecord,
    /// The room takes no further push.
    RoomFull,
    /// The session lay so far behind that the room can't tell any more what happened since.
    Slow,
}
