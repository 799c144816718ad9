//! What a room replies to a message.
use sync_msgs::EndReason;

/// What became of a message that was given to a room.
#[derive(Clone, Copy, Debug, PartialEq, Eq)]
pub enum Handled {
    /// The push made an entry, perhaps an empty one.
    Taken,
    /// The session has asked to be connected, and is to be answered.
    Entered,
    /// The ping waits to be answered.
    Pong,
    /// The session is ended for this reason, by this message or before.
    Ended(EndReason),
}
