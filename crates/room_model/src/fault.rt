//! Why an event can't happen.
use crate::clip_fault::{ClipFault, PasteFault};
use sync_msgs::EndReason;

/// Why a client can't connect.
#[derive(Clone, Copy, Debug, PartialEq, Eq)]
pub enum ConnectFault {
    /// It has a session, on which it waits or is connected.
    AlreadyOpen,
    /// The room ended its session for this reason, and so it connects no more.
    Refused(EndReason),
    /// Memory ran out.
    OutOfMemory,
}

/// Why an event of a recording can't happen. The fault of an edit is an `F`.
#[derive(Drop)]
pub enum StepFault<F: Drop> {
    /// The client wasn't made.
    NoSuchClient,
    /// The session wasn't made or was lost, or the client has no session.
    NoSuchSession,
    /// Nothing is in flight, or there is nothing to send.
    NothingThere,
    /// The edit or the presence is refused.
    Edit(F),
    /// The client can't connect; the cause is never `OutOfMemory`.
    Connect(ConnectFault),
    /// The client has no mark of this name.
    NoMark,
    /// There is no place for a further client, a further session, or a further watch of the client.
    Limit,
    /// There is no copy of these shapes; the cause is never `OutOfMemory`.
    Clip(ClipFault),
    /// The client has copied nothing.
    NoClip,
    /// What the client copied isn't pasted; the cause is never `OutOfMemory`.
    Paste(PasteFault),
    /// Memory ran out.
    OutOfMemory,
}
