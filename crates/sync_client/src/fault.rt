//! Why a client doesn't take a message, and why it doesn't take a presence.
ghost use Rattle.std.specs.Prelude.{◌≡◌};
ghost use Rattle.sync_client.specs.declared.fault.TakeFault.TheVariants as take_fault;
ghost use Rattle.sync_client.specs.declared.fault.PresenceFault.TheVariants as presence_fault;

use rooms_val::{OutOfMemory, Text};
use schema_core::RecordFault;
use std::fmt;
use thiserror::Error;

/// Why a client doesn't take a message. Of the events of a message the first at fault decides, and for one event the first
/// in this order.
#[derive(Clone, Copy, Debug, PartialEq, Eq, Error)]
pub enum TakeFault {
    /// It is an answer, and the client doesn't ask; or it is another message, and the client isn't connected.
    #[error("the client is not connected so that it could take this")]
    NotOpen,
    /// It is an answer to another request.
    #[error("the answer is to another request")]
    WrongRequest,
    /// It is the result of a push of this number, and the first that is pending wasn't pushed, or nothing is pending.
    #[error("push {0} is not pending")]
    NoPending(i64),
    /// It is a result where that of another push is expected: the expected number, and the one that came.
    #[error("the result of push {0} is expected, not of {1}")]
    WrongPending(i64, i64),
    /// An event's clock lies below the one that was reached: that one, and the event's.
    #[error("the clock goes back from {0} to {1}")]
    ClockBack(i64, i64),
    /// Memory was refused.
    #[error("out of memory")]
    OutOfMemory,
}

impl From<OutOfMemory> for TakeFault {
    ghost from_gives = { λ _ e. e ≡ take_fault.OutOfMemory };

    fn from(_refused: OutOfMemory) -> TakeFault {
        TakeFault::OutOfMemory
    }
}

/// Why a record can't be a client's presence. Of several causes the first in this order is returned.
#[derive(Drop, Error)]
pub enum PresenceFault {
    /// The records under its id, which is given, aren't presences.
    #[error("the id is not one of a presence")]
    WrongScope(Text),
    /// It isn't admitted under its id, which is given, for this cause.
    #[error("the presence is not admitted: {1}")]
    Invalid(Text, RecordFault),
    /// Memory was refused.
    #[error("out of memory")]
    OutOfMemory,
}

impl From<OutOfMemory> for PresenceFault {
    ghost from_gives = { λ _ e. e ≡ presence_fault.OutOfMemory };

    fn from(_refused: OutOfMemory) -> PresenceFault {
        PresenceFault::OutOfMemory
    }
}

impl fmt::Debug for PresenceFault {
    fn fmt<W: fmt::Write>(&self, f: &mut fmt::Formatter<W>) -> fmt::Result {
        write!(f, "{self}")
    }
}
