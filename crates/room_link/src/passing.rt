//! What passes between a link and its peer, and why a call on a link ends.
ghost use Rattle.std.specs.Prelude.{◌≡◌};

use rooms_val::{OutOfMemory, Text};
use std::alloc::{AllocError, AllocFailed};
use sync_msgs::EndReason;
use thiserror::Error;

/// What a link gives next.
#[derive(Debug, Drop)]
pub enum Incoming {
    /// A text that the peer sent, as its bytes. Over some links it needn't be UTF-8.
    Text(Vec<u8>),
    /// Nothing came for a while. That is an input too: it is when the peer is told what others did.
    Idle,
    /// The peer sends nothing any more.
    End,
}

/// What a link in memory is to give, before its end.
#[derive(Debug, Drop)]
pub enum Arrival {
    /// A text, which needn't be UTF-8.
    Text(Vec<u8>),
    /// An Idle.
    Idle,
}

/// What went out on a link.
#[derive(Drop)]
pub enum Outgoing {
    /// A text.
    Text(Text),
    /// A close, with its reason.
    Close(EndReason),
}

/// Why a call on a link, or on what accepts links, returned no value.
#[derive(Clone, Copy, Debug, PartialEq, Eq, Error)]
pub enum Stop {
    /// A fault, and the count of faults of what was called rose.
    #[error("the link failed")]
    Failed,
    /// Memory was refused.
    #[error("out of memory")]
    OutOfMemory,
}

impl From<crate::Failed> for Stop {
    ghost use Rattle.room_link.specs.declared.passing.Stop.TheVariants.{Failed};

    ghost from_gives = { λ _ stop. stop ≡ Failed };

    fn from(_failed: crate::Failed) -> Stop {
        Stop::Failed
    }
}

impl From<OutOfMemory> for Stop {
    ghost use Rattle.room_link.specs.declared.passing.Stop.TheVariants.{OutOfMemory};

    ghost from_gives = { λ _ stop. stop ≡ OutOfMemory };

    fn from(_refused: OutOfMemory) -> Stop {
        Stop::OutOfMemory
    }
}

impl From<AllocError> for Stop {
    ghost use Rattle.room_link.specs.declared.passing.Stop.TheVariants.{OutOfMemory};

    ghost from_gives = { λ _ stop. stop ≡ OutOfMemory };

    fn from(_refused: AllocError) -> Stop {
        Stop::OutOfMemory
    }
}

impl<T: Drop> From<AllocFailed<T>> for Stop {
    ghost use Rattle.room_link.specs.declared.passing.Stop.TheVariants.{OutOfMemory};

    ghost from_gives = { λ _ stop. stop ≡ OutOfMemory };

    fn from(_refused: AllocFailed<T>) -> Stop {
        Stop::OutOfMemory
    }
}
