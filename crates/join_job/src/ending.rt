//! How a script ends.
ghost use Rattle.std.specs.Prelude.{◌≡◌};
ghost use Rattle.join_job.specs.Endings.{join_end};
ghost use Rattle.join_job.specs.Working.{end_status};

use recording_lines::fault::ReadFault;
use room_link::{Failed, passing};
use rooms_val::OutOfMemory;
use std::alloc::AllocError;

/// How a script ends that was played.
#[derive(Clone, Copy, Debug, PartialEq, Eq)]
pub enum End {
    /// It was read to its `end` line.
    Done,
    /// It was refused at a line.
    Refused,
    /// A text of the room was refused.
    Server,
}

/// How a script ends, or why it was cut off.
#[derive(Clone, Copy, Debug, PartialEq, Eq)]
pub enum JoinEnd {
    /// It was read to its `end` line.
    Done,
    /// It was refused at a line.
    Refused,
    /// A read of the source failed.
    Read,
    /// A write to the sink failed.
    Write,
    /// Memory was refused.
    Memory,
    /// The link failed.
    Link,
    /// A text of the room was refused.
    Server,
}

impl JoinEnd {
    /// The status with which the job ends then: 0, 3, 4, 5, 6, 8 or 9, in the order of causes `Done`, `Refused`, `Read`,
    /// `Write`, `Memory`, `Link`, `Server`.
    pub fn status(self) -> u8
        ensures { result ≡ end_status self }
    {
        match self {
            JoinEnd::Done => 0,
            JoinEnd::Refused => 3,
            JoinEnd::Read => 4,
            JoinEnd::Write => 5,
            JoinEnd::Memory => 6,
            JoinEnd::Link => 8,
            JoinEnd::Server => 9,
        }
    }
}

// Why a script is cut off.
#[derive(Clone, Copy, Debug, PartialEq, Eq)]
pub(crate) enum Stop {
    // A read of the source failed.
    Read,
    // A write to the sink failed.
    Write,
    // Memory was refused.
    Memory,
    // The link failed.
    Link,
}

// What a script ends with.
pub(crate) fn join_end(played: Result<End, Stop>) -> JoinEnd
    ensures { result ≡ join_end played }
{
    match played {
        Ok(End::Done) => JoinEnd::Done,
        Ok(End::Refused) => JoinEnd::Refused,
        Ok(End::Server) => JoinEnd::Server,
        Err(Stop::Read) => JoinEnd::Read,
        Err(Stop::Write) => JoinEnd::Write,
        Err(Stop::Memory) => JoinEnd::Memory,
        Err(Stop::Link) => JoinEnd::Link,
    }
}

impl From<Failed> for Stop {
    ghost use Rattle.join_job.specs.declared.ending.Stop.TheVariants as stop;

    ghost from_gives = { λ _ e. e ≡ stop.Write };

    fn from(_failed: Failed) -> Stop {
        Stop::Write
    }
}

impl From<OutOfMemory> for Stop {
    ghost use Rattle.join_job.specs.declared.ending.Stop.TheVariants as stop;

    ghost from_gives = { λ _ e. e ≡ stop.Memory };

    fn from(_refused: OutOfMemory) -> Stop {
        Stop::Memory
    }
}

impl From<AllocError> for Stop {
    ghost use Rattle.join_job.specs.declared.ending.Stop.TheVariants as stop;

    ghost from_gives = { λ _ e. e ≡ stop.Memory };

    fn from(_refused: AllocError) -> Stop {
        Stop::Memory
    }
}

impl From<ReadFault> for Stop {
    ghost use Rattle.join_job.specs.Endings.{stop_of_read};

    ghost from_gives = { λ fault e. e ≡ stop_of_read fault };

    fn from(fault: ReadFault) -> Stop {
        match fault {
            ReadFault::Failed => Stop::Read,
            ReadFault::OutOfMemory => Stop::Memory,
        }
    }
}

impl From<passing::Stop> for Stop {
    ghost use Rattle.join_job.specs.Endings.{stop_of_link};

    ghost from_gives = { λ cause e. e ≡ stop_of_link cause };

    fn from(cause: passing::Stop) -> Stop {
        match cause {
            passing::Stop::Failed => Stop::Link,
            passing::Stop::OutOfMemory => Stop::Memory,
        }
    }
}
