//! Why a board refuses a call.
ghost use Rattle.std.specs.Prelude.{◌≡◌};
ghost use Rattle.side_effects.specs.declared.fault.EditFault.{EditFault};
ghost use Rattle.shared_board.specs.Faults.{fault_of};

use room_model::fault::{ConnectFault, StepFault};
use room_model::{ClipFault, PasteFault};
use side_effects::EditFault;
use std::fmt;
use thiserror::Error;

/// Why a call is refused. But for `OutOfMemory` the board is then as before.
#[derive(Drop, Error)]
pub enum BoardFault {
    /// The tables don't have the version.
    #[error("there is no such version")]
    NoSuchVersion,
    /// The text isn't the diff of an edit.
    #[error("the text is no edit")]
    NotAnEdit,
    /// The client hasn't joined this board.
    #[error("there is no such client")]
    NoSuchClient,
    /// The client has no connection.
    #[error("the client is not connected")]
    NotConnected,
    /// Nothing is on the way.
    #[error("nothing is on the way")]
    NothingThere,
    /// The edit is refused for this cause.
    #[error("{0}")]
    Edit(EditFault),
    /// The client can't connect: it has a connection, or the room has ended one.
    #[error("the client has a connection, or the room has ended one")]
    Connect(ConnectFault),
    /// The client has no mark of this name.
    #[error("the client has no such mark")]
    NoMark,
    /// There is no place for a further client or connection.
    #[error("the board is full")]
    Limit,
    /// There is no copy of these shapes, for this cause.
    #[error("{0}")]
    Clip(ClipFault),
    /// The client has copied nothing.
    #[error("the client has copied nothing")]
    NoClip,
    /// What the client copied isn't pasted, for this cause.
    #[error("{0}")]
    Paste(PasteFault),
    /// After 2^64 - 1 rounds there was still something on the way.
    #[error("the board doesn't settle")]
    Restless,
    /// Memory was refused. Nothing is said of the board from then on.
    #[error("out of memory")]
    OutOfMemory,
}

impl fmt::Debug for BoardFault {
    fn fmt<W: fmt::Write>(&self, f: &mut fmt::Formatter<W>) -> fmt::Result {
        write!(f, "{self}")
    }
}

// The fault by which an event is refused.
pub(crate) fn fault_of(why: StepFault<EditFault>) -> BoardFault
    ensures { result ≡ fault_of why }
{
    match why {
        StepFault::NoSuchClient => BoardFault::NoSuchClient,
        StepFault::NoSuchSession => BoardFault::NotConnected,
        StepFault::NothingThere => BoardFault::NothingThere,
        StepFault::Edit(fault) => BoardFault::Edit(fault),
        StepFault::Connect(fault) => BoardFault::Connect(fault),
        StepFault::NoMark => BoardFault::NoMark,
        StepFault::Limit => BoardFault::Limit,
        StepFault::Clip(fault) => BoardFault::Clip(fault),
        StepFault::NoClip => BoardFault::NoClip,
        StepFault::Paste(fault) => BoardFault::Paste(fault),
        StepFault::OutOfMemory => BoardFault::OutOfMemory,
    }
}
