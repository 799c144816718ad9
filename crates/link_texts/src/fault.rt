//! Why a text of a link isn't taken.
ghost use Rattle.std.specs.Prelude.{◌≡◌};
ghost use Rattle.link_texts.specs.Faults.{fault_of_piece, fault_of_message};
ghost use Rattle.link_texts.specs.declared.fault.Unheard.TheVariants as unheard;

use rooms_val::OutOfMemory;
use thiserror::Error;
use wire_msgs::MsgFault;
use wire_text::PieceFault;

/// Why a text is refused.
#[derive(Clone, Copy, Debug, PartialEq, Eq, Error)]
pub enum WireFault {
    /// The first text of a link names no room of the server.
    #[error("the text names no room")]
    Join,
    /// The text isn't UTF-8, no piece, not the piece that comes next, or makes a message too long.
    #[error("the piece is refused: {0}")]
    Piece(PieceFault),
    /// The text completes a message that is none of a client.
    #[error("the message is refused: {0}")]
    Message(MsgFault),
}

/// Why a text isn't taken.
#[derive(Clone, Copy, Debug, PartialEq, Eq, Error)]
pub enum Unheard {
    /// It is refused.
    #[error("{0}")]
    Refused(WireFault),
    /// Memory was refused.
    #[error("out of memory")]
    OutOfMemory,
}

impl From<OutOfMemory> for Unheard {
    ghost from_gives = { λ _ e. e ≡ unheard.OutOfMemory };

    fn from(_refused: OutOfMemory) -> Unheard {
        Unheard::OutOfMemory
    }
}

impl From<PieceFault> for Unheard {
    ghost from_gives = { λ fault e. e ≡ fault_of_piece fault };

    fn from(fault: PieceFault) -> Unheard {
        match fault {
            PieceFault::OutOfMemory => Unheard::OutOfMemory,
            _ => Unheard::Refused(WireFault::Piece(fault)),
        }
    }
}

impl From<MsgFault> for Unheard {
    ghost from_gives = { λ fault e. e ≡ fault_of_message fault };

    fn from(fault: MsgFault) -> Unheard {
        match fault {
            MsgFault::OutOfMemory => Unheard::OutOfMemory,
            _ => Unheard::Refused(WireFault::Message(fault)),
        }
    }
}
