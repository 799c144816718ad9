//! Why a piece isn't taken.
ghost use Rattle.std.specs.Prelude.{◌≡◌};
ghost use Rattle.wire_text.specs.declared.fault.PieceFault.TheVariants as piece_fault;

use rooms_val::OutOfMemory;
use std::alloc::AllocError;
use thiserror::Error;

/// Why a piece isn't taken. Of several causes the first in this order is returned.
#[derive(Clone, Copy, Debug, PartialEq, Eq, Error)]
pub enum PieceFault {
    /// It is neither a whole text nor a part after a count.
    #[error("the piece is no text and no part")]
    BadPiece,
    /// The count of parts still to come that was expected, and the one that came, which is -1 for a
    /// whole text.
    #[error("the count {0} was expected, and {1} came")]
    OutOfTurn(i64, i64),
    /// The text has more bytes than the limit.
    #[error("the text is too long")]
    TooLong,
    /// Memory was refused.
    #[error("out of memory")]
    OutOfMemory,
}

impl From<OutOfMemory> for PieceFault {
    ghost from_gives = { λ _ e. e ≡ piece_fault.OutOfMemory };

    fn from(_refused: OutOfMemory) -> PieceFault {
        PieceFault::OutOfMemory
    }
}

impl From<AllocError> for PieceFault {
    ghost from_gives = { λ _ e. e ≡ piece_fault.OutOfMemory };

    fn from(_refused: AllocError) -> PieceFault {
        PieceFault::OutOfMemory
    }
}
