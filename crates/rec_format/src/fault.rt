//! Why a line of a recording isn't read.
ghost use Rattle.std.specs.Prelude.{◌≡◌};
ghost use Rattle.rec_format.specs.Faults.{fault_of_val, fault_of_op};
ghost use Rattle.rec_format.specs.declared.fault.LineFault.TheVariants as line_fault;

use rooms_val::{OpFault, OutOfMemory, ValFault};
use thiserror::Error;

/// Why a line isn't read. Of several causes the first in this order is returned.
#[derive(Clone, Copy, Debug, PartialEq, Eq, Error)]
pub enum LineFault {
    /// The line has more than 1,048,576 bytes without its newline.
    #[error("the line is too long")]
    LineTooLong,
    /// The line is no value.
    #[error("the line is no value")]
    Val(ValFault),
    /// The line is no header.
    #[error("the line is no header")]
    NoHeader,
    /// What the line says to do is the word of no event.
    #[error("the line names no known event")]
    UnknownEvent,
    /// Nothing says what to do, or a field is missing, ill-formed or one too many.
    #[error("a field of the line is missing, ill-formed or one too many")]
    Field,
    /// Memory was refused.
    #[error("out of memory")]
    OutOfMemory,
}

impl From<OutOfMemory> for LineFault {
    ghost from_gives = { λ _ e. e ≡ line_fault.OutOfMemory };

    fn from(_refused: OutOfMemory) -> LineFault {
        LineFault::OutOfMemory
    }
}

impl From<ValFault> for LineFault {
    ghost from_gives = { λ f e. e ≡ fault_of_val f };

    fn from(fault: ValFault) -> LineFault {
        match fault {
            ValFault::OutOfMemory => LineFault::OutOfMemory,
            _ => LineFault::Val(fault),
        }
    }
}

impl From<OpFault> for LineFault {
    ghost from_gives = { λ f e. e ≡ fault_of_op f };

    fn from(fault: OpFault) -> LineFault {
        match fault {
            OpFault::WrongKind => LineFault::Field,
            OpFault::OutOfMemory => LineFault::OutOfMemory,
        }
    }
}

/// A field that is missing, ill-formed or one too many.
#[derive(Clone, Copy, Debug, PartialEq, Eq)]
pub(crate) struct IllFormed;

impl From<IllFormed> for LineFault {
    ghost from_gives = { λ _ e. e ≡ line_fault.Field };

    fn from(_ill: IllFormed) -> LineFault {
        LineFault::Field
    }
}
