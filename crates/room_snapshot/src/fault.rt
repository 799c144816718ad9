//! Why bytes aren't read as a saved room.
ghost use Rattle.std.specs.Prelude.{◌≡◌};
ghost use Rattle.room_snapshot.specs.Faults.{fault_of_val, fault_of_op};
ghost use Rattle.room_snapshot.specs.declared.fault.SnapFault.TheVariants as snap_fault;

use rooms_val::{OpFault, OutOfMemory, ValFault};
use thiserror::Error;

/// Why bytes aren't read as a saved room. Of several causes the first in this order is returned.
#[derive(Clone, Copy, Debug, PartialEq, Eq, Error)]
pub enum SnapFault {
    /// The line has more than 67,108,864 bytes.
    #[error("the line is too long")]
    LineTooLong,
    /// The line is no value.
    #[error("the line is no value")]
    Val(ValFault),
    /// The value isn't of the form of a saved room.
    #[error("the value is no saved room")]
    Shape,
    /// Memory was refused.
    #[error("out of memory")]
    OutOfMemory,
}

impl From<OutOfMemory> for SnapFault {
    ghost from_gives = { λ _ e. e ≡ snap_fault.OutOfMemory };

    fn from(_refused: OutOfMemory) -> SnapFault {
        SnapFault::OutOfMemory
    }
}

impl From<ValFault> for SnapFault {
    ghost from_gives = { λ f e. e ≡ fault_of_val f };

    fn from(fault: ValFault) -> SnapFault {
        match fault {
            ValFault::OutOfMemory => SnapFault::OutOfMemory,
            _ => SnapFault::Val(fault),
        }
    }
}

impl From<OpFault> for SnapFault {
    ghost from_gives = { λ f e. e ≡ fault_of_op f };

    fn from(fault: OpFault) -> SnapFault {
        match fault {
            OpFault::WrongKind => SnapFault::Shape,
            OpFault::OutOfMemory => SnapFault::OutOfMemory,
        }
    }
}
