//! Why a text isn't read as a message.
ghost use Rattle.std.specs.Prelude.{◌≡◌};
ghost use Rattle.wire_msgs.specs.Faults.{fault_of_val, fault_of_op};
ghost use Rattle.wire_msgs.specs.declared.fault.MsgFault.TheVariants as msg_fault;

use rooms_val::{OpFault, OutOfMemory, ValFault};
use thiserror::Error;

/// Why a text isn't read as a message. Of several causes the first in this order is returned.
#[derive(Clone, Copy, Debug, PartialEq, Eq, Error)]
pub enum MsgFault {
    /// The text is no value, or a client's message nests more than 56 deep.
    #[error("the message is no value")]
    Val(ValFault),
    /// The value is no map, or its `type` is that of no message of this side.
    #[error("the message is of no known type")]
    UnknownType,
    /// The message lacks a field that its type has.
    #[error("a field of the message is missing")]
    MissingField,
    /// The message has a field that its type doesn't have.
    #[error("the message has a field too many")]
    ExtraField,
    /// A field isn't of its kind.
    #[error("a field of the message is of the wrong kind")]
    WrongKind,
    /// Memory was refused.
    #[error("out of memory")]
    OutOfMemory,
}

impl From<OutOfMemory> for MsgFault {
    ghost from_gives = { λ _ e. e ≡ msg_fault.OutOfMemory };

    fn from(_refused: OutOfMemory) -> MsgFault {
        MsgFault::OutOfMemory
    }
}

impl From<ValFault> for MsgFault {
    ghost from_gives = { λ f e. e ≡ fault_of_val f };

    fn from(fault: ValFault) -> MsgFault {
        match fault {
            ValFault::OutOfMemory => MsgFault::OutOfMemory,
            _ => MsgFault::Val(fault),
        }
    }
}

impl From<OpFault> for MsgFault {
    ghost from_gives = { λ f e. e ≡ fault_of_op f };

    fn from(fault: OpFault) -> MsgFault {
        match fault {
            OpFault::WrongKind => MsgFault::WrongKind,
            OpFault::OutOfMemory => MsgFault::OutOfMemory,
        }
    }
}
