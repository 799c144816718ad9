//! Why bytes are no value, why a value is no operation, and why a transaction is refused.
ghost use Rattle.std.specs.Prelude.{◌≡◌};
ghost use Rattle.rooms_val.specs.declared.fault.ValFault.TheVariants as val_fault;
ghost use Rattle.rooms_val.specs.declared.fault.OpFault.TheVariants as op_fault;
ghost use Rattle.rooms_val.specs.declared.fault.TxnFault.TheVariants as txn_fault;

use crate::memory::OutOfMemory;
use thiserror::Error;

/// Why bytes aren't read as a value. Of several causes the first in this order is returned.
#[derive(Clone, Copy, Debug, PartialEq, Eq, Error)]
pub enum ValFault {
    /// The bytes are no JSON: no UTF-8, no JSON text, more than 127 levels deep, or with a number beyond every float.
    #[error("the bytes are no JSON")]
    BadJson,
    /// Some number isn't whole: it has a fraction or an exponent, is `-0`, or lies outside -2^63 to 2^64 - 1.
    #[error("a number is not whole")]
    NotWhole,
    /// Some number lies beyond 2^53 - 1 on either side.
    #[error("a number is out of range")]
    OutOfRange,
    /// Lists and maps nest more than 64 deep.
    #[error("the value nests too deep")]
    TooDeep,
    /// Memory was refused.
    #[error("out of memory")]
    OutOfMemory,
}

impl From<OutOfMemory> for ValFault {
    ghost from_gives = { λ _ e. e ≡ val_fault.OutOfMemory };

    fn from(_refused: OutOfMemory) -> ValFault {
        ValFault::OutOfMemory
    }
}

/// Why a value isn't read as an operation, a message's part or a line's field.
#[derive(Clone, Copy, Debug, PartialEq, Eq, Error)]
pub enum OpFault {
    /// The value is none of the forms.
    #[error("the value is of the wrong kind")]
    WrongKind,
    /// Memory was refused.
    #[error("out of memory")]
    OutOfMemory,
}

impl From<OutOfMemory> for OpFault {
    ghost from_gives = { λ _ e. e ≡ op_fault.OutOfMemory };

    fn from(_refused: OutOfMemory) -> OpFault {
        OpFault::OutOfMemory
    }
}

/// Why a transaction is refused.
#[derive(Clone, Copy, Debug, PartialEq, Eq, Error)]
pub enum TxnFault {
    /// As many transactions are open as may be.
    #[error("too many transactions are open")]
    TooNested,
    /// Memory was refused.
    #[error("out of memory")]
    OutOfMemory,
}

impl From<OutOfMemory> for TxnFault {
    ghost from_gives = { λ _ e. e ≡ txn_fault.OutOfMemory };

    fn from(_refused: OutOfMemory) -> TxnFault {
        TxnFault::OutOfMemory
    }
}
