//! Why types make no schema, and why a record isn't admitted.
ghost use Rattle.std.specs.Prelude.{◌≡◌};
ghost use Rattle.schema_core.specs.declared.fault.SchemaFault.TheVariants as schema_fault;

use record_valid::Reject;
use rooms_val::{OutOfMemory, Text};
use std::alloc::AllocFailed;
use std::fmt;
use thiserror::Error;

/// Why types make no schema.
#[derive(Drop, Error)]
pub enum SchemaFault {
    /// A type has the name of one before it. Of several the first in the order of the list is returned.
    #[error("two types have one name")]
    DoubledType(Text),
    /// Memory was refused.
    #[error("out of memory")]
    OutOfMemory,
}

impl From<OutOfMemory> for SchemaFault {
    ghost from_gives = { λ _ e. e ≡ schema_fault.OutOfMemory };

    fn from(_refused: OutOfMemory) -> SchemaFault {
        SchemaFault::OutOfMemory
    }
}

impl<T: Drop> From<AllocFailed<T>> for SchemaFault {
    ghost from_gives = { λ _ e. e ≡ schema_fault.OutOfMemory };

    fn from(_refused: AllocFailed<T>) -> SchemaFault {
        SchemaFault::OutOfMemory
    }
}

impl fmt::Debug for SchemaFault {
    fn fmt<W: fmt::Write>(&self, f: &mut fmt::Formatter<W>) -> fmt::Result {
        write!(f, "{self}")
    }
}

/// Why a record isn't admitted under an id. Of several causes the first in this order is returned.
#[derive(Clone, Copy, Debug, PartialEq, Eq, Error)]
pub enum RecordFault {
    /// The record's `id` isn't the id, the id isn't of its form, or its type isn't the record's `typeName`.
    #[error("the record does not stand under its own id")]
    BadId,
    /// No type has the name that the id begins with.
    #[error("the type of the record is not known")]
    UnknownType,
    /// The record doesn't fit the check of its type; its first fault.
    #[error("the record does not fit its type: {0}")]
    Rejected(Reject),
    /// The record weighs more than 32,768.
    #[error("the record is too heavy")]
    TooHeavy,
}
