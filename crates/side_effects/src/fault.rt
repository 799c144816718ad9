//! Why an edit is refused.
ghost use Rattle.std.specs.Prelude.{◌≡◌};
ghost use Rattle.side_effects.specs.declared.fault.EditFault.TheVariants as edit_fault;

use index_keys::BetweenFault;
use rooms_val::{OutOfMemory, Text};
use schema_core::RecordFault;
use std::fmt;
use thiserror::Error;

/// Why an edit is refused. The rules of `complete` say which of several causes is returned, and with which of several ids.
#[derive(Drop, Error)]
pub enum EditFault {
    /// It has more than 8,192 operations.
    #[error("the edit has too many operations")]
    TooMany,
    /// The id isn't one of a type of the document.
    #[error("the edit names an id that is no part of the document")]
    WrongScope(Text),
    /// The id is patched or removed, and has no record.
    #[error("the edit patches or removes a record that is not there")]
    NoRecord(Text),
    /// The record that the edit leaves under the id isn't admitted.
    #[error("the edit leaves a record that is not admitted: {1}")]
    Invalid(Text, RecordFault),
    /// A new shape without index has no key behind its parent's children.
    #[error("a new shape gets no index: {0}")]
    NoKey(BetweenFault),
    /// The document had a page, and the edit leaves it none.
    #[error("the edit removes the last page")]
    LastPage,
    /// The shape that the edit puts or patches has a parent that is no page or shape of the document.
    #[error("the edit leaves a shape without a parent")]
    NoParent(Text),
    /// The shape that the edit puts or patches stands on its own chain of parents.
    #[error("the edit places a shape under itself")]
    UnderItself(Text),
    /// The binding that the edit puts or patches has an end that is no shape of the document.
    #[error("the edit leaves a binding without an end")]
    NoEnd(Text),
    /// Memory was refused.
    #[error("out of memory")]
    OutOfMemory,
}

impl From<OutOfMemory> for EditFault {
    ghost from_gives = { λ _ e. e ≡ edit_fault.OutOfMemory };

    fn from(_refused: OutOfMemory) -> EditFault {
        EditFault::OutOfMemory
    }
}

impl fmt::Debug for EditFault {
    fn fmt<W: fmt::Write>(&self, f: &mut fmt::Formatter<W>) -> fmt::Result {
        write!(f, "{self}")
    }
}
