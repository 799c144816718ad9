//! Why there is nothing to copy, or nothing to paste.
ghost use Rattle.std.specs.Prelude.{◌≡◌};
ghost use Rattle.room_model.specs.declared.clip_fault.ClipFault.TheVariants as clip_fault;
ghost use Rattle.room_model.specs.declared.clip_fault.PasteFault.TheVariants as paste_fault;

use index_keys::BetweenFault;
use rooms_val::{OutOfMemory, Text};
use std::fmt;
use thiserror::Error;

/// Why there is no copy of some ids. Of several causes the first in this order is named.
#[derive(Drop, Error)]
pub enum ClipFault {
    /// The first of the ids that is no shape of the document.
    #[error("the copy names an id that is no shape")]
    NoShape(Text),
    /// The first of the ids that stood before it.
    #[error("the copy names a shape twice")]
    Doubled(Text),
    /// There are more than 4,096 shapes or more than 4,096 bindings to copy.
    #[error("there is too much to copy")]
    TooMany,
    /// Memory was refused.
    #[error("out of memory")]
    OutOfMemory,
}

impl From<OutOfMemory> for ClipFault {
    ghost from_gives = { λ _ e. e ≡ clip_fault.OutOfMemory };

    fn from(_refused: OutOfMemory) -> ClipFault {
        ClipFault::OutOfMemory
    }
}

impl fmt::Debug for ClipFault {
    fn fmt<W: fmt::Write>(&self, f: &mut fmt::Formatter<W>) -> fmt::Result {
        write!(f, "{self}")
    }
}

/// Why a clip isn't pasted. Of several causes the first in this order is named.
#[derive(Drop, Error)]
pub enum PasteFault {
    /// The least new id that the document has.
    #[error("the paste would add an id that is taken")]
    Taken(Text),
    /// There are no keys for the tops of the clip behind the children that their parent has.
    #[error("what is pasted gets no index: {0}")]
    NoKey(BetweenFault),
    /// Memory was refused.
    #[error("out of memory")]
    OutOfMemory,
}

impl From<OutOfMemory> for PasteFault {
    ghost from_gives = { λ _ e. e ≡ paste_fault.OutOfMemory };

    fn from(_refused: OutOfMemory) -> PasteFault {
        PasteFault::OutOfMemory
    }
}

impl fmt::Debug for PasteFault {
    fn fmt<W: fmt::Write>(&self, f: &mut fmt::Formatter<W>) -> fmt::Result {
        write!(f, "{self}")
    }
}
