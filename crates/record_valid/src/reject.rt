//! What keeps a value from fitting a check.
ghost use Rattle.std.specs.Prelude.{◌≡◌, option_map};
ghost use Rattle.std.specs.Result.{result_err};

use thiserror::Error;

/// The kind of fault that a value has.
#[derive(Clone, Copy, Debug, PartialEq, Eq, Error)]
pub enum RejectKind {
    /// A map lacks a key.
    #[error("a key is missing")]
    Missing,
    /// A map has a key too many.
    #[error("a key is not expected")]
    Extra,
    /// The value is of another kind, as a text in place of a number.
    #[error("the value is of the wrong kind")]
    WrongKind,
    /// A number lies outside its bounds, or a text has too many bytes.
    #[error("the value is out of bounds")]
    OutOfBounds,
    /// A text is none of those that are listed, or no check is listed for the map's `type`.
    #[error("the value is not listed")]
    NotListed,
    /// A text is no index key, or has more than 256 characters.
    #[error("the key is not valid")]
    BadKey,
    /// A text is no id of a type that is wanted.
    #[error("the id is not valid")]
    BadId,
}

/// The first fault of a value.
#[derive(Clone, Copy, Debug, PartialEq, Eq, Error)]
#[error("{kind}, at depth {depth}")]
pub struct Reject {
    /// The number of maps and lists around the value at fault, or around the key that is missing or too many:
    /// 2^32 - 1 where that is greater.
    pub depth: u32,
    /// The kind of fault.
    pub kind: RejectKind,
}

/// Tells how deep the fault is.
pub(crate) fn at(depth: u32, checked: Result<(), RejectKind>) -> Result<(), Reject>
    ensures { result_err result
        ≡ option_map (λ kind. record { depth = depth; kind = kind }) (result_err checked) }
{
    checked.map_err(|kind| Reject { depth, kind })
}
