//! Why a text is no key, and why there is no key between two.
ghost use Rattle.std.specs.Prelude.{◌≡◌};
ghost use Rattle.index_keys.specs.declared.fault.BetweenFault.TheVariants as between_fault;

use std::alloc::{AllocError, AllocFailed};
use thiserror::Error;

/// Why a text is no key. Of several faults the first in this order is named.
#[derive(Clone, Copy, Debug, PartialEq, Eq, Error)]
pub enum KeyFault {
    /// The text is empty, or its first character is no letter `A` to `Z` or `a` to `z`.
    #[error("the key does not begin with a letter")]
    BadHead,
    /// The text has fewer characters than the integer part under its head.
    #[error("the key's integer part is cut short")]
    ShortInteger,
    /// A character after the head is no digit `0` to `9`, `A` to `Z` or `a` to `z`.
    #[error("the key has a character that is no digit")]
    BadDigit,
    /// The fraction ends in `0`, so that no key fits between this one and the one without that `0`.
    #[error("the key's fraction ends in 0")]
    TrailingZero,
    /// The text is `A` and 26 `0`, the smallest integer part alone, below which no key fits.
    #[error("the key is the smallest integer part with no fraction")]
    SmallestInteger,
}

/// Why there is no key between two ends. Of several causes the first in this order is named.
#[derive(Clone, Copy, Debug, PartialEq, Eq, Error)]
pub enum BetweenFault {
    /// An end is no valid key.
    #[error("an end is no key")]
    NotKey,
    /// The key below isn't less than the key above.
    #[error("the key below is not less than the key above")]
    NotLess,
    /// No key is less than the key above, which is `A`, 25 `0` and `1`.
    #[error("no key is less than the key above")]
    NoRoom,
    /// The key between them would have more than 256 characters.
    #[error("the key would be too long")]
    KeyTooLong,
    /// Out of memory.
    #[error("out of memory")]
    OutOfMemory,
}

impl From<AllocError> for BetweenFault {
    ghost from_gives = { λ _ e. e ≡ between_fault.OutOfMemory };

    fn from(_refused: AllocError) -> BetweenFault {
        BetweenFault::OutOfMemory
    }
}

impl<T: Drop> From<AllocFailed<T>> for BetweenFault {
    ghost from_gives = { λ _ e. e ≡ between_fault.OutOfMemory };

    fn from(_refused: AllocFailed<T>) -> BetweenFault {
        BetweenFault::OutOfMemory
    }
}
