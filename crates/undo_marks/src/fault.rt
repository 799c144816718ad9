//! Why nothing is taken back to a mark.
ghost use Rattle.std.specs.Prelude.{◌≡◌};
ghost use Rattle.undo_marks.specs.declared.fault.BailFault.TheVariants as bail_fault;

use rooms_val::OutOfMemory;
use thiserror::Error;

/// Why nothing is taken back to a mark.
#[derive(Clone, Copy, Debug, PartialEq, Eq, Error)]
pub enum BailFault {
    /// There is no mark of that name.
    #[error("there is no such mark")]
    NoMark,
    /// Memory was refused.
    #[error("out of memory")]
    OutOfMemory,
}

impl From<OutOfMemory> for BailFault {
    ghost from_gives = { λ _ e. e ≡ bail_fault.OutOfMemory };

    fn from(_refused: OutOfMemory) -> BailFault {
        BailFault::OutOfMemory
    }
}
