//! Whether a value fits a check.
ghost use Rattle.std.specs.Prelude.{◌≡◌, ◌↔◌, IsOk, None};
ghost use Rattle.std.specs.Result.{result_err};
ghost use Rattle.rooms_val.specs.View.{data_of};
ghost use Rattle.record_valid.specs.View.{tree_of};
ghost use Rattle.record_valid.specs.Fits.{Fits};
ghost use Rattle.record_valid.specs.Faults.{first_fault};

use crate::reject::Reject;
use crate::tree::Check;
use rooms_val::Val;

/// Tells whether the value fits the check, and if not its first fault, which [`Reject`] describes.
///
/// Of a map, that a key is missing comes first, and then that a key is too many. Which key it is isn't told. Then come the
/// fields, in the order of their keys. The items of a list come in order. The call takes no memory, and goes a fixed
/// number of times over each list and map.
pub fn check(check: &Check, val: &Val) -> Result<(), Reject>
    ensures fits { IsOk result ↔ Fits None (tree_of check.now) (data_of val.now) }
    ensures fault { result_err result ≡ first_fault 0 None (tree_of check.now) (data_of val.now) }
{
    check.check_value(val, 0, None)
}
