//! Whether what a patch made of a map still fits a check.
ghost use Rattle.std.specs.Prelude.{IsTrue, ◌≡◌, ◌↔◌, None};
ghost use Rattle.rooms_val.specs.Data.{Data, IsSound};
ghost use Rattle.rooms_val.specs.Kinds.{on_map};
ghost use Rattle.rooms_val.specs.View.{data_of};
ghost use Rattle.field_ops.specs.Patched.{patched};
ghost use Rattle.field_ops.specs.ValueOps.{edits_of};
ghost use Rattle.record_valid.specs.View.{tree_of};
ghost use Rattle.record_valid.specs.Fits.{Fits};

use crate::fits;
use crate::tree::Check;
use field_ops::ObjectDiff;
use rooms_val::Val;

/// Whether what a patch left of a value still fits the check, which the value before it fitted. Where the check is that
/// of an object, and the patch doesn't name `type`, the keys that the patch names decide; else the whole value is looked
/// at. It costs a logarithm of the keys for each of those, and the values under them.
pub fn still_fits(check: &Check, left: &Val, patch: &ObjectDiff) -> bool
    ensures { (before : Data) → IsSound before → Fits None (tree_of check.now) before
        → data_of left.now ≡ on_map (λ f. patched (edits_of patch.now) f) before
        → IsTrue result ↔ Fits None (tree_of check.now) (data_of left.now) }
{
    if let Check::Object(fields) = check {
        if let Val::Map(map) = left {
            if patch.get("type").is_none() {
                return fields.still_fit(map, patch);
            }
        }
    }
    fits::check(check, left).is_ok()
}
