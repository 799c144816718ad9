//! Laws of the definitions, each the contract of a function that does nothing.
ghost use Rattle.std.specs.Prelude.{ℕ, List, ◌+◌, ◌*◌, ◌≤◌, ◌^◌, IfSome};
ghost use Rattle.rooms_val.specs.Data.{Pairs};
ghost use Rattle.rooms_val.specs.Json.{greatest_whole};
ghost use Rattle.shape_tree.specs.Boxes.{box, AreWithin, HasSidesWithin};
ghost use Rattle.shape_tree.specs.Trees.{most_levels};

/// The sides of the box of a shape move away from 0 by at most 2^53 - 1 a level, so a box fits what
/// [`join_box`](crate::join_box) and [`move_box`](crate::move_box) ask.
pub fn boxes_are_small()
    ensures sides { (m : Pairs) (id : List ℕ) (levels : ℕ)
        → IfSome (box levels m id) (HasSidesWithin ((levels + 2) * greatest_whole)) }
    ensures numbers { (m : Pairs) (id : List ℕ) (levels : ℕ) → levels ≤ most_levels
        → IfSome (box levels m id) (AreWithin (2 ^ 60)) }
{}
