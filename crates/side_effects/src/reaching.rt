//! Laws of reaching. Each function does nothing: its contract is the law.
ghost use Rattle.std.specs.Prelude.{ℕ, List, Bool};
ghost use Rattle.side_effects.specs.ReachingLaws.{AreAll, AreLeast};

/// Where only items of a list have something above them, what reaches an end by as many steps as the list is long is the
/// least set that has the ends and each item with something of it one step above.
pub fn reaching_is_least()
    ensures { (up : List ℕ → List (List ℕ)) (is_end : List ℕ → Bool) (items : List (List ℕ))
        → AreAll up is_end items → AreLeast up is_end items }
{}
