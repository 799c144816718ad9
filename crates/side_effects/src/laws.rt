//! Laws of completion. Each function does nothing: its contract is the law.
ghost use Rattle.side_effects.specs.Laws as laws;

/// What a rule says of a diff is what it says of the least id that it refuses.
pub fn names_the_least_id()
    ensures { laws.NamesTheLeastId }
{}

/// What goes with removed records is the least set with these and with each record that hangs on one of the set.
pub fn takes_the_least_set()
    ensures { laws.TakesTheLeastSet }
{}

/// A shape that stands anywhere on its own chain of parents is found there.
pub fn follows_whole_chains()
    ensures { laws.FollowsWholeChains }
{}
