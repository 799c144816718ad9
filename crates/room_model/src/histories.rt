//! Laws of histories.
ghost use Rattle.std.specs.Prelude.{◌≡◌, ℕ, ◌≤◌, min, max, ◌∷◌, length};
ghost use Rattle.room_model.specs.Histories.{History, oldest, start_of, dead};
ghost use Rattle.room_model.specs.declared.history.Entry.{Entry};
ghost use Rattle.room_model.specs.declared.limits.TheConstants.{MOST_DEAD};

/// The clock up to which removals are forgotten never falls, and lies at most at the greater of the room's clock and the
/// one with which it began.
pub fn start_never_falls()
    ensures rises { (first : ℕ) (entry : Entry) (history : History)
        → start_of first history ≤ start_of first (entry ∷ history) }
    ensures within { (first : ℕ) (history : History)
        → start_of first history ≤ max first (length history) }
{}

/// A room remembers at most 3,000 removed ids.
pub fn remembers_few()
    ensures { (first : ℕ) (history : History) → length (dead first history) ≤ MOST_DEAD }
{}

/// The oldest entries of a history are as many as the clock says, if there are so many, and the
/// oldest of them are those of the history.
pub fn oldest_are_a_part()
    ensures count { (clock : ℕ) (history : History)
        → length (oldest clock history) ≡ min clock (length history) }
    ensures twice { (clock later : ℕ) (history : History) → clock ≤ later
        → oldest clock (oldest later history) ≡ oldest clock history }
{}
