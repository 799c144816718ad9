//! Laws of the last writes. Each function does nothing: its contract is the law.
ghost use Rattle.std.specs.Prelude.{◌≡◌, ℕ, List, ◌++◌};
ghost use Rattle.signal_txn.specs.declared.write.Write.{Write};
ghost use Rattle.signal_txn.specs.Histories.{History, Keeps};
ghost use Rattle.signal_txn.specs.Journal.{Journal};
ghost use Rattle.signal_txn.specs.LastWrites.{kept, followed};
ghost use Rattle.signal_txn.specs.Turns.{Rise, AreInTurn};

/// What is kept of some writes, followed by what is kept of later ones, is what is kept of all of them, if their epochs
/// rise.
pub fn the_last_of_both_are_the_last_of_all<K, V>()
    ensures { (writes later : List (Write K V)) (middle high : ℕ) → Rise 0 writes middle
        → Rise middle later high → followed (kept writes) (kept later) ≡ kept (writes ++ later) }
{}

/// What a journal keeps of a history stands in its order.
pub fn histories_are_kept_in_order<K, V>()
    ensures { (history : History K V) (journal : Journal K V) (epoch : ℕ)
        → Keeps history journal epoch
        → AreInTurn journal.levels journal.ring epoch }
{}
