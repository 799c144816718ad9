//! Laws of documents.
ghost use Rattle.std.specs.Prelude.{◌≡◌, ◌∷◌, [], ◌++◌, ℕ, List, Bool};
ghost use Rattle.rooms_val.specs.Data.{Data, Pairs};
ghost use Rattle.rooms_val.specs.Maps.{value_at, AreRising};
ghost use Rattle.field_ops.specs.RecordOps.{RecordOps};
ghost use Rattle.field_ops.specs.Laws.{raw_after};
ghost use Rattle.doc_model.specs.Documents.{fold_raw, step, replay};

/// A further diff is replayed last.
pub fn replays_in_order()
    ensures { (admits : List ℕ → Data → Bool) (document : Pairs) (diffs : List RecordOps)
        (diff : RecordOps)
        → replay admits document (diffs ++ diff ∷ [])
        ≡ step admits (replay admits document diffs) diff }
{}

/// Where a diff whose ids rise is folded raw, each id has what its operation makes of what stood there, and each other id
/// what it had.
pub fn folds_by_id()
    ensures { (document : Pairs) (diff : RecordOps) (id : List ℕ) → AreRising diff
        → value_at (fold_raw document diff) id
        ≡ raw_after (value_at diff id) (value_at document id) }
{}
