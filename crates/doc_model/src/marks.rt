//! Laws of what a client can take back.
ghost use Rattle.std.specs.Prelude.{◌≡◌, ◌≢◌, ◌∷◌, [], ◌++◌, ℕ, List, Option, false, map, filter_map};
ghost use Rattle.std.specs.List.{list_any, suffix_len};
ghost use Rattle.field_ops.specs.RecordOps.{RecordOps};
ghost use Rattle.doc_model.specs.Merging.{merge};
ghost use Rattle.doc_model.specs.Marks.{Item, mark, inverse, Redo, Marks, diff_in, is_inverse, is_named, undo_diff, after_undo, bail_diff, after_bail};

/// Where a history is what is empty or ends in a mark, then some inverses, then marks, an undo does those inverses in one
/// diff, leaves what stands before them, and gives the marks to the redo list with the inverse of what acted.
pub fn undo_takes_the_last_inverses()
    ensures does { (kept : List Item) (taken : List RecordOps) (dropped : List (List ℕ))
        (redos : List Redo)
        → suffix_len is_inverse kept ≡ 0 → taken ≢ []
        → undo_diff
        (record { history = kept ++ map inverse taken ++ map mark dropped; redos = redos })
        ≡ Some (merge taken) }
    ensures leaves { (kept : List Item) (taken : List RecordOps) (dropped : List (List ℕ))
        (redos : List Redo) (back : RecordOps)
        → suffix_len is_inverse kept ≡ 0 → taken ≢ []
        → after_undo back
        (record { history = kept ++ map inverse taken ++ map mark dropped; redos = redos })
        ≡ record { history = kept; redos = record { diff = back; dropped = dropped } ∷ redos } }
{}

/// Where a history has marks alone, there is nothing to take back.
pub fn marks_alone_undo_nothing()
    ensures { (names : List (List ℕ)) (redos : List Redo)
        → undo_diff (record { history = map mark names; redos = redos }) ≡ None }
{}

/// A bail does all inverses after the last mark of the name in one diff, and leaves what stands before that mark.
pub fn bail_goes_back_to_the_mark()
    ensures does { (name : List ℕ) (before after : List Item) (redos : List Redo)
        → list_any (is_named name) after ≡ false
        → bail_diff name (record { history = before ++ mark name ∷ after; redos = redos })
        ≡ Some (merge (filter_map diff_in after)) }
    ensures leaves { (name : List ℕ) (before after : List Item) (redos : List Redo)
        → list_any (is_named name) after ≡ false
        → after_bail name (record { history = before ++ mark name ∷ after; redos = redos })
        ≡ record { history = before; redos = [] } }
{}
