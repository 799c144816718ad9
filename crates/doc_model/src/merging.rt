//! Laws of diffs that are done in one.
ghost use Rattle.std.specs.Prelude.{◌≡◌, ℕ, List};
ghost use Rattle.field_ops.specs.RecordOps.{RecordOps};
ghost use Rattle.rooms_val.specs.Maps.{AreRising, value_at};
ghost use Rattle.doc_model.specs.Merging.{merge, merged_at};

/// The merged diff has at each id the operations that the diffs have there, in turn from the newest on; its ids rise.
pub fn merges_by_id()
    ensures at_id { (diffs : List RecordOps) (id : List ℕ)
        → value_at (merge diffs) id ≡ merged_at diffs id }
    ensures rising { (diffs : List RecordOps) → AreRising (merge diffs) }
{}
