//! Two inverses as one diff.
ghost use Rattle.std.specs.Prelude.{◌≡◌, false, Some, option_map, IfOk, OnOk, OnErr};
ghost use Rattle.std.specs.Option.{ForSome};
ghost use Rattle.field_ops.specs.RecordOps.{has_append, IsSoundDiff};
ghost use Rattle.field_ops.specs.ViewRecordOps.{change_of};
ghost use Rattle.doc_model.specs.Merging.{both_in_turn, diff_after};
ghost use Rattle.undo_marks.specs.Inverses.{diff_has_append};

use field_ops::{Diff, RecordOp, then};
use rooms_val::Mem;
use std::alloc::Global;

// Makes of an older inverse the one that does a newer one first and then it. It costs what the newer
// one names and the records there. Where memory is refused, the newer one and then what was made of
// the older one still do the same.
pub(crate) fn join(alloc: Global, older: &mut Diff, newer: &Diff) -> Mem<()>
    requires older_plain { diff_has_append older.old ≡ false }
    requires newer_plain { diff_has_append newer.now ≡ false }
    ensures ok { OnOk result (older.new ≡ diff_after newer.now older.old) }
    ensures err { OnErr result (diff_after newer.now older.new ≡ diff_after newer.now older.old) }
    ensures plain { diff_has_append older.new ≡ false }
{
    tell_sound(older);
    'ids: for (id, op) in newer.as_slice() {
        let both = join_at(alloc, older.get(id.as_str()), op)?;
        older.put(id.copy(alloc)?, both)?;
    }
    Ok(())
}

// What a newer inverse has for an id, and then an older one, if that names the id.
fn join_at(alloc: Global, older: Option<&RecordOp>, newer: &RecordOp) -> Mem<RecordOp>
    requires older_plain { ForSome older (λ op. has_append (change_of op.now) ≡ false) }
    requires newer_plain { has_append (change_of newer.now) ≡ false }
    ensures both { IfOk result
        (λ op. Some (change_of op) ≡ both_in_turn (Some (change_of newer.now))
        (option_map (λ op. change_of op.now) older.entry)) }
    ensures plain { IfOk result (λ op. has_append (change_of op) ≡ false) }
{
    match older {
        Some(older) => then(alloc, newer, older),
        None => newer.copy(alloc),
    }
}

// That a diff is sound is told by its length.
pub(crate) fn tell_sound(diff: &Diff)
    ensures { IsSoundDiff diff.now }
{
    let _ = diff.len();
}
