//! The one operation that does two in turn.
ghost use Rattle.std.specs.Prelude.{◌≡◌, false, IfOk};
ghost use Rattle.std.specs.Option.{option_copied};
ghost use Rattle.field_ops.specs.RecordOps.{has_append};
ghost use Rattle.field_ops.specs.ValueOps.{edits_of};
ghost use Rattle.field_ops.specs.View.{edit_of, maybe_edit};
ghost use Rattle.field_ops.specs.ViewRecordOps.{change_of};
ghost use Rattle.field_ops.specs.Compose as joined;

use crate::apply::patched_val;
use crate::object_diff::ObjectDiff;
use crate::record_op::RecordOp;
use crate::value_op::ValueOp;
use crate::walk::take_least;
use rooms_val::Mem;
use std::alloc::Global;

/// The one operation that does both in turn. It is the second where that is a put or a remove. A second patch makes of a
/// put the put of the patched record, leaves a remove, and makes of a patch one patch. Neither may have an append, which
/// `has_append` tells.
pub fn then(alloc: Global, first: &RecordOp, second: &RecordOp) -> Mem<RecordOp>
    requires first_plain { has_append (change_of first.now) ≡ false }
    requires second_plain { has_append (change_of second.now) ≡ false }
    ensures { IfOk result
        (λ op. change_of op ≡ joined.in_turn (change_of first.now) (change_of second.now)) }
{
    match second {
        RecordOp::Put(_) => Ok(second.copy(alloc)?),
        RecordOp::Patch(diff) => Ok(patched_op(alloc, first, diff)?),
        RecordOp::Remove => Ok(RecordOp::Remove),
    }
}

// What a second patch makes of a first operation.
fn patched_op(alloc: Global, first: &RecordOp, diff: &ObjectDiff) -> Mem<RecordOp>
    ensures { IfOk result
        (λ op. change_of op ≡ joined.patched_change diff.now (change_of first.now)) }
{
    match first {
        RecordOp::Put(val) => Ok(RecordOp::Put(patched_val(alloc, val, diff)?)),
        RecordOp::Patch(earlier) => Ok(RecordOp::Patch(both(alloc, earlier, diff)?)),
        RecordOp::Remove => Ok(RecordOp::Remove),
    }
}

// The one patch that does both in turn.
#[cycle(then)]
fn both(alloc: Global, first: &ObjectDiff, second: &ObjectDiff) -> Mem<ObjectDiff>
    ensures { IfOk result (λ p. p ≡ joined.both (edits_of second.now) first.now) }
{
    let mut result = ObjectDiff::new(alloc);
    let mut firsts = first.as_slice();
    let mut seconds = second.as_slice();
    'keys: while let Some(next) = take_least(firsts, seconds) {
        let op = both_at(alloc, next.left, next.right)?;
        result.keep(alloc, next.key, op)?;
        firsts = next.lefts;
        seconds = next.rights;
    }
    Ok(result)
}

// What a key's operation becomes, where the second patch perhaps names the key.
#[cycle(then)]
fn both_at(alloc: Global, first: Option<&ValueOp>, second: Option<&ValueOp>) -> Mem<Option<ValueOp>>
    ensures { IfOk result (λ op. maybe_edit op ≡ joined.edit_after
        (maybe_edit (option_copied second.entry)) (maybe_edit (option_copied first.entry))) }
{
    match second {
        Some(later) => match first {
            Some(earlier) => Ok(Some(after(alloc, earlier, later)?)),
            None => Ok(Some(later.copy(alloc)?)),
        },
        None => match first {
            Some(earlier) => Ok(Some(earlier.copy(alloc)?)),
            None => Ok(None),
        },
    }
}

// The operation on a value that does both in turn.
#[cycle(then)]
fn after(alloc: Global, first: &ValueOp, second: &ValueOp) -> Mem<ValueOp>
    ensures { IfOk result
        (λ op. edit_of op ≡ joined.after (edit_of second.now) (edit_of first.now)) }
{
    let ValueOp::Patch(diff) = second else {
        return Ok(second.copy(alloc)?);
    };
    match first {
        ValueOp::Put(val) => Ok(ValueOp::Put(patched_val(alloc, val, diff)?)),
        ValueOp::Patch(earlier) => Ok(ValueOp::Patch(both(alloc, earlier, diff)?)),
        ValueOp::Append(_, _) => Ok(first.copy(alloc)?),
        ValueOp::AppendText(_, _) => Ok(first.copy(alloc)?),
        ValueOp::Delete => Ok(ValueOp::Delete),
    }
}
