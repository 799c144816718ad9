//! The parts of messages that have a form of their own: diffs, schemas and presence.
ghost use Rattle.std.specs.Prelude.{◌≡◌, ℕ, List, IfOk, IfErr, IfSome, Option, option_map};
ghost use Rattle.rooms_val.specs.View.{data_of, pairs_view};
ghost use Rattle.rooms_val.specs.Answers.{Refuses};
ghost use Rattle.field_ops.specs.RecordOps.{RecordOps, IsSoundDiff};
ghost use Rattle.field_ops.specs.ViewRecordOps.{change_of};
ghost use Rattle.field_ops.specs.WireRecordOps.{change_data, diff_data};
ghost use Rattle.field_ops.specs.declared.record_op.RecordOp.{RecordOp};
ghost use Rattle.migrate_seq.specs.Versions.{Versions, schema_of};
ghost use Rattle.wire_msgs.specs.Messages.{IsPresence, maybe_diff, maybe_op};
ghost use Rattle.wire_msgs.specs.Rows.{first_at, past};

use field_ops::{Diff, RecordOp, read_diff, read_op};
use migrate_seq::Serialized;
use rooms_val::{OpFault, Text, Val};
use std::alloc::Global;

/// The diff for which a value stands.
pub(crate) fn diff_of(alloc: Global, val: &Val) -> Result<Diff, OpFault>
    ensures found { IfOk result (λ d. (data_of val.now ≡ diff_data d) × IsSoundDiff d) }
    ensures refused { IfErr result (Refuses ((diff : RecordOps) → IsSoundDiff diff
        → ¬ (data_of val.now ≡ diff_data diff))) }
{
    // That the value is sound is told by its kind, and that the ids of the diff rise by its length.
    let _ = val.kind();
    let diff = read_diff(alloc, val)?;
    let _ = diff.len();
    Ok(diff)
}

/// The operation on a presence for which a value stands: a put or a patch.
pub(crate) fn presence_of(alloc: Global, val: &Val) -> Result<RecordOp, OpFault>
    ensures found { IfOk result (λ op.
        (data_of val.now ≡ change_data (change_of op)) × IsPresence (change_of op)) }
    ensures refused { IfErr result (Refuses ((op : RecordOp) → IsPresence (change_of op)
        → ¬ (data_of val.now ≡ change_data (change_of op)))) }
{
    // That the value is sound is told by its kind, and the same of the operation by its name.
    let _ = val.kind();
    let op = read_op(alloc, val)?;
    let _ = op.name();
    match op {
        RecordOp::Put(made) => Ok(RecordOp::Put(made)),
        RecordOp::Patch(diff) => Ok(RecordOp::Patch(diff)),
        RecordOp::Remove => Err(OpFault::WrongKind),
    }
}

/// The schema for which a value stands.
pub(crate) fn schema_of(alloc: Global, val: &Val) -> Result<Serialized, OpFault>
    ensures found { IfOk result (λ s. data_of val.now ≡ schema_of s) }
    ensures refused { IfErr result (Refuses ((s : Versions) → ¬ (data_of val.now ≡ schema_of s))) }
{
    Serialized::read(alloc, val)
}

/// The diff for which a value stands, where there is a value.
pub(crate) fn maybe_diff_of(alloc: Global, val: Option<&Val>) -> Result<Option<Diff>, OpFault>
    ensures found { IfOk result (λ d. (option_map (λ v. data_of v.now) val.entry ≡ maybe_diff d)
        × IfSome d IsSoundDiff) }
    ensures refused { IfErr result (Refuses ((d : Option RecordOps) → IfSome d IsSoundDiff
        → ¬ (option_map (λ v. data_of v.now) val.entry ≡ maybe_diff d))) }
{
    match val {
        Some(val) => Ok(Some(diff_of(alloc, val)?)),
        None => Ok(None),
    }
}

/// The operation on a presence for which a value stands, where there is a value.
pub(crate) fn maybe_presence_of(
    alloc: Global,
    val: Option<&Val>,
) -> Result<Option<RecordOp>, OpFault>
    ensures found { IfOk result (λ op. (option_map (λ v. data_of v.now) val.entry ≡ maybe_op op)
        × IfSome op (λ o. IsPresence (change_of o))) }
    ensures refused { IfErr result (Refuses ((op : Option RecordOp)
        → IfSome op (λ o. IsPresence (change_of o))
        → ¬ (option_map (λ v. data_of v.now) val.entry ≡ maybe_op op))) }
{
    match val {
        Some(val) => Ok(Some(presence_of(alloc, val)?)),
        None => Ok(None),
    }
}

/// The value of the first field, where that has the key, and the fields past it; else all of them.
pub(crate) fn maybe_first<'a>(
    entries: &'a [(Text, Val)],
    key: &str,
) -> (Option<&'a Val>, &'a [(Text, Val)])
    ensures value { option_map (λ v. data_of v.now) result.0
        ≡ first_at key.now (pairs_view entries.now) }
    ensures rest { pairs_view result.1.now ≡ past key.now (pairs_view entries.now) }
{
    match entries.split_first() {
        Some((first, rest)) => {
            if first.0.as_str() == key {
                (Some(&first.1), rest)
            } else {
                (None, entries)
            }
        }
        None => (None, entries),
    }
}
