//! The operations that undo operations.
ghost use Rattle.std.specs.Prelude.{◌≡◌, IfOk};
ghost use Rattle.std.specs.Option.{option_copied};
ghost use Rattle.rooms_val.specs.Data.{list, items_of};
ghost use Rattle.rooms_val.specs.View.{data_of};
ghost use Rattle.field_ops.specs.ValueOps.{edits_of};
ghost use Rattle.field_ops.specs.View.{edit_of, maybe_data, maybe_edit};
ghost use Rattle.field_ops.specs.ViewRecordOps.{change_of, maybe_change};
ghost use Rattle.field_ops.specs.Inverses as inverted;

use crate::object_diff::ObjectDiff;
use crate::record_op::RecordOp;
use crate::value_op::ValueOp;
use rooms_val::{Fields, Mem, Val, Vals};
use std::alloc::Global;

/// The operation that brings a record back, or its absence, after another. `None` exactly for a patch or remove without
/// a record.
pub fn inverse(alloc: Global, before: Option<&Val>, op: &RecordOp) -> Mem<Option<RecordOp>>
    ensures { IfOk result (λ u. maybe_change u
        ≡ inverted.inverse (change_of op.now) (maybe_data (option_copied before.entry))) }
{
    match op {
        RecordOp::Put(_) => match before {
            Some(val) => Ok(Some(RecordOp::Put(val.copy(alloc)?))),
            None => Ok(Some(RecordOp::Remove)),
        },
        RecordOp::Patch(diff) => match before {
            Some(val) => Ok(Some(RecordOp::Patch(patch_back(alloc, val, diff)?))),
            None => Ok(None),
        },
        RecordOp::Remove => match before {
            Some(val) => Ok(Some(RecordOp::Put(val.copy(alloc)?))),
            None => Ok(None),
        },
    }
}

// The patch that brings a record back, which is empty for what is no map.
fn patch_back(alloc: Global, val: &Val, diff: &ObjectDiff) -> Mem<ObjectDiff>
    ensures { IfOk result (λ p. p ≡ inverted.patch_back diff.now (data_of val.now)) }
{
    match val {
        Val::Map(fields) => Ok(inverse_object(alloc, fields, diff)?),
        _ => Ok(ObjectDiff::new(alloc)),
    }
}

// The patch that brings a map back. It costs a logarithm of the map for each key that the patch names.
#[cycle(inverse)]
fn inverse_object(alloc: Global, map: &Fields, diff: &ObjectDiff) -> Mem<ObjectDiff>
    ensures { IfOk result (λ p. p ≡ inverted.inverted (edits_of diff.now) map.now) }
{
    let mut result = ObjectDiff::new(alloc);
    for (key, op) in diff.as_slice() {
        let back = undo(alloc, map.get(key.as_str()), op)?;
        result.keep(alloc, key, back)?;
    }
    Ok(result)
}

// The operation that brings a key's value back, or its absence. `None` exactly where the operation does nothing.
#[cycle(inverse)]
fn undo(alloc: Global, old: Option<&Val>, op: &ValueOp) -> Mem<Option<ValueOp>>
    ensures { IfOk result (λ u. maybe_edit u
        ≡ inverted.undo (edit_of op.now) (maybe_data (option_copied old.entry))) }
{
    let Some(val) = old else {
        return match op {
            ValueOp::Put(_) => Ok(Some(ValueOp::Delete)),
            ValueOp::Patch(_) => Ok(None),
            ValueOp::Append(_, _) => Ok(None),
            ValueOp::AppendText(_, _) => Ok(None),
            ValueOp::Delete => Ok(None),
        };
    };
    match op {
        ValueOp::Put(_) => Ok(Some(ValueOp::Put(val.copy(alloc)?))),
        ValueOp::Patch(diff) => undo_patch(alloc, val, diff),
        ValueOp::Append(_, offset) => undo_append(alloc, val, *offset),
        ValueOp::AppendText(_, offset) => undo_append_text(alloc, val, *offset),
        ValueOp::Delete => Ok(Some(ValueOp::Put(val.copy(alloc)?))),
    }
}

// A patch takes effect on a map alone. Its inverse is kept also where it is empty.
#[cycle(inverse)]
fn undo_patch(alloc: Global, val: &Val, diff: &ObjectDiff) -> Mem<Option<ValueOp>>
    ensures { IfOk result (λ u. maybe_edit u
        ≡ inverted.of_map (λ f. inverted.inverted (edits_of diff.now) f) (data_of val.now)) }
{
    match val {
        Val::Map(fields) => Ok(Some(ValueOp::Patch(inverse_object(alloc, fields, diff)?))),
        _ => Ok(None),
    }
}

// An append takes effect on a list of the offset's length alone.
fn undo_append(alloc: Global, val: &Val, offset: u32) -> Mem<Option<ValueOp>>
    ensures { IfOk result (λ u. maybe_edit u ≡ inverted.of_list offset (data_of val.now)) }
{
    match val {
        Val::List(items) => undo_longer(alloc, items, offset),
        _ => Ok(None),
    }
}

// An append takes effect on a text of the offset's length in bytes alone.
fn undo_append_text(alloc: Global, val: &Val, offset: u32) -> Mem<Option<ValueOp>>
    ensures { IfOk result (λ u. maybe_edit u ≡ inverted.of_text offset (data_of val.now)) }
{
    match val {
        Val::Text(text) => {
            if text.as_str().len() == offset as usize {
                Ok(Some(ValueOp::Put(Val::Text(text.copy(alloc)?))))
            } else {
                Ok(None)
            }
        }
        _ => Ok(None),
    }
}

fn undo_longer(alloc: Global, items: &Vals, offset: u32) -> Mem<Option<ValueOp>>
    ensures { IfOk result
        (λ u. maybe_edit u ≡ inverted.of_list offset (list (items_of items.now))) }
{
    if items.len() == offset as usize {
        Ok(Some(ValueOp::Put(Val::List(items.copy(alloc)?))))
    } else {
        Ok(None)
    }
}
