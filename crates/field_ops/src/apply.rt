//! What operations make of maps and records.
ghost use Rattle.std.specs.Prelude.{◌≡◌, ◌++◌, IfOk, OnOk};
ghost use Rattle.std.specs.Option.{option_copied};
ghost use Rattle.rooms_val.specs.View.{data_of};
ghost use Rattle.rooms_val.specs.Maps.{set_at};
ghost use Rattle.field_ops.specs.ValueOps.{edits_of};
ghost use Rattle.field_ops.specs.View.{edit_of, maybe_data};
ghost use Rattle.field_ops.specs.ViewRecordOps.{change_of};
ghost use Rattle.rooms_val.specs.Kinds.{on_map};
ghost use Rattle.field_ops.specs.Patched.{appended, edited, lengthened, patched, raw};

use crate::object_diff::ObjectDiff;
use crate::record_op::RecordOp;
use crate::value_op::ValueOp;
use rooms_val::{Fields, Mem, Text, Val, Vals};
use std::alloc::Global;

/// The map under a patch: each key that the patch names is set to what its operation makes of its value. It costs a copy of
/// each value of the map, which shares it, and a logarithm of the map for each key that the patch names.
#[cycle(apply)]
pub fn apply_object(alloc: Global, map: &Fields, diff: &ObjectDiff) -> Mem<Fields>
    ensures { IfOk result (λ f. f ≡ patched (edits_of diff.now) map.now) }
{
    // That the keys rise is told by the length.
    let _ = map.len();
    let mut result = map.copy(alloc)?;
    'ops: for (key, op) in diff.as_slice() {
        let val = edited_val(alloc, result.get(key.as_str()), op)?;
        set(alloc, &mut result, key, val)?;
    }
    let _ = result.len();
    Ok(result)
}

/// The record under an operation, or none where there is none after it. Where the patched record is no map it stays as
/// it is.
pub fn apply_record(alloc: Global, before: Option<&Val>, op: &RecordOp) -> Mem<Option<Val>>
    ensures { IfOk result
        (λ r. maybe_data r ≡ raw (change_of op.now) (maybe_data (option_copied before.entry))) }
{
    match op {
        RecordOp::Put(val) => Ok(Some(val.copy(alloc)?)),
        RecordOp::Patch(diff) => match before {
            Some(val) => Ok(Some(patched_val(alloc, val, diff)?)),
            None => Ok(None),
        },
        RecordOp::Remove => Ok(None),
    }
}

/// The value under a patch. What is no map stays as it is.
#[cycle(apply)]
pub(crate) fn patched_val(alloc: Global, val: &Val, diff: &ObjectDiff) -> Mem<Val>
    ensures { IfOk result
        (λ v. data_of v ≡ on_map (λ f. patched (edits_of diff.now) f) (data_of val.now)) }
{
    match val {
        Val::Map(fields) => Ok(Val::Map(apply_object(alloc, fields, diff)?)),
        _ => Ok(val.copy(alloc)?),
    }
}

// Sets the value under a key, or takes it away.
fn set(alloc: Global, fields: &mut Fields, key: &Text, val: Option<Val>) -> Mem<()>
    ensures { OnOk result (fields.new ≡ set_at fields.old key.now (maybe_data val)) }
{
    match val {
        Some(val) => drop(fields.put(key.copy(alloc)?, val)?),
        None => drop(fields.take(key.as_str())?),
    }
    Ok(())
}

// What an operation makes of the value at a key, or of none.
#[cycle(apply)]
fn edited_val(alloc: Global, old: Option<&Val>, op: &ValueOp) -> Mem<Option<Val>>
    ensures { IfOk result
        (λ v. maybe_data v ≡ edited (edit_of op.now) (maybe_data (option_copied old.entry))) }
{
    match op {
        ValueOp::Put(val) => Ok(Some(val.copy(alloc)?)),
        ValueOp::Patch(diff) => match old {
            Some(val) => Ok(Some(patched_val(alloc, val, diff)?)),
            None => Ok(None),
        },
        ValueOp::Append(vals, offset) => match old {
            Some(val) => Ok(Some(appended_val(alloc, val, vals, *offset)?)),
            None => Ok(None),
        },
        ValueOp::AppendText(text, offset) => match old {
            Some(val) => Ok(Some(lengthened_val(alloc, val, text, *offset)?)),
            None => Ok(None),
        },
        ValueOp::Delete => Ok(None),
    }
}

// A list of the offset's length followed by the values. What is no such list stays as it is.
fn appended_val(alloc: Global, val: &Val, vals: &Vals, offset: u32) -> Mem<Val>
    ensures { IfOk result (λ v. data_of v ≡ appended vals.now offset (data_of val.now)) }
{
    match val {
        Val::List(items) => {
            if items.len() == offset as usize {
                Ok(Val::List(join_lists(alloc, items, vals)?))
            } else {
                Ok(Val::List(items.copy(alloc)?))
            }
        }
        _ => Ok(val.copy(alloc)?),
    }
}

// A text of the offset's length in bytes followed by the other. What is no such text stays as it is.
fn lengthened_val(alloc: Global, val: &Val, more: &Text, offset: u32) -> Mem<Val>
    ensures { IfOk result (λ v. data_of v ≡ lengthened more.now offset (data_of val.now)) }
{
    match val {
        Val::Text(text) => {
            if text.as_str().len() == offset as usize {
                Ok(Val::Text(text.followed_by(alloc, more)?))
            } else {
                Ok(Val::Text(text.copy(alloc)?))
            }
        }
        _ => Ok(val.copy(alloc)?),
    }
}

// One list followed by another.
fn join_lists(alloc: Global, items: &Vals, more: &Vals) -> Mem<Vals>
    ensures { IfOk result (λ l. l ≡ items.now ++ more.now) }
{
    let mut list = items.copy(alloc)?;
    for val in more.as_slice() {
        list.push(val.copy(alloc)?)?;
    }
    Ok(list)
}
