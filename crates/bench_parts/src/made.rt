//! What the calls are given: ids, values, and diffs that patch one record.
ghost use Rattle.std.specs.Prelude.{◌≡◌, false, IfOk};
ghost use Rattle.undo_marks.specs.Inverses.{diff_has_append};

use field_ops::{Diff, ObjectDiff, RecordOp, ValueOp};
use rooms_val::{Fields, Mem, OutOfMemory, Text, Val};
use std::alloc::Global;

/// So many ids of a type, by rising number.
pub(crate) fn ids_of(alloc: Global, type_name: &str, count: u32) -> Mem<Vec<Text>> {
    let mut ids = Vec::new(alloc);
    for number in 0..count {
        ids.push(id_of(alloc, type_name, number)?)?;
    }
    Ok(ids)
}

/// The id of a number.
pub(crate) fn id_of(alloc: Global, type_name: &str, number: u32) -> Mem<Text> {
    let id = format!(in alloc; "{type_name}:{number:06}")?;
    Text::of(alloc, id.as_str())
}

/// The value of a text, which is one: another fault than that of memory can't be.
pub(crate) fn value(alloc: Global, text: &str) -> Mem<Val> {
    match Val::read(alloc, text.as_bytes()) {
        Ok(val) => Ok(val),
        Err(_) => Err(OutOfMemory),
    }
}

/// The record that a text tells, which is a map, with these texts under their keys.
pub(crate) fn record_of(alloc: Global, text: &str, rows: &[(&str, &str)]) -> Mem<Val> {
    let mut fields = fields_of(alloc, text)?;
    put_texts(alloc, &mut fields, rows)?;
    Ok(Val::Map(fields))
}

/// The fields of the map that a text tells.
fn fields_of(alloc: Global, text: &str) -> Mem<Fields> {
    match value(alloc, text)? {
        Val::Map(fields) => Ok(fields),
        _ => Err(OutOfMemory),
    }
}

/// Puts texts under their keys.
fn put_texts(alloc: Global, fields: &mut Fields, rows: &[(&str, &str)]) -> Mem<()> {
    for (key, text) in rows {
        let val = Val::Text(Text::of(alloc, text)?);
        drop(fields.put(Text::of(alloc, key)?, val)?);
    }
    Ok(())
}

/// The patch that puts a value under a key.
pub(crate) fn patch(alloc: Global, key: &str, val: Val) -> Mem<RecordOp> {
    let mut fields = ObjectDiff::new(alloc);
    drop(fields.put(Text::of(alloc, key)?, ValueOp::Put(val))?);
    Ok(RecordOp::Patch(fields))
}

/// The diff that does an operation on the record of an id.
pub(crate) fn diff_of(alloc: Global, id: &Text, op: RecordOp) -> Mem<Diff> {
    let mut diff = Diff::new(alloc);
    drop(diff.put(id.copy(alloc)?, op)?);
    Ok(diff)
}

/// The diff that moves the shape of an id to an x.
pub(crate) fn move_diff(alloc: Global, id: &Text, x: i64) -> Mem<Diff>
    ensures { IfOk result (λ diff. diff_has_append diff ≡ false) }
{
    let mut fields = ObjectDiff::new(alloc);
    drop(fields.put(Text::of(alloc, "x")?, ValueOp::Put(Val::Int(x)))?);
    let mut diff = Diff::new(alloc);
    drop(diff.put(id.copy(alloc)?, RecordOp::Patch(fields))?);
    Ok(diff)
}
