//! A store's document after a diff, looked at without writing to the store.
ghost use Rattle.std.specs.Prelude.{◌≡◌, IfOk, is_some, option_map};
ghost use Rattle.rooms_val.specs.Maps.{value_at, AreRising};
ghost use Rattle.field_ops.specs.ViewRecordOps.{change_of};
ghost use Rattle.field_ops.specs.Patched.{raw};
ghost use Rattle.doc_model.specs.Documents.{fold_raw};
ghost use Rattle.shape_tree.specs.Records.{text_or_empty};
ghost use Rattle.shape_tree.specs.View.{maybe_data};
ghost use Rattle.side_effects.specs.Records.{has};
ghost use Rattle.side_effects.specs.Whole.{parent_at};
ghost use Rattle.side_effects.specs.Removed.{is_remove, removes};

use crate::records::{is_shape, text_or_empty};
use doc_store::DocStore;
use field_ops::{Diff, RecordOp, apply_record};
use rooms_val::{Mem, Text, Val};
use std::alloc::Global;

// That the ids of a diff rise is told by its length.
pub(crate) fn tell_rising(diff: &Diff)
    ensures { AreRising diff.now }
{
    let _ = diff.len();
}

// That the ids of a store's records rise is told by a look-up.
pub(crate) fn tell_store<D: DocStore>(store: &D)
    ensures { AreRising (D.records store.now) }
{
    let _ = store.get("");
}

// Whether the operation is a remove.
pub(crate) fn is_remove(op: &RecordOp) -> bool
    ensures { result ≡ is_remove (change_of op.now) }
{
    match op {
        RecordOp::Put(_) => false,
        RecordOp::Patch(_) => false,
        RecordOp::Remove => true,
    }
}

// Whether the diff removes the record of an id.
pub(crate) fn removes(diff: &Diff, id: &str) -> bool
    ensures { result ≡ removes diff.now id.now }
{
    match diff.get(id) {
        Some(op) => is_remove(op),
        None => false,
    }
}

// Whether a record is there after the diff.
pub(crate) fn has_after<D: DocStore>(store: &D, diff: &Diff, id: &str) -> bool
    ensures { result ≡ has (fold_raw (D.records store.now) diff.now) id.now }
{
    tell_rising(diff);
    match diff.get(id) {
        Some(op) => leaves_record(store, id, op),
        None => store.get(id).is_some(),
    }
}

// Whether the operation leaves a record under the id, admitted or not.
fn leaves_record<D: DocStore>(store: &D, id: &str, op: &RecordOp) -> bool
    ensures { result ≡ is_some (raw (change_of op.now) (value_at (D.records store.now) id.now)) }
{
    match op {
        RecordOp::Put(_) => true,
        RecordOp::Patch(_) => store.get(id).is_some(),
        RecordOp::Remove => false,
    }
}

// The text under a key of the record that is there after the diff, if one is; the empty text where it has none.
pub(crate) fn text_after<D: DocStore>(
    alloc: Global,
    store: &D,
    diff: &Diff,
    id: &str,
    key: &str,
) -> Mem<Option<Text>>
    ensures { IfOk result (λ t. t ≡ option_map (λ d. text_or_empty d key.now)
        (value_at (fold_raw (D.records store.now) diff.now) id.now)) }
{
    tell_rising(diff);
    match diff.get(id) {
        Some(op) => text_left(alloc, store, id, op, key),
        None => text_of(alloc, store.get(id), key),
    }
}

// The text under a key of the record that an operation leaves under the id, if it leaves one. A record is copied only where
// the operation patches that key.
fn text_left<D: DocStore>(
    alloc: Global,
    store: &D,
    id: &str,
    op: &RecordOp,
    key: &str,
) -> Mem<Option<Text>>
    ensures { IfOk result (λ t. t ≡ option_map (λ d. text_or_empty d key.now)
        (raw (change_of op.now) (value_at (D.records store.now) id.now))) }
{
    match op {
        RecordOp::Put(val) => text_of(alloc, Some(val), key),
        RecordOp::Patch(patch) => {
            let before = store.get(id);
            if patch.get(key).is_none() {
                return text_of(alloc, before, key);
            }
            let after = apply_record(alloc, before, op)?;
            text_of(alloc, after.as_ref(), key)
        }
        RecordOp::Remove => Ok(None),
    }
}

// The parent of the shape that is under an id after the diff, if one is.
pub(crate) fn parent_after<D: DocStore>(
    alloc: Global,
    store: &D,
    diff: &Diff,
    id: &str,
) -> Mem<Option<Text>>
    ensures { IfOk result (λ t. t ≡ parent_at (fold_raw (D.records store.now) diff.now) id.now) }
{
    if is_shape(id) {
        text_after(alloc, store, diff, id, "parentId")
    } else {
        Ok(None)
    }
}

// The text under a key of a record, if there is one.
fn text_of(alloc: Global, stored: Option<&Val>, key: &str) -> Mem<Option<Text>>
    ensures { IfOk result (λ t. t
        ≡ option_map (λ d. text_or_empty d key.now) (maybe_data stored.entry)) }
{
    match stored {
        Some(val) => Ok(Some(Text::of(alloc, text_or_empty(val, key))?)),
        None => Ok(None),
    }
}
