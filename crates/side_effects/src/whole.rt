//! Whether the document is whole after an edit, in what the edit names: pages, parents and ends.
ghost use Rattle.std.specs.Prelude.{◌≡◌, ◌&&◌, ◌||◌, IfOk};
ghost use Rattle.std.specs.List.{list_any};
ghost use Rattle.rooms_val.specs.Answers.{Gives};
ghost use Rattle.field_ops.specs.RecordOps.{remove};
ghost use Rattle.doc_model.specs.Documents.{fold_raw};
ghost use Rattle.side_effects.specs.Completed.{refusal};
ghost use Rattle.side_effects.specs.Records.{is_page};
ghost use Rattle.side_effects.specs.Removed.{is_remove};
ghost use Rattle.side_effects.specs.Whole.{is_page_in, last_page, has_parent, has_shape};
ghost use Rattle.side_effects.specs.Whole.{no_parent, no_end, leads_to_shape};
ghost use Rattle.side_effects.specs.declared.fault.EditFault.TheVariants as edit_fault;

use crate::after::{has_after, is_remove, parent_after, tell_rising, text_after};
use crate::fault::EditFault;
use crate::records::{is_binding, is_page, is_shape};
use doc_store::DocStore;
use field_ops::Diff;
use rooms_val::{Mem, Text};
use std::alloc::Global;

/// Refuses to leave no page. It looks at the store only if a page is removed.
pub(crate) fn check_pages<D: DocStore>(
    alloc: Global,
    store: &D,
    diff: &Diff,
) -> Result<(), EditFault>
    ensures { Gives edit_fault.OutOfMemory (λ _. tt) result
        (refusal (last_page (D.records store.now) (fold_raw (D.records store.now) diff.now))) }
{
    tell_rising(diff);
    if !removes_page(diff) {
        return Ok(());
    }
    let ids = store.ids(alloc)?;
    let held = ids.as_slice();
    if !had_page(held) {
        return Ok(());
    }
    if has_page(store, diff, held) {
        return Ok(());
    }
    Err(EditFault::LastPage)
}

// Whether the diff removes a page.
fn removes_page(diff: &Diff) -> bool
    ensures { result ≡ list_any (λ c. is_page c.0 && is_remove c.1) diff.now }
{
    'ids: for (id, op) in diff.as_slice() {
        if is_page(id.as_str()) && is_remove(op) {
            return true;
        }
    }
    false
}

// Whether one of the ids is a page's.
fn had_page(ids: &[Text]) -> bool
    ensures { result ≡ list_any (λ id. is_page id) ids.now }
{
    ids.iter().any(|id| is_page(id.as_str()))
}

// Whether there is a page after the diff; the ids are the store's.
fn has_page<D: DocStore>(store: &D, diff: &Diff, ids: &[Text]) -> bool
    ensures { result ≡ (list_any (is_page_in (fold_raw (D.records store.now) diff.now)) ids.now
        || list_any (λ c. is_page_in (fold_raw (D.records store.now) diff.now) c.0) diff.now) }
{
    'held: for id in ids {
        if is_page_after(store, diff, id.as_str()) {
            return true;
        }
    }
    'named: for (id, _) in diff.as_slice() {
        if is_page_after(store, diff, id.as_str()) {
            return true;
        }
    }
    false
}

// Whether a page is there under the id after the diff.
fn is_page_after<D: DocStore>(store: &D, diff: &Diff, id: &str) -> bool
    ensures { result ≡ is_page_in (fold_raw (D.records store.now) diff.now) id.now }
{
    is_page(id) && has_after(store, diff, id)
}

/// Refuses a shape whose parent isn't there.
pub(crate) fn check_parent<D: DocStore>(
    alloc: Global,
    store: &D,
    diff: &Diff,
    id: &Text,
) -> Result<(), EditFault>
    ensures { Gives edit_fault.OutOfMemory (λ _. tt) result
        (refusal (no_parent (fold_raw (D.records store.now) diff.now) id.now remove)) }
{
    match parent_after(alloc, store, diff, id.as_str())? {
        Some(parent) => {
            if has_parent(store, diff, parent.as_str()) {
                Ok(())
            } else {
                Err(EditFault::NoParent(id.copy(alloc)?))
            }
        }
        None => Ok(()),
    }
}

// Whether a page or a shape is there under the id after the diff.
fn has_parent<D: DocStore>(store: &D, diff: &Diff, id: &str) -> bool
    ensures { result ≡ has_parent (fold_raw (D.records store.now) diff.now) id.now }
{
    (is_page(id) || is_shape(id)) && has_after(store, diff, id)
}

// Whether a shape is there under the id after the diff.
fn has_shape<D: DocStore>(store: &D, diff: &Diff, id: &str) -> bool
    ensures { result ≡ has_shape (fold_raw (D.records store.now) diff.now) id.now }
{
    is_shape(id) && has_after(store, diff, id)
}

/// Refuses a binding of which an end isn't there.
pub(crate) fn check_end<D: DocStore>(
    alloc: Global,
    store: &D,
    diff: &Diff,
    id: &Text,
) -> Result<(), EditFault>
    ensures { Gives edit_fault.OutOfMemory (λ _. tt) result
        (refusal (no_end (fold_raw (D.records store.now) diff.now) id.now remove)) }
{
    if !is_binding(id.as_str()) {
        return Ok(());
    }
    if leads_to_shape(alloc, store, diff, id.as_str(), "fromId")?
        && leads_to_shape(alloc, store, diff, id.as_str(), "toId")?
    {
        return Ok(());
    }
    Err(EditFault::NoEnd(id.copy(alloc)?))
}

// Whether the record under an id, if it is there after the diff, names a shape that is there too.
fn leads_to_shape<D: DocStore>(
    alloc: Global,
    store: &D,
    diff: &Diff,
    id: &str,
    key: &str,
) -> Mem<bool>
    ensures { IfOk result (λ b. b
        ≡ leads_to_shape (fold_raw (D.records store.now) diff.now) id.now key.now) }
{
    match text_after(alloc, store, diff, id, key)? {
        Some(end) => Ok(has_shape(store, diff, end.as_str())),
        None => Ok(true),
    }
}
