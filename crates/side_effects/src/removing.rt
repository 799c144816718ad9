//! What goes with the records that an edit removes: the shapes and bindings that hang on them.
ghost use Rattle.std.specs.Prelude.{◌≡◌, ◌<◌, ◌++◌, false, true, IfOk, OnOk, vec_len};
ghost use Rattle.std.specs.List.{list_any};
ghost use Rattle.rooms_val.specs.Maps.{with_key};
ghost use Rattle.field_ops.specs.RecordOps.{RecordOps, remove};
ghost use Rattle.doc_model.specs.Documents.{fold_raw};
ghost use Rattle.side_effects.specs.Removed.{is_remove, with_removes};
ghost use Rattle.side_effects.specs.Links.{Links, links, link_by, Sweeps, AreFree};

use crate::after::{is_remove, removes, tell_rising, text_after};
use crate::records::{is_binding, is_shape};
use doc_store::DocStore;
use field_ops::{Diff, RecordOp};
use rooms_val::{Mem, Text};
use std::alloc::Global;

// Ids with an id on which the record under each hangs.
type Links = Vec<(Text, Text)>;

/// The diff with a remove for each record that goes with those that it removes. If it removes any, it looks at each record
/// of the store once, and at the links that are left once for each level that they lead down.
pub(crate) fn with_removes<D: DocStore>(alloc: Global, store: &D, diff: Diff) -> Mem<Diff>
    ensures { IfOk result (λ all. all ≡ with_removes (D.records store.now) diff) }
{
    tell_rising(&diff);
    if !has_remove(&diff) {
        return Ok(diff);
    }
    let mut links = links_of(alloc, store, &diff)?;
    let mut all = diff;
    'sweeps: loop {
        if !sweep(alloc, &mut links, &mut all)? {
            return Ok(all);
        }
    }
}

// Whether the diff has a remove.
fn has_remove(diff: &Diff) -> bool
    ensures { result ≡ list_any (λ c. is_remove c.1) diff.now }
{
    for (_, op) in diff.as_slice() {
        if is_remove(op) {
            return true;
        }
    }
    false
}

// Removes what hangs on a removed record, and takes out its links. Whether there were any.
fn sweep(alloc: Global, links: &mut Links, all: &mut Diff) -> Mem<bool>
    ensures swept { OnOk result ((links_of : Links) (old : RecordOps)
        → Sweeps links_of old links.old.items all.old
        → Sweeps links_of old links.new.items all.new) }
    ensures free { IfOk result (λ found. found ≡ false → AreFree links.new.items all.new) }
    ensures fewer { IfOk result (λ found. found ≡ true → vec_len links.new < vec_len links.old) }
{
    let mut left = Vec::new(alloc);
    let mut found = false;
    let taken = std::mem::replace(links, Vec::new(alloc));
    'links: for (id, holder) in taken {
        if removes(all, holder.as_str()) {
            put_removal(all, id, holder)?;
            found = true;
        } else {
            left.push((id, holder))?;
        }
    }
    *links = left;
    Ok(found)
}

// Removes the record of an id too, and lets go of what it hung on.
fn put_removal(all: &mut Diff, id: Text, _holder: Text) -> Mem<()>
    ensures { OnOk result (all.new ≡ with_key all.old id remove) }
{
    let _ = all.put(id, RecordOp::Remove)?;
    Ok(())
}

// The links of the store's records, as these are after the diff.
fn links_of<D: DocStore>(alloc: Global, store: &D, diff: &Diff) -> Mem<Links>
    ensures { IfOk result (λ found. found.items
        ≡ links (D.records store.now) (fold_raw (D.records store.now) diff.now)) }
{
    let mut found = Vec::new(alloc);
    let ids = store.ids(alloc)?;
    'ids: for id in &ids {
        if is_shape(id.as_str()) {
            push_link(alloc, &mut found, store, diff, id, "parentId")?;
        } else if is_binding(id.as_str()) {
            push_link(alloc, &mut found, store, diff, id, "fromId")?;
            push_link(alloc, &mut found, store, diff, id, "toId")?;
        }
    }
    Ok(found)
}

// Adds the link by a field of the record under an id, if it is there after the diff.
fn push_link<D: DocStore>(
    alloc: Global,
    found: &mut Links,
    store: &D,
    diff: &Diff,
    id: &Text,
    key: &str,
) -> Mem<()>
    ensures { OnOk result (found.new.items ≡ found.old.items
        ++ link_by (fold_raw (D.records store.now) diff.now) id.now key.now) }
{
    if let Some(holder) = text_after(alloc, store, diff, id.as_str(), key)? {
        found.push((id.copy(alloc)?, holder))?;
    }
    Ok(())
}
