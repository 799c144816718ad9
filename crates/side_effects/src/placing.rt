//! Indices for new shapes that have none, each behind the children that its parent has so far.
ghost use Rattle.std.specs.Prelude.{◌≡◌, if◌then◌else◌, ℕ, List, ◌∷◌, true, None, Err, IfOk, IfErr, OnOk, option_map};
ghost use Rattle.std.specs.Option.{option_map_or};
ghost use Rattle.std.specs.Ordering.{is_lt};
ghost use Rattle.rooms_val.specs.Answers.{Gives};
ghost use Rattle.rooms_val.specs.Maps.{order, with_key};
ghost use Rattle.rooms_val.specs.View.{data_of};
ghost use Rattle.field_ops.specs.RecordOps.{RecordOps, put};
ghost use Rattle.field_ops.specs.ViewRecordOps.{change_of};
ghost use Rattle.schema_core.specs.SchemaOf.{schema_tree};
ghost use Rattle.doc_model.specs.Documents.{fold_raw};
ghost use Rattle.index_keys.specs.Between.{between};
ghost use Rattle.side_effects.specs.Placed.{is_unplaced, placed, unplaced, with_index, put_behind, or_no_key, all_placed};
ghost use Rattle.side_effects.specs.Records.{parent_of, index_of};
ghost use Rattle.side_effects.specs.Tops.{top_in, raised, raised_by, AreTops, IsPlacing};
ghost use Rattle.side_effects.specs.declared.fault.EditFault.TheVariants as edit_fault;

use crate::after::{tell_rising, tell_store, text_after};
use crate::fault::EditFault;
use crate::records::{is_shape, lacks_index, text_or_empty};
use doc_store::DocStore;
use field_ops::{Diff, RecordOp};
use index_keys::{BetweenFault, between};
use rooms_val::{Fields, Mem, Text, Val};
use schema_core::Schema;
use std::alloc::Global;

// Whether the operation puts a shape that isn't there, in a map without the key `index`.
fn is_unplaced<D: DocStore>(store: &D, id: &str, op: &RecordOp) -> bool
    ensures { result ≡ is_unplaced (D.records store.now) id.now (change_of op.now) }
{
    match op {
        RecordOp::Put(val) => is_shape(id) && lacks_index(val) && store.get(id).is_none(),
        RecordOp::Patch(_) => false,
        RecordOp::Remove => false,
    }
}

/// The operations of a diff but the puts of such shapes. It copies them.
pub(crate) fn placed_part<D: DocStore>(alloc: Global, store: &D, wanted: &Diff) -> Mem<Diff>
    ensures { IfOk result (λ d. d ≡ placed (D.records store.now) wanted.now) }
{
    let mut diff = Diff::new(alloc);
    'ids: for (id, op) in wanted.as_slice() {
        keep_placed(alloc, store, &mut diff, id, op)?;
    }
    Ok(diff)
}

// Adds the operation, unless it puts such a shape.
fn keep_placed<D: DocStore>(
    alloc: Global,
    store: &D,
    diff: &mut Diff,
    id: &Text,
    op: &RecordOp,
) -> Mem<()>
    ensures { OnOk result (diff.new
        ≡ (if is_unplaced (D.records store.now) id.now (change_of op.now) then diff.old
        else with_key diff.old id.now (change_of op.now))) }
{
    if is_unplaced(store, id.as_str(), op) {
        return Ok(());
    }
    diff.put(id.copy(alloc)?, op.copy(alloc)?)?;
    Ok(())
}

/// The diff with the puts of such shapes of the wanted diff, each with an index. If there are any, it looks at each record
/// of the store once.
pub(crate) fn with_placed<D: DocStore>(
    alloc: Global,
    schema: &Schema,
    store: &D,
    wanted: &Diff,
    diff: Diff,
) -> Result<Diff, EditFault>
    requires { diff ≡ placed (D.records store.now) wanted.now }
    ensures { Gives edit_fault.OutOfMemory (λ d. d) result
        (all_placed (schema_tree schema.now) (D.records store.now) diff
        (unplaced (D.records store.now) wanted.now)) }
{
    tell_store(store);
    if diff.len() == wanted.len() {
        return Ok(diff);
    }
    let mut tops = tops_of(alloc, store, &diff)?;
    let mut diff = diff;
    'ids: for (id, op) in wanted.as_slice() {
        place(alloc, schema, store, &mut tops, &mut diff, id, op)?;
    }
    Ok(diff)
}

// Adds the put of a shape without index, with an index behind its parent's children, and makes that the greatest one.
// Another operation adds nothing.
fn place<D: DocStore>(
    alloc: Global,
    schema: &Schema,
    store: &D,
    tops: &mut Fields,
    diff: &mut Diff,
    id: &Text,
    op: &RecordOp,
) -> Result<(), EditFault>
    ensures stands { OnOk result ((left : RecordOps)
        → IsPlacing (D.records store.now) tops.old diff.old ((id.now, change_of op.now) ∷ left)
        → IsPlacing (D.records store.now) tops.new diff.new left) }
    ensures next { OnOk result ((left : RecordOps)
        → IsPlacing (D.records store.now) tops.old diff.old ((id.now, change_of op.now) ∷ left)
        → all_placed (schema_tree schema.now) (D.records store.now) diff.old
        (unplaced (D.records store.now) ((id.now, change_of op.now) ∷ left))
        ≡ all_placed (schema_tree schema.now) (D.records store.now) diff.new
        (unplaced (D.records store.now) left)) }
    ensures refused { IfErr result (λ e. ¬ (e ≡ edit_fault.OutOfMemory) → (left : RecordOps)
        → IsPlacing (D.records store.now) tops.old diff.old ((id.now, change_of op.now) ∷ left)
        → all_placed (schema_tree schema.now) (D.records store.now) diff.old
        (unplaced (D.records store.now) ((id.now, change_of op.now) ∷ left)) ≡ Err e) }
{
    if !is_unplaced(store, id.as_str(), op) {
        return Ok(());
    }
    match op {
        RecordOp::Put(val) => {
            let shape = placed_behind(alloc, schema, tops, id, val)?;
            raise_to(alloc, tops, &shape)?;
            diff.put(id.copy(alloc)?, RecordOp::Put(shape))?;
            Ok(())
        }
        RecordOp::Patch(_) => Ok(()),
        RecordOp::Remove => Ok(()),
    }
}

// The shape with an index behind what is kept for its parent.
fn placed_behind(
    alloc: Global,
    schema: &Schema,
    tops: &Fields,
    id: &Text,
    val: &Val,
) -> Result<Val, EditFault>
    ensures { Gives edit_fault.OutOfMemory (λ v. put (data_of v)) result
        (put_behind (schema_tree schema.now) id.now (data_of val.now)
        (top_in tops.now (parent_of (data_of val.now)))) }
{
    let key = key_behind(alloc, tops.text_at(text_or_empty(val, "parentId")))?;
    let shape = with_index(alloc, val, key)?;
    match schema.admits(id.as_str(), &shape) {
        Ok(_) => Ok(shape),
        Err(fault) => Err(EditFault::Invalid(id.copy(alloc)?, fault)),
    }
}

// The key behind an index, if there is one.
fn key_behind(alloc: Global, index: Option<&str>) -> Result<Text, EditFault>
    ensures { Gives edit_fault.OutOfMemory (λ key. key) result
        (or_no_key (between (option_map (λ t. t.now) index.entry) None)) }
{
    match between(alloc, index, None) {
        Ok(key) => Ok(Text::of(alloc, key.as_str())?),
        Err(BetweenFault::OutOfMemory) => Err(EditFault::OutOfMemory),
        Err(fault) => Err(EditFault::NoKey(fault)),
    }
}

// The record with an index, if it is a map.
fn with_index(alloc: Global, val: &Val, key: Text) -> Mem<Val>
    ensures { IfOk result (λ v. data_of v ≡ with_index (data_of val.now) key) }
{
    match val.copy(alloc)? {
        Val::Map(mut fields) => {
            fields.put(Text::of(alloc, "index")?, Val::Text(key))?;
            Ok(Val::Map(fields))
        }
        other => Ok(other),
    }
}

// The greatest index among the children of each parent after the diff, by the parent.
fn tops_of<D: DocStore>(alloc: Global, store: &D, diff: &Diff) -> Mem<Fields>
    ensures { IfOk result (λ tops. AreTops (fold_raw (D.records store.now) diff.now) tops) }
{
    tell_store(store);
    tell_rising(diff);
    let mut tops = Fields::new(alloc);
    let ids = store.ids(alloc)?;
    'held: for id in &ids {
        raise_by(alloc, &mut tops, store, diff, id)?;
    }
    'named: for (id, _) in diff.as_slice() {
        raise_by(alloc, &mut tops, store, diff, id)?;
    }
    Ok(tops)
}

// Raises the greatest index of a parent's children by the one of the shape under an id, if it is one.
fn raise_by<D: DocStore>(
    alloc: Global,
    tops: &mut Fields,
    store: &D,
    diff: &Diff,
    id: &Text,
) -> Mem<()>
    ensures { OnOk result ((parent : List ℕ) → top_in tops.new parent
        ≡ raised_by (fold_raw (D.records store.now) diff.now) id.now parent
        (top_in tops.old parent)) }
{
    if !is_shape(id.as_str()) {
        return Ok(());
    }
    let parent = text_after(alloc, store, diff, id.as_str(), "parentId")?;
    let index = text_after(alloc, store, diff, id.as_str(), "index")?;
    if let Some(parent) = parent {
        if let Some(index) = index {
            return raise(tops, parent, index);
        }
    }
    Ok(())
}

// Raises it by the index of a shape.
fn raise_to(alloc: Global, tops: &mut Fields, shape: &Val) -> Mem<()>
    ensures { OnOk result ((other : List ℕ) → top_in tops.new other
        ≡ raised (parent_of (data_of shape.now)) (index_of (data_of shape.now)) other
        (top_in tops.old other)) }
{
    let parent = Text::of(alloc, text_or_empty(shape, "parentId"))?;
    let index = Text::of(alloc, text_or_empty(shape, "index"))?;
    raise(tops, parent, index)
}

// Raises the greatest index of a parent's children to an index.
fn raise(tops: &mut Fields, parent: Text, index: Text) -> Mem<()>
    ensures { OnOk result ((other : List ℕ) → top_in tops.new other
        ≡ raised parent index other (top_in tops.old other)) }
{
    if !is_above(index.as_str(), tops.text_at(parent.as_str())) {
        return Ok(());
    }
    tops.put(parent, Val::Text(index))?;
    Ok(())
}

// Whether the index is greater than another, if there is one.
fn is_above(index: &str, held: Option<&str>) -> bool
    ensures { result ≡ option_map_or (λ k. is_lt (order k index.now))
        (option_map (λ t. t.now) held.entry) true }
{
    match held {
        Some(held) => held < index,
        None => true,
    }
}
