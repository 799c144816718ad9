//! What operations do to a base, whose document and whose presence of others stand apart.
ghost use Rattle.std.specs.Prelude.{◌≡◌, ◌+◌, ◌≤◌, [], ◌∷◌, length, Some, IfOk, OnOk};
ghost use Rattle.rooms_val.specs.Maps.{AreRising, set_at};
ghost use Rattle.field_ops.specs.View.{maybe_data};
ghost use Rattle.field_ops.specs.ViewRecordOps.{change_of};
ghost use Rattle.schema_core.specs.Admits.{is_admitted, is_document};
ghost use Rattle.schema_core.specs.SchemaOf.{schema_tree};
ghost use Rattle.std.specs.Option.{option_copied};
ghost use Rattle.doc_model.specs.Documents.{step, step_at};
ghost use Rattle.doc_model.specs.Inverses.{record_after};
ghost use Rattle.client_replica.specs.Parts.{ops_with};
ghost use Rattle.room_schemas.specs.Decided.{is_presence};

use doc_store::{DocStore, step_record};
use field_ops::{Diff, RecordOp};
use rooms_val::{Fields, Mem, Steps, Text, Val};
use schema_core::{Schema, Scope};
use std::alloc::Global;
use std::sync::ledger::Ledger;

/// The step of a base by a diff: the document's part is done to the store, that of presences to the others.
pub(crate) fn step_base<D: DocStore, L: Ledger>(
    alloc: Global,
    schema: &Schema,
    store: &mut D,
    others: &mut Fields,
    diff: &Diff,
    steps: &mut Steps<L>,
) -> Mem<()>
    ensures document { OnOk result (D.records store.new
        ≡ step (is_admitted (schema_tree schema.now)) (D.records store.old) (ops_with (is_document
        (schema_tree schema.now)) diff.now)) }
    ensures presence { OnOk result (others.new
        ≡ step (is_admitted (schema_tree schema.now)) others.old (ops_with (is_presence
        (schema_tree schema.now)) diff.now)) }
    ensures begun { D.begun store.new ≡ D.begun store.old }
    ensures rest { D.rest store.new ≡ D.rest store.old }
    ensures ticks { steps.new ≤ steps.old + length diff.now }
{
    'ids: for (id, op) in diff.as_slice() {
        step_part(alloc, schema, store, others, id, op, steps)?;
    }
    Ok(())
}

// Does one operation to the part of a base that its id belongs to, or to none.
fn step_part<D: DocStore, L: Ledger>(
    alloc: Global,
    schema: &Schema,
    store: &mut D,
    others: &mut Fields,
    id: &Text,
    op: &RecordOp,
    steps: &mut Steps<L>,
) -> Mem<()>
    ensures document { OnOk result (D.records store.new
        ≡ step (is_admitted (schema_tree schema.now)) (D.records store.old) (ops_with (is_document
        (schema_tree schema.now)) ((id.now, change_of op.now) ∷ []))) }
    ensures presence { OnOk result (others.new
        ≡ step (is_admitted (schema_tree schema.now)) others.old (ops_with (is_presence
        (schema_tree schema.now)) ((id.now, change_of op.now) ∷ []))) }
    ensures begun { D.begun store.new ≡ D.begun store.old }
    ensures rest { D.rest store.new ≡ D.rest store.old }
    ensures ticks { steps.new ≤ steps.old + 1 }
{
    match schema.scope_of(id.as_str()) {
        Some(Scope::Document) => step_store(alloc, schema, store, id, op, steps),
        Some(Scope::Presence) => step_others(alloc, schema, others, id, op),
        Some(Scope::Session) => Ok(()),
        None => Ok(()),
    }
}

/// Does one operation to the record that a store has, where it acts.
pub(crate) fn step_store<D: DocStore, L: Ledger>(
    alloc: Global,
    schema: &Schema,
    store: &mut D,
    id: &Text,
    op: &RecordOp,
    steps: &mut Steps<L>,
) -> Mem<()>
    ensures ok { OnOk result (D.records store.new
        ≡ step_at (is_admitted (schema_tree schema.now)) (D.records store.old) id.now
        (change_of op.now)) }
    ensures begun { D.begun store.new ≡ D.begun store.old }
    ensures rest { D.rest store.new ≡ D.rest store.old }
    ensures ticks { steps.new ≤ steps.old + 1 }
{
    let left = step_record(
        alloc,
        schema,
        false,
        id.as_str(),
        store.get(id.as_str()),
        op,
    )?;
    if let Some(after) = left {
        drop(store.write(alloc, id.as_str(), after, steps)?);
    }
    Ok(())
}

/// What an operation leaves of the record under an id, or of the lack of one: the same where the operation is passed over.
pub(crate) fn record_left(
    alloc: Global,
    schema: &Schema,
    id: &str,
    before: Option<&Val>,
    op: &RecordOp,
) -> Mem<Option<Val>>
    ensures { IfOk result (λ after. maybe_data after
        ≡ record_after (is_admitted (schema_tree schema.now)) id.now (Some (change_of op.now))
        (maybe_data (option_copied before.entry))) }
{
    let left = step_record(alloc, schema, false, id, before, op)?;
    match left {
        Some(after) => Ok(after),
        None => {
            let same = Val::copy_of(alloc, before)?;
            Ok(same)
        }
    }
}

/// Does one operation to the presence under an id, where it acts.
pub(crate) fn step_others(
    alloc: Global,
    schema: &Schema,
    others: &mut Fields,
    id: &Text,
    op: &RecordOp,
) -> Mem<()>
    ensures { OnOk result (others.new
        ≡ step_at (is_admitted (schema_tree schema.now)) others.old id.now (change_of op.now)) }
{
    let left = step_record(
        alloc,
        schema,
        false,
        id.as_str(),
        others.get(id.as_str()),
        op,
    )?;
    if let Some(after) = left {
        set(alloc, others, id, after)?;
    }
    Ok(())
}

// Sets the presence under an id, or takes it away.
fn set(alloc: Global, others: &mut Fields, id: &Text, after: Option<Val>) -> Mem<()>
    ensures { OnOk result (others.new ≡ set_at others.old id.now (maybe_data after)) }
{
    match after {
        Some(val) => drop(others.put(id.copy(alloc)?, val)?),
        None => drop(others.take(id.as_str())?),
    }
    Ok(())
}

/// Takes all records of a store away.
pub(crate) fn clear<D: DocStore, L: Ledger>(
    alloc: Global,
    store: &mut D,
    steps: &mut Steps<L>,
) -> Mem<()>
    ensures ok { OnOk result (AreRising (D.records store.old) → D.records store.new ≡ []) }
    ensures begun { D.begun store.new ≡ D.begun store.old }
    ensures rest { D.rest store.new ≡ D.rest store.old }
    ensures ticks { steps.new ≤ steps.old + length (D.records store.old) }
{
    let ids = store.ids(alloc)?;
    'ids: for id in &ids {
        drop(store.write(alloc, id.as_str(), None, steps)?);
    }
    Ok(())
}
