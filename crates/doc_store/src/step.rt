//! Diffs that are applied to a store.
ghost use Rattle.std.specs.Prelude.{◌≡◌, ◌+◌, ◌≤◌, ◌↔◌, length, IfOk, OnOk, OnErr, option_map};
ghost use Rattle.std.specs.Option.{option_copied};
ghost use Rattle.rooms_val.specs.Maps.{added};
ghost use Rattle.field_ops.specs.View.{maybe_data};
ghost use Rattle.field_ops.specs.ViewRecordOps.{change_of, maybe_change};
ghost use Rattle.field_ops.specs.Patched.{raw};
ghost use Rattle.schema_core.specs.SchemaOf.{schema_tree};
ghost use Rattle.doc_model.specs.Documents.{acts_on, left_on, step, step_at};
ghost use Rattle.doc_model.specs.Inverses.{inverse_diff, inverse_of_op};
ghost use Rattle.doc_store.specs.Checking.{admits_by};
ghost use Rattle.doc_store.specs.declared.store.TheConstants.{MOST_OPEN};

use crate::store::DocStore;
use field_ops::{Diff, RecordOp, apply_record, inverse};
use rooms_val::{Mem, Steps, Text, TxnFault, Val};
use schema_core::Schema;
use std::alloc::Global;
use std::sync::ledger::Ledger;

/// Applies a diff: a put acts always, a remove where the record is there, and a patch where it leaves a record that the
/// schema admits.
///
/// `checked` says that the diff was looked at before; it asks for no check. Where `checked` is true, the caller vouches that
/// the schema admits each record that a patch of the diff leaves. `apply` then doesn't look at these records again, and a
/// patch acts wherever it leaves a record.
///
/// Returns the diff that undoes what acted. It counts at most a step for each operation. `TooNested` exactly where 16 or
/// more transactions are open, or `OutOfMemory`; then the records are as before.
pub fn apply<D: DocStore, L: Ledger>(
    alloc: Global,
    store: &mut D,
    schema: &Schema,
    checked: bool,
    diff: &Diff,
    steps: &mut Steps<L>,
) -> Result<Diff, TxnFault>
    ensures ok { OnOk result (D.records store.new
        ≡ step (admits_by checked (schema_tree schema.now)) (D.records store.old) diff.now) }
    ensures back { IfOk result (λ back. back ≡ inverse_diff
        (admits_by checked (schema_tree schema.now)) (D.records store.old) diff.now) }
    ensures nested { (result ≡ Err TxnFault.TooNested) ↔ (MOST_OPEN ≤ length (D.begun store.old)) }
    ensures err { OnErr result (D.records store.new ≡ D.records store.old) }
    ensures begun { D.begun store.new ≡ D.begun store.old }
    ensures rest { D.rest store.new ≡ D.rest store.old }
    ensures ticks { steps.new ≤ steps.old + length diff.now }
{
    store.begin()?;
    match apply_each(alloc, store, schema, checked, diff, steps) {
        Ok(back) => {
            store.commit();
            Ok(back)
        }
        Err(_) => {
            store.abort();
            Err(TxnFault::OutOfMemory)
        }
    }
}

// The step, operation by operation. Where `checked` is true, the caller vouches that the schema admits each record that a
// patch of the diff leaves, and these records aren't looked at again.
fn apply_each<D: DocStore, L: Ledger>(
    alloc: Global,
    store: &mut D,
    schema: &Schema,
    checked: bool,
    diff: &Diff,
    steps: &mut Steps<L>,
) -> Mem<Diff>
    ensures ok { OnOk result (D.records store.new
        ≡ step (admits_by checked (schema_tree schema.now)) (D.records store.old) diff.now) }
    ensures back { IfOk result (λ back. back ≡ inverse_diff
        (admits_by checked (schema_tree schema.now)) (D.records store.old) diff.now) }
    ensures begun { D.begun store.new ≡ D.begun store.old }
    ensures rest { D.rest store.new ≡ D.rest store.old }
    ensures ticks { steps.new ≤ steps.old + length diff.now }
{
    let mut back = Diff::new(alloc);
    'ids: for (id, op) in diff.as_slice() {
        let undo = apply_one(alloc, store, schema, checked, id, op, steps)?;
        keep(alloc, &mut back, id, undo)?;
    }
    Ok(back)
}

// Does one operation, where it acts, and returns what undoes it. Where `checked` is true, the caller vouches that the schema
// admits the record that a patch leaves, and that record isn't looked at again.
fn apply_one<D: DocStore, L: Ledger>(
    alloc: Global,
    store: &mut D,
    schema: &Schema,
    checked: bool,
    id: &Text,
    op: &RecordOp,
    steps: &mut Steps<L>,
) -> Mem<Option<RecordOp>>
    ensures ok { OnOk result (D.records store.new
        ≡ step_at (admits_by checked (schema_tree schema.now)) (D.records store.old) id.now
        (change_of op.now)) }
    ensures back { IfOk result (λ undo. maybe_change undo
        ≡ inverse_of_op (admits_by checked (schema_tree schema.now)) (D.records store.old) id.now
        (change_of op.now)) }
    ensures begun { D.begun store.new ≡ D.begun store.old }
    ensures rest { D.rest store.new ≡ D.rest store.old }
    ensures ticks { steps.new ≤ steps.old + 1 }
{
    let before = store.get(id.as_str());
    let left = step_record(alloc, schema, checked, id.as_str(), before, op)?;
    match left {
        Some(after) => {
            let undo = inverse(alloc, before, op)?;
            drop(store.write(alloc, id.as_str(), after, steps)?);
            Ok(undo)
        }
        None => Ok(None),
    }
}

/// What an operation leaves of the record under an id, or of the lack of one: a record or none. `None` exactly where the
/// operation is passed over, as a remove of no record, and a patch that leaves no record that the schema admits. It costs
/// the record and the operation.
///
/// `checked` says that the operation was looked at before; it asks for no check. Where `checked` is true, the caller vouches
/// that the schema admits the record that a patch leaves. `step_record` then doesn't look at that record again, and a patch
/// is passed over only where it leaves no record at all.
pub fn step_record(
    alloc: Global,
    schema: &Schema,
    checked: bool,
    id: &str,
    stored: Option<&Val>,
    op: &RecordOp,
) -> Mem<Option<Option<Val>>>
    ensures { IfOk result (λ left. option_map maybe_data left
        ≡ left_on (admits_by checked (schema_tree schema.now)) id.now (change_of op.now)
        (maybe_data (option_copied stored.entry))) }
{
    let after = apply_record(alloc, stored, op)?;
    if acts(schema, checked, id, stored, &after, op) {
        Ok(Some(after))
    } else {
        Ok(None)
    }
}

// Whether an operation acts that makes one record of another. Where `checked` is true, the caller vouches that the schema
// admits the record that a patch leaves, and that record isn't looked at again.
fn acts(
    schema: &Schema,
    checked: bool,
    id: &str,
    before: Option<&Val>,
    after: &Option<Val>,
    op: &RecordOp,
) -> bool
    requires { maybe_data after.now ≡ raw (change_of op.now) (maybe_data (option_copied before)) }
    ensures { result ≡ acts_on (admits_by checked (schema_tree schema.now)) id.now
        (change_of op.now) (maybe_data (option_copied before.entry)) }
{
    match op {
        RecordOp::Put(_) => true,
        RecordOp::Remove => before.is_some(),
        RecordOp::Patch(_) => match after {
            Some(val) => checked || schema.admits(id, val).is_ok(),
            None => false,
        },
    }
}

// Puts what there is under an id.
fn keep(alloc: Global, back: &mut Diff, id: &Text, undo: Option<RecordOp>) -> Mem<()>
    ensures { OnOk result (back.new ≡ added back.old id.now (maybe_change undo)) }
{
    if let Some(op) = undo {
        back.put(id.copy(alloc)?, op)?;
    }
    Ok(())
}
