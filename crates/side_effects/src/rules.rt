//! The rules that refuse an edit, each asked of all operations in the order of their ids.
ghost use Rattle.std.specs.Prelude.{◌≡◌, [], option_map};
ghost use Rattle.std.specs.Option.{option_copied};
ghost use Rattle.rooms_val.specs.Answers.{Gives};
ghost use Rattle.rooms_val.specs.View.{data_of};
ghost use Rattle.field_ops.specs.RecordOps.{put, remove};
ghost use Rattle.field_ops.specs.ViewRecordOps.{change_of};
ghost use Rattle.schema_core.specs.SchemaOf.{schema_tree};
ghost use Rattle.side_effects.specs.Completed.{wrong_scope, no_record, invalid, refuses};
ghost use Rattle.side_effects.specs.Completed.{first_refusal, refusal};
ghost use Rattle.side_effects.specs.declared.fault.EditFault.TheVariants as edit_fault;

use crate::chains::check_chain;
use crate::fault::EditFault;
use crate::whole::{check_end, check_parent};
use doc_store::DocStore;
use field_ops::{Diff, RecordOp, apply_record};
use rooms_val::{Text, Val};
use schema_core::Schema;
use std::alloc::Global;

/// A rule of which each operation is asked by itself.
#[derive(Clone, Copy)]
pub(crate) enum Rule {
    // The id is of document scope.
    Scope,
    // What is patched or removed is there.
    There,
    // The record that is left is admitted.
    Admitted,
    // The parent of a shape is there.
    Parent,
    // A shape doesn't stand on its own chain of parents.
    Chain,
    // The ends of a binding are there.
    Ends,
}

/// Refuses the first operation that a rule refuses: the one of the least id. Rules of what is left ask what the diff makes
/// of the store's records.
pub(crate) fn check_each<D: DocStore>(
    alloc: Global,
    rule: Rule,
    schema: &Schema,
    store: &D,
    diff: &Diff,
    wanted: &Diff,
) -> Result<(), EditFault>
    ensures { Gives edit_fault.OutOfMemory (λ _. tt) result (refusal (first_refusal
        (refuses rule (schema_tree schema.now) (D.records store.now) diff.now) wanted.now)) }
{
    for entry in wanted.as_slice() {
        check_one(alloc, rule, schema, store, diff, entry)?;
    }
    Ok(())
}

// Refuses an operation that a rule refuses.
fn check_one<D: DocStore>(
    alloc: Global,
    rule: Rule,
    schema: &Schema,
    store: &D,
    diff: &Diff,
    entry: &(Text, RecordOp),
) -> Result<(), EditFault>
    ensures { Gives edit_fault.OutOfMemory (λ _. tt) result (refusal
        (refuses rule (schema_tree schema.now) (D.records store.now) diff.now
        entry.now.0 (change_of entry.now.1))) }
{
    let (id, op) = entry;
    match rule {
        Rule::Scope => check_scope(alloc, schema, id),
        Rule::There => check_record(alloc, store, id, op),
        Rule::Admitted => check_result(alloc, schema, store, id, op),
        Rule::Parent => check_parent(alloc, store, diff, id),
        Rule::Chain => check_chain(alloc, store, diff, id),
        Rule::Ends => check_end(alloc, store, diff, id),
    }
}

// Refuses an id that isn't of document scope.
fn check_scope(alloc: Global, schema: &Schema, id: &Text) -> Result<(), EditFault>
    ensures { Gives edit_fault.OutOfMemory (λ _. tt) result
        (refusal (wrong_scope (schema_tree schema.now) id.now remove)) }
{
    if !schema.is_document(id.as_str()) {
        return Err(EditFault::WrongScope(id.copy(alloc)?));
    }
    Ok(())
}

// Refuses to patch or remove a record that isn't there.
fn check_record<D: DocStore>(
    alloc: Global,
    store: &D,
    id: &Text,
    op: &RecordOp,
) -> Result<(), EditFault>
    ensures { Gives edit_fault.OutOfMemory (λ _. tt) result
        (refusal (no_record (D.records store.now) id.now (change_of op.now))) }
{
    match op {
        RecordOp::Put(_) => Ok(()),
        RecordOp::Patch(_) => check_there(alloc, store, id),
        RecordOp::Remove => check_there(alloc, store, id),
    }
}

// Refuses an id without a record.
fn check_there<D: DocStore>(alloc: Global, store: &D, id: &Text) -> Result<(), EditFault>
    ensures { Gives edit_fault.OutOfMemory (λ _. tt) result
        (refusal (no_record (D.records store.now) id.now remove)) }
{
    match store.get(id.as_str()) {
        Some(_) => Ok(()),
        None => Err(EditFault::NoRecord(id.copy(alloc)?)),
    }
}

// Refuses an operation that leaves a record that isn't admitted.
fn check_result<D: DocStore>(
    alloc: Global,
    schema: &Schema,
    store: &D,
    id: &Text,
    op: &RecordOp,
) -> Result<(), EditFault>
    ensures { Gives edit_fault.OutOfMemory (λ _. tt) result (refusal
        (invalid (schema_tree schema.now) (D.records store.now) id.now (change_of op.now))) }
{
    match op {
        RecordOp::Put(left) => check_admitted(alloc, schema, id, left),
        RecordOp::Patch(_) => match apply_record(alloc, store.get(id.as_str()), op)? {
            Some(left) => check_admitted(alloc, schema, id, &left),
            None => Ok(()),
        },
        RecordOp::Remove => Ok(()),
    }
}

// Refuses a record that isn't admitted.
fn check_admitted(alloc: Global, schema: &Schema, id: &Text, left: &Val) -> Result<(), EditFault>
    ensures { Gives edit_fault.OutOfMemory (λ _. tt) result (refusal
        (invalid (schema_tree schema.now) [] id.now (put (data_of left.now)))) }
{
    match schema.admits(id.as_str(), left) {
        Ok(_) => Ok(()),
        Err(fault) => Err(EditFault::Invalid(id.copy(alloc)?, fault)),
    }
}
