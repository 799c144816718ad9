//! What an edit is completed to.
ghost use Rattle.rooms_val.specs.Answers.{Gives};
ghost use Rattle.schema_core.specs.SchemaOf.{schema_tree};
ghost use Rattle.side_effects.specs.Completed.{completed, indexed, not_whole, refusal};
ghost use Rattle.side_effects.specs.declared.fault.EditFault.TheVariants as edit_fault;

use crate::fault::EditFault;
use crate::placing::{placed_part, with_placed};
use crate::removing::with_removes;
use crate::rules::{Rule, check_each};
use crate::whole::check_pages;
use doc_store::DocStore;
use field_ops::Diff;
use schema_core::Schema;
use std::alloc::Global;

/// How many operations an edit may have.
const MOST_OPERATIONS: usize = 8_192;

/// The diff that an edit makes of a store's records: the wanted one, with an index for each new shape that has none, and a
/// remove for each record that hangs on a removed one.
///
/// A new shape without index gets the key behind the greatest index among the children that its parent has so far. A shape
/// hangs on its parent and a binding on its two ends, as they are after the edit; what goes is the least set with the
/// removed records and whatever hangs on one of the set.
///
/// It costs what the diff names, with a look-up in the store for each id. Only where a shape gets an index, or a record is
/// removed, or a chain has more than 64 parents, each record of the store is looked at.
///
/// # Errors
/// The first of these that applies, with the least id to which it applies:
/// - `TooMany`: the wanted diff has more than 8,192 operations.
/// - `WrongScope`: the id isn't of document scope.
/// - `NoRecord`: the id is patched or removed, and has no record.
/// - `Invalid`: the record after the edit isn't admitted. The new shapes without index come after the others.
/// - `NoKey`: such a shape has no key behind its parent's children. It comes with `Invalid` of such shapes, by id.
/// - `LastPage`: the store has a page, and has none after the edit.
/// - `NoParent`: the shape that the edit names is there afterwards, and its parent isn't.
/// - `UnderItself`: the shape that the edit names stands on its own chain of parents afterwards.
/// - `NoEnd`: the binding that the edit names is there afterwards, and a shape at one of its ends isn't.
/// - `TooMany` again: the completed diff has more than 8,192 operations.
///
/// `OutOfMemory` may come in place of any.
pub fn complete<D: DocStore>(
    alloc: Global,
    schema: &Schema,
    store: &D,
    wanted: &Diff,
) -> Result<Diff, EditFault>
    ensures { Gives edit_fault.OutOfMemory (λ d. d) result
        (completed (schema_tree schema.now) (D.records store.now) wanted.now) }
{
    if wanted.len() > MOST_OPERATIONS {
        return Err(EditFault::TooMany);
    }
    let diff = with_indices(alloc, schema, store, wanted)?;
    let diff = with_removes(alloc, store, diff)?;
    check_whole(alloc, schema, store, &diff, wanted)?;
    if diff.len() > MOST_OPERATIONS {
        return Err(EditFault::TooMany);
    }
    Ok(diff)
}

// The wanted diff with an index for each new shape that has none.
fn with_indices<D: DocStore>(
    alloc: Global,
    schema: &Schema,
    store: &D,
    wanted: &Diff,
) -> Result<Diff, EditFault>
    ensures { Gives edit_fault.OutOfMemory (λ d. d) result
        (indexed (schema_tree schema.now) (D.records store.now) wanted.now) }
{
    check_each(alloc, Rule::Scope, schema, store, wanted, wanted)?;
    check_each(alloc, Rule::There, schema, store, wanted, wanted)?;
    let diff = placed_part(alloc, store, wanted)?;
    check_each(alloc, Rule::Admitted, schema, store, &diff, &diff)?;
    with_placed(alloc, schema, store, wanted, diff)
}

// Refuses a diff after which the document isn't whole in what the wanted one names.
fn check_whole<D: DocStore>(
    alloc: Global,
    schema: &Schema,
    store: &D,
    diff: &Diff,
    wanted: &Diff,
) -> Result<(), EditFault>
    ensures { Gives edit_fault.OutOfMemory (λ _. tt) result
        (refusal (not_whole (D.records store.now) wanted.now diff.now)) }
{
    check_pages(alloc, store, diff)?;
    check_each(alloc, Rule::Parent, schema, store, diff, wanted)?;
    check_each(alloc, Rule::Chain, schema, store, diff, wanted)?;
    check_each(alloc, Rule::Ends, schema, store, diff, wanted)
}
