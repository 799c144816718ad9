//! Chains of parents, from a shape up.
ghost use Rattle.std.specs.Prelude.{◌≡◌, ◌<◌, ℕ, IfOk, MatchOption, false, length, bytes_eq};
ghost use Rattle.rooms_val.specs.Answers.{Gives};
ghost use Rattle.field_ops.specs.RecordOps.{remove};
ghost use Rattle.doc_model.specs.Documents.{fold_raw};
ghost use Rattle.side_effects.specs.Completed.{refusal};
ghost use Rattle.side_effects.specs.Whole.{meets_itself, meets_within, under_itself};
ghost use Rattle.side_effects.specs.declared.fault.EditFault.TheVariants as edit_fault;

use crate::after::parent_after;
use crate::fault::EditFault;
use doc_store::DocStore;
use field_ops::Diff;
use rooms_val::{Mem, Text};
use std::alloc::Global;

// How far up a chain is followed before the records are counted.
const FEW_STEPS: usize = 64;

/// Refuses a shape that stands on its own chain of parents. It costs the chain; the store's ids are counted only where the
/// chain has more than 64 parents.
pub(crate) fn check_chain<D: DocStore>(
    alloc: Global,
    store: &D,
    diff: &Diff,
    id: &Text,
) -> Result<(), EditFault>
    ensures { Gives edit_fault.OutOfMemory (λ _. tt) result
        (refusal (under_itself (fold_raw (D.records store.now) diff.now) id.now remove)) }
{
    if meets_itself(alloc, store, diff, id.as_str())? {
        return Err(EditFault::UnderItself(id.copy(alloc)?));
    }
    Ok(())
}

// Whether the id stands on its own chain of parents after the diff.
fn meets_itself<D: DocStore>(alloc: Global, store: &D, diff: &Diff, id: &str) -> Mem<bool>
    ensures { IfOk result (λ b. b ≡ meets_itself (fold_raw (D.records store.now) diff.now) id.now) }
{
    if let Some(met) = walk_up(alloc, store, diff, id, FEW_STEPS)? {
        return Ok(met);
    }
    let most = steps_up(alloc, store, diff)?;
    Ok(walk_up(alloc, store, diff, id, most)?.unwrap_or(false))
}

// One more than there are records after the diff, at least.
fn steps_up<D: DocStore>(alloc: Global, store: &D, diff: &Diff) -> Mem<usize>
    ensures { IfOk result (λ steps. length (fold_raw (D.records store.now) diff.now) < steps) }
{
    let ids = store.ids(alloc)?;
    let named = diff.as_slice();
    Ok(ids.len() + named.len() + 1)
}

// Whether the id is met within so many steps up from it: `None` where the chain leads further.
fn walk_up<D: DocStore>(
    alloc: Global,
    store: &D,
    diff: &Diff,
    id: &str,
    steps: usize,
) -> Mem<Option<bool>>
    ensures { IfOk result (λ met. MatchOption met
        ((n : ℕ) → n < steps
        → meets_within n (fold_raw (D.records store.now) diff.now) id.now ≡ false)
        (λ b. b ≡ meets_itself (fold_raw (D.records store.now) diff.now) id.now)) }
{
    let mut next = parent_after(alloc, store, diff, id)?;
    'steps: for _step in 0..steps {
        match next {
            Some(above) => {
                if is_same(above.as_str(), id) {
                    return Ok(Some(true));
                }
                next = parent_after(alloc, store, diff, above.as_str())?;
            }
            None => return Ok(Some(false)),
        }
    }
    Ok(None)
}

// Whether two ids are the same.
fn is_same(a: &str, b: &str) -> bool
    ensures { result ≡ bytes_eq a.now b.now }
{
    a == b
}
