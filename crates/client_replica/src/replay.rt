//! Pending edits are replayed: over a store, with a stash of what stood there, or over one record.
ghost use Rattle.std.specs.Prelude.{◌≡◌, ◌+◌, ◌≤◌, ◌||◌, [], ◌∷◌, ℕ, List, length, drop, map, slice_get, option_map, unwrap_or, IfOk, OnOk, is_some};
ghost use Rattle.rooms_val.specs.Data.{Pairs};
ghost use Rattle.rooms_val.specs.Maps.{value_at, AreRising};
ghost use Rattle.schema_core.specs.Admits.{is_admitted};
ghost use Rattle.field_ops.specs.View.{maybe_data};
ghost use Rattle.schema_core.specs.SchemaOf.{schema_tree};
ghost use Rattle.doc_model.specs.Documents.{step, replay};
ghost use Rattle.std.specs.Option.{option_copied};
ghost use Rattle.client_replica.specs.Works.{work_of, diffs_in, operations};
ghost use Rattle.client_replica.specs.Stashes.{under, is_named, IsStash};

use crate::stash::Stash;
use crate::stepping::{record_left, step_store};
use crate::work::Work;
use doc_store::DocStore;
use field_ops::Diff;
use rooms_val::{Mem, Steps, Val};
use schema_core::Schema;
use std::alloc::Global;
use std::collections::VecDeque;
use std::sync::ledger::Ledger;

/// Does a diff to a store, and keeps in the stash what stood there under the ids that it names.
pub(crate) fn replay_diff<D: DocStore, L: Ledger>(
    alloc: Global,
    schema: &Schema,
    store: &mut D,
    stash: &mut Stash,
    diff: &Diff,
    steps: &mut Steps<L>,
) -> Mem<()>
    ensures ok { OnOk result (D.records store.new
        ≡ step (is_admitted (schema_tree schema.now)) (D.records store.old) diff.now) }
    ensures base { OnOk result ((id : List ℕ)
        → under stash.new (D.records store.new) id ≡ under stash.old (D.records store.old) id) }
    ensures exact { OnOk result ((id : List ℕ)
        → is_some (value_at stash.new id)
        ≡ is_some (value_at stash.old id) || is_some (value_at diff.now id)) }
    ensures few { OnOk result (length stash.new ≤ length stash.old + length diff.now) }
    ensures rising { OnOk result (AreRising stash.new) }
    ensures begun { D.begun store.new ≡ D.begun store.old }
    ensures rest { D.rest store.new ≡ D.rest store.old }
    ensures ticks { steps.new ≤ steps.old + length diff.now }
{
    stash.tell_rising();
    'ids: for (id, op) in diff.as_slice() {
        stash.keep(alloc, &*store, id.as_str())?;
        step_store(alloc, schema, store, id, op, steps)?;
    }
    Ok(())
}

/// Replays the edits among the works from a place on, and returns what stood under the ids that they name.
pub(crate) fn replay<D: DocStore, L: Ledger>(
    alloc: Global,
    schema: &Schema,
    store: &mut D,
    works: &VecDeque<Work>,
    from: usize,
    steps: &mut Steps<L>,
) -> Mem<Stash>
    ensures ok { OnOk result (D.records store.new
        ≡ replay (is_admitted (schema_tree schema.now)) (D.records store.old) (diffs_in
        (map work_of (drop from works.now.items)))) }
    ensures stash { IfOk result
        (λ stash. IsStash (D.records store.old) (diffs_in (map work_of
        (drop from works.now.items))) (D.records store.new) stash) }
    ensures begun { D.begun store.new ≡ D.begun store.old }
    ensures rest { D.rest store.new ≡ D.rest store.old }
    ensures ticks { steps.new
        ≤ steps.old + operations (diffs_in (map work_of (drop from works.now.items))) }
{
    let mut stash = Stash::new(alloc);
    let mut place = from;
    'works: while let Some(work) = work_at(works, place) {
        replay_work(alloc, schema, store, &mut stash, work, steps)?;
        place += 1;
    }
    Ok(stash)
}

// Replays a work, where it is an edit.
fn replay_work<D: DocStore, L: Ledger>(
    alloc: Global,
    schema: &Schema,
    store: &mut D,
    stash: &mut Stash,
    work: &Work,
    steps: &mut Steps<L>,
) -> Mem<()>
    ensures ok { OnOk result (D.records store.new
        ≡ replay (is_admitted (schema_tree schema.now)) (D.records store.old) (diffs_in
        (work_of work.now ∷ []))) }
    ensures base { OnOk result ((id : List ℕ)
        → under stash.new (D.records store.new) id ≡ under stash.old (D.records store.old) id) }
    ensures exact { OnOk result ((id : List ℕ)
        → is_some (value_at stash.new id)
        ≡ is_some (value_at stash.old id) || is_named (diffs_in (work_of work.now ∷ [])) id) }
    ensures few { OnOk result (length stash.new
        ≤ length stash.old + operations (diffs_in (work_of work.now ∷ []))) }
    ensures rising { OnOk result (AreRising stash.new) }
    ensures begun { D.begun store.new ≡ D.begun store.old }
    ensures rest { D.rest store.new ≡ D.rest store.old }
    ensures ticks { steps.new ≤ steps.old + operations (diffs_in (work_of work.now ∷ [])) }
{
    stash.tell_rising();
    match work {
        Work::Edit(diff) => replay_diff(alloc, schema, store, stash, diff, steps),
        Work::Presence(_) => Ok(()),
    }
}

/// What the edits among the works from a place on make of the record under an id, or of the lack of one.
pub(crate) fn replay_at(
    alloc: Global,
    schema: &Schema,
    works: &VecDeque<Work>,
    from: usize,
    id: &str,
    slot: &Option<Val>,
) -> Mem<Option<Val>>
    ensures { IfOk result (λ after. (m : Pairs) → value_at m id.now ≡ maybe_data slot.now
        → value_at (replay (is_admitted (schema_tree schema.now)) m (diffs_in
        (map work_of (drop from works.now.items)))) id.now ≡ maybe_data after) }
{
    let mut stored = Val::copy_slot(alloc, slot)?;
    let mut place = from;
    'works: while let Some(work) = work_at(works, place) {
        stored = replay_work_at(alloc, schema, work, id, stored)?;
        place += 1;
    }
    Ok(stored)
}

// What a work makes of the record under an id, or of the lack of one.
fn replay_work_at(
    alloc: Global,
    schema: &Schema,
    work: &Work,
    id: &str,
    before: Option<Val>,
) -> Mem<Option<Val>>
    ensures { IfOk result (λ after. (m : Pairs) → value_at m id.now ≡ maybe_data before
        → value_at (replay (is_admitted (schema_tree schema.now)) m (diffs_in
        (work_of work.now ∷ []))) id.now ≡ maybe_data after) }
{
    match work {
        Work::Edit(diff) => {
            // That the diff names each id once is told by its type.
            let _ = diff.len();
            match diff.get(id) {
                Some(op) => {
                    let after = record_left(alloc, schema, id, before.as_ref(), op)?;
                    drop(before);
                    Ok(after)
                }
                None => Ok(before),
            }
        }
        Work::Presence(_) => Ok(before),
    }
}

// The work at a place, the oldest at 0. `None` exactly past the end.
pub(crate) fn work_at(works: &VecDeque<Work>, place: usize) -> Option<&Work>
    ensures { option_copied result ≡ slice_get works.now.items place }
{
    works.get(place)
}
