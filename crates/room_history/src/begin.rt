//! What is kept of a history that begins from what was saved.
ghost use Rattle.std.specs.Prelude.{◌≡◌, ◌≤ℤ◌, ◌<ℤ◌, ◌^◌, ◌-◌, ℕ, ℤ, int_le, int_lt, ◌&&◌, pos, nat_abs, min, [], Some, true, IfOk, IfErr, OnOk, map, All, fold, is_some, if◌then◌else◌, ◌≢◌, None};
ghost use Rattle.std.specs.Ordering.{int_cmp};
ghost use Rattle.std.specs.List.{list_all};
ghost use Rattle.std.specs.List.Sorted.{IsStrictlySortedBy};
ghost use Rattle.std.specs.Map.{keys_of};
ghost use Rattle.std.specs.BTreeMap.{get};
ghost use Rattle.rooms_val.specs.Maps.{seen, with_key};
ghost use Rattle.field_ops.specs.Patched.{raw};
ghost use Rattle.field_ops.specs.View.{maybe_data};
ghost use Rattle.field_ops.specs.ViewRecordOps.{change_of};
ghost use Rattle.schema_core.specs.SchemaOf.{schema_tree};
ghost use Rattle.change_list.specs.Changes.{listed, AreUpTo};
ghost use Rattle.room_model.specs.Saves.{diff_at, with_record, with_tomb};
ghost use Rattle.room_history.specs.Entries.{recent_tree};
ghost use Rattle.room_history.specs.Begins.{left_of, mark_new, mark_diff, mark_diffs, diff_in, AreWithin, trees_after};

use crate::check::own_id;
use crate::recent_entry::{RecentEntry, remember};
use change_list::ChangeList;
use circular_buffer::HeapCircularBuffer;
use field_ops::{Diff, RecordOp};
use room_model::limits::MOST_TOLD;
use room_model::{Entry, SavedRecord, SavedRoom};
use rooms_val::{Mem, OutOfMemory, Text, Val};
use std::alloc::Global;
use std::collections::BTreeMap;

// What each clock of a saved room did: its diff, by clock.
pub(crate) fn diffs_of(alloc: Global, saved: &SavedRoom) -> Mem<BTreeMap<i64, Diff>>
    requires start { pos 0 ≤ℤ saved.now.start }
    requires records { list_all (λ r. int_le (pos 1) r.clock && int_le r.clock saved.now.clock)
        saved.now.documents.items ≡ true }
    requires tombs { list_all
        (λ t. int_lt saved.now.start t.clock && int_le t.clock saved.now.clock)
        saved.now.tombstones.items ≡ true }
    ensures diffs { IfOk result (λ diffs. (n : ℕ) → diff_in diffs (pos n) ≡ diff_at saved.now n) }
    ensures within { IfOk result (λ diffs. AreWithin (pos 0) saved.now.clock diffs) }
{
    let mut diffs = BTreeMap::new(alloc);
    'records: for saved in &saved.documents {
        add_record(alloc, &mut diffs, saved)?;
    }
    'tombs: for tomb in &saved.tombstones {
        let id = tomb.id.copy(alloc)?;
        add(alloc, &mut diffs, tomb.clock, id, RecordOp::Remove)?;
    }
    Ok(diffs)
}

// Adds the put of a saved record, which says its id, to the diff of its clock.
fn add_record(alloc: Global, diffs: &mut BTreeMap<i64, Diff>, saved: &SavedRecord) -> Mem<()>
    requires { pos 0 ≤ℤ saved.now.clock }
    ensures diffs { OnOk result ((n : ℕ)
        → diff_in diffs.new (pos n) ≡ with_record n (diff_in diffs.old (pos n)) saved.now) }
    ensures elsewhere { OnOk result ((z : ℤ) → z ≢ saved.now.clock
        → get int_cmp diffs.new z ≡ get int_cmp diffs.old z) }
{
    let Some(id) = own_id(saved) else {
        return Ok(());
    };
    let id = Text::of(alloc, id)?;
    let record = saved.record.copy(alloc)?;
    add(alloc, diffs, saved.clock, id, RecordOp::Put(record))?;
    Ok(())
}

// Adds an operation to the diff of a clock.
fn add(
    alloc: Global,
    diffs: &mut BTreeMap<i64, Diff>,
    clock: i64,
    id: Text,
    op: RecordOp,
) -> Mem<()>
    ensures at { OnOk result (diff_in diffs.new clock
        ≡ with_key (diff_in diffs.old clock) id (change_of op)) }
    ensures elsewhere { OnOk result ((z : ℤ) → z ≢ clock
        → get int_cmp diffs.new z ≡ get int_cmp diffs.old z) }
{
    let mut diff = take(alloc, diffs, clock);
    drop(diff.put(id, op)?);
    match diffs.insert(clock, diff) {
        Ok(_) => Ok(()),
        Err(_) => Err(OutOfMemory),
    }
}

// Takes the diff of a clock; if there is none, the one that names no id.
fn take(alloc: Global, diffs: &mut BTreeMap<i64, Diff>, clock: i64) -> Diff
    ensures diff { result ≡ diff_in diffs.old clock }
    ensures elsewhere { (z : ℤ) → z ≢ clock
        → get int_cmp diffs.new z ≡ get int_cmp diffs.old z }
{
    match diffs.remove(&clock) {
        Some(diff) => diff,
        None => Diff::new(alloc),
    }
}

// Lets each id of diffs be live or dead since the clock of its diff.
pub(crate) fn mark_diffs(
    alloc: Global,
    changes: &mut ChangeList,
    diffs: &BTreeMap<i64, Diff>,
) -> Mem<()>
    requires { (changes.old.live ≡ []) × (changes.old.dead ≡ []) }
    ensures lists { OnOk result ((changes.new.live, changes.new.dead)
        ≡ mark_diffs diffs.now.entries ([], [])) }
    ensures start { OnOk result (changes.new.start ≡ changes.old.start) }
    ensures sorted { IsStrictlySortedBy int_cmp (keys_of diffs.now.entries) }
{
    'diffs: for (clock, diff) in diffs {
        mark_diff(alloc, changes, *clock, diff)?;
    }
    Ok(())
}

// Lets each id of a diff be live or dead since a clock.
fn mark_diff(alloc: Global, changes: &mut ChangeList, clock: i64, diff: &Diff) -> Mem<()>
    requires { AreUpTo clock (listed changes.old) }
    ensures lists { OnOk result ((changes.new.live, changes.new.dead)
        ≡ mark_diff clock diff.now (changes.old.live, changes.old.dead)) }
    ensures latest { OnOk result (AreUpTo clock (listed changes.new)) }
    ensures start { OnOk result (changes.new.start ≡ changes.old.start) }
{
    'ids: for (id, op) in diff.as_slice() {
        mark_new(alloc, changes, id, is_put(op), clock)?;
    }
    Ok(())
}

// Lets an id be live or dead since a clock, wherever it was listed.
fn mark_new(alloc: Global, changes: &mut ChangeList, id: &Text, live: bool, clock: i64) -> Mem<()>
    requires { AreUpTo clock (listed changes.old) }
    ensures lists { OnOk result ((changes.new.live, changes.new.dead)
        ≡ mark_new clock id.now live (changes.old.live, changes.old.dead)) }
    ensures latest { OnOk result (AreUpTo clock (listed changes.new)) }
    ensures start { OnOk result (changes.new.start ≡ changes.old.start) }
{
    changes.touch(id.copy(alloc)?, clock)?;
    if !live {
        changes.bury(id.as_str(), clock);
    }
    Ok(())
}

// Whether an operation leaves a record if there is none.
fn is_put(op: &RecordOp) -> bool
    ensures { result ≡ is_some (raw (change_of op.now) None) }
{
    match op {
        RecordOp::Put(_) => true,
        RecordOp::Patch(_) => false,
        RecordOp::Remove => false,
    }
}

// The last 32 entries up to a clock, if each clock did what its diff says.
pub(crate) fn recent_of(
    alloc: Global,
    clock: i64,
    diffs: BTreeMap<i64, Diff>,
) -> Mem<HeapCircularBuffer<RecentEntry>>
    requires low { pos 0 ≤ℤ clock }
    requires high { clock ≤ℤ pos (2 ^ 53) }
    ensures items { IfOk result (λ recent. map recent_tree recent.items
        ≡ trees_after (λ n. diff_in diffs (pos n)) (nat_abs clock - MOST_TOLD)
        (min (nat_abs clock) MOST_TOLD)) }
    ensures capacity { IfOk result (λ recent. recent.capacity ≡ MOST_TOLD) }
{
    let mut diffs = diffs;
    let mut recent = HeapCircularBuffer::with_capacity(alloc, MOST_TOLD as usize)?;
    let mut at = clock.saturating_sub(MOST_TOLD as i64).max(0);
    'clocks: while at < clock {
        at += 1;
        let diff = take(alloc, &mut diffs, at);
        let after = left_of(alloc, &diff)?;
        remember(&mut recent, at, Entry { diff, author: None }, after);
    }
    Ok(recent)
}

// What a diff leaves under its ids if no record is there.
fn left_of(alloc: Global, diff: &Diff) -> Mem<Vec<(Text, Option<Val>)>>
    ensures { IfOk result (λ left. seen maybe_data left.items ≡ left_of diff.now) }
{
    let mut left = Vec::with_capacity(alloc, diff.len())?;
    'ids: for (id, op) in diff.as_slice() {
        left.push((id.copy(alloc)?, put_in(alloc, op)?))?;
    }
    Ok(left)
}

// The record that an operation leaves if there is none.
fn put_in(alloc: Global, op: &RecordOp) -> Mem<Option<Val>>
    ensures { IfOk result (λ left. maybe_data left ≡ raw (change_of op.now) None) }
{
    match op {
        RecordOp::Put(val) => Ok(Some(val.copy(alloc)?)),
        RecordOp::Patch(_) => Ok(None),
        RecordOp::Remove => Ok(None),
    }
}
