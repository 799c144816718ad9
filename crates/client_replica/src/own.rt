//! Which events commit a replica's own first edits, and what becomes of its stash as its base goes on.
ghost use Rattle.std.specs.Prelude.{◌≡◌, ◌-◌, if◌then◌else◌, string_bytes, ℕ, List, drop, map, option_map};
ghost use Rattle.std.specs.Option.{option_copied};
ghost use Rattle.rooms_val.specs.Maps.{value_at, with_key, without_key};
ghost use Rattle.edit_names.specs.Names.{count_at, once};
ghost use Rattle.field_ops.specs.RecordOps.{RecordOps};
ghost use Rattle.field_ops.specs.View.{maybe_data};
ghost use Rattle.schema_core.specs.Admits.{is_document};
ghost use Rattle.schema_core.specs.SchemaOf.{schema_tree};
ghost use Rattle.client_replica.specs.Works.{work_of, diffs_in, pushed_diff};
ghost use Rattle.client_replica.specs.Stashes.{is_named, AreCounted};
ghost use Rattle.client_replica.specs.NewBases.{NamesWithin};
ghost use Rattle.client_replica.specs.Owns.{is_all_document, commits, are_own, settled};

use crate::replay::work_at;
use crate::stash::Stash;
use crate::work::Work;
use edit_names::EditNames;
use field_ops::Diff;
use rooms_val::Val;
use schema_core::Schema;
use std::collections::VecDeque;
use sync_msgs::{Action, DataEvent, Events};

/// Whether each event commits the first work that is left then, and the works that they commit name ids of the document
/// alone.
pub(crate) fn are_own(schema: &Schema, works: &VecDeque<Work>, events: &Events) -> bool
    ensures { result ≡ are_own (is_document (schema_tree schema.now))
        (map work_of works.now.items) events.now }
{
    let mut place = 0;
    'events: for event in events.as_slice() {
        if !commits(schema, work_at(works, place), event) {
            return false;
        }
        place += 1;
    }
    true
}

// Whether an event commits a work that names ids of the document alone, or none.
fn commits(schema: &Schema, first: Option<&Work>, event: &DataEvent) -> bool
    ensures { result ≡ commits (is_document (schema_tree schema.now))
        (option_map work_of (option_copied first.entry)) event.now }
{
    match event {
        DataEvent::Patch { .. } => false,
        DataEvent::PushResult { action, .. } => match action {
            Action::Commit => is_all_document(schema, first),
            Action::Discard => false,
            Action::Rebase(_) => false,
        },
    }
}

// Whether a work names ids of the document alone, or none.
fn is_all_document(schema: &Schema, work: Option<&Work>) -> bool
    ensures { result ≡ is_all_document (is_document (schema_tree schema.now))
        (pushed_diff (option_map work_of (option_copied work.entry))) }
{
    match work {
        Some(Work::Edit(diff)) => names_documents(schema, diff),
        _ => true,
    }
}

// Whether a diff names ids of the document alone.
fn names_documents(schema: &Schema, diff: &Diff) -> bool
    ensures { result ≡ is_all_document (is_document (schema_tree schema.now)) diff.now }
{
    'ids: for (id, _) in diff.as_slice() {
        if !schema.is_document(id.as_str()) {
            return false;
        }
    }
    true
}

/// Counts the edits among the first works no more. It takes no memory.
pub(crate) fn forget_first(names: &mut EditNames, works: &VecDeque<Work>, count: usize)
    ensures { AreCounted (diffs_in (map work_of works.now.items)) names.old
        → AreCounted (diffs_in (map work_of (drop count works.now.items))) names.new }
{
    let mut place = 0;
    'works: while place < count {
        forget_work(names, work_at(works, place));
        place += 1;
    }
}

// Counts a work no more, where it is an edit.
fn forget_work(names: &mut EditNames, work: Option<&Work>)
    ensures { (id : List ℕ) → count_at names.new id
        ≡ count_at names.old id - once
        (pushed_diff (option_map work_of (option_copied work.entry))) id }
{
    match work {
        Some(work) => match work {
            Work::Edit(diff) => names.remove(diff),
            Work::Presence(_) => {}
        },
        None => {}
    }
}

/// Brings the changes into a stash: of the ids that changed it holds those that a counted edit names, and no other; ids that
/// didn't change stay as they were. It takes no memory.
pub(crate) fn settle(stash: &mut Stash, names: &EditNames, mut changes: Stash)
    ensures { (diffs : List RecordOps) → AreCounted diffs names.now → NamesWithin diffs stash.old
        → (id : List ℕ) → value_at stash.new id ≡ settled diffs changes stash.old id }
{
    stash.tell_rising();
    changes.tell_rising();
    'ids: while let Some((id, slot)) = changes.take_first() {
        settle_one(stash, names, id, slot);
    }
}

// The same of one id. A stash that doesn't hold it stays: no edit names it then.
fn settle_one(stash: &mut Stash, names: &EditNames, id: String, slot: Option<Val>)
    ensures { (diffs : List RecordOps) → AreCounted diffs names.now → NamesWithin diffs stash.old
        → stash.new ≡ (if is_named diffs (string_bytes id)
        then with_key stash.old (string_bytes id) (maybe_data slot)
        else without_key stash.old (string_bytes id)) }
{
    if !stash.has(id.as_str()) {
        return;
    }
    if names.has(id.as_str()) {
        stash.replace(id, slot);
        return;
    }
    stash.remove(id.as_str());
}
