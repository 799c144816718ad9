//! The journal by which transactions are undone.
ghost use Rattle.std.specs.Prelude.{◌≡◌, ◌≢◌, ◌<◌, [], ◌∷◌, ℕ, List, true, IfOk, OnOk, OnErr, option_map, is_some, string_bytes};
ghost use Rattle.rooms_val.specs.Maps.{value_at, set_at, with_key, without_key};
ghost use Rattle.field_ops.specs.View.{maybe_data};
ghost use Rattle.doc_store.specs.Slots.{present, AreFull};
ghost use Rattle.doc_store.specs.Slots as slots_spec;
ghost use Rattle.doc_store.specs.Journal.{Note, began, begun, IsUndoable, AreNoted, slots_before, forgotten, note_of, notes_of};

use crate::slots::{Slot, Slots};
use rooms_val::{Mem, Val};
use std::alloc::Global;

/// What happened since a transaction began.
#[derive(Drop)]
pub(crate) enum Entry {
    /// A transaction began.
    Began,
    /// An id was written, whose slot was this before, if there was one.
    Wrote(String, Option<Slot>),
}

/// Notes that a transaction began.
pub(crate) fn begin(journal: &mut Vec<Entry>) -> Mem<()>
    ensures ok { OnOk result (notes_of journal.new.items ≡ began ∷ notes_of journal.old.items) }
    ensures err { OnErr result (journal.new.items ≡ journal.old.items) }
{
    journal.push(Entry::Began)?;
    Ok(())
}

/// Writes a record, or its absence, and notes what stood there. Where memory is refused the slots are as before.
pub(crate) fn write(
    journal: &mut Vec<Entry>,
    slots: &mut Slots,
    alloc: Global,
    id: &str,
    stored: Option<Val>,
) -> Mem<Option<Val>>
    requires { IsUndoable (notes_of journal.old.items) slots.old }
    ensures old { IfOk result (λ r. maybe_data r ≡ value_at (present slots.old) id.now) }
    ensures ok { OnOk result
        (present slots.new ≡ set_at (present slots.old) id.now (maybe_data stored)) }
    ensures err { OnErr result (present slots.new ≡ present slots.old) }
    ensures undoable { IsUndoable (notes_of journal.new.items) slots.new }
    ensures begun { begun (notes_of journal.new.items) slots.new
        ≡ begun (notes_of journal.old.items) slots.old }
    ensures before { slots_before (notes_of journal.new.items) slots.new
        ≡ slots_before (notes_of journal.old.items) slots.old }
{
    let key = String::from_str(alloc, id)?;
    let before = slots.slot(alloc, id)?;
    journal.push(Entry::Wrote(String::from_str(alloc, id)?, before))?;
    let old = slots.put(key, stored)?;
    Ok(record_in(old))
}

/// Writes a record, or its absence, where no transaction is open. Where memory is refused the slots are as before.
pub(crate) fn write_plain(
    slots: &mut Slots,
    alloc: Global,
    id: &str,
    stored: Option<Val>,
) -> Mem<Option<Val>>
    ensures old { IfOk result (λ r. maybe_data r ≡ value_at (present slots.old) id.now) }
    ensures ok { OnOk result
        (present slots.new ≡ set_at (present slots.old) id.now (maybe_data stored)) }
    ensures err { OnErr result (present slots.new ≡ present slots.old) }
    ensures full { AreFull slots.old → AreFull slots.new }
{
    match stored {
        Some(val) => Ok(record_in(slots.put(String::from_str(alloc, id)?, Some(val))?)),
        None => Ok(take_plain(slots, id)),
    }
}

/// Takes a record away, where no transaction is open.
pub(crate) fn take_plain(slots: &mut Slots, id: &str) -> Option<Val>
    ensures old { maybe_data result ≡ value_at (present slots.old) id.now }
    ensures rest { present slots.new ≡ without_key (present slots.old) id.now }
    ensures full { AreFull slots.old → AreFull slots.new }
{
    record_in(slots.take(id))
}

/// Forgets where the newest transaction began. It costs the writes since then.
pub(crate) fn forget_begin(journal: &mut Vec<Entry>)
    ensures { notes_of journal.new.items ≡ forgotten (notes_of journal.old.items) }
{
    let mut place = journal.len();
    'back: while place > 0 {
        place -= 1;
        if let Entry::Began = &journal[place] {
            drop(journal.remove(place));
            return;
        }
    }
}

/// Undoes what was written since the newest transaction began.
pub(crate) fn undo(journal: &mut Vec<Entry>, slots: &mut Slots)
    requires undoable { IsUndoable (notes_of journal.old.items) slots.old }
    requires one { begun (notes_of journal.old.items) slots.old ≢ [] }
    ensures restored { begun (notes_of journal.old.items) slots.old
        ≡ present slots.new ∷ begun (notes_of journal.new.items) slots.new }
    ensures undoable { IsUndoable (notes_of journal.new.items) slots.new }
    ensures before { slots_before (notes_of journal.new.items) slots.new
        ≡ slots_before (notes_of journal.old.items) slots.old }
{
    'entries: while let Some(entry) = journal.pop() {
        match entry {
            Entry::Began => return,
            Entry::Wrote(id, before) => put_back(slots, id, before),
        }
    }
}

/// Empties the journal where no transaction is open, with the slots that have no record.
pub(crate) fn tidy(depth: usize, journal: &mut Vec<Entry>, slots: &mut Slots)
    requires undoable { IsUndoable (notes_of journal.old.items) slots.old }
    requires full { AreFull (slots_before (notes_of journal.old.items) slots.old) }
    ensures records { present slots.new ≡ present slots.old }
    ensures idle { depth ≡ 0 → journal.new.items ≡ [] }
    ensures busy { 0 < depth → begun (notes_of journal.new.items) slots.new
        ≡ begun (notes_of journal.old.items) slots.old }
    ensures undoable { IsUndoable (notes_of journal.new.items) slots.new }
    ensures full { AreFull (slots_before (notes_of journal.new.items) slots.new) }
{
    if depth == 0 {
        clear(journal, slots);
    }
}

// Empties the journal, and takes the slots away that are empty: each of them was written.
fn clear(journal: &mut Vec<Entry>, slots: &mut Slots)
    requires { AreFull (slots_before (notes_of journal.old.items) slots.old) }
    ensures records { present slots.new ≡ present slots.old }
    ensures emptied { journal.new.items ≡ [] }
    ensures full { AreFull slots.new }
{
    'entries: while let Some(entry) = journal.pop() {
        drop_written(slots, &entry);
    }
}

// Takes the slot away that was written, where it has no record.
fn drop_written(slots: &mut Slots, entry: &Entry)
    ensures records { present slots.new ≡ present slots.old }
    ensures noted { (older : List Note) → AreNoted (note_of entry.now ∷ older) slots.old
        → AreNoted older slots.new }
{
    match entry {
        Entry::Began => {}
        Entry::Wrote(id, _) => drop_empty(slots, id.as_str()),
    }
}

// Takes a slot away that has no record.
fn drop_empty(slots: &mut Slots, id: &str)
    ensures records { present slots.new ≡ present slots.old }
    ensures dropped { ¬ (value_at slots.new id.now ≡ Some None) }
    ensures others { (q : List ℕ) → value_at slots.new q ≡ Some None
        → value_at slots.old q ≡ Some None }
{
    match slots.get(id) {
        Some(_) => {}
        None => drop(slots.take(id)),
    }
}

// Puts a slot back, or takes it away where there was none.
fn put_back(slots: &mut Slots, id: String, before: Option<Slot>)
    requires { is_some before ≡ true → is_some (value_at slots.old (string_bytes id)) ≡ true }
    ensures { slots.new ≡ set_at slots.old (string_bytes id) (option_map maybe_data before) }
{
    match before {
        // The slot is there, so that no memory is asked for.
        Some(slot) => {
            let _ = slots.put(id, slot);
        }
        None => {
            let _ = slots.take(id.as_str());
        }
    }
}

// The record in a slot.
fn record_in(slot: Option<Slot>) -> Option<Val>
    ensures { maybe_data result ≡ slots_spec.slot_record (option_map maybe_data slot) }
{
    match slot {
        Some(stored) => stored,
        None => None,
    }
}
