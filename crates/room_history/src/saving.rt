//! What is saved of a room's history.
ghost use Rattle.std.specs.Prelude.{◌≡◌, ℕ, pos, [], ◌∷◌, ◌++◌, map, fold, filter_map, option_map, IfOk, OnOk};
ghost use Rattle.rooms_val.specs.Maps.{keys_of};
ghost use Rattle.rooms_val.specs.View.{data_of};
ghost use Rattle.schema_core.specs.Admits.{is_document};
ghost use Rattle.schema_core.specs.SchemaOf.{schema_tree};
ghost use Rattle.room_model.specs.Histories.{History};
ghost use Rattle.room_history.specs.Clocks.{with_clock, with_removal, clock_at, number_of, saved_under, with_own_clock};
ghost use Rattle.room_history.specs.Keeps.{Keeps};
ghost use Rattle.room_history.specs.Saving.{IsSavedOf, clocks_of};

use crate::kept::Kept;
use change_list::Change;
use doc_store::{DocStore, MapDoc};
use room_model::{SavedRecord, SavedRoom, SavedTomb};
use rooms_val::{Fields, Mem, Steps, Text, Val};
use schema_core::Schema;
use std::alloc::Global;
use std::sync::ledger::Ledger;

impl Kept {
    // What is saved of the history.
    pub(crate) fn saved<L: Ledger>(&self, alloc: Global, steps: &mut Steps<L>) -> Mem<SavedRoom>
        ensures { IfOk result (λ saved. (first : ℕ) (history : History)
            → Keeps first history self.now
            → IsSavedOf (is_document (schema_tree self.now.schema)) first history saved) }
    {
        let start = self.changes.starts_at();
        let changes = self.changes.since(alloc, 0, steps)?;
        let clocks = clocks(alloc, &changes)?;
        let removals = removals(alloc, &self.schema, &changes)?;
        let documents = documents(alloc, &self.schema, &self.records, &clocks)?;
        let tombstones = tombstones(alloc, &removals)?;
        Ok(SavedRoom {
            clock: self.clock,
            start,
            documents,
            tombstones,
        })
    }
}

// The clocks of changes by id. If the ids rise it costs a comparison for each.
fn clocks(alloc: Global, changes: &[Change]) -> Mem<Fields>
    ensures { IfOk result (λ clocks. clocks ≡ fold with_clock [] changes.now) }
{
    let mut clocks = Fields::new(alloc);
    'changes: for change in changes {
        clocks.put(change.id.copy(alloc)?, Val::Int(change.clock))?;
    }
    Ok(clocks)
}

// The clocks by id of the changes that removed an id of the document. If the ids rise it costs a
// comparison for each.
fn removals(alloc: Global, schema: &Schema, changes: &[Change]) -> Mem<Fields>
    ensures { IfOk result (λ clocks. clocks
        ≡ fold (with_removal (is_document (schema_tree schema.now))) [] changes.now) }
{
    let mut clocks = Fields::new(alloc);
    'changes: for change in changes {
        note_removal(alloc, schema, &mut clocks, change)?;
    }
    Ok(clocks)
}

// Adds the clock of a change if it removed an id of the document.
fn note_removal(alloc: Global, schema: &Schema, clocks: &mut Fields, change: &Change) -> Mem<()>
    ensures { OnOk result (clocks.new
        ≡ with_removal (is_document (schema_tree schema.now)) clocks.old change.now) }
{
    if !change.live && schema.is_document(change.id.as_str()) {
        clocks.put(change.id.copy(alloc)?, Val::Int(change.clock))?;
    }
    Ok(())
}

// The records of the document by rising id, each with its clock.
fn documents(
    alloc: Global,
    schema: &Schema,
    records: &MapDoc,
    clocks: &Fields,
) -> Mem<Vec<SavedRecord>>
    ensures { IfOk result (λ documents. map with_own_clock documents.items
        ≡ filter_map
        (saved_under (is_document (schema_tree schema.now)) records.now.0 clocks.now)
        (keys_of records.now.0)) }
{
    let mut documents = Vec::new(alloc);
    let ids = records.ids(alloc)?;
    'ids: for id in &ids {
        if let Some(saved) = saved_under(alloc, schema, records, clocks, id.as_str())? {
            documents.push(saved)?;
        }
    }
    Ok(documents)
}

// What is saved of the record under an id, if there is one and the id is the document's.
fn saved_under(
    alloc: Global,
    schema: &Schema,
    records: &MapDoc,
    clocks: &Fields,
    id: &str,
) -> Mem<Option<SavedRecord>>
    ensures { IfOk result (λ saved. option_map with_own_clock saved
        ≡ saved_under (is_document (schema_tree schema.now)) records.now.0 clocks.now id.now) }
{
    if !schema.is_document(id) {
        return Ok(None);
    }
    match records.get(id) {
        Some(found) => Ok(Some(SavedRecord {
            record: found.copy(alloc)?,
            clock: clock_at(clocks, id),
        })),
        None => Ok(None),
    }
}

// The clock under an id, and 0 if there is none.
fn clock_at(clocks: &Fields, id: &str) -> i64
    ensures { result ≡ clock_at clocks.now id.now }
{
    match clocks.get(id) {
        Some(clock) => number(clock),
        None => 0,
    }
}

// Removed ids with their clocks, in order.
fn tombstones(alloc: Global, removals: &Fields) -> Mem<Vec<SavedTomb>>
    ensures { IfOk result (λ tombs. clocks_of tombs.items
        ≡ map (λ p. (p.0, number_of p.1)) removals.now) }
{
    let mut tombs = Vec::new(alloc);
    'removals: for (id, clock) in removals.as_slice() {
        tombs.push(SavedTomb {
            id: id.copy(alloc)?,
            clock: number(clock),
        })?;
    }
    Ok(tombs)
}

// The whole number that a value is, and 0 if it is none.
fn number(val: &Val) -> i64
    ensures { result ≡ number_of (data_of val.now) }
{
    match val.as_int() {
        Some(number) => number,
        None => 0,
    }
}
