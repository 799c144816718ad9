//! A saved room that is brought to a newer schema.
ghost use Rattle.std.specs.Prelude.{◌≡◌, ◌++◌, ◌∷◌, [], ◌^◌, ℤ, pos, ◌<ℤ◌, IfOk, OnOk, Ok, List};
ghost use Rattle.rooms_val.specs.Answers.{Gives};
ghost use Rattle.rooms_val.specs.Maps.{AreRising, with_key};
ghost use Rattle.rooms_val.specs.View.{data_of, pairs_view};
ghost use Rattle.migrate_seq.specs.Plans.{migrations_at, plan_answer};
ghost use Rattle.migrate_steps.specs.Records.{raised_map};
ghost use Rattle.migrate_seq.specs.SequencesOf.{sequences_of};
ghost use Rattle.migrate_seq.specs.Shown.{places_in};
ghost use Rattle.migrate_seq.specs.declared.fault.PlanFault.TheVariants as plan_fault;
ghost use Rattle.migrate_seq.specs.declared.place.Place.{Place};
ghost use Rattle.schema_core.specs.SchemaOf.{schema_tree};
ghost use Rattle.room_snapshot.specs.Ids.{HaveIds, by_id, with_record};
ghost use Rattle.room_snapshot.specs.Raised.{all_at, raised, raised_along_all, next_clock, AreRaised};
ghost use Rattle.room_snapshot.specs.Saved.{documents_view, records_of, saved_tree};
ghost use Rattle.room_snapshot.specs.Sorted.{sorted_view};

use crate::documents;
use crate::documents::{document_at, with_room};
use crate::ids::id_of;
use crate::snapshot::Snapshot;
use migrate_seq::{Plan, PlanFault, Sequences};
use room_model::{SavedRecord, SavedRoom};
use rooms_val::{Fields, Mem, Text, Val};
use schema_core::Schema;
use std::alloc::Global;
use std::collections::BTreeMap;

/// The saved room of a snapshot, brought to the schema. Where the snapshot lacks no migration the
/// saved room is returned as it is. Else its records go through the migrations and stand by id, its
/// clock is one more, and each record's clock is that one.
///
/// The clock is below 2^53, and each record is a map with a text as `id`, which no other one has
/// (`bad_id` returns `None`). It costs a logarithm for each record, and for each migration a pass
/// over the records.
///
/// # Errors
/// `TooNew` and `UnknownSequence` exactly where the schema has no plan for the snapshot's versions,
/// with the first sequence at fault. `OutOfMemory` may come in place of any.
pub fn raise(alloc: Global, schema: &Schema, snapshot: Snapshot) -> Result<SavedRoom, PlanFault>
    requires clock { snapshot.saved.clock <ℤ pos (2 ^ 53) }
    requires ids { HaveIds (records_of (saved_tree snapshot.saved).documents) }
    ensures answer { Gives plan_fault.OutOfMemory saved_tree result
        (raised (schema_tree schema.now).sequences snapshot.held (saved_tree snapshot.saved)) }
    // Where there is something to run, each record became what the migrations make of it alone.
    ensures each { IfOk result (λ after. (first : Place) (rest : List Place)
        → plan_answer (schema_tree schema.now).sequences snapshot.held ≡ Ok (first ∷ rest)
        → AreRaised (migrations_at (schema_tree schema.now).sequences (first ∷ rest))
        (next_clock (saved_tree snapshot.saved))
        (saved_tree snapshot.saved).documents (saved_tree after).documents) }
{
    let sequences = schema.sequences();
    let plan = sequences.since(alloc, &snapshot.held)?;
    if plan.is_empty() {
        return Ok(snapshot.saved);
    }
    let saved = run_plan(alloc, sequences, &plan, snapshot.saved)?;
    Ok(saved)
}

// The saved room after the migrations of a plan.
fn run_plan(alloc: Global, sequences: &Sequences, plan: &Plan, saved: SavedRoom) -> Mem<SavedRoom>
    requires { saved.clock <ℤ pos (2 ^ 53) }
    ensures { IfOk result (λ after. saved_tree after ≡ raised_along_all
        (migrations_at (sequences_of sequences.now) (places_in plan.now)) (saved_tree saved)) }
{
    let clock = saved.clock + 1;
    let documents = documents_after(alloc, sequences, plan, &saved.documents, clock)?;
    Ok(SavedRoom {
        clock,
        start: saved.start,
        documents,
        tombstones: saved.tombstones,
    })
}

// The records by id after the migrations of a plan, each with this clock.
fn documents_after(
    alloc: Global,
    sequences: &Sequences,
    plan: &Plan,
    documents: &[SavedRecord],
    clock: i64,
) -> Mem<Vec<SavedRecord>>
    ensures { IfOk result (λ made. documents_view made.items ≡ all_at clock
        (raised_map (migrations_at (sequences_of sequences.now) (places_in plan.now))
        (by_id (records_of (documents_view documents.now))))) }
{
    let before = by_id(alloc, documents)?;
    let after = sequences.up_map(alloc, plan, &before)?;
    let made = all_at(alloc, clock, after.as_slice())?;
    Ok(made)
}

// The records of a map in order, each with this clock.
fn all_at(alloc: Global, clock: i64, entries: &[(Text, Val)]) -> Mem<Vec<SavedRecord>>
    ensures { IfOk result (λ made.
        documents_view made.items ≡ all_at clock (pairs_view entries.now)) }
{
    let mut made = with_room(alloc, entries.len())?;
    'entries: for entry in entries {
        let document = document_at(alloc, &entry.1, clock)?;
        documents::add(&mut made, document)?;
    }
    Ok(made)
}

// The records under their ids; of two with one id the later one counts.
fn by_id(alloc: Global, documents: &[SavedRecord]) -> Mem<Fields>
    ensures { IfOk result (λ m. m ≡ by_id (records_of (documents_view documents.now))) }
{
    let sorted = sort(alloc, documents)?;
    fields_of(alloc, &sorted)
}

// The records sorted by id.
fn sort<'a>(alloc: Global, documents: &'a [SavedRecord]) -> Mem<BTreeMap<&'a str, &'a Val>>
    ensures { IfOk result (λ m.
        sorted_view m.entries ≡ by_id (records_of (documents_view documents.now))) }
{
    let mut sorted = BTreeMap::new(alloc);
    'documents: for document in documents {
        add(&mut sorted, &document.record)?;
    }
    Ok(sorted)
}

// Sets a record under its id, where that is a text.
fn add<'a>(sorted: &mut BTreeMap<&'a str, &'a Val>, val: &'a Val) -> Mem<()>
    ensures { OnOk result (sorted_view sorted.new.entries
        ≡ with_record (sorted_view sorted.old.entries) (data_of val.now)) }
{
    if let Some(id) = id_of(val) {
        let _ = sorted.insert(id, val)?;
    }
    Ok(())
}

// The map of sorted records, each of which is added at the end.
fn fields_of<'a>(alloc: Global, sorted: &BTreeMap<&'a str, &'a Val>) -> Mem<Fields>
    requires { AreRising (sorted_view sorted.now.entries) }
    ensures { IfOk result (λ m. m ≡ sorted_view sorted.now.entries) }
{
    let mut fields = Fields::new(alloc);
    'sorted: for (id, val) in sorted {
        put(alloc, &mut fields, id, val)?;
    }
    Ok(fields)
}

// Sets a copy of a record under an id.
fn put(alloc: Global, fields: &mut Fields, id: &str, val: &Val) -> Mem<()>
    ensures { OnOk result (fields.new ≡ with_key fields.old id.now (data_of val.now)) }
{
    fields.put(Text::of(alloc, id)?, val.copy(alloc)?)?;
    Ok(())
}
