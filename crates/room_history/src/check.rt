//! Whether a room can begin from what was saved, and with which records.
ghost use Rattle.std.specs.Prelude.{◌≡◌, [], true, false, Some, None, ◌&&◌, ◌-◌, ◌^◌, min, sum, map, fold, OnOk, IfOk, IfErr, int_le, int_lt, pos, option_map};
ghost use Rattle.std.specs.List.{list_all};
ghost use Rattle.rooms_val.specs.Data.{null};
ghost use Rattle.rooms_val.specs.Maps.{keys_of, with_key};
ghost use Rattle.rooms_val.specs.View.{data_of};
ghost use Rattle.rooms_val.specs.Weight.{weight};
ghost use Rattle.schema_core.specs.SchemaOf.{schema_tree};
ghost use Rattle.room_model.specs.Saves.{own_id, are_clocks, is_too_large, is_admitted_as, unfit_record, unfit_tomb, load_fault};
ghost use Rattle.room_model.specs.declared.load_fault.LoadFault.TheVariants as fault;
ghost use Rattle.room_schemas.specs.Decided.{decided};
ghost use Rattle.room_history.specs.Checks.{refused_record, is_tomb_fit};
ghost use Rattle.room_history.specs.Loads.{with_saved, records_in, size_in};

use doc_store::{DocStore, MapDoc};
use room_accept::DocumentSize;
use room_model::limits::{MOST_DEAD, MOST_RECORDS, MOST_WEIGHT};
use room_model::{LoadFault, SavedRecord, SavedRoom, SavedTomb};
use rooms_val::{Mem, Steps, Text, Val};
use schema_core::Schema;
use std::alloc::Global;
use std::sync::ledger::Ledger;

// What a room begins with.
#[derive(Drop)]
pub(crate) struct Checked {
    // Its records by id. No transaction is open.
    pub(crate) records: MapDoc,
    // How large its document is.
    pub(crate) size: DocumentSize,
}

// The records of a saved room by id and how large its document is, or why no room with this schema
// begins from it. It costs a copy of the records, whose values are shared, the check of each, and a
// logarithm for each record and each removed id.
pub(crate) fn check<L: Ledger>(
    alloc: Global,
    schema: &Schema,
    last: i64,
    saved: &SavedRoom,
    steps: &mut Steps<L>,
) -> Result<Checked, LoadFault>
    ensures fault { IfErr result (λ e. ¬ (e ≡ fault.OutOfMemory)
        → load_fault (decided (schema_tree schema.now)) last saved.now ≡ Some e) }
    ensures none { IfOk result (λ c.
        load_fault (decided (schema_tree schema.now)) last saved.now ≡ None) }
    ensures records { IfOk result (λ c. c.records ≡ (records_in saved.now, [])) }
    ensures size { IfOk result (λ c. c.size ≡ size_in saved.now) }
{
    if !are_clocks(last, saved) {
        return Err(LoadFault::Clocks);
    }
    let records = write_records(alloc, schema, &saved.documents, steps)?;
    check_tombs(alloc, schema, &records, &saved.tombstones, steps)?;
    let size = measure(saved)?;
    Ok(Checked { records, size })
}

// Whether the clocks of a saved room fit together, and its clock is below a last one.
fn are_clocks(last: i64, saved: &SavedRoom) -> bool
    ensures { result ≡ are_clocks last saved.now }
{
    0 <= saved.start
        && saved.start <= saved.clock
        && saved.clock < last
        && are_records_by(&saved.documents, saved.clock)
        && are_tombs_by(&saved.tombstones, saved.start, saved.clock)
}

// Whether the clock of each record lies from 1 to a clock.
fn are_records_by(documents: &[SavedRecord], clock: i64) -> bool
    ensures { result
        ≡ list_all (λ r. int_le (pos 1) r.clock && int_le r.clock clock) documents.now }
{
    'records: for saved in documents {
        if !(1 <= saved.clock && saved.clock <= clock) {
            return false;
        }
    }
    true
}

// Whether the clock of each removed id lies above a start and up to a clock.
fn are_tombs_by(tombstones: &[SavedTomb], start: i64, clock: i64) -> bool
    ensures { result ≡ list_all (λ t. int_lt start t.clock && int_le t.clock clock) tombstones.now }
{
    'tombs: for tomb in tombstones {
        if !(start < tomb.clock && tomb.clock <= clock) {
            return false;
        }
    }
    true
}

// The saved records by id, if each is admitted to the document under the id that it says, which no
// record before it says.
fn write_records<L: Ledger>(
    alloc: Global,
    schema: &Schema,
    documents: &[SavedRecord],
    steps: &mut Steps<L>,
) -> Result<MapDoc, LoadFault>
    ensures none { IfOk result (λ m.
        unfit_record (decided (schema_tree schema.now)) [] documents.now ≡ None) }
    ensures records { IfOk result (λ m. m ≡ (fold with_saved [] documents.now, [])) }
    ensures fault { IfErr result (λ e. ¬ (e ≡ fault.OutOfMemory)
        → option_map fault.BadRecord
        (unfit_record (decided (schema_tree schema.now)) [] documents.now) ≡ Some e) }
{
    let mut records = MapDoc::new(alloc);
    'records: for saved in documents {
        write_one(alloc, schema, &mut records, saved, steps)?;
    }
    Ok(records)
}

// Writes a saved record beside those before it, if it isn't refused.
fn write_one<L: Ledger>(
    alloc: Global,
    schema: &Schema,
    records: &mut MapDoc,
    saved: &SavedRecord,
    steps: &mut Steps<L>,
) -> Result<(), LoadFault>
    requires { records.old.1 ≡ [] }
    ensures none { OnOk result
        (refused_record (decided (schema_tree schema.now)) records.old.0 saved.now ≡ None) }
    ensures records { OnOk result (records.new ≡ (with_saved records.old.0 saved.now, [])) }
    ensures fault { IfErr result (λ e. ¬ (e ≡ fault.OutOfMemory)
        → option_map fault.BadRecord
        (refused_record (decided (schema_tree schema.now)) records.old.0 saved.now) ≡ Some e) }
{
    let Some(id) = own_id(saved) else {
        return Err(LoadFault::BadRecord(Text::of(alloc, "-")?));
    };
    if !is_admitted_as(schema, saved, id) || records.get(id).is_some() {
        return Err(LoadFault::BadRecord(Text::of(alloc, id)?));
    }
    write(alloc, records, id, &saved.record, steps)?;
    Ok(())
}

// The id that a saved record says. `None` exactly if it says none.
pub(crate) fn own_id(saved: &SavedRecord) -> Option<&str>
    ensures { option_map (λ t. t.now) result ≡ own_id saved.now }
{
    let id = saved.record.get("id")?;
    id.as_text()
}

// Whether a saved record is admitted to the document under an id.
fn is_admitted_as(schema: &Schema, saved: &SavedRecord, id: &str) -> bool
    ensures { result ≡ is_admitted_as (decided (schema_tree schema.now)) saved.now id.now }
{
    schema.is_document(id) && schema.admits(id, &saved.record).is_ok()
}

// Writes a copy of a value under an id.
fn write<L: Ledger>(
    alloc: Global,
    records: &mut MapDoc,
    id: &str,
    val: &Val,
    steps: &mut Steps<L>,
) -> Mem<()>
    requires { records.old.1 ≡ [] }
    ensures { OnOk result (records.new
        ≡ (with_key records.old.0 id.now (data_of val.now), [])) }
{
    let copy = val.copy(alloc)?;
    drop(records.write(alloc, id, Some(copy), steps)?);
    Ok(())
}

// Whether each removed id is one of the document, and neither a record's nor stood before; else the
// first that isn't.
fn check_tombs<L: Ledger>(
    alloc: Global,
    schema: &Schema,
    records: &MapDoc,
    tombstones: &[SavedTomb],
    steps: &mut Steps<L>,
) -> Result<(), LoadFault>
    ensures none { OnOk result (unfit_tomb (decided (schema_tree schema.now))
        (keys_of records.now.0) tombstones.now ≡ None) }
    ensures fault { IfErr result (λ e. ¬ (e ≡ fault.OutOfMemory)
        → option_map fault.BadRecord (unfit_tomb (decided (schema_tree schema.now))
        (keys_of records.now.0) tombstones.now) ≡ Some e) }
{
    let mut earlier = MapDoc::new(alloc);
    'tombs: for tomb in tombstones {
        check_tomb(alloc, schema, &mut earlier, records, tomb, steps)?;
    }
    Ok(())
}

// Whether a removed id is fit beside those before it, to which it is added.
fn check_tomb<L: Ledger>(
    alloc: Global,
    schema: &Schema,
    earlier: &mut MapDoc,
    records: &MapDoc,
    tomb: &SavedTomb,
    steps: &mut Steps<L>,
) -> Result<(), LoadFault>
    requires { earlier.old.1 ≡ [] }
    ensures fit { OnOk result (is_tomb_fit (decided (schema_tree schema.now)) earlier.old.0
        records.now.0 tomb.now ≡ true) }
    ensures added { OnOk result (earlier.new ≡ (with_key earlier.old.0 tomb.now.id null, [])) }
    ensures unfit { IfErr result (λ e. ¬ (e ≡ fault.OutOfMemory)
        → is_tomb_fit (decided (schema_tree schema.now)) earlier.old.0 records.now.0 tomb.now
        ≡ false) }
    ensures fault { IfErr result (λ e. ¬ (e ≡ fault.OutOfMemory)
        → e ≡ fault.BadRecord tomb.now.id) }
{
    if !is_tomb_fit(schema, earlier, records, tomb) {
        return Err(LoadFault::BadRecord(tomb.id.copy(alloc)?));
    }
    write(alloc, earlier, tomb.id.as_str(), &Val::Null, steps)?;
    Ok(())
}

// Whether a removed id is one of the document, and is neither among removed ids before it nor one
// of the records.
fn is_tomb_fit(schema: &Schema, earlier: &MapDoc, records: &MapDoc, tomb: &SavedTomb) -> bool
    ensures { result
        ≡ is_tomb_fit (decided (schema_tree schema.now)) earlier.now.0 records.now.0 tomb.now }
{
    let id = tomb.id.as_str();
    schema.is_document(id) && !(earlier.get(id).is_some() || records.get(id).is_some())
}

// How large the document of a saved room is, if the room isn't too large.
fn measure(saved: &SavedRoom) -> Result<DocumentSize, LoadFault>
    ensures small { IfOk result (λ size. is_too_large saved.now ≡ false) }
    ensures size { IfOk result (λ size. size ≡ size_in saved.now) }
    ensures large { IfErr result (λ e. is_too_large saved.now ≡ true) }
    ensures fault { IfErr result (λ e. e ≡ fault.TooLarge) }
{
    let count = saved.documents.len() as u64;
    let weight = weigh(&saved.documents);
    let dead = saved.tombstones.len() as u64;
    if MOST_RECORDS < count || MOST_WEIGHT < weight || MOST_DEAD < dead {
        return Err(LoadFault::TooLarge);
    }
    Ok(DocumentSize { count, weight })
}

// What the saved records weigh together, 2^64 - 1 if that is more.
fn weigh(documents: &[SavedRecord]) -> u64
    ensures { result ≡ min (sum (map (λ r. weight (data_of r.record)) documents.now)) (2 ^ 64 - 1) }
{
    let mut total = 0u64;
    'records: for saved in documents {
        total = total.saturating_add(saved.record.weight());
    }
    total
}
