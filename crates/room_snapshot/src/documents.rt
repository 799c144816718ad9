//! The records of a line, both ways.
ghost use Rattle.std.specs.Prelude.{◌≡◌, ◌++◌, ◌∷◌, [], ℤ, IfOk, IfErr, OnOk};
ghost use Rattle.std.specs.Prelude as std;
ghost use Rattle.rooms_val.specs.Data.{Data};
ghost use Rattle.rooms_val.specs.View.{data_of, items_view, pairs_view};
ghost use Rattle.rooms_val.specs.Answers.{Refuses};
ghost use Rattle.room_snapshot.specs.Lines.{document_fields, document_val};
ghost use Rattle.room_snapshot.specs.Saved.{Documents, document_view, documents_view};

use crate::entries::{number_in, val_in};
use room_model::SavedRecord;
use rooms_val::{Fields, Mem, OpFault, Text, Val, Vals};
use std::alloc::Global;

const CLOCK_KEY: &str = "lastChangedClock";

const STATE_KEY: &str = "state";

/// The values of records with their clocks, in order.
pub(crate) fn documents_val(alloc: Global, documents: &[SavedRecord]) -> Mem<Vals>
    ensures { IfOk result (λ vals.
        vals ≡ std.map document_val (documents_view documents.now)) }
{
    let mut vals = Vals::new(alloc);
    'documents: for document in documents {
        let val = document_val(alloc, document)?;
        vals.push(val)?;
    }
    Ok(vals)
}

// The value of a record with its clock.
fn document_val(alloc: Global, document: &SavedRecord) -> Mem<Val>
    ensures { IfOk result (λ v.
        data_of v ≡ document_val (document_view document.now)) }
{
    let mut fields = Fields::new(alloc);
    fields.put(Text::of(alloc, CLOCK_KEY)?, Val::Int(document.clock))?;
    fields.put(Text::of(alloc, STATE_KEY)?, document.record.copy(alloc)?)?;
    Ok(Val::Map(fields))
}

/// The records with their clocks for which values stand, in order.
pub(crate) fn documents_of(alloc: Global, vals: &[Val]) -> Result<Vec<SavedRecord>, OpFault>
    ensures found { IfOk result (λ documents.
        items_view vals.now ≡ std.map document_val (documents_view documents.items)) }
    ensures refused { IfErr result (Refuses ((documents : Documents)
        → ¬ (items_view vals.now ≡ std.map document_val documents))) }
{
    let mut documents = with_room(alloc, vals.len())?;
    'vals: for val in vals {
        let document = document_of(alloc, val)?;
        add(&mut documents, document)?;
    }
    Ok(documents)
}

/// No record yet, with room for so many.
pub(crate) fn with_room(alloc: Global, count: usize) -> Mem<Vec<SavedRecord>>
    ensures { IfOk result (λ documents. documents.items ≡ []) }
{
    Ok(Vec::with_capacity(alloc, count)?)
}

/// Adds a record.
pub(crate) fn add(documents: &mut Vec<SavedRecord>, document: SavedRecord) -> Mem<()>
    ensures { OnOk result (documents.new.items ≡ documents.old.items ++ document ∷ []) }
{
    documents.push(document)?;
    Ok(())
}

// The record with its clock for which a value stands.
fn document_of(alloc: Global, val: &Val) -> Result<SavedRecord, OpFault>
    ensures found { IfOk result (λ document.
        data_of val.now ≡ document_val (document_view document)) }
    ensures refused { IfErr result (Refuses ((document : Data × ℤ)
        → ¬ (data_of val.now ≡ document_val document))) }
{
    let Val::Map(fields) = val else {
        return Err(OpFault::WrongKind);
    };
    document_in(alloc, fields.as_slice())
}

// The record with its clock that has these fields.
fn document_in(alloc: Global, entries: &[(Text, Val)]) -> Result<SavedRecord, OpFault>
    ensures found { IfOk result (λ document.
        pairs_view entries.now ≡ document_fields (document_view document)) }
    ensures refused { IfErr result (Refuses ((document : Data × ℤ)
        → ¬ (pairs_view entries.now ≡ document_fields document))) }
{
    let [clock, state] = entries else {
        return Err(OpFault::WrongKind);
    };
    let clock = number_in(clock, CLOCK_KEY)?;
    let state = val_in(state, STATE_KEY)?;
    let document = document_at(alloc, state, clock)?;
    Ok(document)
}

/// A copy of a record with a clock.
pub(crate) fn document_at(alloc: Global, state: &Val, clock: i64) -> Mem<SavedRecord>
    ensures { IfOk result (λ document.
        document_view document ≡ (data_of state.now, clock)) }
{
    Ok(SavedRecord {
        record: state.copy(alloc)?,
        clock,
    })
}
