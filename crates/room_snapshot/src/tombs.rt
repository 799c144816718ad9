//! The tombstones of a line, both ways.
ghost use Rattle.std.specs.Prelude.{◌≡◌, ◌++◌, ◌∷◌, [], IfOk, IfErr, OnOk, ℤ};
ghost use Rattle.rooms_val.specs.Data.{whole};
ghost use Rattle.rooms_val.specs.Maps.{AreRising, seen, with_key};
ghost use Rattle.rooms_val.specs.View.{data_of, pairs_view, field_of};
ghost use Rattle.rooms_val.specs.Answers.{Refuses};
ghost use Rattle.room_snapshot.specs.Lines.{tombs_by_id};
ghost use Rattle.room_snapshot.specs.Saved.{Tombs, tombs_view};

use room_model::SavedTomb;
use rooms_val::{Fields, Mem, OpFault, Text, Val};
use std::alloc::Global;

/// The clocks of tombstones under their ids; of two with one id the later one counts. It costs the
/// least where their ids rise.
pub(crate) fn tombs_val(alloc: Global, tombs: &[SavedTomb]) -> Mem<Fields>
    ensures { IfOk result (λ fields.
        fields ≡ seen whole (tombs_by_id (tombs_view tombs.now))) }
{
    let mut fields = Fields::new(alloc);
    'tombs: for tomb in tombs {
        put(alloc, &mut fields, tomb)?;
    }
    Ok(fields)
}

// Sets the clock of a tombstone under its id.
fn put(alloc: Global, fields: &mut Fields, tomb: &SavedTomb) -> Mem<()>
    ensures { OnOk result (fields.new
        ≡ with_key fields.old tomb.now.id (whole tomb.now.clock)) }
{
    fields.put(tomb.id.copy(alloc)?, Val::Int(tomb.clock))?;
    Ok(())
}

/// The tombstones for which clocks under ids stand, by id.
pub(crate) fn tombs_of(alloc: Global, fields: &Fields) -> Result<Vec<SavedTomb>, OpFault>
    ensures found { IfOk result (λ tombs.
        fields.now ≡ seen whole (tombs_by_id (tombs_view tombs.items))) }
    ensures rising { IfOk result (λ tombs. AreRising (tombs_view tombs.items)) }
    ensures refused { IfErr result (Refuses ((tombs : Tombs)
        → ¬ (fields.now ≡ seen whole tombs))) }
{
    let tombs = tombs_in(alloc, fields.as_slice())?;
    Ok(tombs)
}

// The tombstones that have these ids and clocks, in order.
fn tombs_in(alloc: Global, entries: &[(Text, Val)]) -> Result<Vec<SavedTomb>, OpFault>
    ensures found { IfOk result (λ tombs.
        pairs_view entries.now ≡ seen whole (tombs_view tombs.items)) }
    ensures refused { IfErr result (Refuses ((tombs : Tombs)
        → ¬ (pairs_view entries.now ≡ seen whole tombs))) }
{
    let mut tombs = with_room(alloc, entries.len())?;
    'entries: for entry in entries {
        let tomb = tomb_of(alloc, entry)?;
        add(&mut tombs, tomb)?;
    }
    Ok(tombs)
}

// No tombstone yet, with room for so many.
fn with_room(alloc: Global, count: usize) -> Mem<Vec<SavedTomb>>
    ensures { IfOk result (λ tombs. tombs.items ≡ []) }
{
    Ok(Vec::with_capacity(alloc, count)?)
}

// Adds a tombstone.
fn add(tombs: &mut Vec<SavedTomb>, tomb: SavedTomb) -> Mem<()>
    ensures { OnOk result (tombs.new.items ≡ tombs.old.items ++ tomb ∷ []) }
{
    tombs.push(tomb)?;
    Ok(())
}

// The tombstone that an id with a clock is.
fn tomb_of(alloc: Global, entry: &(Text, Val)) -> Result<SavedTomb, OpFault>
    ensures found { IfOk result (λ tomb. field_of entry.now ≡ (tomb.id, whole tomb.clock)) }
    ensures refused { IfErr result (Refuses ((clock : ℤ)
        → ¬ (data_of entry.now.1 ≡ whole clock))) }
{
    let Val::Int(clock) = &entry.1 else {
        return Err(OpFault::WrongKind);
    };
    let id = entry.0.copy(alloc)?;
    Ok(SavedTomb { id, clock: *clock })
}
