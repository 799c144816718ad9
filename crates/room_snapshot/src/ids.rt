//! The ids of saved records.
ghost use Rattle.std.specs.Prelude.{◌≡◌, ◌++◌, ◌∷◌, [], IfOk, OnOk, IfSome, MatchOption, option_map, not};
ghost use Rattle.rooms_val.specs.View.{data_of};
ghost use Rattle.room_snapshot.specs.Ids.{id_in, HaveIds, IsFirstFault};
ghost use Rattle.room_snapshot.specs.Saved.{documents_view, records_of, saved_tree};
ghost use Rattle.room_snapshot.specs.Sorted.{has_text, HasMore};

use room_model::{SavedRecord, SavedRoom};
use rooms_val::{Mem, Text, Val};
use std::alloc::Global;
use std::collections::BTreeSet;

/// The fault of the first saved record at fault: `-` where it is no map with a text as `id`, and
/// its id where one before it has the same. `None` exactly where each record is a map with a text
/// as `id`, and no two have the same. It costs a logarithm for each record.
///
/// # Errors
/// Out of memory alone.
pub fn bad_id(alloc: Global, saved: &SavedRoom) -> Mem<Option<Text>>
    ensures first { IfOk result (λ bad. MatchOption bad
        (HaveIds (records_of (saved_tree saved.now).documents))
        (IsFirstFault (records_of (saved_tree saved.now).documents))) }
    ensures exactly { IfOk result (λ bad. IfSome bad (λ _.
        ¬ HaveIds (records_of (saved_tree saved.now).documents))) }
{
    let bad = first_fault(alloc, &saved.documents)?;
    Ok(bad)
}

// The fault of the first of some records at fault.
fn first_fault(alloc: Global, documents: &[SavedRecord]) -> Mem<Option<Text>>
    ensures { IfOk result (λ bad. MatchOption bad
        (HaveIds (records_of (documents_view documents.now)))
        (IsFirstFault (records_of (documents_view documents.now)))) }
{
    let mut before = BTreeSet::new(alloc);
    'documents: for document in documents {
        let Some(id) = id_of(&document.record) else {
            let dash = Text::of(alloc, "-")?;
            return Ok(Some(dash));
        };
        let is_new = add_id(&mut before, id)?;
        if !is_new {
            let stood = Text::of(alloc, id)?;
            return Ok(Some(stood));
        }
    }
    Ok(None)
}

// Adds an id, and tells whether it is a new one.
fn add_id<'a>(before: &mut BTreeSet<&'a str>, id: &'a str) -> Mem<bool>
    ensures fresh { IfOk result (λ fresh. fresh ≡ not (has_text before.old id.entry)) }
    ensures more { OnOk result (HasMore before.old before.new id.entry) }
{
    let fresh = before.insert(id)?;
    Ok(fresh)
}

/// The text under `id` of a record. `None` exactly if it is no map or has no text there.
pub(crate) fn id_of(val: &Val) -> Option<&str>
    ensures { option_map (λ t. t.now) result ≡ id_in (data_of val.now) }
{
    val.get("id")?.as_text()
}
