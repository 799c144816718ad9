//! Which ids a session is told of.
ghost use Rattle.std.specs.Prelude.{◌≡◌, ℕ, ◌+◌, ◌≤◌, pos, not, ◌&&◌, filter, length, map, is_some};
ghost use Rattle.std.specs.Prelude.{IfOk, IsPermutation};
ghost use Rattle.std.specs.Str.{bytes_eq};
ghost use Rattle.rooms_val.specs.Maps.{value_at};
ghost use Rattle.schema_core.specs.Admits.{is_document};
ghost use Rattle.schema_core.specs.SchemaOf.{schema_tree};
ghost use Rattle.room_model.specs.Schemas.{is_own, presence_id};
ghost use Rattle.room_model.specs.Histories.{History, start_of, changed_after};
ghost use Rattle.room_history.specs.Keeps.{Keeps};

use room_accept::presence_id;
use room_history::RoomHistory;
use rooms_val::{Mem, Steps, Text};
use schema_core::Schema;
use std::alloc::Global;
use std::sync::ledger::Ledger;

/// The ids whose last entry lies above a clock, at a step for each and one more.
pub(crate) fn changed_ids<L: Ledger>(
    alloc: Global,
    room: &RoomHistory,
    clock: i64,
    steps: &mut Steps<L>,
) -> Mem<Vec<Text>>
    ensures changed { IfOk result (λ ids. (first : ℕ) (history : History) (known : ℕ)
        → Keeps first history room.now.kept → clock ≡ pos known → start_of first history ≤ known
        → IsPermutation (map (λ p. p.0) (changed_after known history)) ids.items) }
    ensures ticked { IfOk result (λ ids. steps.new ≡ steps.old + (length ids.items + 1)) }
{
    let changes = room.changed_since(alloc, clock, steps)?;
    let mut ids = Vec::new(alloc);
    'changes: for change in changes {
        ids.push(change.id)?;
    }
    Ok(ids)
}

/// The ids of the presence of some sessions, where there is one, but for that of one session. It
/// looks each of them up, and walks over no other record.
pub(crate) fn other_presences(
    alloc: Global,
    room: &RoomHistory,
    session: u64,
    present: &[u64],
) -> Mem<Vec<Text>>
    ensures { IfOk result (λ ids. ids.items
        ≡ filter (λ id. not (is_own session id) && is_some (value_at room.now.kept.records.0 id))
        (map presence_id present.now)) }
{
    let own = presence_id(alloc, session)?;
    let mut ids = presence_ids(alloc, present)?;
    keep_others(room, &own, &mut ids);
    Ok(ids)
}

// The ids of the presence of some sessions.
fn presence_ids(alloc: Global, present: &[u64]) -> Mem<Vec<Text>>
    ensures { IfOk result (λ ids. ids.items ≡ map presence_id present.now) }
{
    let mut ids = Vec::new(alloc);
    'sessions: for session in present {
        ids.push(presence_id(alloc, *session)?)?;
    }
    Ok(ids)
}

/// Leaves the ids of the document.
pub(crate) fn keep_documents(schema: &Schema, ids: &mut Vec<Text>)
    ensures { ids.new.items ≡ filter (is_document (schema_tree schema.now)) ids.old.items }
{
    ids.retain(|id| schema.is_document(id.as_str()));
}

/// Leaves all ids but one.
pub(crate) fn drop_own(own: &Text, ids: &mut Vec<Text>)
    ensures { ids.new.items ≡ filter (λ id. not (bytes_eq id own.now)) ids.old.items }
{
    ids.retain(|id| id.as_str() != own.as_str());
}

// Leaves the ids under which there is a record, but for one.
fn keep_others(room: &RoomHistory, own: &Text, ids: &mut Vec<Text>)
    ensures { ids.new.items
        ≡ filter (λ id. not (bytes_eq id own.now)
        && is_some (value_at room.now.kept.records.0 id)) ids.old.items }
{
    ids.retain(|id| id.as_str() != own.as_str() && has_record(room, id.as_str()));
}

// Whether there is a record of an id.
fn has_record(room: &RoomHistory, id: &str) -> bool
    ensures { result ≡ is_some (value_at room.now.kept.records.0 id.now) }
{
    room.record(id).is_some()
}
