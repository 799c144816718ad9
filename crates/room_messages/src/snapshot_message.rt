//! What a session is sent that asked to be connected.
ghost use Rattle.std.specs.Prelude.{◌≡◌, ℕ, ◌+◌, ◌≤◌, pos, [], length, Option, Some, IfOk, OnOk, option_map};
ghost use Rattle.schema_core.specs.SchemaOf.{schema_tree};
ghost use Rattle.room_model.specs.Schemas.{doc};
ghost use Rattle.room_model.specs.Histories.{History, records_of, start_of, changed_after};
ghost use Rattle.room_model.specs.Messages.{known_clock, hydration, changes_after, with_puts};
ghost use Rattle.room_model.specs.Messages.{others_of, document_diff, snapshot_diff, snapshot};
ghost use Rattle.room_schemas.specs.Decided.{decided};
ghost use Rattle.room_accept.specs.Plans.{plan_of};
ghost use Rattle.room_accept.specs.Pushes.{member_of};
ghost use Rattle.room_history.specs.Keeps.{Keeps};
ghost use Rattle.room_messages.specs.Present.{ArePresencesOf};
ghost use Rattle.room_messages.specs.Told.{decided_by, IsFrom};

use crate::ids::{changed_ids, keep_documents, other_presences};
use crate::states::put_states;
use field_ops::Diff;
use room_accept::{Member, SessionPlan};
use room_history::RoomHistory;
use room_model::limits::PROTOCOL;
use rooms_val::{Mem, Steps, Text};
use std::alloc::Global;
use std::sync::ledger::Ledger;
use sync_msgs::{Hydration, ServerMessage};

/// What a session asked to be connected by.
#[derive(Clone, Copy)]
pub struct Request<'a> {
    /// The text under which it is to be answered.
    pub id: &'a Text,
    /// The clock that its client says it has reached, -1 before the first connection.
    pub reached: i64,
}

/// What a session is sent that asked to be connected: what changed in the document since the clock
/// that its client has reached, or all of it if the room can't tell, and the presence of others.
/// `present` are the numbers of the sessions that are in the room, among which is whoever has a
/// presence.
///
/// It looks up the presence of each of those sessions, and walks over no other record if it tells
/// what changed. Then it counts at most a step for each id whose last entry lies above the client's
/// clock, and one more.
///
/// # Errors
///
/// Memory was refused.
pub fn snapshot<L: Ledger>(
    alloc: Global,
    room: &RoomHistory,
    member: Member<'_>,
    present: &[u64],
    request: Request<'_>,
    steps: &mut Steps<L>,
) -> Mem<ServerMessage>
    ensures message { IfOk result (λ said. (first : ℕ) (history : History)
        → Keeps first history room.now.kept
        → ArePresencesOf (schema_tree room.now.kept.schema) present.now (records_of history)
        → said ≡ snapshot (decided (schema_tree room.now.kept.schema)) (member_of member.entry)
        request.entry.id.now request.entry.reached first history) }
    ensures ticks { IfOk result (λ said. (first : ℕ) (history : History) (clock : ℕ)
        → Keeps first history room.now.kept
        → known_clock request.entry.reached (start_of first history) (length history) ≡ Some clock
        → steps.new ≤ steps.old + (length (changed_after clock history) + 1)) }
{
    let known = known_clock(room, request.reached);
    let diff = snapshot_diff(alloc, room, member, present, known, steps)?;
    Ok(ServerMessage::Connect {
        hydration_type: hydration(known),
        connect_request_id: request.id.copy(alloc)?,
        protocol_version: PROTOCOL,
        schema: room.schema().sequences().serialized(alloc)?,
        diff,
        server_clock: room.clock(),
        is_readonly: member.readonly,
    })
}

// The clock that a client has reached, if the room can tell what happened since.
fn known_clock(room: &RoomHistory, reached: i64) -> Option<i64>
    ensures { (first : ℕ) (history : History) → Keeps first history room.now.kept
        → result ≡ option_map pos (known_clock reached (start_of first history) (length history)) }
{
    if reached < room.starts_at() || room.clock() < reached {
        None
    } else {
        Some(reached)
    }
}

// How a client's base is brought to the room's.
fn hydration(known: Option<i64>) -> Hydration
    ensures { (clock : Option ℕ) → known ≡ option_map pos clock → result ≡ hydration clock }
{
    match known {
        Some(_) => Hydration::WipePresence,
        None => Hydration::WipeAll,
    }
}

// What brings a client's base to the room's: its document, and the presence of others.
fn snapshot_diff<L: Ledger>(
    alloc: Global,
    room: &RoomHistory,
    member: Member<'_>,
    present: &[u64],
    known: Option<i64>,
    steps: &mut Steps<L>,
) -> Mem<Diff>
    ensures diff { IfOk result (λ diff. (first : ℕ) (history : History) (clock : Option ℕ)
        → Keeps first history room.now.kept
        → ArePresencesOf (schema_tree room.now.kept.schema) present.now (records_of history)
        → known ≡ option_map pos clock → IsFrom (start_of first history) clock
        → diff ≡ snapshot_diff (decided_by room.now.kept) (member_of member.entry) clock history) }
    ensures ticks { IfOk result (λ diff. (first : ℕ) (history : History) (clock : ℕ)
        → Keeps first history room.now.kept → known ≡ Some (pos clock)
        → start_of first history ≤ clock
        → steps.new ≤ steps.old + (length (changed_after clock history) + 1)) }
{
    let mut diff = document_diff(alloc, room, member.plan, known, steps)?;
    put_others(alloc, room, member, present, &mut diff)?;
    Ok(diff)
}

// The document's part of a snapshot: what changed after a known clock, or all records.
fn document_diff<L: Ledger>(
    alloc: Global,
    room: &RoomHistory,
    plan: &SessionPlan,
    known: Option<i64>,
    steps: &mut Steps<L>,
) -> Mem<Diff>
    ensures diff { IfOk result (λ diff. (first : ℕ) (history : History) (clock : Option ℕ)
        → Keeps first history room.now.kept → known ≡ option_map pos clock
        → IsFrom (start_of first history) clock
        → diff ≡ document_diff (decided_by room.now.kept) (plan_of plan.now) clock history) }
    ensures ticks { IfOk result (λ diff. (first : ℕ) (history : History) (clock : ℕ)
        → Keeps first history room.now.kept → known ≡ Some (pos clock)
        → start_of first history ≤ clock
        → steps.new ≤ steps.old + (length (changed_after clock history) + 1)) }
{
    match known {
        Some(clock) => changed_documents(alloc, room, plan, clock, steps),
        None => all_documents(alloc, room, plan),
    }
}

// What changed in the document after a clock: puts of the records that are there, and removes.
fn changed_documents<L: Ledger>(
    alloc: Global,
    room: &RoomHistory,
    plan: &SessionPlan,
    clock: i64,
    steps: &mut Steps<L>,
) -> Mem<Diff>
    ensures diff { IfOk result (λ diff. (first : ℕ) (history : History) (known : ℕ)
        → Keeps first history room.now.kept → clock ≡ pos known → start_of first history ≤ known
        → diff ≡ changes_after (decided_by room.now.kept) (plan_of plan.now)
        (decided_by room.now.kept).is_document known history) }
    ensures ticks { IfOk result (λ diff. (first : ℕ) (history : History) (known : ℕ)
        → Keeps first history room.now.kept → clock ≡ pos known → start_of first history ≤ known
        → steps.new ≡ steps.old + (length (changed_after known history) + 1)) }
{
    let mut ids = changed_ids(alloc, room, clock, steps)?;
    keep_documents(room.schema(), &mut ids);
    let mut diff = Diff::new(alloc);
    put_states(alloc, room, plan, &mut diff, ids)?;
    Ok(diff)
}

// Puts of all records of the document.
fn all_documents(alloc: Global, room: &RoomHistory, plan: &SessionPlan) -> Mem<Diff>
    ensures { IfOk result (λ diff. (first : ℕ) (history : History)
        → Keeps first history room.now.kept
        → diff ≡ with_puts (decided_by room.now.kept) (plan_of plan.now)
        (doc (decided_by room.now.kept) (records_of history)) []) }
{
    let mut ids = room.ids(alloc)?;
    keep_documents(room.schema(), &mut ids);
    let mut diff = Diff::new(alloc);
    put_states(alloc, room, plan, &mut diff, ids)?;
    Ok(diff)
}

// Puts the presence of all sessions but one into a diff.
fn put_others(
    alloc: Global,
    room: &RoomHistory,
    member: Member<'_>,
    present: &[u64],
    diff: &mut Diff,
) -> Mem<()>
    ensures { OnOk result ((first : ℕ) (history : History) → Keeps first history room.now.kept
        → ArePresencesOf (schema_tree room.now.kept.schema) present.now (records_of history)
        → diff.new ≡ with_puts (decided_by room.now.kept) (plan_of member.entry.plan.now)
        (others_of (decided_by room.now.kept) member.entry.session (records_of history)) diff.old) }
{
    // That the ids of a diff rise is told by their number, and that those of presences are presences
    // by the schema.
    let _ = diff.len();
    let _ = room.schema();
    let ids = other_presences(alloc, room, member.session, present)?;
    put_states(alloc, room, member.plan, diff, ids)
}
