//! What a session is sent of the entries above its sent clock.
ghost use Rattle.std.specs.Prelude.{◌≡◌, ℕ, ◌+◌, ◌-◌, ◌≤◌, pos, filter, length, map, min, not, int_lt, IfOk};
ghost use Rattle.schema_core.specs.SchemaOf.{schema_tree};
ghost use Rattle.room_model.specs.Schemas.{is_own};
ghost use Rattle.room_model.specs.Histories.{History, start_of, above, changed_after};
ghost use Rattle.room_model.specs.Messages.{changes_after, catch_up, updates};
ghost use Rattle.room_model.specs.declared.limits.TheConstants.{MOST_TOLD};
ghost use Rattle.room_schemas.specs.Decided.{decided};
ghost use Rattle.room_accept.specs.Plans.{plan_of};
ghost use Rattle.room_accept.specs.Pushes.{member_of};
ghost use Rattle.room_history.specs.Entries.{recent_tree};
ghost use Rattle.room_history.specs.Keeps.{Keeps};
ghost use Rattle.room_messages.specs.Results.{own_clocks, bare};
ghost use Rattle.room_messages.specs.Told.{decided_by, told_entry, HasOwnActions};

use crate::ids::{changed_ids, drop_own};
use crate::states::put_states;
use crate::told::told_entry;
use field_ops::Diff;
use room_accept::{Member, presence_id};
use room_history::RoomHistory;
use room_model::limits::MOST_TOLD;
use rooms_val::{Mem, Steps};
use std::alloc::Global;
use std::sync::ledger::Ledger;
use sync_msgs::{Action, DataEvent, Events, ServerMessage};

/// What a session is sent that was told everything up to its sent clock: each entry above it, or,
/// where more than 32 lie above it, the results of its own pushes and what changed. `pushed` are the
/// numbers of the session's own pushes above its sent clock, the oldest first.
///
/// The sent clock is at most the room's, and at least the lesser of that less 32 and of the clock up
/// to which removals are forgotten. Where more than 32 entries lie above the sent clock, it counts at
/// most a step for each id whose last entry lies above it, and one more.
pub fn updates<L: Ledger>(
    alloc: Global,
    room: &RoomHistory,
    member: Member<'_>,
    sent: i64,
    pushed: &[i64],
    steps: &mut Steps<L>,
) -> Mem<ServerMessage>
    ensures message { IfOk result (λ said. (first : ℕ) (history : History) (told : ℕ)
        → Keeps first history room.now.kept
        → HasOwnActions (decided_by room.now.kept) history
        → sent ≡ pos told → told ≤ length history
        → min (start_of first history) (length history - MOST_TOLD) ≤ told
        → pushed.now ≡ own_clocks member.entry.session (above told history)
        → said ≡ updates (decided (schema_tree room.now.kept.schema)) (member_of member.entry)
        told history) }
    ensures ticks { IfOk result (λ said. (first : ℕ) (history : History) (told : ℕ)
        → Keeps first history room.now.kept
        → sent ≡ pos told → told ≤ length history
        → min (start_of first history) (length history - MOST_TOLD) ≤ told
        → steps.new ≤ steps.old + (length (changed_after told history) + 1)) }
{
    if sent < room.clock() - MOST_TOLD as i64 {
        let events = catch_up(alloc, room, member, sent, pushed, steps)?;
        Ok(ServerMessage::Data { events })
    } else {
        let events = tell_entries(alloc, room, member, sent)?;
        Ok(ServerMessage::Data { events })
    }
}

// An event for each entry above the sent clock, of which the room keeps all.
fn tell_entries(alloc: Global, room: &RoomHistory, member: Member<'_>, sent: i64) -> Mem<Events>
    ensures { IfOk result (λ events. events
        ≡ map (λ r. told_entry (decided_by room.now.kept) (member_of member.entry) (recent_tree r))
        (filter (λ r. int_lt sent r.clock) room.now.kept.recent.items)) }
{
    let own = presence_id(alloc, member.session)?;
    let mut events = Events::new(alloc);
    'entries: for recent in room.recent().iter() {
        if sent < recent.clock {
            events.push(told_entry(alloc, room.schema(), member, &own, recent)?)?;
        }
    }
    Ok(events)
}

// The results of the session's own pushes, and what changed, without the session's presence.
fn catch_up<L: Ledger>(
    alloc: Global,
    room: &RoomHistory,
    member: Member<'_>,
    sent: i64,
    pushed: &[i64],
    steps: &mut Steps<L>,
) -> Mem<Events>
    ensures events { IfOk result (λ events. (first : ℕ) (history : History) (told : ℕ)
        → Keeps first history room.now.kept → sent ≡ pos told → start_of first history ≤ told
        → pushed.now ≡ own_clocks member.entry.session (above told history)
        → events ≡ catch_up (decided_by room.now.kept) (member_of member.entry) told history) }
    ensures ticks { IfOk result (λ events. (first : ℕ) (history : History) (told : ℕ)
        → Keeps first history room.now.kept → sent ≡ pos told → start_of first history ≤ told
        → steps.new ≡ steps.old + (length (changed_after told history) + 1)) }
{
    let mut events = bare_results(alloc, room.clock(), pushed)?;
    let diff = changes_of_others(alloc, room, member, sent, steps)?;
    events.push(DataEvent::Patch {
        diff,
        server_clock: room.clock(),
    })?;
    Ok(events)
}

// The results of a session's own pushes, by their numbers, at one clock: nothing of them is told.
fn bare_results(alloc: Global, clock: i64, pushed: &[i64]) -> Mem<Events>
    ensures { IfOk result (λ events. events ≡ map (bare clock) pushed.now) }
{
    let mut events = Events::new(alloc);
    'pushes: for number in pushed {
        events.push(DataEvent::PushResult {
            client_clock: *number,
            server_clock: clock,
            action: Action::Rebase(Diff::new(alloc)),
        })?;
    }
    Ok(events)
}

// What changed after a clock, without the session's presence.
fn changes_of_others<L: Ledger>(
    alloc: Global,
    room: &RoomHistory,
    member: Member<'_>,
    sent: i64,
    steps: &mut Steps<L>,
) -> Mem<Diff>
    ensures diff { IfOk result (λ diff. (first : ℕ) (history : History) (told : ℕ)
        → Keeps first history room.now.kept → sent ≡ pos told → start_of first history ≤ told
        → diff ≡ changes_after (decided_by room.now.kept) (plan_of member.entry.plan.now)
        (λ id. not (is_own member.entry.session id)) told history) }
    ensures ticks { IfOk result (λ diff. (first : ℕ) (history : History) (told : ℕ)
        → Keeps first history room.now.kept → sent ≡ pos told → start_of first history ≤ told
        → steps.new ≡ steps.old + (length (changed_after told history) + 1)) }
{
    let own = presence_id(alloc, member.session)?;
    let mut ids = changed_ids(alloc, room, sent, steps)?;
    drop_own(&own, &mut ids);
    let mut diff = Diff::new(alloc);
    put_states(alloc, room, member.plan, &mut diff, ids)?;
    Ok(diff)
}
