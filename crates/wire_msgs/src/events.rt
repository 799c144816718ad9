//! The reading of a room's events.
ghost use Rattle.std.specs.Prelude.{◌≡◌, ℤ, List, IfOk, IfErr};
ghost use Rattle.std.specs.Prelude as std;
ghost use Rattle.rooms_val.specs.Data.{text, map, members_of};
ghost use Rattle.rooms_val.specs.View.{data_of, items_view, pairs_view};
ghost use Rattle.rooms_val.specs.Answers.{Refuses};
ghost use Rattle.field_ops.specs.RecordOps.{RecordOps, IsSoundDiff};
ghost use Rattle.sync_msgs.specs.declared.data_event.Action.{Action};
ghost use Rattle.sync_msgs.specs.declared.data_event.DataEvent.{DataEvent};
ghost use Rattle.sync_msgs.specs.declared.data_event.DataEvent.TheVariants as event;
ghost use Rattle.wire_msgs.specs.Events.{action_val, rebase_fields, event_val, event_fields};
ghost use Rattle.wire_msgs.specs.Events.{IsProperAction, IsProperEvent, AreProperEvents};

use crate::entries::{check_type, clock_in, val_in};
use crate::parts::diff_of;
use field_ops::Diff;
use rooms_val::{Fields, OpFault, Text, Val};
use std::alloc::Global;
use sync_msgs::{Action, DataEvent, Events};

/// The events for which values stand, in order.
pub(crate) fn events_of(alloc: Global, vals: &[Val]) -> Result<Events, OpFault>
    ensures found { IfOk result (λ events.
        (items_view vals.now ≡ std.map event_val events) × AreProperEvents events) }
    ensures refused { IfErr result (Refuses ((events : List DataEvent) → AreProperEvents events
        → ¬ (items_view vals.now ≡ std.map event_val events))) }
{
    let mut events = Events::new(alloc);
    for val in vals {
        let event = event_of(alloc, val)?;
        events.push(event)?;
    }
    Ok(events)
}

// The event for which a value stands.
fn event_of(alloc: Global, val: &Val) -> Result<DataEvent, OpFault>
    ensures found { IfOk result (λ e. (data_of val.now ≡ event_val e) × IsProperEvent e) }
    ensures refused { IfErr result (Refuses ((e : DataEvent) → IsProperEvent e
        → ¬ (data_of val.now ≡ event_val e))) }
{
    let Val::Map(fields) = val else {
        return Err(OpFault::WrongKind);
    };
    event_in(alloc, fields.as_slice())
}

// The event that has these fields: a patch has three, and the answer to a push four.
fn event_in(alloc: Global, entries: &[(Text, Val)]) -> Result<DataEvent, OpFault>
    ensures found { IfOk result (λ e. (pairs_view entries.now ≡ event_fields e) × IsProperEvent e) }
    ensures refused { IfErr result (Refuses ((e : DataEvent) → IsProperEvent e
        → ¬ (pairs_view entries.now ≡ event_fields e))) }
{
    if entries.len() == 3 {
        patch_in(alloc, entries)
    } else {
        result_in(alloc, entries)
    }
}

fn patch_in(alloc: Global, entries: &[(Text, Val)]) -> Result<DataEvent, OpFault>
    ensures found { IfOk result (λ e. (pairs_view entries.now ≡ event_fields e) × IsProperEvent e) }
    ensures refused { IfErr result (Refuses ((diff : RecordOps) (clock : ℤ)
        → IsProperEvent (event.Patch diff clock)
        → ¬ (pairs_view entries.now ≡ event_fields (event.Patch diff clock)))) }
{
    let [diff, clock, word] = entries else {
        return Err(OpFault::WrongKind);
    };
    check_type(word, "patch")?;
    let server_clock = clock_in(clock, "serverClock")?;
    let diff = diff_of(alloc, val_in(diff, "diff")?)?;
    Ok(DataEvent::Patch { diff, server_clock })
}

fn result_in(alloc: Global, entries: &[(Text, Val)]) -> Result<DataEvent, OpFault>
    ensures found { IfOk result (λ e. (pairs_view entries.now ≡ event_fields e) × IsProperEvent e) }
    ensures refused { IfErr result (Refuses ((push clock : ℤ) (action : Action)
        → IsProperEvent (event.PushResult push clock action)
        → ¬ (pairs_view entries.now ≡ event_fields (event.PushResult push clock action)))) }
{
    let [action, push, clock, word] = entries else {
        return Err(OpFault::WrongKind);
    };
    check_type(word, "push_result")?;
    let client_clock = clock_in(push, "clientClock")?;
    let server_clock = clock_in(clock, "serverClock")?;
    let action = action_of(alloc, val_in(action, "action")?)?;
    Ok(DataEvent::PushResult {
        client_clock,
        server_clock,
        action,
    })
}

// The action for which a value stands.
fn action_of(alloc: Global, val: &Val) -> Result<Action, OpFault>
    ensures found { IfOk result (λ a. (data_of val.now ≡ action_val a) × IsProperAction a) }
    ensures refused { IfErr result (Refuses ((a : Action) → IsProperAction a
        → ¬ (data_of val.now ≡ action_val a))) }
{
    match val {
        Val::Text(text) => action_named(text.as_str()),
        Val::Map(fields) => rebase_of(alloc, fields),
        _ => Err(OpFault::WrongKind),
    }
}

// The action that has a name.
fn action_named(name: &str) -> Result<Action, OpFault>
    ensures found { IfOk result (λ a. (text name.now ≡ action_val a) × IsProperAction a) }
    ensures refused { IfErr result (Refuses ((a : Action) → IsProperAction a
        → ¬ (text name.now ≡ action_val a))) }
{
    match name {
        "commit" => Ok(Action::Commit),
        "discard" => Ok(Action::Discard),
        _ => Err(OpFault::WrongKind),
    }
}

// The action that a map is, which names a diff.
fn rebase_of(alloc: Global, fields: &Fields) -> Result<Action, OpFault>
    ensures found { IfOk result (λ a.
        (map (members_of fields.now) ≡ action_val a) × IsProperAction a) }
    ensures refused { IfErr result (Refuses ((a : Action) → IsProperAction a
        → ¬ (map (members_of fields.now) ≡ action_val a))) }
{
    let diff = rebase_in(alloc, fields.as_slice())?;
    Ok(Action::Rebase(diff))
}

// The diff that an action names, where it has this field alone.
fn rebase_in(alloc: Global, entries: &[(Text, Val)]) -> Result<Diff, OpFault>
    ensures found { IfOk result (λ d. (pairs_view entries.now ≡ rebase_fields d) × IsSoundDiff d) }
    ensures refused { IfErr result (Refuses ((diff : RecordOps) → IsSoundDiff diff
        → ¬ (pairs_view entries.now ≡ rebase_fields diff))) }
{
    let [diff] = entries else {
        return Err(OpFault::WrongKind);
    };
    diff_of(alloc, val_in(diff, "rebaseWithDiff")?)
}
