//! The fields of an event of each verb, in the order of their keys.
ghost use Rattle.std.specs.Prelude.{◌≡◌, ℕ, List, IfOk, IfErr};
ghost use Rattle.rooms_val.specs.View.{data_of, pairs_view};
ghost use Rattle.field_ops.specs.RecordOps.{RecordOps, IsSoundDiff};
ghost use Rattle.field_ops.specs.WireRecordOps.{diff_data};
ghost use Rattle.rec_format.specs.Events.{event_fields, header_fields, IsProper};
ghost use Rattle.tl_tables.specs.Tables.{IsVersion};
ghost use Rattle.rec_format.specs.Events.{of_client, of_session, with_name};
ghost use Rattle.room_model.specs.declared.event.Header.{Header};
ghost use Rattle.rec_format.specs.Recorded.{recorded_fields, IsProperRecorded};
ghost use Rattle.rec_format.specs.Rows.{IsOfNoEvent, RefusesRow};
ghost use Rattle.rec_format.specs.declared.verb.Verb.TheVariants as verb';

use crate::clips::{copy_event, paste_event};
use crate::entries::{check_verb, number_in, text_in, truth_in, val_in, version_in};
use crate::fault::{IllFormed, LineFault};
use crate::recorded::RecordedEvent;
use crate::verb::Verb;
use field_ops::{Diff, read_diff};
use room_model::{Event, Header};
use rooms_val::{OpFault, Text, Val};
use std::alloc::Global;
use view_vals::{read_query, read_view};

/// The header that has these fields. Refused exactly where it has none.
pub(crate) fn header_of(entries: &[(Text, Val)]) -> Result<Header, IllFormed>
    ensures found { IfOk result (λ h.
        (pairs_view entries.now ≡ header_fields h) × IsVersion h.version) }
    ensures only { IfErr result (λ _.
        (h : Header) → IsVersion h.version → ¬ (pairs_view entries.now ≡ header_fields h)) }
{
    let [recording, version] = entries else {
        return Err(IllFormed);
    };
    if number_in(recording, "recording")? != 1 {
        return Err(IllFormed);
    }
    let version = version_in(version, "version")?;
    Ok(Header { version })
}

/// The event of a verb that has these fields. `Field` exactly where it has none.
pub(crate) fn event_in(
    alloc: Global,
    verb: Verb,
    entries: &[(Text, Val)],
) -> Result<RecordedEvent, LineFault>
    ensures found { IfOk result (λ e.
        (pairs_view entries.now ≡ recorded_fields e) × IsProperRecorded e) }
    ensures refused { IfErr result (RefusesRow (IsOfNoEvent verb (pairs_view entries.now))) }
{
    match verb {
        Verb::Client => Ok(RecordedEvent::World(client_event(entries)?)),
        Verb::Connect => Ok(RecordedEvent::World(connect_event(entries)?)),
        Verb::Edit => Ok(RecordedEvent::World(edit_event(alloc, entries)?)),
        Verb::Presence => Ok(RecordedEvent::World(presence_event(alloc, entries)?)),
        Verb::Mark => {
            let (client, name) = client_and_name(alloc, entries, Verb::Mark)?;
            Ok(RecordedEvent::World(Event::Mark { client, name }))
        }
        Verb::Undo => {
            let client = client_of(entries, Verb::Undo)?;
            Ok(RecordedEvent::World(Event::Undo { client }))
        }
        Verb::Redo => {
            let client = client_of(entries, Verb::Redo)?;
            Ok(RecordedEvent::World(Event::Redo { client }))
        }
        Verb::Bail => {
            let (client, name) = client_and_name(alloc, entries, Verb::Bail)?;
            Ok(RecordedEvent::World(Event::Bail { client, name }))
        }
        Verb::Copy => Ok(RecordedEvent::World(copy_event(alloc, entries)?)),
        Verb::Paste => Ok(RecordedEvent::World(paste_event(alloc, entries)?)),
        Verb::Handle => {
            let session = session_of(entries, Verb::Handle)?;
            Ok(RecordedEvent::World(Event::Handle { session }))
        }
        Verb::Send => {
            let session = session_of(entries, Verb::Send)?;
            Ok(RecordedEvent::World(Event::Send { session }))
        }
        Verb::Deliver => {
            let client = client_of(entries, Verb::Deliver)?;
            Ok(RecordedEvent::World(Event::Deliver { client }))
        }
        Verb::Cut => {
            let client = client_of(entries, Verb::Cut)?;
            Ok(RecordedEvent::World(Event::Cut { client }))
        }
        Verb::Lose => {
            let session = session_of(entries, Verb::Lose)?;
            Ok(RecordedEvent::World(Event::Lose { session }))
        }
        Verb::Watch => watch_event(alloc, entries),
        Verb::Query => query_event(alloc, entries),
        Verb::Show => {
            let client = client_of(entries, Verb::Show)?;
            Ok(RecordedEvent::World(Event::Show { client }))
        }
        Verb::End => Ok(RecordedEvent::World(end_event(entries)?)),
    }
}

// The client of an event that has no further field.
fn client_of(entries: &[(Text, Val)], verb: Verb) -> Result<u64, IllFormed>
    ensures found { IfOk result (λ c. pairs_view entries.now ≡ of_client verb c) }
    ensures only { IfErr result (λ _.
        (c : ℕ) → ¬ (pairs_view entries.now ≡ of_client verb c)) }
{
    let [client, word] = entries else {
        return Err(IllFormed);
    };
    check_verb(word, verb)?;
    Ok(number_in(client, "client")?)
}

// The client and the name of an event that has both.
fn client_and_name(
    alloc: Global,
    entries: &[(Text, Val)],
    verb: Verb,
) -> Result<(u64, Text), LineFault>
    ensures found { IfOk result (λ p. pairs_view entries.now ≡ with_name verb p.0 p.1) }
    ensures refused { IfErr result (RefusesRow
        ((c : ℕ) (name : List ℕ) → ¬ (pairs_view entries.now ≡ with_name verb c name))) }
{
    let [client, word, name] = entries else {
        return Err(LineFault::Field);
    };
    check_verb(word, verb)?;
    let client = number_in(client, "client")?;
    let name = text_in(name, "name")?;
    Ok((client, name.copy(alloc)?))
}

// The session of an event that has no further field.
fn session_of(entries: &[(Text, Val)], verb: Verb) -> Result<u64, IllFormed>
    ensures found { IfOk result (λ s. pairs_view entries.now ≡ of_session verb s) }
    ensures only { IfErr result (λ _.
        (s : ℕ) → ¬ (pairs_view entries.now ≡ of_session verb s)) }
{
    let [word, session] = entries else {
        return Err(IllFormed);
    };
    check_verb(word, verb)?;
    Ok(number_in(session, "session")?)
}

fn client_event(entries: &[(Text, Val)]) -> Result<Event, IllFormed>
    ensures found { IfOk result (λ e. (pairs_view entries.now ≡ event_fields e) × IsProper e) }
    ensures only { IfErr result (λ _. IsOfNoEvent verb'.Client (pairs_view entries.now)) }
{
    let [word, version] = entries else {
        return Err(IllFormed);
    };
    check_verb(word, Verb::Client)?;
    let version = version_in(version, "version")?;
    Ok(Event::Client { version })
}

fn connect_event(entries: &[(Text, Val)]) -> Result<Event, IllFormed>
    ensures found { IfOk result (λ e. (pairs_view entries.now ≡ event_fields e) × IsProper e) }
    ensures only { IfErr result (λ _. IsOfNoEvent verb'.Connect (pairs_view entries.now)) }
{
    let [client, word, readonly] = entries else {
        return Err(IllFormed);
    };
    check_verb(word, Verb::Connect)?;
    let client = number_in(client, "client")?;
    let readonly = truth_in(readonly, "readonly")?;
    Ok(Event::Connect { client, readonly })
}

// The diff for which a value stands.
fn diff_of(alloc: Global, val: &Val) -> Result<Diff, LineFault>
    ensures found { IfOk result (λ d. data_of val.now ≡ diff_data d) }
    ensures refused { IfErr result (RefusesRow ((diff : RecordOps) → IsSoundDiff diff
        → ¬ (data_of val.now ≡ diff_data diff))) }
{
    // That the value is sound is told by its kind.
    let _ = val.kind();
    match read_diff(alloc, val) {
        Ok(diff) => Ok(diff),
        Err(OpFault::WrongKind) => Err(LineFault::Field),
        Err(OpFault::OutOfMemory) => Err(LineFault::OutOfMemory),
    }
}

fn edit_event(alloc: Global, entries: &[(Text, Val)]) -> Result<Event, LineFault>
    ensures found { IfOk result (λ e. (pairs_view entries.now ≡ event_fields e) × IsProper e) }
    ensures refused { IfErr result (RefusesRow (IsOfNoEvent verb'.Edit (pairs_view entries.now))) }
{
    let [client, diff, word] = entries else {
        return Err(LineFault::Field);
    };
    check_verb(word, Verb::Edit)?;
    let client = number_in(client, "client")?;
    let diff = diff_of(alloc, val_in(diff, "diff")?)?;
    // That the ids of the diff rise is told by its length.
    let _ = diff.len();
    Ok(Event::Edit { client, diff })
}

fn presence_event(alloc: Global, entries: &[(Text, Val)]) -> Result<Event, LineFault>
    ensures found { IfOk result (λ e. (pairs_view entries.now ≡ event_fields e) × IsProper e) }
    ensures refused { IfErr result (RefusesRow
        (IsOfNoEvent verb'.Presence (pairs_view entries.now))) }
{
    let [client, word, record] = entries else {
        return Err(LineFault::Field);
    };
    check_verb(word, Verb::Presence)?;
    let client = number_in(client, "client")?;
    let stored = val_in(record, "record")?.copy(alloc)?;
    Ok(Event::Presence { client, stored })
}

fn watch_event(alloc: Global, entries: &[(Text, Val)]) -> Result<RecordedEvent, LineFault>
    ensures found { IfOk result (λ e.
        (pairs_view entries.now ≡ recorded_fields e) × IsProperRecorded e) }
    ensures refused { IfErr result (RefusesRow (IsOfNoEvent verb'.Watch (pairs_view entries.now))) }
{
    let [client, word, view] = entries else {
        return Err(LineFault::Field);
    };
    check_verb(word, Verb::Watch)?;
    let client = number_in(client, "client")?;
    let view = read_view(alloc, val_in(view, "view")?)?;
    Ok(RecordedEvent::Watch { client, view })
}

fn query_event(alloc: Global, entries: &[(Text, Val)]) -> Result<RecordedEvent, LineFault>
    ensures found { IfOk result (λ e.
        (pairs_view entries.now ≡ recorded_fields e) × IsProperRecorded e) }
    ensures refused { IfErr result (RefusesRow (IsOfNoEvent verb'.Query (pairs_view entries.now))) }
{
    let [client, word, type_name, where_] = entries else {
        return Err(LineFault::Field);
    };
    check_verb(word, Verb::Query)?;
    let client = number_in(client, "client")?;
    let type_name = text_in(type_name, "type")?.copy(alloc)?;
    let where_ = read_query(alloc, val_in(where_, "where")?)?;
    Ok(RecordedEvent::Query {
        client,
        type_name,
        where_,
    })
}

fn end_event(entries: &[(Text, Val)]) -> Result<Event, IllFormed>
    ensures found { IfOk result (λ e. (pairs_view entries.now ≡ event_fields e) × IsProper e) }
    ensures only { IfErr result (λ _. IsOfNoEvent verb'.End (pairs_view entries.now)) }
{
    let [word] = entries else {
        return Err(IllFormed);
    };
    check_verb(word, Verb::End)?;
    Ok(Event::End)
}
