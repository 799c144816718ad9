//! The printing of events, each without a newline.
ghost use Rattle.std.specs.Prelude.{◌≡◌, ◌≤◌, [], ◌∷◌, length, IfOk};
ghost use Rattle.rooms_val.specs.Json.{text_of};
ghost use Rattle.rec_format.specs.Events.{event_val, event_fields, IsProper};
ghost use Rattle.rec_format.specs.Events.{does, of_client, of_session, with_name};
ghost use Rattle.rec_format.specs.Lines.{IsEvent};
ghost use Rattle.rec_format.specs.Outs.{number_printed};
ghost use Rattle.rec_format.specs.Printing.{Fits, IsPrintable, IsPrintableRecorded, IsReadable};
ghost use Rattle.rec_format.specs.Printing.{as_printed, as_printed_recorded};
ghost use Rattle.rec_format.specs.Recorded.{recorded_val, recorded_fields, IsProperRecorded};
ghost use Rattle.rec_format.specs.Recorded.{watch_fields, query_fields};
ghost use Rattle.rec_format.specs.declared.recorded.RecordedEvent.TheVariants as recorded;

use crate::fields::number;
use crate::out::ids_vals;
use crate::read::LONGEST_LINE;
use crate::recorded::RecordedEvent;
use crate::verb::Verb;
use field_ops::diff_val;
use room_model::Event;
use rooms_val::{Fields, Mem, Text, Val};
use shape_tree::{Query, View};
use std::alloc::Global;
use view_vals::{query_val, view_val};

/// The line of an event. It costs what is printed.
///
/// A number of a client or session from 2^63 on is printed as 2^63 - 1; every other event has its
/// own line.
pub fn print_event(alloc: Global, event: &Event) -> Mem<Vec<u8>>
    ensures printed { IfOk result (λ line.
        line.items ≡ text_of (event_val (as_printed event.now))) }
    ensures text { IfOk result (λ line. IsPrintable event.now
        → line.items ≡ text_of (event_val event.now)) }
    // It is read as the event, where it isn't too long and its numbers and depth are in range.
    ensures reads_back { IfOk result (λ line. IsPrintable event.now → IsProper event.now
        → IsReadable (event_val event.now) → length line.items ≤ LONGEST_LINE
        → IsEvent line.items (recorded.World event.now)) }
{
    let fields = fields_of(alloc, event)?;
    Ok(Val::Map(fields).print(alloc)?)
}

/// The line of an event, or of a watch or query. It costs what is printed.
///
/// A number of a client or session from 2^63 on is printed as 2^63 - 1; every other event has its
/// own line.
pub fn print_recorded(alloc: Global, event: &RecordedEvent) -> Mem<Vec<u8>>
    ensures printed { IfOk result (λ line.
        line.items ≡ text_of (recorded_val (as_printed_recorded event.now))) }
    ensures text { IfOk result (λ line. IsPrintableRecorded event.now
        → line.items ≡ text_of (recorded_val event.now)) }
    // It is read as the event, where it isn't too long and its numbers and depth are in range.
    ensures reads_back { IfOk result (λ line. IsPrintableRecorded event.now
        → IsProperRecorded event.now → IsReadable (recorded_val event.now)
        → length line.items ≤ LONGEST_LINE → IsEvent line.items event.now) }
{
    let fields = recorded_fields(alloc, event)?;
    Ok(Val::Map(fields).print(alloc)?)
}

// The fields of an event, or of a watch or query.
fn recorded_fields(alloc: Global, event: &RecordedEvent) -> Mem<Fields>
    ensures printed { IfOk result (λ fields.
        fields ≡ recorded_fields (as_printed_recorded event.now)) }
    ensures fits { IfOk result (λ fields. IsPrintableRecorded event.now
        → fields ≡ recorded_fields event.now) }
{
    match event {
        RecordedEvent::World(event) => fields_of(alloc, event),
        RecordedEvent::Watch { client, view } => watch_fields(alloc, *client, view),
        RecordedEvent::Query {
            client,
            type_name,
            where_,
        } => query_fields(alloc, *client, type_name, where_),
    }
}

fn watch_fields(alloc: Global, client: u64, view: &View) -> Mem<Fields>
    ensures printed { IfOk result (λ fields.
        fields ≡ watch_fields (number_printed client) view.now) }
    ensures fits { IfOk result (λ fields. Fits client → fields ≡ watch_fields client view.now) }
{
    let fields = of_client(alloc, Verb::Watch, client)?;
    fields.with(alloc, "view", view_val(alloc, view)?)
}

fn query_fields(alloc: Global, client: u64, type_name: &Text, where_: &Query) -> Mem<Fields>
    ensures printed { IfOk result (λ fields.
        fields ≡ query_fields (number_printed client) type_name.now where_.now) }
    ensures fits { IfOk result (λ fields.
        Fits client → fields ≡ query_fields client type_name.now where_.now) }
{
    let fields = of_client(alloc, Verb::Query, client)?;
    let fields = fields.with(alloc, "type", Val::Text(type_name.copy(alloc)?))?;
    fields.with(alloc, "where", query_val(alloc, where_)?)
}

// The fields of an event.
fn fields_of(alloc: Global, event: &Event) -> Mem<Fields>
    ensures printed { IfOk result (λ fields. fields ≡ event_fields (as_printed event.now)) }
    ensures fits { IfOk result (λ fields. IsPrintable event.now → fields ≡ event_fields event.now) }
{
    match event {
        Event::Client { version } => {
            let fields = verb_alone(alloc, Verb::Client)?;
            fields.with(alloc, "version", Val::Int(i64::from(*version)))
        }
        Event::Connect { client, readonly } => {
            let fields = of_client(alloc, Verb::Connect, *client)?;
            fields.with(alloc, "readonly", Val::Bool(*readonly))
        }
        Event::Edit { client, diff } => {
            let fields = of_client(alloc, Verb::Edit, *client)?;
            fields.with(alloc, "diff", diff_val(alloc, diff)?)
        }
        Event::Presence { client, stored } => {
            let fields = of_client(alloc, Verb::Presence, *client)?;
            fields.with(alloc, "record", stored.copy(alloc)?)
        }
        Event::Mark { client, name } => of_client_and_name(alloc, Verb::Mark, *client, name),
        Event::Undo { client } => of_client(alloc, Verb::Undo, *client),
        Event::Redo { client } => of_client(alloc, Verb::Redo, *client),
        Event::Bail { client, name } => of_client_and_name(alloc, Verb::Bail, *client, name),
        Event::Copy { client, ids } => {
            let fields = of_client(alloc, Verb::Copy, *client)?;
            fields.with(alloc, "ids", Val::List(ids_vals(alloc, ids.as_slice())?))
        }
        Event::Paste {
            client,
            dx,
            dy,
            parent,
            prefix,
        } => {
            let fields = of_client(alloc, Verb::Paste, *client)?;
            let fields = fields.with(alloc, "dx", Val::Int(*dx))?;
            let fields = fields.with(alloc, "dy", Val::Int(*dy))?;
            let fields = fields.with(alloc, "parent", Val::Text(parent.copy(alloc)?))?;
            fields.with(alloc, "prefix", Val::Text(prefix.copy(alloc)?))
        }
        Event::Handle { session } => of_session(alloc, Verb::Handle, *session),
        Event::Send { session } => of_session(alloc, Verb::Send, *session),
        Event::Deliver { client } => of_client(alloc, Verb::Deliver, *client),
        Event::Cut { client } => of_client(alloc, Verb::Cut, *client),
        Event::Lose { session } => of_session(alloc, Verb::Lose, *session),
        Event::Show { client } => of_client(alloc, Verb::Show, *client),
        Event::End => verb_alone(alloc, Verb::End),
    }
}

// The fields of an event that has no other.
fn verb_alone(alloc: Global, verb: Verb) -> Mem<Fields>
    ensures { IfOk result (λ fields. fields ≡ does verb ∷ []) }
{
    Fields::new(alloc).with(alloc, "do", Val::Text(Text::of(alloc, verb.word())?))
}

// The fields of an event of a client that has no further one.
fn of_client(alloc: Global, verb: Verb, client: u64) -> Mem<Fields>
    ensures printed { IfOk result (λ fields. fields ≡ of_client verb (number_printed client)) }
    ensures fits { IfOk result (λ fields. Fits client → fields ≡ of_client verb client) }
{
    verb_alone(alloc, verb)?.with(alloc, "client", number(client))
}

// The fields of an event of a client that has a name.
fn of_client_and_name(alloc: Global, verb: Verb, client: u64, name: &Text) -> Mem<Fields>
    ensures printed { IfOk result (λ fields.
        fields ≡ with_name verb (number_printed client) name.now) }
    ensures fits { IfOk result (λ fields. Fits client → fields ≡ with_name verb client name.now) }
{
    let fields = of_client(alloc, verb, client)?;
    fields.with(alloc, "name", Val::Text(name.copy(alloc)?))
}

// The fields of an event of a session.
fn of_session(alloc: Global, verb: Verb, session: u64) -> Mem<Fields>
    ensures printed { IfOk result (λ fields. fields ≡ of_session verb (number_printed session)) }
    ensures fits { IfOk result (λ fields. Fits session → fields ≡ of_session verb session) }
{
    verb_alone(alloc, verb)?.with(alloc, "session", number(session))
}
