//! The fields of messages and events.
ghost use Rattle.std.specs.Prelude.{◌≡◌, IfOk, List};
ghost use Rattle.std.specs.Prelude as std;
ghost use Rattle.rooms_val.specs.View.{data_of};
ghost use Rattle.field_ops.specs.RecordOps.{RecordOps};
ghost use Rattle.sync_msgs.specs.declared.client_message.ClientMessage.TheVariants as client;
ghost use Rattle.sync_msgs.specs.declared.data_event.DataEvent.TheVariants as event;
ghost use Rattle.wire_msgs.specs.Events.{action_val, event_fields, event_val};
ghost use Rattle.wire_msgs.specs.Messages.{client_fields, server_fields, hydration_word};

use crate::fields::{with_diff, with_presence, with_type};
use field_ops::{Diff, RecordOp, diff_val};
use rooms_val::{Fields, Mem, Text, Val, Vals};
use std::alloc::Global;
use sync_msgs::{Action, ClientMessage, DataEvent, Events, Hydration, ServerMessage};

/// The fields of a client's message.
pub(crate) fn client_fields(alloc: Global, message: &ClientMessage) -> Mem<Fields>
    ensures { IfOk result (λ fields. fields ≡ client_fields message.now) }
{
    match message {
        ClientMessage::Connect {
            connect_request_id,
            last_server_clock,
            protocol_version,
            schema,
        } => {
            let request = Val::Text(connect_request_id.copy(alloc)?);
            let fields = Fields::new(alloc).with(alloc, "connectRequestId", request)?;
            let fields = fields.with(alloc, "lastServerClock", Val::Int(*last_server_clock))?;
            let fields = fields.with(alloc, "protocolVersion", Val::Int(*protocol_version))?;
            let fields = fields.with(alloc, "schema", schema.val(alloc)?)?;
            with_type(alloc, fields, "connect")
        }
        ClientMessage::Push {
            client_clock,
            diff,
            presence,
        } => push_fields(alloc, *client_clock, diff, presence),
        ClientMessage::Ping => with_type(alloc, Fields::new(alloc), "ping"),
    }
}

fn push_fields(
    alloc: Global,
    client_clock: i64,
    diff: &Option<Diff>,
    presence: &Option<RecordOp>,
) -> Mem<Fields>
    ensures { IfOk result (λ fields.
        fields ≡ client_fields (client.Push client_clock diff.now presence.now)) }
{
    let fields = Fields::new(alloc).with(alloc, "clientClock", Val::Int(client_clock))?;
    let fields = with_diff(alloc, fields, diff)?;
    let fields = with_presence(alloc, fields, presence)?;
    with_type(alloc, fields, "push")
}

/// The fields of a room's message.
pub(crate) fn server_fields(alloc: Global, message: &ServerMessage) -> Mem<Fields>
    ensures { IfOk result (λ fields. fields ≡ server_fields message.now) }
{
    match message {
        ServerMessage::Connect {
            hydration_type,
            connect_request_id,
            protocol_version,
            schema,
            diff,
            server_clock,
            is_readonly,
        } => {
            let request = Val::Text(connect_request_id.copy(alloc)?);
            let keeps = Val::Text(Text::of(alloc, hydration_word(*hydration_type))?);
            let fields = Fields::new(alloc).with(alloc, "connectRequestId", request)?;
            let fields = fields.with(alloc, "diff", diff_val(alloc, diff)?)?;
            let fields = fields.with(alloc, "hydrationType", keeps)?;
            let fields = fields.with(alloc, "isReadonly", Val::Bool(*is_readonly))?;
            let fields = fields.with(alloc, "protocolVersion", Val::Int(*protocol_version))?;
            let fields = fields.with(alloc, "schema", schema.val(alloc)?)?;
            let fields = fields.with(alloc, "serverClock", Val::Int(*server_clock))?;
            with_type(alloc, fields, "connect")
        }
        ServerMessage::Data { events } => {
            let fields = Fields::new(alloc).with(
                alloc,
                "data",
                Val::List(events_val(alloc, events)?),
            )?;
            with_type(alloc, fields, "data")
        }
        ServerMessage::Pong => with_type(alloc, Fields::new(alloc), "pong"),
    }
}

// The text of what a client keeps.
fn hydration_word(keeps: Hydration) -> &'static str
    ensures { result.now ≡ hydration_word keeps }
{
    match keeps {
        Hydration::WipeAll => "wipe_all",
        Hydration::WipePresence => "wipe_presence",
    }
}

// The values of events, in order.
fn events_val(alloc: Global, events: &Events) -> Mem<Vals>
    ensures { IfOk result (λ vals. vals ≡ std.map event_val events.now) }
{
    let mut vals = Vals::new(alloc);
    for event in events.as_slice() {
        vals.push(Val::Map(event_fields(alloc, event)?))?;
    }
    Ok(vals)
}

// The fields of an event.
fn event_fields(alloc: Global, event: &DataEvent) -> Mem<Fields>
    ensures { IfOk result (λ fields. fields ≡ event_fields event.now) }
{
    match event {
        DataEvent::Patch { diff, server_clock } => {
            let fields = Fields::new(alloc).with(alloc, "diff", diff_val(alloc, diff)?)?;
            let fields = fields.with(alloc, "serverClock", Val::Int(*server_clock))?;
            with_type(alloc, fields, "patch")
        }
        DataEvent::PushResult {
            client_clock,
            server_clock,
            action,
        } => {
            let action = action_val(alloc, action)?;
            let fields = Fields::new(alloc).with(alloc, "action", action)?;
            let fields = fields.with(alloc, "clientClock", Val::Int(*client_clock))?;
            let fields = fields.with(alloc, "serverClock", Val::Int(*server_clock))?;
            with_type(alloc, fields, "push_result")
        }
    }
}

// The value of an action.
fn action_val(alloc: Global, action: &Action) -> Mem<Val>
    ensures { IfOk result (λ v. data_of v ≡ action_val action.now) }
{
    match action {
        Action::Commit => Ok(Val::Text(Text::of(alloc, "commit")?)),
        Action::Discard => Ok(Val::Text(Text::of(alloc, "discard")?)),
        Action::Rebase(diff) => {
            let diff = diff_val(alloc, diff)?;
            Ok(Val::Map(Fields::new(alloc).with(alloc, "rebaseWithDiff", diff)?))
        }
    }
}
