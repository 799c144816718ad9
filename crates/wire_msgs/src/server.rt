//! The fields of a room's message of each type, in the order of their keys.
ghost use Rattle.std.specs.Prelude.{◌≡◌, IfOk, IfErr};
ghost use Rattle.rooms_val.specs.View.{pairs_view};
ghost use Rattle.rooms_val.specs.Answers.{Refuses};
ghost use Rattle.wire_msgs.specs.Messages.{server_fields, IsProperServer};
ghost use Rattle.wire_msgs.specs.Rows.{IsOfNoServer};
ghost use Rattle.wire_msgs.specs.declared.types.ServerType.TheVariants as from_server;

use crate::entries::{check_type, clock_in, hydration_in, number_in, text_in, truth_in, val_in};
use crate::events::events_of;
use crate::parts::{diff_of, schema_of};
use crate::types::ServerType;
use rooms_val::{OpFault, Text, Val};
use std::alloc::Global;
use sync_msgs::ServerMessage;

/// The message of a type that has these fields. `WrongKind` exactly where it has none.
pub(crate) fn server_in(
    alloc: Global,
    kind: ServerType,
    entries: &[(Text, Val)],
) -> Result<ServerMessage, OpFault>
    ensures found { IfOk result (λ m.
        (pairs_view entries.now ≡ server_fields m) × IsProperServer m) }
    ensures refused { IfErr result (Refuses (IsOfNoServer kind (pairs_view entries.now))) }
{
    match kind {
        ServerType::Connect => connect_of(alloc, entries),
        ServerType::Data => data_of(alloc, entries),
        ServerType::Pong => pong_of(entries),
    }
}

fn connect_of(alloc: Global, entries: &[(Text, Val)]) -> Result<ServerMessage, OpFault>
    ensures found { IfOk result (λ m.
        (pairs_view entries.now ≡ server_fields m) × IsProperServer m) }
    ensures refused { IfErr result (Refuses
        (IsOfNoServer from_server.Connect (pairs_view entries.now))) }
{
    let [request, diff, keeps, readonly, version, schema, clock, word] = entries else {
        return Err(OpFault::WrongKind);
    };
    check_type(word, "connect")?;
    let request = text_in(request, "connectRequestId")?;
    let hydration_type = hydration_in(keeps, "hydrationType")?;
    let is_readonly = truth_in(readonly, "isReadonly")?;
    let protocol_version = number_in(version, "protocolVersion")?;
    let server_clock = clock_in(clock, "serverClock")?;
    let schema = schema_of(alloc, val_in(schema, "schema")?)?;
    let diff = diff_of(alloc, val_in(diff, "diff")?)?;
    Ok(ServerMessage::Connect {
        hydration_type,
        connect_request_id: request.copy(alloc)?,
        protocol_version,
        schema,
        diff,
        server_clock,
        is_readonly,
    })
}

fn data_of(alloc: Global, entries: &[(Text, Val)]) -> Result<ServerMessage, OpFault>
    ensures found { IfOk result (λ m.
        (pairs_view entries.now ≡ server_fields m) × IsProperServer m) }
    ensures refused { IfErr result (Refuses
        (IsOfNoServer from_server.Data (pairs_view entries.now))) }
{
    let [events, word] = entries else {
        return Err(OpFault::WrongKind);
    };
    check_type(word, "data")?;
    let Val::List(vals) = val_in(events, "data")? else {
        return Err(OpFault::WrongKind);
    };
    let events = events_of(alloc, vals.as_slice())?;
    Ok(ServerMessage::Data { events })
}

fn pong_of(entries: &[(Text, Val)]) -> Result<ServerMessage, OpFault>
    ensures found { IfOk result (λ m.
        (pairs_view entries.now ≡ server_fields m) × IsProperServer m) }
    ensures refused { IfErr result (Refuses
        (IsOfNoServer from_server.Pong (pairs_view entries.now))) }
{
    let [word] = entries else {
        return Err(OpFault::WrongKind);
    };
    check_type(word, "pong")?;
    Ok(ServerMessage::Pong)
}
