//! The fields of a client's message of each type, in the order of their keys.
ghost use Rattle.std.specs.Prelude.{◌≡◌, ◌∷◌, IfOk, IfErr};
ghost use Rattle.rooms_val.specs.View.{pairs_view, field_of};
ghost use Rattle.rooms_val.specs.Answers.{Refuses};
ghost use Rattle.wire_msgs.specs.Messages.{client_fields, IsProperClient};
ghost use Rattle.wire_msgs.specs.Rows.{IsOfNoClient};
ghost use Rattle.wire_msgs.specs.declared.types.ClientType.TheVariants as from_client;

use crate::entries::{check_type, clock_in, number_in, text_in, val_in};
use crate::parts::{maybe_diff_of, maybe_first, maybe_presence_of, schema_of};
use crate::types::ClientType;
use rooms_val::{OpFault, Text, Val};
use std::alloc::Global;
use sync_msgs::ClientMessage;

/// The message of a type that has these fields. `WrongKind` exactly where it has none.
pub(crate) fn client_in(
    alloc: Global,
    kind: ClientType,
    entries: &[(Text, Val)],
) -> Result<ClientMessage, OpFault>
    ensures found { IfOk result (λ m.
        (pairs_view entries.now ≡ client_fields m) × IsProperClient m) }
    ensures refused { IfErr result (Refuses (IsOfNoClient kind (pairs_view entries.now))) }
{
    match kind {
        ClientType::Connect => connect_of(alloc, entries),
        ClientType::Push => push_of(alloc, entries),
        ClientType::Ping => ping_of(entries),
    }
}

fn connect_of(alloc: Global, entries: &[(Text, Val)]) -> Result<ClientMessage, OpFault>
    ensures found { IfOk result (λ m.
        (pairs_view entries.now ≡ client_fields m) × IsProperClient m) }
    ensures refused { IfErr result (Refuses
        (IsOfNoClient from_client.Connect (pairs_view entries.now))) }
{
    let [request, clock, version, schema, word] = entries else {
        return Err(OpFault::WrongKind);
    };
    check_type(word, "connect")?;
    let request = text_in(request, "connectRequestId")?;
    let last_server_clock = number_in(clock, "lastServerClock")?;
    let protocol_version = number_in(version, "protocolVersion")?;
    let schema = schema_of(alloc, val_in(schema, "schema")?)?;
    Ok(ClientMessage::Connect {
        connect_request_id: request.copy(alloc)?,
        last_server_clock,
        protocol_version,
        schema,
    })
}

fn push_of(alloc: Global, entries: &[(Text, Val)]) -> Result<ClientMessage, OpFault>
    ensures found { IfOk result (λ m.
        (pairs_view entries.now ≡ client_fields m) × IsProperClient m) }
    ensures refused { IfErr result (Refuses
        (IsOfNoClient from_client.Push (pairs_view entries.now))) }
{
    let [clock, rest @ ..] = entries else {
        return Err(OpFault::WrongKind);
    };
    push_with(alloc, clock, rest)
}

// The push that has this field first and these after it, of which two may be absent.
fn push_with(
    alloc: Global,
    clock: &(Text, Val),
    rest: &[(Text, Val)],
) -> Result<ClientMessage, OpFault>
    ensures found { IfOk result (λ m.
        (field_of clock.now ∷ pairs_view rest.now ≡ client_fields m) × IsProperClient m) }
    ensures refused { IfErr result (Refuses
        (IsOfNoClient from_client.Push (field_of clock.now ∷ pairs_view rest.now))) }
{
    let (diff, rest) = maybe_first(rest, "diff");
    let (presence, rest) = maybe_first(rest, "presence");
    let [word] = rest else {
        return Err(OpFault::WrongKind);
    };
    check_type(word, "push")?;
    let client_clock = clock_in(clock, "clientClock")?;
    let edit = maybe_diff_of(alloc, diff)?;
    let presence = maybe_presence_of(alloc, presence)?;
    Ok(ClientMessage::Push {
        client_clock,
        diff: edit,
        presence,
    })
}

fn ping_of(entries: &[(Text, Val)]) -> Result<ClientMessage, OpFault>
    ensures found { IfOk result (λ m.
        (pairs_view entries.now ≡ client_fields m) × IsProperClient m) }
    ensures refused { IfErr result (Refuses
        (IsOfNoClient from_client.Ping (pairs_view entries.now))) }
{
    let [word] = entries else {
        return Err(OpFault::WrongKind);
    };
    check_type(word, "ping")?;
    Ok(ClientMessage::Ping)
}
