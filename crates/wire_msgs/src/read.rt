//! The reading of messages.
ghost use Rattle.std.specs.Prelude.{◌≡◌, IfOk, IfErr, codes, option_map, option_and_then};
ghost use Rattle.rooms_val.specs.Kinds.{text_at};
ghost use Rattle.rooms_val.specs.View.{data_of};
ghost use Rattle.wire_msgs.specs.Messages.{client_val, IsProperClient};
ghost use Rattle.wire_msgs.specs.Messages.{server_val, IsProperServer};
ghost use Rattle.wire_msgs.specs.Readings.{IsClient, IsServer, RefusesClient, RefusesServer};
ghost use Rattle.wire_msgs.specs.Readings.{RefusesClientVal, RefusesServerVal};

use crate::client::client_in;
use crate::depth::is_within;
use crate::fault::MsgFault;
use crate::keys::{client_fault, server_fault};
use crate::server::server_in;
use crate::types::{ClientType, ServerType};
use rooms_val::{Fields, OpFault, Val, ValFault};
use std::alloc::Global;
use sync_msgs::{ClientMessage, ServerMessage};

/// How deep a client's message may nest, so that what the room sends on of it stays within the 64
/// levels that are read.
pub const DEEPEST_FROM_CLIENT: usize = 56;

/// The message of a client for which a text stands. Its fields may stand in any order. It costs the
/// text.
///
/// # Errors
///
/// The first of these that applies: `Val` where the text is no value, and `Val(TooDeep)` where the
/// value nests more than 56 deep; `UnknownType` where the value is no map, or has no text under
/// `type` that is `connect`, `push` or `ping`; `MissingField` where it lacks a key of its type;
/// `ExtraField` where it has one that its type doesn't have; `WrongKind` where it is that of no
/// message. `OutOfMemory` may come in place of any.
pub fn read_client(alloc: Global, bytes: &[u8]) -> Result<ClientMessage, MsgFault>
    ensures found { IfOk result (IsClient bytes.now) }
    ensures refused { IfErr result (RefusesClient bytes.now) }
{
    let val = Val::read(alloc, bytes)?;
    if !is_within(&val, DEEPEST_FROM_CLIENT) {
        return Err(MsgFault::Val(ValFault::TooDeep));
    }
    client_of(alloc, &val)
}

/// The message of a room for which a text stands. Its fields may stand in any order. It costs the
/// text.
///
/// # Errors
///
/// The first of these that applies: `Val` where the text is no value; `UnknownType` where the value
/// is no map, or has no text under `type` that is `connect`, `data` or `pong`; `MissingField` where
/// it lacks a key of its type; `ExtraField` where it has one that its type doesn't have;
/// `WrongKind` where it is that of no message. `OutOfMemory` may come in place of any.
pub fn read_server(alloc: Global, bytes: &[u8]) -> Result<ServerMessage, MsgFault>
    ensures found { IfOk result (IsServer bytes.now) }
    ensures refused { IfErr result (RefusesServer bytes.now) }
{
    let val = Val::read(alloc, bytes)?;
    server_of(alloc, &val)
}

// The message of a client that a value is.
fn client_of(alloc: Global, val: &Val) -> Result<ClientMessage, MsgFault>
    ensures found { IfOk result (λ m. (data_of val.now ≡ client_val m) × IsProperClient m) }
    ensures refused { IfErr result (RefusesClientVal (data_of val.now)) }
{
    let Val::Map(fields) = val else {
        return Err(MsgFault::UnknownType);
    };
    let Some(word) = fields.text_at("type") else {
        return Err(MsgFault::UnknownType);
    };
    let Some(kind) = ClientType::of(word) else {
        return Err(MsgFault::UnknownType);
    };
    match client_in(alloc, kind, fields.as_slice()) {
        Ok(message) => Ok(message),
        Err(OpFault::OutOfMemory) => Err(MsgFault::OutOfMemory),
        Err(OpFault::WrongKind) => match client_fault(kind, fields) {
            Some(fault) => Err(fault),
            None => Err(MsgFault::WrongKind),
        },
    }
}

// The message of a room that a value is.
fn server_of(alloc: Global, val: &Val) -> Result<ServerMessage, MsgFault>
    ensures found { IfOk result (λ m. (data_of val.now ≡ server_val m) × IsProperServer m) }
    ensures refused { IfErr result (RefusesServerVal (data_of val.now)) }
{
    let Val::Map(fields) = val else {
        return Err(MsgFault::UnknownType);
    };
    let Some(word) = fields.text_at("type") else {
        return Err(MsgFault::UnknownType);
    };
    let Some(kind) = ServerType::of(word) else {
        return Err(MsgFault::UnknownType);
    };
    match server_in(alloc, kind, fields.as_slice()) {
        Ok(message) => Ok(message),
        Err(OpFault::OutOfMemory) => Err(MsgFault::OutOfMemory),
        Err(OpFault::WrongKind) => match server_fault(kind, fields) {
            Some(fault) => Err(fault),
            None => Err(MsgFault::WrongKind),
        },
    }
}
