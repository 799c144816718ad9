//! Data messages of one patch each, which a client takes.
use crate::made::{move_diff, record_of};
use crate::touching::Calls;
use doc_store::MapDoc;
use field_ops::{Diff, RecordOp};
use migrate_seq::Serialized;
use room_model::limits::PROTOCOL;
use rooms_val::{Mem, OutOfMemory, Steps, Text};
use std::alloc::Global;
use std::sync::ledger::Ledger;
use sync_client::SyncClient;
use sync_msgs::{DataEvent, Events, Hydration, ServerMessage};
use tl_tables::schema_at;

/// A shape without id.
const SHAPE: &str =
    r#"{"index":"a0","isLocked":false,"meta":{},"opacity":100,"parentId":"page:p","props":{"color":"black","dash":"draw","fill":"none","geo":"rectangle","h":10,"size":"m","text":"","w":10},"rotation":0,"type":"geo","typeName":"shape","x":0,"y":0}"#;

type Client = SyncClient<MapDoc>;

/// Whether the messages that are made are taken too.
#[derive(Clone, Copy, PartialEq, Eq)]
pub(crate) enum Messages {
    Taken,
    Made,
}

/// Makes a message at each call, by which another moves one of the shapes of these ids, and lets a client with a pending edit
/// of the first take it, where it is to be taken. It returns the clock that the client reached.
pub(crate) fn call_client<L: Ledger>(
    messages: Messages,
    alloc: Global,
    ids: &[Text],
    calls: Calls,
    steps: &mut Steps<L>,
) -> Mem<i64> {
    let mut client = new_client(alloc)?;
    call(messages, alloc, &mut client, ids, calls, steps)
}

/// A client of the newest version.
fn new_client(alloc: Global) -> Mem<Client> {
    match schema_at(alloc, 3) {
        Ok(schema) => Ok(SyncClient::new(alloc, schema, MapDoc::new(alloc))),
        Err(_) => Err(OutOfMemory),
    }
}

/// Connects the client, has it edit the first shape, and does the calls.
fn call<L: Ledger>(
    messages: Messages,
    alloc: Global,
    client: &mut Client,
    ids: &[Text],
    calls: Calls,
    steps: &mut Steps<L>,
) -> Mem<i64> {
    connect(alloc, client)?;
    take(alloc, client, &answer(alloc, ids)?, steps)?;
    if let Some(id) = ids.first() {
        drop(client.edit(alloc, move_diff(alloc, id, 5)?, false, steps)?);
    }
    for call in 0..calls.count {
        if let Some(id) = calls.id(ids, call) {
            let message = message(alloc, id)?;
            if messages == Messages::Taken {
                take(alloc, client, &message, steps)?;
            }
        }
    }
    Ok(client.reached())
}

/// The client asks to be connected; the request that it makes goes nowhere.
fn connect(alloc: Global, client: &mut Client) -> Mem<()> {
    match client.connect(alloc, 0) {
        Ok(request) => Ok(drop(request)),
        Err(_) => Err(OutOfMemory),
    }
}

/// The client takes a message, of which none is at fault.
fn take<L: Ledger>(
    alloc: Global,
    client: &mut Client,
    message: &ServerMessage,
    steps: &mut Steps<L>,
) -> Mem<()> {
    match client.take(alloc, message, steps) {
        Ok(()) => Ok(()),
        Err(_) => Err(OutOfMemory),
    }
}

/// The answer to the first request, which brings the shapes of these ids.
fn answer(alloc: Global, ids: &[Text]) -> Mem<ServerMessage> {
    let mut diff = Diff::new(alloc);
    put_shapes(alloc, &mut diff, ids)?;
    Ok(ServerMessage::Connect {
        hydration_type: Hydration::WipeAll,
        connect_request_id: Text::of(alloc, "0")?,
        protocol_version: PROTOCOL,
        schema: Serialized::new(alloc),
        diff,
        server_clock: 1,
        is_readonly: false,
    })
}

/// Adds a shape for each of these ids.
fn put_shapes(alloc: Global, diff: &mut Diff, ids: &[Text]) -> Mem<()> {
    for id in ids {
        let shape = record_of(alloc, SHAPE, &[("id", id.as_str())])?;
        drop(diff.put(id.copy(alloc)?, RecordOp::Put(shape))?);
    }
    Ok(())
}

/// The message that another moved the shape of an id.
fn message(alloc: Global, id: &Text) -> Mem<ServerMessage> {
    let mut events = Events::new(alloc);
    let diff = move_diff(alloc, id, 5)?;
    let server_clock = 1;
    events.push(DataEvent::Patch { diff, server_clock })?;
    Ok(ServerMessage::Data { events })
}
