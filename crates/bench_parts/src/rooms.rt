//! Pushes of patches into a room of many records.
ghost use Rattle.std.specs.Prelude.{ℕ, IfOk};
ghost use Rattle.room_model.specs.Rooms as model;
ghost use Rattle.sync_room.specs.Sessions.{IsIn};
ghost use Rattle.sync_room.specs.Standing.{Stands};

use crate::made::{diff_of, ids_of, patch, record_of};
use crate::touching::Calls;
use field_ops::{Diff, RecordOp};
use migrate_seq::Serialized;
use room_model::limits::PROTOCOL;
use rooms_val::{Mem, OutOfMemory, Steps, Text, Val};
use std::alloc::Global;
use std::sync::ledger::Ledger;
use sync_msgs::ClientMessage;
use sync_room::{Room, SessionId};
use table_schemas::tables_have_presences;
use tl_tables::{TableFault, schema_at};

/// The clock from which on the room refuses pushes.
const LAST: i64 = 1_000_000_000;

/// A page without id.
const PAGE: &str = r#"{"index":"a0","meta":{},"name":"","typeName":"page"}"#;

/// The versions of the sequences that the session's client has.
const VERSIONS: [(&str, u64); 3] = [("rooms.base", 1), ("rooms.binding", 1), ("rooms.shape", 2)];

/// Puts so many pages into a room in one push, and then pushes a patch of one of them at each call. After each push the session
/// is given what is next for it. It returns the room's clock.
pub(crate) fn push_times<L: Ledger>(
    alloc: Global,
    pages: u32,
    calls: Calls,
    steps: &mut Steps<L>,
) -> Mem<i64> {
    let pages = ids_of(alloc, "page", pages)?;
    match new_room(alloc) {
        Ok(mut room) => push_all(alloc, &mut room, &pages, calls, steps),
        Err(_) => Err(OutOfMemory),
    }
}

/// A room of version 3, in which nothing has happened.
pub(crate) fn new_room(alloc: Global) -> Result<Room, TableFault>
    ensures { IfOk result (λ room. (bound : ℕ) × Stands (model.new_room bound) room) }
{
    let schema = schema_at(alloc, 3)?;
    tables_have_presences();
    Ok(Room::new(alloc, schema, LAST)?)
}

/// Lets a session come and put the pages; it stays.
pub(crate) fn fill<L: Ledger>(
    alloc: Global,
    room: &mut Room,
    pages: &[Text],
    steps: &mut Steps<L>,
) -> Mem<()> {
    if room.enter(alloc, false).is_err() {
        return Err(OutOfMemory);
    }
    exchange(alloc, room, &connect_message(alloc)?, steps)?;
    push(alloc, room, 0, puts(alloc, pages)?, steps)
}

/// Lets a session come, put the pages and push the patch of each call.
fn push_all<L: Ledger>(
    alloc: Global,
    room: &mut Room,
    pages: &[Text],
    calls: Calls,
    steps: &mut Steps<L>,
) -> Mem<i64> {
    fill(alloc, room, pages, steps)?;
    for call in 0..calls.count {
        if let Some(id) = calls.id(pages, call) {
            let diff = rename_diff(alloc, id)?;
            push(alloc, room, i64::from(call), diff, steps)?;
        }
    }
    Ok(room.clock())
}

/// The message by which a session asks to be connected that comes for the first time.
pub(crate) fn connect_message(alloc: Global) -> Mem<ClientMessage> {
    connect_from(alloc, -1)
}

/// The message by which a session asks to be connected that has reached a clock.
pub(crate) fn connect_from(alloc: Global, reached: i64) -> Mem<ClientMessage> {
    let schema = versions(alloc)?;
    Ok(ClientMessage::Connect {
        connect_request_id: Text::of(alloc, "0")?,
        last_server_clock: reached,
        protocol_version: PROTOCOL,
        schema,
    })
}

/// The versions that the client has.
fn versions(alloc: Global) -> Mem<Serialized> {
    let mut schema = Serialized::new(alloc);
    for (name, version) in VERSIONS {
        schema.put(Text::of(alloc, name)?, version)?;
    }
    Ok(schema)
}

/// A diff that puts a page for each id.
pub(crate) fn puts(alloc: Global, ids: &[Text]) -> Mem<Diff> {
    let mut diff = Diff::new(alloc);
    put_pages(alloc, &mut diff, ids)?;
    Ok(diff)
}

/// Adds a page for each id.
fn put_pages(alloc: Global, diff: &mut Diff, ids: &[Text]) -> Mem<()> {
    for id in ids {
        let page = record_of(alloc, PAGE, &[("id", id.as_str())])?;
        drop(diff.put(id.copy(alloc)?, RecordOp::Put(page))?);
    }
    Ok(())
}

/// A diff that gives the page of each id another name.
pub(crate) fn renamed_all(alloc: Global, ids: &[Text]) -> Mem<Diff> {
    let mut diff = Diff::new(alloc);
    for id in ids {
        let name = Val::Text(Text::of(alloc, "name")?);
        drop(diff.put(id.copy(alloc)?, patch(alloc, "name", name)?)?);
    }
    Ok(diff)
}

/// A diff that gives the page of an id another name.
pub(crate) fn rename_diff(alloc: Global, id: &Text) -> Mem<Diff> {
    let name = Val::Text(Text::of(alloc, "name")?);
    diff_of(alloc, id, patch(alloc, "name", name)?)
}

/// The message by which a session pushes a diff.
pub(crate) fn push_message(client_clock: i64, diff: Diff) -> ClientMessage {
    ClientMessage::Push {
        client_clock,
        diff: Some(diff),
        presence: None,
    }
}

/// The session pushes a diff, and is given what is next.
fn push<L: Ledger>(
    alloc: Global,
    room: &mut Room,
    client_clock: i64,
    diff: Diff,
    steps: &mut Steps<L>,
) -> Mem<()> {
    exchange(alloc, room, &push_message(client_clock, diff), steps)
}

/// The room handles a message of its session, and gives it what is next.
fn exchange<L: Ledger>(
    alloc: Global,
    room: &mut Room,
    message: &ClientMessage,
    steps: &mut Steps<L>,
) -> Mem<()> {
    match room.find(0) {
        Some(session) => exchange_with(alloc, room, session, message, steps),
        None => Ok(()),
    }
}

/// The same with the session of a number.
fn exchange_with<L: Ledger>(
    alloc: Global,
    room: &mut Room,
    session: SessionId,
    message: &ClientMessage,
    steps: &mut Steps<L>,
) -> Mem<()>
    requires there { IsIn session room.old.sessions }
{
    room.handle(alloc, session, message, steps)?;
    drop(room.drain(alloc, session, steps)?);
    Ok(())
}
