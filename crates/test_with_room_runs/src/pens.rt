//! Histories as scripts of a room.
use field_ops::{diff_val, op_val};
use room_events::RoomEvent;
use room_model::limits::PROTOCOL;
use room_run::{Closed, RunningRoom};
use std::alloc::Global;
use std::test::Fail;
use sync_msgs::{ClientMessage, Out};
use sync_room::Room;
use table_schemas::tables_have_presences;
use test_with_boards::board_text;
use test_with_cases::val_text;
use test_with_rooms::{first_difference, handled_text, out_text};
use tl_tables::schema_at;

// The clock from which on the rooms refuse pushes.
const LAST: i64 = 1_000_000;

// A running room of version 3 in which nothing has happened.
pub(crate) fn open_new_room(alloc: Global) -> Result<RunningRoom, Fail> {
    let schema = schema_at(alloc, 3)?;
    tables_have_presences();
    let room = Room::new(alloc, schema, LAST)?;
    Ok(RunningRoom::open(alloc, room)?)
}

// How a history ends otherwise than with some rows. What begins with the first session's enter is the whole history.
pub(crate) fn pen_difference(
    alloc: Global,
    events: &[RoomEvent],
    wanted: &str,
) -> Result<Option<String>, Fail> {
    let found = rows_of(alloc, events)?;
    let wanted = board_text(alloc, wanted)?;
    if found.as_str().ends_with(wanted.as_str()) {
        return Ok(None);
    }
    Ok(Some(format!(in alloc; "the history is:\n{found}")?))
}

/// The first difference between what a running room was and a new room in which one thread does what its history says.
///
/// # Errors
/// Where memory is refused.
pub fn replay_difference(alloc: Global, closed: &Closed) -> Result<Option<String>, Fail> {
    let events = rows_of(alloc, closed.pen.as_slice())?;
    let room = room_rows(alloc, &closed.room)?;
    first_difference(alloc, LAST, &[events.as_str(), room.as_str()])
}

// What a room tells of itself, as rows.
fn room_rows(alloc: Global, room: &Room) -> Result<String, Fail> {
    let clock = room.clock();
    let document = val_text(alloc, &room.document(alloc)?)?;
    let presences = val_text(alloc, &room.presence(alloc)?)?;
    Ok(format!(in alloc; "clock | {clock}\ndocument | {document}\npresences | {presences}\n")?)
}

// Events as rows, each with its line's end.
pub(crate) fn rows_of(alloc: Global, events: &[RoomEvent]) -> Result<String, Fail> {
    let mut rows = String::new(alloc);
    for event in events {
        let row = row_of(alloc, event)?;
        rows.push_str(row.as_str())?;
    }
    Ok(rows)
}

// An event as a row.
fn row_of(alloc: Global, event: &RoomEvent) -> Result<String, Fail> {
    match event {
        RoomEvent::Enter(number, readonly) => {
            let word = if *readonly { "enter readonly" } else { "enter" };
            Ok(format!(in alloc; "{word} | {number}\n")?)
        }
        RoomEvent::Message(number, message, reply) => {
            let step = step_of(alloc, *number, message)?;
            let reply = handled_text(alloc, *reply)?;
            Ok(format!(in alloc; "{step} | {reply}\n")?)
        }
        RoomEvent::Drain(number, out) => given_row(alloc, *number, out.as_ref()),
        RoomEvent::Leave(number) => Ok(format!(in alloc; "leave {number} | left\n")?),
    }
}

// The events of a session as rows, but with the replies to its messages left out.
pub(crate) fn own_rows(alloc: Global, events: &[RoomEvent], session: u64) -> Result<String, Fail> {
    let mut rows = String::new(alloc);
    for event in events {
        if session_of(event) == session {
            let row = match event {
                RoomEvent::Message(number, message, _) => said_row(alloc, *number, message)?,
                _ => row_of(alloc, event)?,
            };
            rows.push_str(row.as_str())?;
        }
    }
    Ok(rows)
}

// The session of an event.
fn session_of(event: &RoomEvent) -> u64 {
    match event {
        RoomEvent::Enter(number, _)
        | RoomEvent::Message(number, _, _)
        | RoomEvent::Drain(number, _)
        | RoomEvent::Leave(number) => *number,
    }
}

// What a session said, as a row without the reply.
pub(crate) fn said_row(
    alloc: Global,
    number: u64,
    message: &ClientMessage,
) -> Result<String, Fail> {
    let step = step_of(alloc, number, message)?;
    Ok(format!(in alloc; "{step}\n")?)
}

// What a session was given, as a row.
pub(crate) fn given_row(alloc: Global, number: u64, out: Option<&Out>) -> Result<String, Fail> {
    let given = match out {
        Some(out) => out_text(alloc, out)?,
        None => String::from_str(alloc, "nothing")?,
    };
    Ok(format!(in alloc; "drain {number} | {given}\n")?)
}

// The step by which a session sends a message. Who connects has the schema of version 3.
fn step_of(alloc: Global, number: u64, message: &ClientMessage) -> Result<String, Fail> {
    match message {
        ClientMessage::Connect {
            last_server_clock,
            protocol_version,
            ..
        } => {
            let step = format!(in alloc; "connect {number} 3 {last_server_clock}")?;
            if *protocol_version == PROTOCOL {
                return Ok(step);
            }
            Ok(format!(in alloc; "{step} {protocol_version}")?)
        }
        ClientMessage::Push {
            client_clock,
            diff,
            presence,
        } => {
            if let Some(op) = presence {
                let op = val_text(alloc, &op_val(alloc, op)?)?;
                return Ok(format!(in alloc; "presence {number} {client_clock} {op}")?);
            }
            let diff = match diff {
                Some(diff) => val_text(alloc, &diff_val(alloc, diff)?)?,
                None => String::from_str(alloc, "-")?,
            };
            Ok(format!(in alloc; "push {number} {client_clock} {diff}")?)
        }
        ClientMessage::Ping => Ok(format!(in alloc; "ping {number}")?),
    }
}
