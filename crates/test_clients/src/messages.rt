//! What a room says and what a client says, as short texts.
use field_ops::{Diff, RecordOp, diff_val, op_val, read_diff};
use migrate_seq::Serialized;
use rooms_val::Text;
use std::alloc::Global;
use std::test::Fail;
use sync_msgs::{Action, ClientMessage, DataEvent, EndReason, Events, Hydration, ServerMessage};
use test_with_cases::{val_text, value};

/// The first word of a text, and what comes after it.
pub(crate) fn first(text: &str) -> (&str, &str) {
    match text.split_once(' ') {
        Some(parts) => parts,
        None => (text, ""),
    }
}

/// The number of a text.
pub(crate) fn number(text: &str) -> Result<i64, Fail> {
    Ok(text.parse::<i64>()?)
}

/// The diff of a text.
pub(crate) fn diff(alloc: Global, text: &str) -> Result<Diff, Fail> {
    Ok(read_diff(alloc, &value(alloc, text)?)?)
}

/// The text of a diff.
pub(crate) fn diff_text(alloc: Global, diff: &Diff) -> Result<String, Fail> {
    val_text(alloc, &diff_val(alloc, diff)?)
}

/// The reason of a word.
pub(crate) fn reason(word: &str) -> Result<EndReason, Fail> {
    match word {
        "CLIENT_TOO_OLD" => Ok(EndReason::ClientTooOld),
        "SERVER_TOO_OLD" => Ok(EndReason::ServerTooOld),
        "INVALID_RECORD" => Ok(EndReason::InvalidRecord),
        "ROOM_FULL" => Ok(EndReason::RoomFull),
        "SLOW" => Ok(EndReason::Slow),
        _ => Err(Fail::from("no reason")),
    }
}

/// The hydration of a word.
fn hydration(word: &str) -> Hydration {
    if word == "wipe_all" {
        Hydration::WipeAll
    } else {
        Hydration::WipePresence
    }
}

/// The answer to a request: its number, the hydration, the clock and the diff.
pub(crate) fn answer(alloc: Global, text: &str) -> Result<ServerMessage, Fail> {
    let (request, rest) = first(text);
    let (kept, rest) = first(rest);
    let (clock, rest) = first(rest);
    let server_clock = number(clock)?;
    let diff = diff(alloc, rest)?;
    Ok(ServerMessage::Connect {
        hydration_type: hydration(kept),
        connect_request_id: Text::of(alloc, request)?,
        protocol_version: 2,
        schema: Serialized::new(alloc),
        diff,
        server_clock,
        is_readonly: false,
    })
}

/// Events, which `; ` parts.
pub(crate) fn data(alloc: Global, text: &str) -> Result<ServerMessage, Fail> {
    let mut events = Events::new(alloc);
    for part in text.split("; ") {
        events.push(event(alloc, part)?)?;
    }
    Ok(ServerMessage::Data { events })
}

/// A patch with its clock and diff, or the result of a push with its clock and number, and with what was accepted for a
/// `rebase`.
fn event(alloc: Global, text: &str) -> Result<DataEvent, Fail> {
    let (word, rest) = first(text);
    let (clock, rest) = first(rest);
    let server_clock = number(clock)?;
    if word == "patch" {
        let diff = diff(alloc, rest)?;
        return Ok(DataEvent::Patch { diff, server_clock });
    }
    let (pushed, rest) = first(rest);
    Ok(DataEvent::PushResult {
        client_clock: number(pushed)?,
        server_clock,
        action: action(alloc, word, rest)?,
    })
}

/// What a room made of a push.
fn action(alloc: Global, word: &str, rest: &str) -> Result<Action, Fail> {
    match word {
        "commit" => Ok(Action::Commit),
        "discard" => Ok(Action::Discard),
        "rebase" => Ok(Action::Rebase(diff(alloc, rest)?)),
        _ => Err(Fail::from("no event")),
    }
}

/// What a client says: its request with the clock that it has reached, or its push.
pub(crate) fn message_text(alloc: Global, message: &ClientMessage) -> Result<String, Fail> {
    match message {
        ClientMessage::Connect {
            connect_request_id,
            last_server_clock,
            ..
        } => {
            let request = connect_request_id.as_str();
            Ok(format!(in alloc; "connect {request} {last_server_clock}")?)
        }
        ClientMessage::Push {
            client_clock,
            diff,
            presence,
        } => {
            let work = work(alloc, diff.as_ref(), presence.as_ref())?;
            let work = work.as_str();
            Ok(format!(in alloc; "push {client_clock} {work}")?)
        }
        ClientMessage::Ping => Ok(String::from_str(alloc, "ping")?),
    }
}

/// What a push has: a diff or the operation on a presence.
fn work(alloc: Global, diff: Option<&Diff>, presence: Option<&RecordOp>) -> Result<String, Fail> {
    match (diff, presence) {
        (Some(diff), None) => diff_text(alloc, diff),
        (None, Some(op)) => val_text(alloc, &op_val(alloc, op)?),
        _ => Ok(String::from_str(alloc, "something else")?),
    }
}
