//! The messages of scripts.
use crate::texts::{add_numbered, add_parts, cut, number, whole, with_letters};
use field_ops::{Diff, RecordOp, read_op};
use migrate_seq::Serialized;
use rooms_val::Text;
use std::alloc::Global;
use std::test::Fail;
use sync_msgs::ClientMessage;
use test_with_boards::{board_diff, board_text, board_value};

/// The message of a step that is one, and the number of the session that sends it. `None` if the step is another one.
///
/// # Errors
/// A message that can't be read, and where memory is refused.
pub fn message_of(alloc: Global, step: &str) -> Result<Option<(u64, ClientMessage)>, Fail> {
    let (word, rest) = cut(step);
    let (session, rest) = cut(rest);
    let message = match word {
        "connect" => connect(alloc, session, rest)?,
        "push" => push(alloc, rest)?,
        "presence" => presence(alloc, rest)?,
        "bulk" => bulk(alloc, rest)?,
        "ping" => ClientMessage::Ping,
        _ => return Ok(None),
    };
    Ok(Some((number(session)?, message)))
}

// The message by which a session asks to be connected.
fn connect(alloc: Global, session: &str, rest: &str) -> Result<ClientMessage, Fail> {
    let (version, rest) = cut(rest);
    let (reached, protocol) = cut(rest);
    Ok(ClientMessage::Connect {
        connect_request_id: Text::of(alloc, session)?,
        last_server_clock: whole(reached)?,
        protocol_version: if protocol.is_empty() {
            2
        } else {
            whole(protocol)?
        },
        schema: versions(alloc, version)?,
    })
}

// The schema of a version, as a client says it.
fn versions(alloc: Global, version: &str) -> Result<Serialized, Fail> {
    let sequences = match version {
        "none" => "{}",
        "1" => r#"{"rooms.base":1}"#,
        "2" => r#"{"rooms.base":1,"rooms.shape":1}"#,
        "3" => r#"{"rooms.base":1,"rooms.binding":1,"rooms.shape":2}"#,
        "newer" => r#"{"rooms.base":1,"rooms.binding":1,"rooms.shape":3}"#,
        _ => r#"{"rooms.base":1,"rooms.camera":1}"#,
    };
    let text = format!(in alloc; r#"{{"schemaVersion":2,"sequences":{sequences}}}"#)?;
    Ok(Serialized::read(alloc, &board_value(alloc, text.as_str())?)?)
}

// A push of a diff, if any.
fn push(alloc: Global, rest: &str) -> Result<ClientMessage, Fail> {
    let (clock, text) = cut(rest);
    let diff = if text == "-" {
        None
    } else {
        Some(board_diff(alloc, text)?)
    };
    Ok(push_with(whole(clock)?, diff, None))
}

// A push of an operation on the session's presence.
fn presence(alloc: Global, rest: &str) -> Result<ClientMessage, Fail> {
    let (clock, text) = cut(rest);
    let op = read_op(alloc, &board_value(alloc, text)?)?;
    Ok(push_with(whole(clock)?, None, Some(op)))
}

// A push of a diff and an operation on the session's presence, if any.
fn push_with(client_clock: i64, diff: Option<Diff>, presence: Option<RecordOp>) -> ClientMessage {
    ClientMessage::Push {
        client_clock,
        diff,
        presence,
    }
}

// A push of a diff of many parts.
fn bulk(alloc: Global, rest: &str) -> Result<ClientMessage, Fail> {
    let (clock, rest) = cut(rest);
    let text = with_letters(alloc, rest)?;
    let text = board_text(alloc, text.as_str())?;
    let mut all = String::from_str(alloc, "{")?;
    add_parts(alloc, &mut all, text.as_str())?;
    all.push_str("}")?;
    let diff = board_diff(alloc, all.as_str())?;
    Ok(push_with(whole(clock)?, Some(diff), None))
}

// A push of a diff in which each `@` stands for the client clock.
pub(crate) fn numbered_push(alloc: Global, clock: u64, text: &str) -> Result<ClientMessage, Fail> {
    let name = format!(in alloc; "{clock}")?;
    let mut diff = String::from_str(alloc, "{")?;
    add_numbered(&mut diff, text, name.as_str())?;
    diff.push_str("}")?;
    let diff = board_diff(alloc, diff.as_str())?;
    Ok(push_with(whole(name.as_str())?, Some(diff), None))
}
