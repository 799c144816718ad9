//! What sessions say, and how it stands in a history.
use crate::pens::{given_row, own_rows, said_row};
use crate::talks::Given;
use room_events::RoomEvent;
use std::alloc::Global;
use std::test::Fail;
use sync_msgs::ClientMessage;
use test_with_rooms::message_of;

// The messages of a session, of which there are so many. It connects, and then changes the name of a page that others change too,
// its presence, and a page of its own, and pings.
pub(crate) fn messages_of(
    alloc: Global,
    place: usize,
    count: u64,
) -> Result<Vec<ClientMessage>, Fail> {
    let mut messages = Vec::new(alloc);
    for clock in 0..count {
        let step = step_at(alloc, place, clock)?;
        match message_of(alloc, step.as_str())? {
            Some((_, message)) => messages.push(message)?,
            None => return Err(Fail::from("no message")),
        }
    }
    Ok(messages)
}

// The step of a script by which a session sends a message of its own by number.
fn step_at(alloc: Global, place: usize, clock: u64) -> Result<String, Fail> {
    if clock == 0 {
        return Ok(String::from_str(alloc, "connect 0 3 -1")?);
    }
    let text = match clock % 8 {
        1 => format!(in alloc; r#"push 0 {clock} {{"page:p":["put",$P]}}"#)?,
        2 => format!(in alloc; r#"presence 0 {clock} ["put",$R(x,s{place})]"#)?,
        3 => format!(in alloc;
            r#"push 0 {clock} {{"page:o{place}":["put",$E(o{place},{clock})]}}"#
        )?,
        4 => String::from_str(alloc, "ping 0")?,
        5 => format!(in alloc;
            r#"push 0 {clock} {{"page:p":["remove"],"page:o{place}":["remove"]}}"#
        )?,
        _ => format!(in alloc;
            r#"push 0 {clock} {{"page:p":["patch",{{"name":["put","s{place} {clock}"]}}]}}"#
        )?,
    };
    Ok(text)
}

// How what a session said and was given stands otherwise in a history.
pub(crate) fn said_difference(
    alloc: Global,
    pen: &[RoomEvent],
    messages: &[ClientMessage],
    given: &Given,
) -> Result<Option<String>, Fail> {
    if given.outs.len() != messages.len() {
        let session = given.session;
        return Ok(Some(format!(in alloc; "session {session} has not said all")?));
    }
    let found = own_rows(alloc, pen, given.session)?;
    let wanted = said_rows(alloc, messages, given)?;
    if found.as_str() == wanted.as_str() {
        return Ok(None);
    }
    Ok(Some(format!(in alloc; "the history has\n{found}and not\n{wanted}")?))
}

// What a session said and was given, as rows: from its enter to its leave.
fn said_rows(alloc: Global, messages: &[ClientMessage], given: &Given) -> Result<String, Fail> {
    let session = given.session;
    let mut rows = format!(in alloc; "enter | {session}\n")?;
    for (message, outs) in messages.iter().zip(given.outs.iter()) {
        rows.push_str(said_row(alloc, session, message)?.as_str())?;
        for out in outs {
            rows.push_str(given_row(alloc, session, Some(out))?.as_str())?;
        }
        rows.push_str(given_row(alloc, session, None)?.as_str())?;
    }
    let last = format!(in alloc; "leave {session} | left\n")?;
    rows.push_str(last.as_str())?;
    Ok(rows)
}
