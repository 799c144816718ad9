//! The steps of scripts.
ghost use Rattle.std.specs.Prelude.{◌≡◌, ◌<◌};
ghost use Rattle.sync_room.specs.Sessions.{IsIn};

use crate::begins::{load, reload, save};
use crate::messages::{message_of, numbered_push};
use crate::says::{amount_text, handled_text, out_text};
use crate::texts::{cut, number};
use rooms_val::Steps;
use std::alloc::Global;
use std::marker::Brand;
use std::sync::ledger::{Blank, Ledger};
use std::test::Fail;
use sync_msgs::{ClientMessage, Out};
use sync_room::{EnterFault, Room, SessionId};
use table_schemas::tables_have_presences;
use test_with_boards::board_text;
use test_with_cases::{cells, rows, val_text};
use tl_tables::schema_at;

/// Plays scripts, one after the other, in a new room of version 3 that refuses pushes from the clock `last` on, which is 1 to
/// 1,000,000. `None` if each answer is the one that stands there, else the first step with another answer, and both.
///
/// # Errors
/// A step that is none, and where memory is refused.
pub fn first_difference(
    alloc: Global,
    last: i64,
    scripts: &[&str],
) -> Result<Option<String>, Fail> {
    let mut room = new_room(alloc, last)?;
    for script in scripts {
        if let Some(difference) = difference_in(alloc, &mut room, script)? {
            return Ok(Some(difference));
        }
    }
    Ok(None)
}

// The first difference that playing a script in a room shows.
fn difference_in(alloc: Global, room: &mut Room, script: &str) -> Result<Option<String>, Fail> {
    for row in &rows(alloc, script)? {
        let [step, wanted, ..] = cells(row);
        if let Some(difference) = difference_at(alloc, room, step, wanted)? {
            return Ok(Some(difference));
        }
    }
    Ok(None)
}

// How what a room answers to a step differs from what is wanted.
fn difference_at(
    alloc: Global,
    room: &mut Room,
    step: &str,
    wanted: &str,
) -> Result<Option<String>, Fail> {
    let found = answer(alloc, room, step)?;
    let wanted = board_text(alloc, wanted)?;
    if found.as_str() == wanted.as_str() {
        return Ok(None);
    }
    Ok(Some(format!(in alloc; "at {step}: {found}, and not {wanted}")?))
}

// A room of version 3, with a bound that is taken to be in range.
fn new_room(alloc: Global, last: i64) -> Result<Room, Fail> {
    let last = last.clamp(1, 1_000_000);
    let schema = schema_at(alloc, 3)?;
    tables_have_presences();
    Ok(Room::new(alloc, schema, last)?)
}

// What a room answers to a step.
fn answer(alloc: Global, room: &mut Room, step: &str) -> Result<String, Fail> {
    if let Some((session, message)) = message_of(alloc, step)? {
        return handle_message(alloc, room, session, &message);
    }
    let (word, rest) = cut(step);
    match word {
        "each" => each(alloc, room, rest),
        "drain" => next_out(alloc, room, rest, false),
        "count" => next_out(alloc, room, rest, true),
        _ => room_answer(alloc, room, word, rest),
    }
}

// What a room answers to a step that isn't a session's, or is its first or its last, or that puts a room in its place.
fn room_answer(alloc: Global, room: &mut Room, word: &str, rest: &str) -> Result<String, Fail> {
    match word {
        "enter" => enter(alloc, room, rest == "readonly"),
        "fill" => fill(alloc, room, number(rest)?),
        "leave" => leave(alloc, room, number(rest)?),
        "load" => load(alloc, room, rest),
        "reload" => reload(alloc, room, rest),
        _ => look_answer(alloc, room, word, rest),
    }
}

// What a room tells of itself.
fn look_answer(alloc: Global, room: &Room, word: &str, rest: &str) -> Result<String, Fail> {
    match word {
        "clock" => Ok(format!(in alloc; "{}", room.clock())?),
        "start" => Ok(format!(in alloc; "{}", room.starts_at())?),
        "document" => val_text(alloc, &room.document(alloc)?),
        "presences" => val_text(alloc, &room.presence(alloc)?),
        "record" => record_text(alloc, room, rest),
        "saved" => save(alloc, room),
        _ => Err(Fail::from("no step of a script")),
    }
}

// The record of an id.
fn record_text(alloc: Global, room: &Room, id: &str) -> Result<String, Fail> {
    match room.record(id) {
        Some(val) => val_text(alloc, val),
        None => Ok(String::from_str(alloc, "none")?),
    }
}

// A session enters.
fn enter(alloc: Global, room: &mut Room, readonly: bool) -> Result<String, Fail> {
    match room.enter(alloc, readonly) {
        Ok(id) => Ok(format!(in alloc; "{}", id.number())?),
        Err(EnterFault::Full) => Ok(String::from_str(alloc, "Full")?),
        Err(EnterFault::OutOfMemory) => Err(Fail::from("out of memory")),
    }
}

// So many sessions enter, unless the room is full before.
fn fill(alloc: Global, room: &mut Room, count: u64) -> Result<String, Fail> {
    let mut entered = 0u64;
    for _ in 0..count {
        if room.enter(alloc, false).is_err() {
            break;
        }
        entered = entered.saturating_add(1);
    }
    Ok(format!(in alloc; "{entered}")?)
}

// A session leaves.
fn leave(alloc: Global, room: &mut Room, session: u64) -> Result<String, Fail> {
    let Some(id) = room.find(session) else {
        return Err(Fail::from("no session of the room"));
    };
    room.leave(id);
    Ok(String::from_str(alloc, "left")?)
}

// A room is given a message of a session. The steps are counted for nobody.
fn handle_message(
    alloc: Global,
    room: &mut Room,
    session: u64,
    message: &ClientMessage,
) -> Result<String, Fail> {
    let Some(id) = room.find(session) else {
        return Err(Fail::from("no session of the room"));
    };
    handled_in::<Brand>(Blank::new(1), alloc, room, id, message)
}

fn handled_in<L: Ledger>(
    blank: Blank,
    alloc: Global,
    room: &mut Room,
    id: SessionId,
    message: &ClientMessage,
) -> Result<String, Fail>
    requires name { blank.name ≡ L.name }
    requires parts { blank.parts ≡ L.parts }
    requires some { 0 < blank.parts }
    requires there { IsIn id room.old.sessions }
{
    let mut steps = Steps::<L>::new(blank);
    let reply = room.handle(alloc, id, message, &mut steps)?;
    handled_text(alloc, reply)
}

// What a session is given, or how much it is.
fn next_out(alloc: Global, room: &mut Room, session: &str, counted: bool) -> Result<String, Fail> {
    let Some(id) = room.find(number(session)?) else {
        return Err(Fail::from("no session of the room"));
    };
    match drained_in::<Brand>(Blank::new(1), alloc, room, id)? {
        None => Ok(String::from_str(alloc, "nothing")?),
        Some(out) => {
            if counted {
                return amount_text(alloc, &out);
            }
            out_text(alloc, &out)
        }
    }
}

fn drained_in<L: Ledger>(
    blank: Blank,
    alloc: Global,
    room: &mut Room,
    id: SessionId,
) -> Result<Option<Out>, Fail>
    requires name { blank.name ≡ L.name }
    requires parts { blank.parts ≡ L.parts }
    requires some { 0 < blank.parts }
    requires there { IsIn id room.old.sessions }
{
    let mut steps = Steps::<L>::new(blank);
    Ok(room.drain(alloc, id, &mut steps)?)
}

// A session pushes many diffs, one after the other.
fn each(alloc: Global, room: &mut Room, rest: &str) -> Result<String, Fail> {
    let (session, rest) = cut(rest);
    let (from, rest) = cut(rest);
    let (count, text) = cut(rest);
    let from = number(from)?;
    let mut told = String::new(alloc);
    for place in 0..number(count)? {
        let clock = from.saturating_add(place);
        let message = numbered_push(alloc, clock, text)?;
        told = handle_message(alloc, room, number(session)?, &message)?;
    }
    Ok(told)
}
