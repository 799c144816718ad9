//! What plays the rows of a table.
ghost use Rattle.std.specs.Prelude.{◌≡◌, All, IfOk, IfSome, OnOk};
ghost use Rattle.room_run.specs.Passes.{room_of_gone};
ghost use Rattle.room_run.specs.Rooms.{id_of};

use crate::links::{link_of, messages_of};
use crate::says::{pen_text, report_text, sent_text};
use crate::texts::spell_out;
use crate::visitor::Visitor;
use room_link::gate::Gate;
use room_link::link::Link;
use room_run::{Gone, RunningRoom};
use room_serve::{Report, serve_link};
use std::alloc::Global;
use std::slice;
use std::sync::Wait;
use std::test::Fail;
use sync_room::Room;
use table_schemas::tables_have_presences;
use test_with_cases::{cells, rows};
use test_with_room_runs::replay_difference;
use tl_tables::schema_at;

// The clock from which on the rooms refuse pushes.
const LAST: i64 = 1_000;

// What is noted of the links that were served.
#[derive(Drop)]
struct Notes {
    // the reports, as words
    reports: String,
    // what went out
    sent: String,
    // those that are gone
    gones: Vec<Gone>,
}

/// Plays each row of a table in a new running room. `None` if each comes out as the row says, else the first that doesn't, with what
/// came out.
///
/// # Errors
/// A row that is none, and where memory is refused.
pub fn first_difference<R: Wait>(
    rt: &R,
    alloc: Global,
    table: &str,
) -> Result<Option<String>, Fail> {
    for row in &rows(alloc, table)? {
        if let Some(difference) = difference_at(rt, alloc, row)? {
            return Ok(Some(difference));
        }
    }
    Ok(None)
}

// How a row comes out otherwise than it says.
fn difference_at<R: Wait>(rt: &R, alloc: Global, row: &str) -> Result<Option<String>, Fail> {
    let [happens, reports, sent, pen] = cells(row);
    let found = outcome_texts(rt, alloc, happens)?;
    let wanted = [reports, sent, pen, ""];
    for (found, wanted) in found.iter().zip(wanted.iter()) {
        let is_end = wanted.strip_prefix("..");
        let wanted = spell_out(alloc, is_end.unwrap_or(wanted))?;
        let is_met = if is_end.is_some() {
            found.as_str().ends_with(wanted.as_str())
        } else {
            found.as_str() == wanted.as_str()
        };
        if !is_met {
            return Ok(Some(format!(in alloc; "at {happens}: {found}, and not {wanted}")?));
        }
    }
    Ok(None)
}

// What comes out: the reports, what went out, the room's history, and what one thread finds otherwise that does in a new room what
// the history says.
fn outcome_texts<R: Wait>(rt: &R, alloc: Global, happens: &str) -> Result<[String; 4], Fail> {
    let room = open_new_room(alloc)?;
    let notes = play_in(rt, alloc, &room, happens)?;
    let Notes {
        reports,
        sent,
        gones,
    } = notes;
    let closed = room.close(rt, gones);
    let pen = pen_text(alloc, &closed)?;
    let replayed = replay_difference(alloc, &closed)?.unwrap_or(String::new(alloc));
    Ok([reports, sent, pen, replayed])
}

// A running room of version 3 in which nothing has happened.
fn open_new_room(alloc: Global) -> Result<RunningRoom, Fail> {
    let schema = schema_at(alloc, 3)?;
    tables_have_presences();
    let room = Room::new(alloc, schema, LAST)?;
    Ok(RunningRoom::open(alloc, room)?)
}

// What is noted of the links of a row.
fn play_in<R: Wait>(rt: &R, alloc: Global, room: &RunningRoom, happens: &str) -> Result<Notes, Fail>
    ensures own { IfOk result (λ notes. All (λ gone. room_of_gone gone ≡ id_of room.now) notes.gones.items) }
{
    let mut notes = Notes {
        reports: String::new(alloc),
        sent: String::new(alloc),
        gones: Vec::new(alloc),
    };
    'parts: for part in happens.split(" ; ") {
        match part.strip_prefix("enter ") {
            Some(count) => fill(rt, room, count.parse::<u64>()?)?,
            None => serve(rt, alloc, room, part, &mut notes)?,
        }
    }
    Ok(notes)
}

// So many sessions enter, and stay.
fn fill<R: Wait>(rt: &R, room: &RunningRoom, count: u64) -> Result<(), Fail> {
    for _ in 0..count {
        if room.pass(rt, false).is_err() {
            return Err(Fail::from("no room for a session"));
        }
    }
    Ok(())
}

// Serves a link, and notes it.
fn serve<R: Wait>(
    rt: &R,
    alloc: Global,
    room: &RunningRoom,
    part: &str,
    notes: &mut Notes,
) -> Result<(), Fail>
    requires own { All (λ gone. room_of_gone gone ≡ id_of room.now) notes.old.gones.items }
    ensures own { OnOk result (All (λ gone. room_of_gone gone ≡ id_of room.now) notes.new.gones.items) }
{
    let (comes, says) = part.split_once(" meanwhile ").unwrap_or((part, ""));
    let says = messages_of(alloc, says)?;
    let visitor = Visitor {
        rt,
        room,
        says: &says,
    };
    let mut link = link_of(alloc, comes)?;
    let report = serve_one(rt, alloc, room, &mut link, &visitor);
    let told = report_text(alloc, &report, link.link.arrivals.len())?;
    add_part(&mut notes.reports, told.as_str())?;
    let sent = sent_text(alloc, link.link.sent.as_slice())?;
    add_part(&mut notes.sent, sent.as_str())?;
    keep(room, &mut notes.gones, report.gone)
}

// Keeps who is gone, if somebody is.
fn keep(room: &RunningRoom, gones: &mut Vec<Gone>, gone: Option<Gone>) -> Result<(), Fail>
    requires one { IfSome gone (λ gone. room_of_gone gone ≡ id_of room.now) }
    requires own { All (λ gone. room_of_gone gone ≡ id_of room.now) gones.old.items }
    ensures own { OnOk result (All (λ gone. room_of_gone gone ≡ id_of room.now) gones.new.items) }
{
    match gone {
        Some(gone) => {
            gones.push(gone)?;
            Ok(())
        }
        None => Ok(()),
    }
}

// Serves a link in its one room: what is reported.
fn serve_one<R: Wait, K: Link, G: Gate>(
    rt: &R,
    alloc: Global,
    room: &RunningRoom,
    link: &mut K,
    gate: &G,
) -> Report
    ensures own { IfSome result.gone (λ gone. room_of_gone gone ≡ id_of room.now) }
{
    serve_link(rt, alloc, slice::from_ref(room), 0, link, gate)
}

// Adds the part of a further link.
fn add_part(parts: &mut String, part: &str) -> Result<(), Fail> {
    if !parts.is_empty() {
        parts.push_str(" ; ")?;
    }
    parts.push_str(part)?;
    Ok(())
}
