//! The lines that say what came of workers and rooms.
ghost use Rattle.std.specs.Prelude.{◌≡◌, ◌++◌, ℕ, All, IfOk, OnOk, pos, count_by, flat_map};
ghost use Rattle.room_server.specs.Lines.{is_ended, numbered, outcome_text, room_line, room_text, worker_line, worker_text};
ghost use Rattle.room_server.specs.Opened.{IsClosed};

use room_run::Closed;
use room_serve::{Report, Tally};
use rooms_val::Mem;
use std::alloc::Global;

// The lines of workers and rooms, each with its newline.
pub(crate) fn outcome_lines(
    alloc: Global,
    tallies: &[Tally],
    closed: &[Closed],
) -> Mem<Vec<Vec<u8>>>
    requires closed { All IsClosed closed.now }
    ensures { IfOk result (λ lines. flat_map (λ line. line.items) lines.items
        ≡ outcome_text tallies.now closed.now) }
{
    let mut lines = Vec::with_capacity(alloc, 32)?;
    add_workers(alloc, tallies, &mut lines)?;
    add_rooms(alloc, closed, &mut lines)?;
    Ok(lines)
}

// Adds the lines of workers.
fn add_workers(alloc: Global, tallies: &[Tally], lines: &mut Vec<Vec<u8>>) -> Mem<()>
    ensures { OnOk result (flat_map (λ line. line.items) lines.new.items
        ≡ flat_map (λ line. line.items) lines.old.items ++ numbered worker_line 0 tallies.now) }
{
    'tallies: for (worker, tally) in tallies.iter().enumerate() {
        lines.push(worker_line(alloc, worker, tally)?)?;
    }
    Ok(())
}

// Adds the lines of rooms.
fn add_rooms(alloc: Global, closed: &[Closed], lines: &mut Vec<Vec<u8>>) -> Mem<()>
    requires closed { All IsClosed closed.now }
    ensures { OnOk result (flat_map (λ line. line.items) lines.new.items
        ≡ flat_map (λ line. line.items) lines.old.items ++ numbered room_line 0 closed.now) }
{
    'rooms: for (room, closed) in closed.iter().enumerate() {
        lines.push(room_line(alloc, room, closed)?)?;
    }
    Ok(())
}

// The line of a worker.
fn worker_line(alloc: Global, worker: usize, tally: &Tally) -> Mem<Vec<u8>>
    ensures { IfOk result (λ line. line.items ≡ worker_line worker tally.now) }
{
    let reports = tally.reports.as_slice();
    let ended = ended_among(reports);
    let faults = faults_among(reports);
    let memory = refused_among(reports);
    worker_text(alloc, ended, faults, reports.len(), memory, worker)
}

// The text of such a line.
fn worker_text(
    alloc: Global,
    ended: usize,
    faults: usize,
    links: usize,
    memory: usize,
    worker: usize,
) -> Mem<Vec<u8>>
    ensures { IfOk result (λ line. line.items ≡ worker_text ended faults links memory worker) }
{
    let line = format!(in alloc;
        "{{\"ended\":{ended},\"faults\":{faults},\"links\":{links},\"memory\":{memory},\"worker\":{worker}}}\n"
    )?;
    Ok(line.into_bytes())
}

// How many links were closed for a reason.
fn ended_among(reports: &[Report]) -> usize
    ensures { result ≡ count_by is_ended reports.now }
{
    let mut count = 0;
    'reports: for report in reports {
        if report.ended.is_some() {
            count += 1;
        }
    }
    count
}

// How many links had a fault.
fn faults_among(reports: &[Report]) -> usize
    ensures { result ≡ count_by (λ report. report.fault) reports.now }
{
    let mut count = 0;
    'reports: for report in reports {
        if report.fault {
            count += 1;
        }
    }
    count
}

// How many links were refused memory.
fn refused_among(reports: &[Report]) -> usize
    ensures { result ≡ count_by (λ report. report.memory) reports.now }
{
    let mut count = 0;
    'reports: for report in reports {
        if report.memory {
            count += 1;
        }
    }
    count
}

// The line of a room.
fn room_line(alloc: Global, number: usize, closed: &Closed) -> Mem<Vec<u8>>
    requires closed { IsClosed closed.now }
    ensures { IfOk result (λ line. line.items ≡ room_line number closed.now) }
{
    let clock = from_zero(closed.room.clock());
    let doc = closed.room.document(alloc)?.print(alloc)?;
    let presence = closed.room.presence(alloc)?.print(alloc)?;
    room_text(alloc, clock, &doc, &presence, number)
}

// The text of such a line, by the texts of the document and the presence.
fn room_text(alloc: Global, clock: u64, doc: &[u8], presence: &[u8], number: usize) -> Mem<Vec<u8>>
    ensures { IfOk result (λ line. line.items ≡ room_text clock doc.now presence.now number) }
{
    let mut line = format!(in alloc; "{{\"clock\":{clock},\"doc\":")?.into_bytes();
    line.extend_from_slice(doc)?;
    line.extend_from_slice(b",\"presence\":")?;
    line.extend_from_slice(presence)?;
    let end = format!(in alloc; ",\"room\":{number}}}\n")?;
    line.extend_from_slice(end.as_bytes())?;
    Ok(line)
}

// A number that is no less than 0.
fn from_zero(number: i64) -> u64
    ensures { (n : ℕ) → number ≡ pos n → result ≡ n }
{
    if number < 0 { 0 } else { number as u64 }
}
