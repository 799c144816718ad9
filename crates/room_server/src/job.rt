//! Rooms that are made, served and closed.
ghost use Rattle.std.specs.Prelude.{◌≡◌, ◌⊎◌, ◌<◌, ◌≤◌, ◌^◌, flat_map, vec_len, IfOk};
ghost use Rattle.room_server.specs.Hosted.{AreHosted};
ghost use Rattle.room_server.specs.Lines.{outcome_text};
ghost use Rattle.room_server.specs.Outcomes.{any_failed, IsOutcome, IsWritten};

use crate::closing::{Gathered, close_rooms, gather};
use crate::lines::outcome_lines;
use crate::opening::open_rooms;
use crate::writing::write_each;
use room_link::accept::Accept;
use room_link::gate::Gate;
use room_link::sink::Sink;
use room_run::Closed;
use room_serve::{Tally, serve};
use rooms_val::{Mem, OutOfMemory};
use std::alloc::Global;
use std::sync::Wait;
use std::thread::Threads;

/// What came of rooms that were served.
#[derive(Drop)]
pub struct Served {
    /// The status: 0, or 5 if a write failed, 6 if memory was refused, 7 if a worker failed.
    pub status: u8,
    /// What each worker's links came to, in order; empty on 6. The `gone` of each report is none.
    pub tallies: Vec<Tally>,
    /// The rooms, in order, each with its history; empty on 6.
    pub closed: Vec<Closed>,
}

/// Makes so many rooms of version 3, 1 to 16, lets each worker serve its links there until it has none left or fails, closes
/// the rooms, and writes a line for each worker and for each room, in order, each by writes of its own. The rooms' whole
/// history is kept until then. It waits for links, and for the turns of the rooms. It costs what the links cost, and at the
/// end a copy of the rooms' records.
pub fn serve_job<R: Threads + Wait + Sync, K: Sink, A: Accept + Send, G: Gate + Sync>(
    rt: &R,
    alloc: Global,
    rooms: u32,
    sink: &mut K,
    workers: &mut Vec<A>,
    gate: &G,
) -> Served
where
    A::Link: Send,
    requires rooms { (1 ≤ rooms) × (rooms ≤ 16) }
    requires numbered { vec_len workers.old < 2 ^ 32 }
    // On 0, 5 and 7 the rooms were served by the workers, and closed. On 0 and 7 the lines are written, on 5 a front of
    // them. A worker failed on 7, and none did on 0; 5 comes only if the sink had a fault in this call.
    ensures outcome { IsOutcome A.Link.faults A.Link.told A.faults A.told rooms
        workers.old.items workers.new.items
        (K.held sink.old) (K.held sink.new) (K.faults sink.old) (K.faults sink.new) result }
    ensures kept { vec_len workers.new ≡ vec_len workers.old }
{
    match host(rt, alloc, rooms, workers, gate) {
        Ok(hosted) => finish(sink, hosted),
        Err(OutOfMemory) => Served {
            status: 6,
            tallies: Vec::new(alloc),
            closed: Vec::new(alloc),
        },
    }
}

// What came of rooms that were served, with the lines that say so.
struct Hosted {
    tallies: Vec<Tally>,
    closed: Vec<Closed>,
    lines: Vec<Vec<u8>>,
}

// Makes rooms, lets the workers serve them, and closes them.
fn host<R: Threads + Wait + Sync, A: Accept + Send, G: Gate + Sync>(
    rt: &R,
    alloc: Global,
    rooms: u32,
    workers: &mut Vec<A>,
    gate: &G,
) -> Mem<Hosted>
where
    A::Link: Send,
    requires numbered { vec_len workers.old < 2 ^ 32 }
    ensures kept { vec_len workers.new ≡ vec_len workers.old }
    ensures hosted { IfOk result (λ hosted.
        AreHosted A.Link.faults A.Link.told A.faults A.told rooms
        workers.old.items workers.new.items hosted.tallies.items hosted.closed.items) }
    ensures lines { IfOk result (λ hosted. flat_map (λ line. line.items) hosted.lines.items
        ≡ outcome_text hosted.tallies.items hosted.closed.items) }
{
    let rooms = open_rooms(alloc, rooms)?;
    let tallies = serve(rt, alloc, &rooms, workers, gate)?;
    let Gathered { tallies, gones } = gather(alloc, rooms.len(), tallies)?;
    let closed = close_rooms(rt, alloc, rooms, gones)?;
    let lines = outcome_lines(alloc, &tallies, &closed)?;
    Ok(Hosted {
        tallies,
        closed,
        lines,
    })
}

// Writes the lines, and returns what came of the rooms, with the status.
fn finish<K: Sink>(sink: &mut K, hosted: Hosted) -> Served
    requires lines { flat_map (λ line. line.items) hosted.lines.items
        ≡ outcome_text hosted.tallies.items hosted.closed.items }
    ensures tallies { result.tallies ≡ hosted.tallies }
    ensures closed { result.closed ≡ hosted.closed }
    ensures known { (result.status ≡ 0) ⊎ (result.status ≡ 5) ⊎ (result.status ≡ 7) }
    ensures written { IsWritten (K.held sink.old) (K.held sink.new)
        (K.faults sink.old) (K.faults sink.new) result }
{
    let Hosted {
        tallies,
        closed,
        lines,
    } = hosted;
    let status = match write_each(sink, &lines) {
        Ok(()) => if any_failed(&tallies) { 7 } else { 0 },
        Err(_) => 5,
    };
    Served {
        status,
        tallies,
        closed,
    }
}

// Whether a worker failed.
fn any_failed(tallies: &[Tally]) -> bool
    ensures { result ≡ any_failed tallies.now }
{
    tallies.iter().any(|tally| tally.failed)
}
