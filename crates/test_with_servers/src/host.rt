//! What comes of the server of a row.
ghost use Rattle.std.specs.Prelude.{◌≤◌, vec_len};

use crate::cast::{Setting, Worker, setting_of, workers_of};
use room_link::held_gate::HeldGate;
use room_link::memory_sink::{MemorySink, SteadySink};
use room_link::script::Script;
use room_server::{Served, serve_job};
use std::alloc::Global;
use std::sync::Wait;
use std::test::Fail;
use std::thread::Threads;

// How often a held worker looks whether it may go on, before its row fails: for some seconds.
const TURNS: u64 = 10_000_000;

// How many bytes of a line are written at once.
const MOST_AT_ONCE: usize = 65_536;

/// What came of a server.
#[derive(Drop)]
pub(crate) struct Outcome {
    // what it answered
    pub(crate) served: Served,
    // the workers, with the links that they were given back
    pub(crate) workers: Vec<Worker>,
    // the lines
    pub(crate) written: String,
}

/// Serves as the first cell of a row says: what came of it.
pub(crate) fn outcome_of<R: Threads + Wait + Sync>(
    rt: &R,
    alloc: Global,
    happens: &str,
) -> Result<Outcome, Fail> {
    let Ended {
        served,
        workers,
        sink,
        gave_up,
    } = serve_after(rt, alloc, happens, 0)?;
    if gave_up {
        return Err(Fail::from("a worker was held for too long"));
    }
    let written = String::from_utf8(sink.sink.bytes().to_vec(alloc)?)?;
    Ok(Outcome {
        served,
        workers,
        written,
    })
}

/// A server that has ended, and of which nothing is told yet.
#[derive(Drop)]
pub struct Ended {
    // what it answered
    pub(crate) served: Served,
    // the workers, with the links that they were given back
    pub(crate) workers: Vec<Worker>,
    // what it wrote to
    pub(crate) sink: MemorySink,
    // whether a worker was held for too long
    pub(crate) gave_up: bool,
}

/// Serves as the first cell of a row says, once so many allocations more were made. So it can be
/// chosen which allocation of the server is the one of a given number.
///
/// # Errors
/// A cell that is none, and where memory is refused before anything is served.
pub fn serve_after<R: Threads + Wait + Sync>(
    rt: &R,
    alloc: Global,
    happens: &str,
    allocations: u64,
) -> Result<Ended, Fail> {
    let (server, parts) = happens.split_once(" ; ").unwrap_or((happens, ""));
    let setting = setting_of(alloc, server)?;
    let workers = workers_of(alloc, parts)?;
    for _ in 0..allocations {
        drop(Box::new(alloc, 0u8)?);
    }
    if setting.rooms < 1 || 16 < setting.rooms || 16 < workers.len() {
        return Err(Fail::from("no server"));
    }
    Ok(serve(rt, alloc, setting, workers))
}

// Serves by workers: what came of it.
fn serve<R: Threads + Wait + Sync>(
    rt: &R,
    alloc: Global,
    setting: Setting,
    mut workers: Vec<Worker>,
) -> Ended
    requires rooms { (1 ≤ setting.rooms) × (setting.rooms ≤ 16) }
    requires few { vec_len workers ≤ 16 }
{
    let Setting {
        rooms,
        holds,
        writes,
    } = setting;
    let gate = HeldGate::new(holds, TURNS);
    let mut sink = MemorySink {
        sink: SteadySink::new(alloc, MOST_AT_ONCE),
        script: Script::new(writes),
    };
    let served = serve_job(rt, alloc, rooms, &mut sink, &mut workers, &gate);
    let gave_up = gate.gave_up();
    Ended {
        served,
        workers,
        sink,
        gave_up,
    }
}
