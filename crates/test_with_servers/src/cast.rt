//! The server and the workers of a row.
use room_link::held_gate::{Hold, Step};
use room_link::memory_accept::{MemoryAccept, SteadyAccept};
use room_link::memory_link::MemoryLink;
use room_link::script::Script;
use std::alloc::Global;
use std::test::Fail;
use test_with_served::link_of;

/// A worker in memory.
pub(crate) type Worker = MemoryAccept<MemoryLink>;

/// What a row says of its server.
#[derive(Drop)]
pub(crate) struct Setting {
    // how many rooms there are
    pub(crate) rooms: u32,
    // what the gate holds
    pub(crate) holds: Vec<Hold>,
    // the writes that fail, by their numbers
    pub(crate) writes: Vec<u64>,
}

/// What a row says of its server, by its words.
pub(crate) fn setting_of(alloc: Global, words: &str) -> Result<Setting, Fail> {
    let mut setting = Setting {
        rooms: 1,
        holds: Vec::new(alloc),
        writes: Vec::new(alloc),
    };
    for word in words.split_whitespace() {
        let (name, value) = word.split_once('=').unwrap_or((word, ""));
        match name {
            "rooms" => setting.rooms = value.parse::<u32>()?,
            "hold" => setting.holds.push(hold_of(value)?)?,
            "write" => setting.writes.push(value.parse::<u64>()?)?,
            _ => return Err(Fail::from("no word of a server")),
        }
    }
    Ok(setting)
}

// A hold, as `w.t>v.u`.
fn hold_of(value: &str) -> Result<Hold, Fail> {
    let (held, until) = value.split_once('>').unwrap_or((value, ""));
    Ok(Hold::new(step_of(held)?, step_of(until)?))
}

// A text of a worker, as `w.t`.
fn step_of(value: &str) -> Result<Step, Fail> {
    let (worker, text) = value.split_once('.').unwrap_or((value, ""));
    Ok(Step {
        worker: worker.parse::<u32>()?,
        text: text.parse::<u64>()?,
    })
}

/// The workers of a row, each by its part.
pub(crate) fn workers_of(alloc: Global, parts: &str) -> Result<Vec<Worker>, Fail> {
    let mut workers = Vec::new(alloc);
    for part in parts.split(" ; ") {
        if !part.is_empty() {
            workers.push(worker_of(alloc, part)?)?;
        }
    }
    Ok(workers)
}

// A worker, by its part.
fn worker_of(alloc: Global, part: &str) -> Result<Worker, Fail> {
    let mut accept = SteadyAccept::new(alloc);
    let mut failing = Vec::new(alloc);
    for part in part.split(" , ") {
        match part.strip_prefix("accept=") {
            Some(call) => failing.push(call.parse::<u64>()?)?,
            None => accept.add(link_of(alloc, part)?)?,
        }
    }
    Ok(MemoryAccept {
        accept,
        script: Script::new(failing),
    })
}
