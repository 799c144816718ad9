//! The program `rooms`: it replays recordings of clients and a room, makes them, serves rooms to clients, and joins
//! them.
//!
//! `run` is the top call; its clauses say what is written, and when each status comes. Recordings are
//! replayed by `replay_job`, saved and gone on with by `snapshot_jobs`, and made by `make_job`. Rooms are served by
//! `room_server` and joined by `join_job`, over the links of `socket_link` (`serving`).
#![tactic(auto)]

#[cfg(test)]
mod boards;
mod job;
mod numbers;
mod run;
mod serving;
#[cfg(test)]
mod tests;
mod words;

ghost use Rattle.std.specs.Prelude.{◌≡◌, ◌↔◌, string_bytes, map, IfOk, OnOk, IfSome, MatchOption, None};
ghost use Rattle.std.specs.Io.KnownBytes.{Appends};
ghost use Rattle.rooms.specs.Jobs.{job_named};
ghost use Rattle.rooms.specs.Runs.{IsStatus};
ghost use Rattle.rooms.specs.Words.{text_asked};

use crate::words::{HELP, VERSION, help_or_version, tell, words_of};
use std::io;
use std::io::Write;
use std::marker::Brand;
use std::process::ExitCode;
use std::sync::Wait;
use std::sync::ledger::Blank;
use std::thread::Threads;

fn main(rt: HostRuntime) -> io::Result<ExitCode> {
    let status = match words_of(&rt) {
        Ok(words) => answer_words(&rt, &rt, words.as_slice(), &mut io::writer(&rt))?,
        Err(error) => unread(error)?,
    };
    tell(status, &mut rt.stderr())?;
    Ok(ExitCode::from(status))
}

// The status where the words can't be read: a word that isn't UTF-8 is in no row, or memory was refused.
fn unread(error: io::Error) -> io::Result<u8>
    ensures { IfOk result IsStatus }
{
    match error.kind() {
        io::ErrorKind::InvalidData => Ok(run::USAGE),
        io::ErrorKind::OutOfMemory => Ok(run::OUT_OF_MEMORY),
        _ => Err(error),
    }
}

/// Does what the words ask for, and returns the status. The help and the version go to `output`.
fn answer_words<R: Threads + Wait + Sync, W: Write>(
    host: &HostRuntime,
    rt: &R,
    words: &[String],
    output: &mut W,
) -> io::Result<u8>
    // Where the one word asks for the help or the version, that is written; of other words nothing is written here.
    ensures written { OnOk result (IfSome (text_asked HELP.now VERSION.now
        (map string_bytes words.now))
        (Appends (W.contents output.old) (W.contents output.new))) }
    ensures silent { text_asked HELP.now VERSION.now (map string_bytes words.now) ≡ None
        → output.new ≡ output.old }

    // The status is 0 there, and else 2 exactly where the words ask for no job.
    ensures usage { IfOk result (λ status. MatchOption (text_asked HELP.now VERSION.now
        (map string_bytes words.now))
        ((status ≡ 2) ↔ (job_named (map string_bytes words.now) ≡ None)) (λ _. status ≡ 0)) }
    ensures known { IfOk result IsStatus }
{
    if let Some(text) = help_or_version(words) {
        output.write_all(text.as_bytes())?;
        return Ok(0);
    }
    Ok(serving::start_run::<R, Brand>(host, rt, words, Blank::new(1)))
}
