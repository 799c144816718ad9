//! A recording, replayed from its source to its sink.
ghost use Rattle.std.specs.Prelude.{◌≡◌, ◌<◌, ◌≤◌, ◌+◌, ◌^◌, ◌⊎◌, List, ℕ, IfOk, OnOk, OnErr, IsErrOf, IfSome, None, option_map};
ghost use Rattle.rec_format.specs.declared.read.TheConstants.{LONGEST_LINE};
ghost use Rattle.recording_lines.specs.Lines.{most_bytes};
ghost use Rattle.recording_lines.specs.Reading.{budget, to_come, TakesUnread};
ghost use Rattle.replay_job.specs.Texts.{unended_text};
ghost use Rattle.replay_job.specs.Taking.{Progress};
ghost use Rattle.replay_job.specs.Replay.{IsFront, all_of};
ghost use Rattle.replay_job.specs.Replies.{Reads, reply_text, reply_end};
ghost use Rattle.replay_job.specs.Proceeding.{Proceeds, IfGoesOn};
ghost use Rattle.replay_job.specs.CaughtUp.{CaughtUpPrintTheRoom};
ghost use Rattle.sync_world.specs.CaughtUp.{CaughtUpShowTheRoom};
ghost use Rattle.replay_job.specs.Endings.{rest_of, Leaves, WritesAll, PrintsFront, TakesFront, IsReplayStatus, status_code};
ghost use Rattle.room_link.specs.Held.{Extends};
ghost use Rattle.replay_job.specs.declared.play.Stop.TheVariants as stop;

use crate::replay::{Replay, Reply};
use crate::texts;
use crate::writing::write_lines;
use recording_lines::fault::ReadFault;
use recording_lines::line_reader::{LineReader, Next};
use room_link::Failed;
use room_link::sink::Sink;
use room_link::source::Source;
use room_link::writing::write_all;
use rooms_val::{Mem, OutOfMemory, Steps, Text};
use std::alloc::{AllocError, Global};
use std::sync::ledger::Ledger;
use world_views::ViewedWorld;

/// How a recording ends.
#[derive(Clone, Copy, Debug, PartialEq, Eq)]
pub enum End {
    /// It was read to its `end` line.
    Done,
    /// It was refused.
    Refused,
}

/// Why a replay stops.
#[derive(Clone, Copy, Debug, PartialEq, Eq)]
pub enum Stop {
    /// The source failed.
    SourceFailed,
    /// The sink failed.
    SinkFailed,
    /// Memory was refused.
    OutOfMemory,
}

impl From<Failed> for Stop {
    ghost from_gives = { λ _ e. e ≡ stop.SinkFailed };

    fn from(_failed: Failed) -> Stop {
        Stop::SinkFailed
    }
}

impl From<OutOfMemory> for Stop {
    ghost from_gives = { λ _ e. e ≡ stop.OutOfMemory };

    fn from(_refused: OutOfMemory) -> Stop {
        Stop::OutOfMemory
    }
}

impl From<AllocError> for Stop {
    ghost from_gives = { λ _ e. e ≡ stop.OutOfMemory };

    fn from(_refused: AllocError) -> Stop {
        Stop::OutOfMemory
    }
}

impl From<ReadFault> for Stop {
    ghost use Rattle.replay_job.specs.Endings.{stop_of};

    ghost from_gives = { λ fault e. e ≡ stop_of fault };

    fn from(fault: ReadFault) -> Stop {
        match fault {
            ReadFault::Failed => Stop::SourceFailed,
            ReadFault::OutOfMemory => Stop::OutOfMemory,
        }
    }
}

/// What a replay ends with.
#[derive(Drop)]
pub struct Replayed {
    /// The status: 0, 3, 4, 5 or 6.
    pub status: u8,
    /// The world after the events that were taken, with what its clients watch; there on status 0 or
    /// 3, where the header was read.
    pub world: Option<ViewedWorld>,
}

/// Replays the recording that the source holds, of which it looks at 2^30 bytes at most, and writes
/// what it prints: what its clients show, the views that they watch, as these change, and what their
/// queries find; with `trace` the messages too. Each event happens before the source is read on. The
/// status is 0 where the recording was read to its `end` line, 3 where it is refused, 4 where a read
/// failed, 5 where a write failed, and 6 where memory was refused. It costs the recording and its
/// events, and the memory of its world, one line and a buffer of 65,536 bytes.
pub fn replay_job<S: Source, K: Sink, L: Ledger>(
    alloc: Global,
    trace: bool,
    source: &mut S,
    sink: &mut K,
    steps: &mut Steps<L>,
) -> Replayed
    ensures known { IsReplayStatus result.status }

    // On 0 and 3 what the recording writes is written, the status is the recording's, and the world
    // stands for the one that the recording leads to.
    ensures done { (result.status ≡ 0) ⊎ (result.status ≡ 3)
        → WritesAll trace (S.left source.old) result.status result.world
        (K.held sink.old) (K.held sink.new) }

    // On 4, 5 and 6 a front of it is written.
    ensures stopped { (result.status ≡ 4) ⊎ (result.status ≡ 5) ⊎ (result.status ≡ 6)
        → PrintsFront trace (S.left source.old) (K.held sink.old) (K.held sink.new) }
    // In the world that is returned, each client that has caught up with the room shows its document.
    ensures caught_up { IfSome result.world (λ viewed. CaughtUpShowTheRoom viewed.world) }

    // So does each such client in what is printed on the way, wherever it is asked.
    ensures shown { IfSome (S.left source.old) (CaughtUpPrintTheRoom trace) }
    ensures no_world { (result.status ≡ 4) ⊎ (result.status ≡ 5) ⊎ (result.status ≡ 6)
        → result.world ≡ None }
    ensures reads { TakesFront most_bytes (S.left source.old) (S.left source.new) }
    ensures source_failed { result.status ≡ 4 → S.faults source.old < S.faults source.new }
    ensures sink_failed { result.status ≡ 5 → K.faults sink.old < K.faults sink.new }
{
    let mut replay = Replay::new(trace);
    match play(alloc, &mut replay, source, sink, steps) {
        Ok(end) => Replayed {
            status: status(Ok(end)),
            world: replay.world,
        },
        Err(stop) => Replayed {
            status: status(Err(stop)),
            world: None,
        },
    }
}

/// The status with which the program ends.
pub fn status(end: Result<End, Stop>) -> u8
    ensures { result ≡ status_code end }
{
    match end {
        Ok(End::Done) => 0,
        Ok(End::Refused) => 3,
        Err(Stop::SourceFailed) => 4,
        Err(Stop::SinkFailed) => 5,
        Err(Stop::OutOfMemory) => 6,
    }
}

// Takes the recording line by line, and writes what each line prints before it reads on.
fn play<S: Source, K: Sink, L: Ledger>(
    alloc: Global,
    replay: &mut Replay,
    source: &mut S,
    sink: &mut K,
    steps: &mut Steps<L>,
) -> Result<End, Stop>
    requires { replay.old.world ≡ None }
    ensures leaves { Leaves replay.old.trace (option_map all_of (S.left source.old)) result
        replay.new.world (K.held sink.old) (K.held sink.new) }
    ensures reads { TakesFront most_bytes (S.left source.old) (S.left source.new) }
    ensures source_failed { IsErrOf result stop.SourceFailed
        → S.faults source.old < S.faults source.new }
    ensures sink_failed { IsErrOf result stop.SinkFailed → K.faults sink.old < K.faults sink.new }
{
    let mut reader = LineReader::new(alloc)?;
    go_on(alloc, &mut reader, replay, 1, source, sink, steps)
}

/// Takes the lines that are left of a recording, of which the next has the number `at`, and writes
/// what each prints before it reads on. It costs the lines and their events.
///
/// # Errors
///
/// `SourceFailed` where a read failed, `SinkFailed` where a write failed, and `OutOfMemory`.
pub fn go_on<S: Source, K: Sink, L: Ledger>(
    alloc: Global,
    reader: &mut LineReader,
    replay: &mut Replay,
    mut at: u64,
    source: &mut S,
    sink: &mut K,
    steps: &mut Steps<L>,
) -> Result<End, Stop>
    requires wide { LONGEST_LINE ≤ reader.old.longest }
    requires number { at + budget reader.old ≤ 2 ^ 40 }
    ensures leaves { (progress : Progress) → Reads progress replay.old.world
        → Leaves replay.old.trace
        (rest_of progress at reader.old.longest (budget reader.old)
        (to_come reader.old (S.left source.old)))
        result replay.new.world (K.held sink.old) (K.held sink.new) }
    ensures taken { TakesUnread reader.old.unread reader.new.unread
        (S.left source.old) (S.left source.new) }
    ensures source_stays { S.faults source.old ≤ S.faults source.new }
    ensures sink_stays { K.faults sink.old ≤ K.faults sink.new }
    ensures source_failed { IsErrOf result stop.SourceFailed
        → S.faults source.old < S.faults source.new }
    ensures sink_failed { IsErrOf result stop.SinkFailed → K.faults sink.old < K.faults sink.new }
{
    'lines: loop {
        let reply = next_reply(alloc, reader, replay, source, steps)?;
        let end = end_of(&reply);
        write_reply(alloc, sink, at, reply)?;
        if let Some(end) = end {
            return Ok(end);
        }
        at += 1;
    }
}

/// What the next line makes of the recording; where no line is left, why it is refused. It costs the
/// line and its event.
///
/// # Errors
///
/// `SourceFailed` where a read failed, and `OutOfMemory`.
pub fn next_reply<S: Source, L: Ledger>(
    alloc: Global,
    reader: &mut LineReader,
    replay: &mut Replay,
    source: &mut S,
    steps: &mut Steps<L>,
) -> Result<Reply, Stop>
    requires { LONGEST_LINE ≤ reader.old.longest }
    ensures next { IfOk result (λ reply. (progress : Progress)
        → Reads progress replay.old.world
        → Proceeds replay.old.trace progress reader.old.longest (budget reader.old)
        (to_come reader.old (S.left source.old)) (budget reader.new)
        (to_come reader.new (S.left source.new)) reply replay.new.world) }
    ensures shorter { IfOk result (λ reply.
        IfGoesOn reply (budget reader.new < budget reader.old)) }
    ensures trace { replay.new.trace ≡ replay.old.trace }
    ensures longest { reader.new.longest ≡ reader.old.longest }
    ensures taken { TakesUnread reader.old.unread reader.new.unread
        (S.left source.old) (S.left source.new) }
    ensures faults_stay { S.faults source.old ≤ S.faults source.new }
    ensures source_failed { IsErrOf result stop.SourceFailed
        → S.faults source.old < S.faults source.new }
    ensures no_sink { IsErrOf result stop.SinkFailed → ⊥ }
{
    match reader.next_line(source)? {
        Next::Line => Ok(replay.take_line(alloc, reader.line(), steps)?),
        Next::TooLong => Ok(Reply::Refused(Text::of(alloc, "LineTooLong")?)),
        Next::End { whole } => Ok(Reply::Refused(no_end_text(alloc, whole)?)),
    }
}

/// Why a recording without an `end` line is refused.
pub fn no_end_text(alloc: Global, whole: bool) -> Mem<Text>
    ensures { IfOk result (λ text. text ≡ unended_text whole) }
{
    Text::of(alloc, if whole { "Unended" } else { "TooMuch" })
}

// How the recording ends with a line, if it does.
fn end_of(reply: &Reply) -> Option<End>
    ensures { result ≡ reply_end reply.now }
{
    match reply {
        Reply::Refused(_) => Some(End::Refused),
        Reply::Wrote(_) => None,
        Reply::Ended(_) => Some(End::Done),
    }
}

// Writes what a line prints, or why it is refused.
fn write_reply<K: Sink>(alloc: Global, sink: &mut K, at: u64, reply: Reply) -> Result<(), Stop>
    ensures ok { OnOk result (Extends (K.held sink.old) (K.held sink.new) (reply_text at reply)) }
    ensures err { OnErr result ((front : List ℕ) × IsFront front (reply_text at reply)
        × Extends (K.held sink.old) (K.held sink.new) front) }
    ensures faults_stay { K.faults sink.old ≤ K.faults sink.new }
    ensures sink_failed { IsErrOf result stop.SinkFailed → K.faults sink.old < K.faults sink.new }
    ensures no_source { IsErrOf result stop.SourceFailed → ⊥ }
{
    match reply {
        Reply::Refused(fault) => {
            let text = texts::fault_line(alloc, at, fault)?;
            Ok(write_all(sink, &text)?)
        }
        Reply::Wrote(lines) => write_lines(alloc, sink, &lines),
        Reply::Ended(lines) => write_lines(alloc, sink, &lines),
    }
}
