//! A recording whose last line is its room's.
ghost use Rattle.std.specs.Prelude.{◌≡◌, ◌<◌, ◌≤◌, ◌^◌, ◌⊎◌, false, IfOk, IsErrOf, option_map};
ghost use Rattle.std.specs.Borrow.{Bor};
ghost use Rattle.rec_format.specs.declared.read.TheConstants as format;
ghost use Rattle.recording_lines.specs.Lines.{most_bytes};
ghost use Rattle.recording_lines.specs.Reading.{budget, to_come, TakesUnread};
ghost use Rattle.replay_job.specs.Endings.{rest_of, IsReplayStatus, TakesFront};
ghost use Rattle.replay_job.specs.Replies.{Reads};
ghost use Rattle.replay_job.specs.Taking.{Progress};
ghost use Rattle.replay_job.specs.Texts.{fault_line};
ghost use Rattle.replay_job.specs.declared.play.Stop.TheVariants as stop;
ghost use Rattle.room_model.specs.Schemas.{WorldSchemas};
ghost use Rattle.side_effects.specs.declared.fault.EditFault.{EditFault};
ghost use Rattle.snapshot_jobs.specs.Endings.{SavesAll, SavesFront};
ghost use Rattle.snapshot_jobs.specs.Saving.{IsRoomLine};
ghost use Rattle.snapshot_jobs.specs.Ending.{Ends, LeavesSaved, WritesLast, last_end};
ghost use Rattle.world_views.specs.Standing.{Stands};
ghost use Rattle.world_views.specs.Views.{Viewed};
ghost use Rattle.world_views.specs.declared.viewed.ViewedWorld.{ViewedWorld};

use recording_lines::line_reader::LineReader;
use replay_job::play::{End, Stop, next_reply, status};
use replay_job::replay::{Replay, Reply};
use replay_job::texts::fault_line;
use room_link::sink::Sink;
use room_link::source::Source;
use room_link::writing::write_all;
use room_snapshot::printing::print;
use rooms_val::{Mem, OutOfMemory, Steps, Text};
use std::alloc::Global;
use std::sync::ledger::Ledger;
use world_views::ViewedWorld;

/// What a recording comes to.
#[derive(Drop)]
pub(crate) enum Last {
    /// It is refused at the line of this number, for the cause that this text names.
    Refused { at: u64, fault: Text },
    /// It was read to its `end` line.
    Ended,
}

/// Replays the recording that the source holds, of which it looks at 2^30 bytes at most. In place of
/// what that prints it writes the line of the room that the recording leaves, once it has ended; or
/// the fault line alone. The status is 0 where the recording was read to its `end` line, 3 where it is
/// refused, 4 where a read failed, 5 where a write failed, and 6 where memory was refused. It costs
/// the recording and its events, a copy of the document, and the memory of its world and its line.
pub fn save_job<S: Source, K: Sink, L: Ledger>(
    alloc: Global,
    source: &mut S,
    sink: &mut K,
    steps: &mut Steps<L>,
) -> u8
    ensures known { IsReplayStatus result }

    // On 0 and 3 what is saved of the recording is written, and the status is the recording's.
    ensures done { (result ≡ 0) ⊎ (result ≡ 3)
        → SavesAll (S.left source.old) result (K.held sink.old) (K.held sink.new) }

    // On 4, 5 and 6 a front of it is written.
    ensures stopped { (result ≡ 4) ⊎ (result ≡ 5) ⊎ (result ≡ 6)
        → SavesFront (S.left source.old) (K.held sink.old) (K.held sink.new) }
    ensures reads { TakesFront most_bytes (S.left source.old) (S.left source.new) }
    ensures source_failed { result ≡ 4 → S.faults source.old < S.faults source.new }
    ensures sink_failed { result ≡ 5 → K.faults sink.old < K.faults sink.new }
{
    status(save(alloc, source, sink, steps))
}

// Reads the recording to its end, and writes what it comes to.
fn save<S: Source, K: Sink, L: Ledger>(
    alloc: Global,
    source: &mut S,
    sink: &mut K,
    steps: &mut Steps<L>,
) -> Result<End, Stop>
    ensures leaves { LeavesSaved (S.left source.old) result (K.held sink.old) (K.held sink.new) }
    ensures reads { TakesFront most_bytes (S.left source.old) (S.left source.new) }
    ensures source_failed { IsErrOf result stop.SourceFailed
        → S.faults source.old < S.faults source.new }
    ensures sink_failed { IsErrOf result stop.SinkFailed → K.faults sink.old < K.faults sink.new }
{
    let mut reader = LineReader::new(alloc)?;
    let mut replay = Replay::new(false);
    let last = read_to_end(alloc, &mut reader, &mut replay, source, steps)?;
    let end = end_of(&last);
    let text = text_of(alloc, last, replay.world(), steps)?;
    write_all(sink, &text)?;
    Ok(end)
}

// Takes the lines that are to come, and tells what they come to; nothing is written of what they print.
fn read_to_end<S: Source, L: Ledger>(
    alloc: Global,
    reader: &mut LineReader,
    replay: &mut Replay,
    source: &mut S,
    steps: &mut Steps<L>,
) -> Result<Last, Stop>
    requires wide { format.LONGEST_LINE ≤ reader.old.longest }
    requires number { budget reader.old ≤ 2 ^ 40 }
    requires silent { replay.old.trace ≡ false }
    ensures ends { IfOk result (λ last. (progress : Progress) → Reads progress replay.old.world
        → Ends (rest_of progress 1 reader.old.longest (budget reader.old)
        (to_come reader.old (S.left source.old))) last replay.new.world) }
    ensures taken { TakesUnread reader.old.unread reader.new.unread
        (S.left source.old) (S.left source.new) }
    ensures faults_stay { S.faults source.old ≤ S.faults source.new }
    ensures source_failed { IsErrOf result stop.SourceFailed
        → S.faults source.old < S.faults source.new }
    ensures no_sink { IsErrOf result stop.SinkFailed → ⊥ }
{
    let mut at = 1u64;
    'lines: loop {
        let reply = next_reply(alloc, reader, replay, source, steps)?;
        match reply {
            Reply::Refused(fault) => return Ok(Last::Refused { at, fault }),
            Reply::Ended(_) => return Ok(Last::Ended),
            Reply::Wrote(_) => {}
        }
        at += 1;
    }
}

// How the recording ends.
fn end_of(last: &Last) -> End
    ensures { result ≡ last_end last.now }
{
    match last {
        Last::Refused { .. } => End::Refused,
        Last::Ended => End::Done,
    }
}

// The text that is written of what the recording comes to, in the world that it left.
fn text_of<L: Ledger>(
    alloc: Global,
    last: Last,
    world: Option<&ViewedWorld>,
    steps: &mut Steps<L>,
) -> Mem<Vec<u8>>
    ensures { IfOk result (λ text. WritesLast last
        (option_map (λ (w : Bor ViewedWorld). w.now) world.entry) text.items) }
{
    match last {
        Last::Refused { at, fault } => fault_line(alloc, at, fault),
        Last::Ended => match world {
            Some(world) => room_line(alloc, world, steps),
            // A recording that has ended has a world.
            None => Err(OutOfMemory),
        },
    }
}

// The line of what is saved of a world's room.
fn room_line<L: Ledger>(alloc: Global, world: &ViewedWorld, steps: &mut Steps<L>) -> Mem<Vec<u8>>
    ensures { IfOk result (λ text. (schemas : WorldSchemas EditFault) (viewed : Viewed)
        → Stands schemas viewed world.now → IsRoomLine schemas.room viewed.world.room text.items) }
{
    let room = world.world().room();
    let held = room.schema().sequences().serialized(alloc)?;
    let saved = room.saved(alloc, steps)?;
    let mut text = print(alloc, &saved, &held)?;
    text.push(b'\n')?;
    Ok(text)
}
