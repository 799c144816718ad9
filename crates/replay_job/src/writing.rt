//! Writing lines to a sink.
ghost use Rattle.std.specs.Prelude.{ℕ, List, ◌<◌, ◌≤◌, OnOk, OnErr, IsErrOf};
ghost use Rattle.room_link.specs.Held.{Extends};
ghost use Rattle.replay_job.specs.Texts.{lines_text};
ghost use Rattle.replay_job.specs.Replay.{IsFront};
ghost use Rattle.replay_job.specs.declared.play.Stop.TheVariants as stop;

use crate::play::Stop;
use crate::texts::written_line;
use rec_format::PrintedLine;
use room_link::sink::Sink;
use room_link::writing::write_all;
use std::alloc::Global;

/// Writes lines one after the other, each by writes of its own.
///
/// # Errors
///
/// `SinkFailed` where a write failed, and `OutOfMemory` where a line's text doesn't fit; a front of
/// the lines' text is written then.
pub(crate) fn write_lines<K: Sink>(
    alloc: Global,
    sink: &mut K,
    lines: &[PrintedLine],
) -> Result<(), Stop>
    ensures ok { OnOk result (Extends (K.held sink.old) (K.held sink.new) (lines_text lines.now)) }
    ensures err { OnErr result ((front : List ℕ) × IsFront front (lines_text lines.now)
        × Extends (K.held sink.old) (K.held sink.new) front) }
    ensures faults_stay { K.faults sink.old ≤ K.faults sink.new }
    ensures sink_failed { IsErrOf result stop.SinkFailed → K.faults sink.old < K.faults sink.new }
    ensures no_source { IsErrOf result stop.SourceFailed → ⊥ }
{
    'lines: for line in lines {
        let text = written_line(alloc, line)?;
        write_all(sink, &text)?;
    }
    Ok(())
}
