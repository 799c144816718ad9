//! A script that is played over a link, from a source to a sink.
ghost use Rattle.std.specs.Prelude.{◌≡◌, ◌≤◌, ◌<◌, [], None, IfOk, IsErrOf};
ghost use Rattle.peer_schemas.specs.Clients.{AreOfTables};
ghost use Rattle.rec_format.specs.declared.read.TheConstants.{LONGEST_LINE};
ghost use Rattle.recording_lines.specs.Lines.{most_bytes, longest_line};
ghost use Rattle.recording_lines.specs.Reading.{budget, held, to_come, TakesUnread};
ghost use Rattle.room_link.specs.Exchange.{Tells};
ghost use Rattle.room_model.specs.Schemas.{WorldSchemas};
ghost use Rattle.side_effects.specs.declared.fault.EditFault.{EditFault};
ghost use Rattle.join_job.specs.Endings.{ended_by, played_to};
ghost use Rattle.join_job.specs.Playing.{PlaysIn, Reads};
ghost use Rattle.join_job.specs.Turning.{ComesNext, LeavesLines};
ghost use Rattle.join_job.specs.declared.ending.JoinEnd.TheVariants as join;
ghost use Rattle.join_job.specs.declared.ending.Stop.TheVariants as stop;

use crate::ending::{End, JoinEnd, Stop, join_end};
use crate::script::{Reply, Script, fault_reply};
use crate::texts::no_end_text;
use recording_lines::line_reader::{LineReader, Next};
use room_link::link::Link;
use room_link::sink::Sink;
use room_link::source::Source;
use room_link::writing::write_all;
use rooms_val::{Steps, Text};
use std::alloc::Global;
use std::sync::ledger::Ledger;

/// Plays the script that the source holds, of which it looks at 2^30 bytes at most: its client joins the room of this number
/// over the link, at the header's version, does what the events say, and takes what comes. What it prints is written to the
/// sink, line by line: what it shows, the views that it watches as they change, what its queries find, that its link has
/// ended or that nothing came for long, and at the end the clock that it has reached and how many works are pending. What a
/// line says goes out before its lines are written, and both before the source is read on. A room of which no server knows
/// isn't refused here: the link ends then.
///
/// It ends `Done` where the script was read to its `end` line, `Refused` where it was refused at a line, and `Server` where
/// a text of the room was refused; the fault line names the line, and why. It ends `Read` where a read of the source failed,
/// `Write` where a write failed, `Link` where the link failed, and `Memory` where memory was refused; a front of what the
/// script writes is written then, and a front of what it says went out.
///
/// It costs the script, its events and what comes over the link, and the memory of its client, one line and a buffer of
/// 65,536 bytes.
pub fn join_link<K: Link, S: Source, W: Sink, L: Ledger>(
    alloc: Global,
    room: u32,
    link: &mut K,
    source: &mut S,
    sink: &mut W,
    steps: &mut Steps<L>,
) -> JoinEnd
    // What the script writes and says, where the source tells it and the link tells what is to come.
    ensures played { (schemas : WorldSchemas EditFault) → AreOfTables schemas
        → PlaysIn schemas room (S.left source.old) (ended_by result) (W.held sink.old)
        (W.held sink.new)
        (K.told link.old) (K.told link.new) }

    // The source held a front of at most 2^30 bytes, followed by what it holds.
    ensures reads { Reads most_bytes (S.left source.old) (S.left source.new) }

    // The causes of the other ends.
    ensures read_failed { result ≡ join.Read → S.faults source.old < S.faults source.new }
    ensures write_failed { result ≡ join.Write → W.faults sink.old < W.faults sink.new }
    ensures link_failed { result ≡ join.Link → K.faults link.old < K.faults link.new }
    ensures link_stays { K.faults link.old ≤ K.faults link.new }
{
    let mut script = Script::new(room);
    join_end(play(alloc, &mut script, link, source, sink, steps))
}

// Takes a script of which nothing was taken.
fn play<K: Link, S: Source, W: Sink, L: Ledger>(
    alloc: Global,
    script: &mut Script,
    link: &mut K,
    source: &mut S,
    sink: &mut W,
    steps: &mut Steps<L>,
) -> Result<End, Stop>
    requires { script.old.joiner ≡ None }
    ensures played { (schemas : WorldSchemas EditFault) → AreOfTables schemas
        → PlaysIn schemas script.old.room (S.left source.old) (played_to result) (W.held sink.old)
        (W.held sink.new)
        (K.told link.old) (K.told link.new) }
    ensures reads { Reads most_bytes (S.left source.old) (S.left source.new) }
    ensures read_failed { IsErrOf result stop.Read → S.faults source.old < S.faults source.new }
    ensures write_failed { IsErrOf result stop.Write → W.faults sink.old < W.faults sink.new }
    ensures link_failed { IsErrOf result stop.Link → K.faults link.old < K.faults link.new }
    ensures link_stays { K.faults link.old ≤ K.faults link.new }
{
    let mut reader = LineReader::new(alloc)?;
    take_lines(alloc, &mut reader, script, link, source, sink, steps)
}

// Takes the script line by line, and writes what each line prints before it reads on.
fn take_lines<K: Link, S: Source, W: Sink, L: Ledger>(
    alloc: Global,
    reader: &mut LineReader,
    script: &mut Script,
    link: &mut K,
    source: &mut S,
    sink: &mut W,
    steps: &mut Steps<L>,
) -> Result<End, Stop>
    requires new { script.old.joiner ≡ None }
    requires empty { held reader.old ≡ [] }
    requires unread { reader.old.unread ≡ most_bytes }
    requires longest { reader.old.longest ≡ longest_line }
    ensures played { (schemas : WorldSchemas EditFault) → AreOfTables schemas
        → PlaysIn schemas script.old.room (S.left source.old) (played_to result) (W.held sink.old)
        (W.held sink.new)
        (K.told link.old) (K.told link.new) }
    ensures reads { Reads most_bytes (S.left source.old) (S.left source.new) }
    ensures read_failed { IsErrOf result stop.Read → S.faults source.old < S.faults source.new }
    ensures write_failed { IsErrOf result stop.Write → W.faults sink.old < W.faults sink.new }
    ensures link_failed { IsErrOf result stop.Link → K.faults link.old < K.faults link.new }
    ensures link_stays { K.faults link.old ≤ K.faults link.new }
{
    let mut at = 1;
    'lines: loop {
        let reply = next_reply(alloc, at, reader, script, link, source, steps)?;
        write_all(sink, &reply.text)?;
        if let Some(end) = reply.end {
            return Ok(end);
        }
        at += 1;
    }
}

// What the next line comes to; where no line is left, why the script is refused.
fn next_reply<K: Link, S: Source, L: Ledger>(
    alloc: Global,
    at: u64,
    reader: &mut LineReader,
    script: &mut Script,
    link: &mut K,
    source: &mut S,
    steps: &mut Steps<L>,
) -> Result<Reply, Stop>
    requires { LONGEST_LINE ≤ reader.old.longest }
    ensures comes { Tells (λ old new. (schemas : WorldSchemas EditFault) → AreOfTables schemas
        → ComesNext schemas script.old.room script.old.joiner reader.old.longest at
        (budget reader.old)
        (to_come reader.old (S.left source.old)) result script.new.joiner old new)
        (K.told link.old) (K.told link.new) }
    ensures left { IfOk result (λ reply. reply.end ≡ None
        → LeavesLines reader.old.longest (budget reader.old)
        (to_come reader.old (S.left source.old))
        (budget reader.new) (to_come reader.new (S.left source.new))) }
    ensures shorter { IfOk result (λ reply. reply.end ≡ None
        → budget reader.new < budget reader.old) }
    ensures room { script.new.room ≡ script.old.room }
    ensures longest { reader.new.longest ≡ reader.old.longest }
    ensures taken { TakesUnread reader.old.unread reader.new.unread (S.left source.old)
        (S.left source.new) }
    ensures source_stays { S.faults source.old ≤ S.faults source.new }
    ensures read_failed { IsErrOf result stop.Read → S.faults source.old < S.faults source.new }
    ensures link_stays { K.faults link.old ≤ K.faults link.new }
    ensures link_failed { IsErrOf result stop.Link → K.faults link.old < K.faults link.new }
    ensures no_write { IsErrOf result stop.Write → ⊥ }
{
    match reader.next_line(source)? {
        Next::Line => script.take_line(alloc, at, reader.line(), link, steps),
        Next::TooLong => {
            let text = Text::of(alloc, "LineTooLong")?;
            Ok(fault_reply(alloc, End::Refused, at, text)?)
        }
        Next::End { whole } => {
            let text = no_end_text(alloc, whole)?;
            Ok(fault_reply(alloc, End::Refused, at, text)?)
        }
    }
}
