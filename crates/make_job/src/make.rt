//! A recording that is made by a seed.
ghost use Rattle.std.specs.Prelude.{◌≡◌, ◌+◌, ◌<◌, ◌≤◌, ◌*◌, ◌++◌, ◌⊎◌, ℕ, List, ◌∷◌, [], Option, length, IfOk, OnOk, OnErr, IsErrOf, pos};
ghost use Rattle.rooms_val.specs.Data.{Pairs};
ghost use Rattle.room_model.specs.Schemas.{WorldSchemas};
ghost use Rattle.room_model.specs.Worlds as model;
ghost use Rattle.room_model.specs.Worlds.{map_val, end_line};
ghost use Rattle.sync_world.specs.Standing.{Stands};
ghost use Rattle.room_model.specs.declared.line.OutLine.TheVariants as out;
ghost use Rattle.side_effects.specs.declared.fault.EditFault.{EditFault};
ghost use Rattle.rec_format.specs.Printing.{IsPrintable};
ghost use Rattle.room_link.specs.Held.{Extends};
ghost use Rattle.replay_job.specs.Texts.{written_line};
ghost use Rattle.replay_job.specs.Replay.{IsFront};
ghost use Rattle.make_job.specs.Made as made;
ghost use Rattle.make_job.specs.Made.{header_line, if_printed, with_draws, last_line, last_line_of, summary_of};
ghost use Rattle.make_job.specs.Making.{IsMaking, HasPlace, AddsFront};
ghost use Rattle.make_job.specs.Outcomes.{IsMakeStatus, Makes, MakesFront};
ghost use Rattle.replay_job.specs.declared.play.Stop.TheVariants as stop;

use crate::making::{Making, event_line};
use load_maker::Maker;
use rec_format::{Event, OutLine};
use replay_job::play::{Stop, status};
use room_link::sink::Sink;
use room_link::writing::write_all;
use rooms_val::{Mem, OutOfMemory, Steps, Val};
use std::alloc::Global;
use std::sync::ledger::Ledger;
use sync_world::World;

/// Makes a recording of so many draws by a seed, in which each event happens as it is drawn. With
/// `print` the recording is written, as it comes; else a line is written that sums it up. The status
/// is 0, 5 where a write failed, and 6 where memory was refused. It costs the events, and the memory
/// of their world; none for the events before.
pub fn make_job<K: Sink, L: Ledger>(
    alloc: Global,
    seed: u64,
    size: u32,
    print: bool,
    sink: &mut K,
    steps: &mut Steps<L>,
) -> u8
    ensures known { IsMakeStatus result }

    // On 0 what is made by the seed is written.
    ensures done { result ≡ 0 → Makes seed size print (K.held sink.old) (K.held sink.new) }

    // On 5 and 6 a front of it is written.
    ensures stopped { (result ≡ 5) ⊎ (result ≡ 6)
        → MakesFront seed size print (K.held sink.old) (K.held sink.new) }
    ensures sink_failed { result ≡ 5 → K.faults sink.old < K.faults sink.new }
{
    match make(alloc, seed, size, print, sink, steps) {
        Ok(()) => 0,
        Err(stop) => status(Err(stop)),
    }
}

// Makes a recording, and writes it or what it comes to.
fn make<K: Sink, L: Ledger>(
    alloc: Global,
    seed: u64,
    size: u32,
    print: bool,
    sink: &mut K,
    steps: &mut Steps<L>,
) -> Result<(), Stop>
    ensures ok { OnOk result (Makes seed size print (K.held sink.old) (K.held sink.new)) }
    ensures err { OnErr result (MakesFront seed size print (K.held sink.old) (K.held sink.new)) }
    ensures sink_failed { IsErrOf result stop.SinkFailed → K.faults sink.old < K.faults sink.new }
    ensures no_source { IsErrOf result stop.SourceFailed → ⊥ }
{
    let mut making = Making::new(alloc)?;
    write_header(print, sink)?;
    let maker = Maker::new(seed);
    let first = maker.first(alloc)?;
    making.take_all(alloc, first, print, sink, steps)?;
    making.count_anew();
    draw_all(alloc, maker, size, print, &mut making, sink, steps)?;
    end(alloc, making, size, print, sink, steps)
}

// Writes the header, if the recording is printed.
fn write_header<K: Sink>(print: bool, sink: &mut K) -> Result<(), Stop>
    ensures ok { OnOk result (Extends (K.held sink.old) (K.held sink.new)
        (if_printed print header_line)) }
    ensures err { OnErr result (AddsFront (if_printed print header_line)
        (K.held sink.old) (K.held sink.new)) }
    ensures faults_stay { K.faults sink.old ≤ K.faults sink.new }
    ensures sink_failed { IsErrOf result stop.SinkFailed → K.faults sink.old < K.faults sink.new }
    ensures no_source { IsErrOf result stop.SourceFailed → ⊥ }
{
    write_all(sink, header_if(print).as_bytes())?;
    Ok(())
}

// The line of the header, if it is to be printed.
fn header_if(print: bool) -> &'static str
    ensures { result.now ≡ if_printed print header_line }
{
    if print {
        "{\"recording\":1,\"version\":3}\n"
    } else {
        ""
    }
}

// Lets so many draws happen, each over the last session of each client.
fn draw_all<K: Sink, L: Ledger>(
    alloc: Global,
    mut maker: Maker,
    size: u32,
    print: bool,
    making: &mut Making,
    sink: &mut K,
    steps: &mut Steps<L>,
) -> Result<(), Stop>
    requires { HasPlace (2 * size) making.old }
    ensures ok { OnOk result ((schemas : WorldSchemas EditFault) (m : made.Making)
        (old : Option (List ℕ)) → IsMaking schemas m making.old old (K.held sink.old)
        → IsMaking schemas (with_draws print schemas size maker m) making.new
        old (K.held sink.new)) }
    ensures err { OnErr result ((schemas : WorldSchemas EditFault) (m : made.Making)
        (old : Option (List ℕ)) → IsMaking schemas m making.old old (K.held sink.old)
        → AddsFront (with_draws print schemas size maker m).text old (K.held sink.new)) }
    ensures faults_stay { K.faults sink.old ≤ K.faults sink.new }
    ensures sink_failed { IsErrOf result stop.SinkFailed → K.faults sink.old < K.faults sink.new }
    ensures no_source { IsErrOf result stop.SourceFailed → ⊥ }
{
    'draws: for _ in 0..size {
        let events = maker.draw(alloc, &making.last)?;
        making.take_all(alloc, events, print, sink, steps)?;
    }
    Ok(())
}

// Ends the recording, and writes its last line: that of the end, or what the recording comes to.
fn end<K: Sink, L: Ledger>(
    alloc: Global,
    mut making: Making,
    size: u32,
    print: bool,
    sink: &mut K,
    steps: &mut Steps<L>,
) -> Result<(), Stop>
    ensures ok { OnOk result ((schemas : WorldSchemas EditFault) (m : made.Making)
        (old : Option (List ℕ)) → IsMaking schemas m making old (K.held sink.old)
        → Extends old (K.held sink.new) (m.text ++ last_line schemas size print m)) }
    ensures err { OnErr result ((schemas : WorldSchemas EditFault) (m : made.Making)
        (old : Option (List ℕ)) → IsMaking schemas m making old (K.held sink.old)
        → AddsFront (m.text ++ last_line schemas size print m) old (K.held sink.new)) }
    ensures faults_stay { K.faults sink.old ≤ K.faults sink.new }
    ensures sink_failed { IsErrOf result stop.SinkFailed → K.faults sink.old < K.faults sink.new }
    ensures no_source { IsErrOf result stop.SourceFailed → ⊥ }
{
    let lines = end_lines(alloc, &mut making.world, steps)?;
    let counts = Counts {
        refused: making.refused,
        taken: making.taken,
    };
    let line = last_line(alloc, size, print, counts, closing_of(&lines))?;
    write_all(sink, &line)?;
    Ok(())
}

// What the room says at the end. A world refuses an end only where memory runs out.
fn end_lines<L: Ledger>(alloc: Global, world: &mut World, steps: &mut Steps<L>) -> Mem<Vec<OutLine>>
    ensures { IfOk result (λ lines. (schemas : WorldSchemas EditFault) (model : model.World)
        → Stands schemas model world.old → lines.items ≡ end_line schemas model ∷ []) }
{
    match world.step(alloc, Event::End, false, steps) {
        Ok(lines) => Ok(lines),
        Err(_) => Err(OutOfMemory),
    }
}

// How many events of the draws were left out, and how many taken.
#[derive(Clone, Copy)]
struct Counts {
    refused: u64,
    taken: u64,
}

// What the room has at the end: its clock, and how many records of the document.
#[derive(Clone, Copy)]
struct Closing {
    clock: u64,
    records: usize,
}

// What the line of an end says of the room; of other lines nothing is said.
fn closing_of(lines: &[OutLine]) -> Closing
    ensures { (clock : ℕ) (doc presence : Pairs)
        → lines.now ≡ out.End (pos clock) (map_val doc) (map_val presence) ∷ []
        → (result.clock ≡ clock) × (result.records ≡ length doc) }
{
    match lines {
        [line] => closing_in(line),
        _ => Closing {
            clock: 0,
            records: 0,
        },
    }
}

fn closing_in(line: &OutLine) -> Closing
    ensures { (clock : ℕ) (doc presence : Pairs)
        → line.now ≡ out.End (pos clock) (map_val doc) (map_val presence)
        → (result.clock ≡ clock) × (result.records ≡ length doc) }
{
    match line {
        OutLine::End { clock, doc, .. } => Closing {
            clock: from_zero(*clock),
            records: count_of(doc),
        },
        _ => Closing {
            clock: 0,
            records: 0,
        },
    }
}

// How many fields a map has.
fn count_of(val: &Val) -> usize
    ensures { (fields : Pairs) → val.now ≡ map_val fields → result ≡ length fields }
{
    match val {
        Val::Map(fields) => fields.len(),
        _ => 0,
    }
}

// The last line of what is written.
fn last_line(
    alloc: Global,
    size: u32,
    print: bool,
    counts: Counts,
    closing: Closing,
) -> Mem<Vec<u8>>
    ensures { IfOk result (λ line. line.items
        ≡ last_line_of print closing.clock size closing.records counts.refused counts.taken) }
{
    if print {
        event_line(alloc, &Event::End)
    } else {
        summary(alloc, size, counts, closing)
    }
}

// What came of so many draws.
fn summary(alloc: Global, size: u32, counts: Counts, closing: Closing) -> Mem<Vec<u8>>
    ensures { IfOk result (λ line. line.items ≡ written_line
        (summary_of closing.clock size closing.records counts.refused counts.taken)) }
{
    let Closing { clock, records } = closing;
    let Counts { refused, taken } = counts;
    let line = format!(in alloc;
        "{{\"clock\":{clock},\"draws\":{size},\"records\":{records},\"refused\":{refused},\"taken\":{taken}}}\n"
    )?;
    Ok(line.into_bytes())
}

// A number that is no less than 0.
fn from_zero(number: i64) -> u64
    ensures { (n : ℕ) → number ≡ pos n → result ≡ n }
{
    if number < 0 { 0 } else { number as u64 }
}
