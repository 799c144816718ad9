//! A recording that goes on from a saved room.
ghost use Rattle.std.specs.Prelude.{◌≡◌, ◌<◌, ◌≤◌, ◌+◌, ◌^◌, ◌⊎◌, List, ℕ, codes, IfOk, IsErrOf};
ghost use Rattle.fault_texts.specs.Texts.{load_fault_text};
ghost use Rattle.recording_lines.specs.Lines.{most_bytes};
ghost use Rattle.recording_lines.specs.Reading.{budget, to_come, TakesUnread};
ghost use Rattle.rec_format.specs.declared.read.TheConstants as format;
ghost use Rattle.room_snapshot.specs.declared.snapshot.TheConstants as snapshot;
ghost use Rattle.replay_job.specs.Endings.{IsReplayStatus, TakesFront};
ghost use Rattle.replay_job.specs.declared.play.Stop.TheVariants as stop;
ghost use Rattle.room_model.specs.declared.limits.TheConstants.{LAST_CLOCK};
ghost use Rattle.room_accept.specs.Suiting.{HasPresences};
ghost use Rattle.room_snapshot.specs.Readings.{IsLine};
ghost use Rattle.room_snapshot.specs.Saved.{saved_tree};
ghost use Rattle.schema_core.specs.SchemaOf.{schema_tree};
ghost use Rattle.schema_core.specs.Tree.{SchemaTree};
ghost use Rattle.tl_tables.specs.Tables.{IsVersion, IsSchemaAt};
ghost use Rattle.snapshot_jobs.specs.Beginning.{BeginsSaved, BeginsHeader, BeginsAt, line_of, IfGoing};
ghost use Rattle.snapshot_jobs.specs.Endings.{RestoresAll, RestoresAllFront};
ghost use Rattle.snapshot_jobs.specs.Restored.{LeavesRestored, IsWorldOf, IsRoomOf};

use crate::seek::{Sought, seek};
use fault_texts::{
    bad_record_text, line_fault_text, load_fault_text, plan_fault_text, snap_fault_text,
};
use rec_format::read::LONGEST_LINE;
use rec_format::read_header;
use recording_lines::line_reader::LineReader;
use replay_job::play::{End, Stop, go_on, no_end_text, status};
use replay_job::replay::Replay;
use replay_job::texts::fault_line;
use room_link::sink::Sink;
use room_link::source::Source;
use room_link::writing::write_all;
use room_model::limits::LAST_CLOCK;
use room_model::{Header, SavedRoom};
use room_snapshot::snapshot::{Snapshot, read};
use room_snapshot::{bad_id, raise, snapshot};
use rooms_val::{Mem, OutOfMemory, Steps, Text};
use schema_core::Schema;
use std::alloc::Global;
use std::sync::ledger::Ledger;
use sync_room::Room;
use sync_world::World;
use tl_tables::{TableFault, schema_at};
use world_views::ViewedWorld;

/// How what is read begins.
#[derive(Drop)]
pub(crate) enum Begun {
    /// It is refused at the line of this number, for the cause that this text names.
    Refused { at: u64, fault: Text },
    /// Events go on in this world, from the line of this number on.
    Going { at: u64, world: ViewedWorld },
}

/// Reads the line of a saved room, and replays the recording that follows it, which goes on from that
/// room at the version of its header; of both together it looks at 2^30 bytes at most. It writes what
/// the recording prints, without messages. The lines are numbered from that of the saved room on, and
/// a fault of the saved room stands at its line. The status is 0 where the recording was read to its
/// `end` line, 3 where it or the saved room is refused, 4 where a read failed, 5 where a write failed,
/// and 6 where memory was refused. It costs the line of the saved room, a logarithm for each of its
/// records and a pass over them for each migration, and then what a replay does.
pub fn restore_job<S: Source, K: Sink, L: Ledger>(
    alloc: Global,
    source: &mut S,
    sink: &mut K,
    steps: &mut Steps<L>,
) -> u8
    ensures known { IsReplayStatus result }

    // On 0 and 3 what is written of what was read stands there, and the status is the recording's.
    ensures done { (result ≡ 0) ⊎ (result ≡ 3)
        → RestoresAll (S.left source.old) result (K.held sink.old) (K.held sink.new) }

    // On 4, 5 and 6 a front of it is written.
    ensures stopped { (result ≡ 4) ⊎ (result ≡ 5) ⊎ (result ≡ 6)
        → RestoresAllFront (S.left source.old) (K.held sink.old) (K.held sink.new) }
    ensures reads { TakesFront most_bytes (S.left source.old) (S.left source.new) }
    ensures source_failed { result ≡ 4 → S.faults source.old < S.faults source.new }
    ensures sink_failed { result ≡ 5 → K.faults sink.old < K.faults sink.new }
{
    status(restore(alloc, source, sink, steps))
}

// Reads how the recording begins, and lets its events go on.
fn restore<S: Source, K: Sink, L: Ledger>(
    alloc: Global,
    source: &mut S,
    sink: &mut K,
    steps: &mut Steps<L>,
) -> Result<End, Stop>
    ensures leaves { LeavesRestored (S.left source.old) result (K.held sink.old) (K.held sink.new) }
    ensures reads { TakesFront most_bytes (S.left source.old) (S.left source.new) }
    ensures source_failed { IsErrOf result stop.SourceFailed
        → S.faults source.old < S.faults source.new }
    ensures sink_failed { IsErrOf result stop.SinkFailed → K.faults sink.old < K.faults sink.new }
{
    let mut reader = LineReader::with_longest(alloc, snapshot::LONGEST_LINE)?;
    let begun = begin(alloc, &mut reader, source, steps)?;
    match begun {
        Begun::Refused { at, fault } => {
            let text = fault_line(alloc, at, fault)?;
            write_all(sink, &text)?;
            Ok(End::Refused)
        }
        Begun::Going { at, world } => {
            let mut replay = Replay::over(world);
            go_on(alloc, &mut reader, &mut replay, at, source, sink, steps)
        }
    }
}

// Reads the line of a saved room, and the header.
fn begin<S: Source, L: Ledger>(
    alloc: Global,
    reader: &mut LineReader,
    source: &mut S,
    steps: &mut Steps<L>,
) -> Result<Begun, Stop>
    requires longest { reader.old.longest ≡ snapshot.LONGEST_LINE }
    requires number { 1 + budget reader.old ≤ 2 ^ 40 }
    ensures begins { IfOk result (λ begun. BeginsSaved reader.old.longest
        (budget reader.old) (to_come reader.old (S.left source.old))
        (budget reader.new) (to_come reader.new (S.left source.new)) begun) }
    ensures number { IfOk result (λ begun. IfGoing begun (λ n. n + budget reader.new ≤ 2 ^ 40)) }
    ensures longest { reader.new.longest ≡ reader.old.longest }
    ensures taken { TakesUnread reader.old.unread reader.new.unread
        (S.left source.old) (S.left source.new) }
    ensures faults_stay { S.faults source.old ≤ S.faults source.new }
    ensures source_failed { IsErrOf result stop.SourceFailed
        → S.faults source.old < S.faults source.new }
    ensures no_sink { IsErrOf result stop.SinkFailed → ⊥ }
{
    let sought = seek(reader, snapshot::LONGEST_LINE, 1, source)?;
    match sought {
        Sought::Line { at } => match read(alloc, reader.line()) {
            Ok(snapshot) => begin_with(alloc, reader, at, snapshot, source, steps),
            Err(fault) => Ok(Begun::Refused {
                at,
                fault: snap_fault_text(alloc, fault)?,
            }),
        },
        Sought::TooLong { at } => Ok(Begun::Refused {
            at,
            fault: too_long(alloc)?,
        }),
        Sought::End { at, whole } => Ok(Begun::Refused {
            at,
            fault: no_end_text(alloc, whole)?,
        }),
    }
}

// Reads the header behind the line of a saved room, which has the number `from`.
fn begin_with<S: Source, L: Ledger>(
    alloc: Global,
    reader: &mut LineReader,
    from: u64,
    snapshot: Snapshot,
    source: &mut S,
    steps: &mut Steps<L>,
) -> Result<Begun, Stop>
    requires line { (line : List ℕ) × IsLine line (saved_tree snapshot.saved) snapshot.held }
    requires wide { format.LONGEST_LINE ≤ reader.old.longest }
    requires number { from + 1 + budget reader.old ≤ 2 ^ 40 }
    ensures begins { IfOk result (λ begun. BeginsHeader (line_of from snapshot) reader.old.longest
        (budget reader.old) (to_come reader.old (S.left source.old))
        (budget reader.new) (to_come reader.new (S.left source.new)) begun) }
    ensures number { IfOk result (λ begun. IfGoing begun (λ n. n + budget reader.new ≤ 2 ^ 40)) }
    ensures longest { reader.new.longest ≡ reader.old.longest }
    ensures taken { TakesUnread reader.old.unread reader.new.unread
        (S.left source.old) (S.left source.new) }
    ensures faults_stay { S.faults source.old ≤ S.faults source.new }
    ensures source_failed { IsErrOf result stop.SourceFailed
        → S.faults source.old < S.faults source.new }
    ensures no_sink { IsErrOf result stop.SinkFailed → ⊥ }
{
    let sought = seek(reader, LONGEST_LINE, from + 1, source)?;
    match sought {
        Sought::Line { at } => match read_header(alloc, reader.line()) {
            Ok(header) => begin_at(alloc, header, from, snapshot, at + 1, steps),
            Err(fault) => Ok(Begun::Refused {
                at,
                fault: line_fault_text(alloc, fault)?,
            }),
        },
        Sought::TooLong { at } => Ok(Begun::Refused {
            at,
            fault: too_long(alloc)?,
        }),
        Sought::End { at, whole } => Ok(Begun::Refused {
            at,
            fault: no_end_text(alloc, whole)?,
        }),
    }
}

// Begins at the version of a header, behind which the next line has the number `next`.
fn begin_at<L: Ledger>(
    alloc: Global,
    header: Header,
    from: u64,
    snapshot: Snapshot,
    next: u64,
    steps: &mut Steps<L>,
) -> Result<Begun, Stop>
    requires version { IsVersion header.version }
    requires line { (line : List ℕ) × IsLine line (saved_tree snapshot.saved) snapshot.held }
    ensures begins { IfOk result (λ begun. (schema : SchemaTree) × IsSchemaAt header.version schema
        × BeginsAt schema (line_of from snapshot) next begun) }
    ensures no_source { IsErrOf result stop.SourceFailed → ⊥ }
    ensures no_sink { IsErrOf result stop.SinkFailed → ⊥ }
{
    let answer = world_of(alloc, header.version, snapshot, steps)?;
    match answer {
        Ok(world) => Ok(Begun::Going { at: next, world }),
        Err(fault) => Ok(Begun::Refused { at: from, fault }),
    }
}

// The text of a line that is too long.
fn too_long(alloc: Global) -> Mem<Text>
    ensures { IfOk result (λ text. text ≡ codes "LineTooLong") }
{
    Text::of(alloc, "LineTooLong")
}

// The world over the room that begins from a snapshot, brought to a version; or why there is none.
fn world_of<L: Ledger>(
    alloc: Global,
    version: u32,
    snapshot: Snapshot,
    steps: &mut Steps<L>,
) -> Mem<Result<ViewedWorld, Text>>
    requires version { IsVersion version }
    requires line { (line : List ℕ) × IsLine line (saved_tree snapshot.saved) snapshot.held }
    ensures { IfOk result (λ answer. (schema : SchemaTree) × IsSchemaAt version schema
        × IsWorldOf schema (saved_tree snapshot.saved) snapshot.held answer) }
{
    let schema = match schema_at(alloc, version) {
        Ok(schema) => schema,
        Err(TableFault::NoSuchVersion) => unreachable!(),
        Err(TableFault::OutOfMemory) => return Err(OutOfMemory),
    };
    if let Some(id) = bad_id(alloc, &snapshot.saved)? {
        return Ok(Err(bad_record_text(alloc, &id)?));
    }
    match raise(alloc, &schema, snapshot) {
        Ok(saved) => room_of(alloc, schema, saved, steps),
        Err(fault) => Ok(Err(plan_fault_text(alloc, &fault)?)),
    }
}

// The world over the room that begins from a saved one; or why none does.
fn room_of<L: Ledger>(
    alloc: Global,
    schema: Schema,
    saved: SavedRoom,
    steps: &mut Steps<L>,
) -> Mem<Result<ViewedWorld, Text>>
    requires { HasPresences (schema_tree schema) }
    ensures { IfOk result (λ answer. IsRoomOf (schema_tree schema) saved answer) }
{
    match Room::load(alloc, schema, LAST_CLOCK as i64, saved, steps) {
        Ok(room) => Ok(Ok(ViewedWorld::over(World::over(alloc, room)))),
        Err(fault) => Ok(Err(load_fault_text(alloc, &fault)?)),
    }
}
