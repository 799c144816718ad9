//! A script that is played over the next link of a worker.
ghost use Rattle.std.specs.Prelude.{◌≡◌, ◌≢◌, ◌<◌, None, Some, IfSome};
ghost use Rattle.peer_schemas.specs.Clients.{AreOfTables};
ghost use Rattle.recording_lines.specs.Lines.{most_bytes};
ghost use Rattle.room_link.specs.Exchange.{Tells};
ghost use Rattle.room_model.specs.Schemas.{WorldSchemas};
ghost use Rattle.side_effects.specs.declared.fault.EditFault.{EditFault};
ghost use Rattle.join_job.specs.Playing.{Reads};
ghost use Rattle.join_job.specs.Working.{IsJoinStatus, PlaysOverWorkers, PlaysOverFirst, PlaysOverNext, PlaysOverNone, FirstFails, job_status};
ghost use Rattle.join_job.specs.declared.ending.JoinEnd.TheVariants as join;

use crate::ending::JoinEnd;
use crate::play::join_link;
use room_link::accept::Accept;
use room_link::memory_link::SteadyLink;
use room_link::passing::Stop;
use room_link::sink::Sink;
use room_link::source::Source;
use rooms_val::Steps;
use std::alloc::Global;
use std::collections::VecDeque;
use std::sync::ledger::Ledger;

/// The status of a job of which a worker failed.
pub const WORKER_FAILED: u8 = 7;

/// Plays the script that the source holds over the next link of the first worker, as `join_link` does, and gives the link
/// back at its end. Where there is no worker, or no link is left, it is played over a link that has ended.
///
/// It returns 0, 3, 4, 5, 6, 8 or 9 as the script ended (`JoinEnd::status`), or 7 where the worker failed: nothing was read
/// or written then. It costs what `join_link` does, and the wait for the link.
pub fn join_job<A: Accept, S: Source, W: Sink, L: Ledger>(
    alloc: Global,
    room: u32,
    workers: &mut Vec<A>,
    source: &mut S,
    sink: &mut W,
    steps: &mut Steps<L>,
) -> u8
    ensures known { IsJoinStatus result }

    // What the script writes and says, where the source tells what it holds, the worker its links, and the link its
    // exchange.
    ensures played { result ≢ 7
        → PlaysOverWorkers A.Link.faults A.Link.told A.told room (S.left source.old)
        (W.held sink.old) (W.held sink.new) result workers.old.items workers.new.items }

    // The worker failed: the script wasn't begun.
    ensures failed { result ≡ 7 → FirstFails A.faults A.told workers.old.items workers.new.items
        × (source.new ≡ source.old) × (sink.new ≡ sink.old) }

    // The source held a front of at most 2^30 bytes, followed by what it holds.
    ensures reads { Reads most_bytes (S.left source.old) (S.left source.new) }

    // 4 comes only where the source had a fault in this call, 5 only where the sink had one.
    ensures read_failed { result ≡ 4 → S.faults source.old < S.faults source.new }
    ensures write_failed { result ≡ 5 → W.faults sink.old < W.faults sink.new }
{
    status_of(join_first(alloc, room, workers, source, sink, steps))
}

// The status of a job: that of how its script ended, or that of a worker that failed.
fn status_of(played: Option<JoinEnd>) -> u8
    ensures { result ≡ job_status played }
{
    match played {
        Some(end) => end.status(),
        None => WORKER_FAILED,
    }
}

// Plays the script over the next link of the first worker, and returns how it ended; or none, where the worker failed.
fn join_first<A: Accept, S: Source, W: Sink, L: Ledger>(
    alloc: Global,
    room: u32,
    workers: &mut Vec<A>,
    source: &mut S,
    sink: &mut W,
    steps: &mut Steps<L>,
) -> Option<JoinEnd>
    ensures played { IfSome result (λ by. (schemas : WorldSchemas EditFault) → AreOfTables schemas
        → PlaysOverFirst schemas room (S.left source.old) (W.held sink.old)
        (W.held sink.new) by A.Link.faults A.Link.told
        A.told workers.old.items workers.new.items) }
    ensures failed { result ≡ None → FirstFails A.faults A.told workers.old.items workers.new.items
        × (source.new ≡ source.old) × (sink.new ≡ sink.old) }
    ensures reads { Reads most_bytes (S.left source.old) (S.left source.new) }
    ensures read_failed { result ≡ Some join.Read → S.faults source.old < S.faults source.new }
    ensures write_failed { result ≡ Some join.Write → W.faults sink.old < W.faults sink.new }
{
    if workers.is_empty() {
        return Some(join_ended(alloc, room, source, sink, steps));
    }
    join_next(alloc, room, &mut workers[0], source, sink, steps)
}

// Plays the script over the next link of a worker, and returns how it ended; or none, where the worker failed.
fn join_next<A: Accept, S: Source, W: Sink, L: Ledger>(
    alloc: Global,
    room: u32,
    worker: &mut A,
    source: &mut S,
    sink: &mut W,
    steps: &mut Steps<L>,
) -> Option<JoinEnd>
    ensures played { IfSome result (λ by. (schemas : WorldSchemas EditFault) → AreOfTables schemas
        → Tells (PlaysOverNext schemas room (S.left source.old) (W.held sink.old)
        (W.held sink.new) by A.Link.faults A.Link.told)
        (A.told worker.old) (A.told worker.new)) }
    ensures failed { result ≡ None → (A.faults worker.old < A.faults worker.new)
        × Tells (λ old new. new ≡ old) (A.told worker.old) (A.told worker.new)
        × (source.new ≡ source.old) × (sink.new ≡ sink.old) }
    ensures reads { Reads most_bytes (S.left source.old) (S.left source.new) }
    ensures read_failed { result ≡ Some join.Read → S.faults source.old < S.faults source.new }
    ensures write_failed { result ≡ Some join.Write → W.faults sink.old < W.faults sink.new }
{
    match worker.next() {
        Ok(Some(link)) => {
            let mut link = link;
            let end = join_link(alloc, room, &mut link, source, sink, steps);
            worker.back(link);
            Some(end)
        }
        Ok(None) => Some(join_ended(alloc, room, source, sink, steps)),
        Err(Stop::Failed) => None,
        Err(Stop::OutOfMemory) => Some(JoinEnd::Memory),
    }
}

// Plays the script over a link that has ended.
fn join_ended<S: Source, W: Sink, L: Ledger>(
    alloc: Global,
    room: u32,
    source: &mut S,
    sink: &mut W,
    steps: &mut Steps<L>,
) -> JoinEnd
    ensures played { (schemas : WorldSchemas EditFault) → AreOfTables schemas
        → PlaysOverNone schemas room (S.left source.old) (W.held sink.old)
        (W.held sink.new) result }
    ensures reads { Reads most_bytes (S.left source.old) (S.left source.new) }
    ensures read_failed { result ≡ join.Read → S.faults source.old < S.faults source.new }
    ensures write_failed { result ≡ join.Write → W.faults sink.old < W.faults sink.new }
{
    let mut link = SteadyLink::new(alloc, VecDeque::new(alloc));
    join_link(alloc, room, &mut link, source, sink, steps)
}
