//! The top call.
ghost use Rattle.std.specs.Prelude.{◌≡◌, ◌≢◌, ◌<◌, ◌↔◌, ◌⊎◌, ◌^◌, ℕ, Bool, string_bytes, map, Some, None, IfSome, vec_len};
ghost use Rattle.join_job.specs.Working.{PlaysOverWorkers, FirstFails};
ghost use Rattle.recording_lines.specs.Lines.{most_bytes};
ghost use Rattle.replay_job.specs.CaughtUp.{CaughtUpPrintTheRoom};
ghost use Rattle.snapshot_jobs.specs.Endings.{SavesAll, SavesFront, RestoresAll, RestoresAllFront};
ghost use Rattle.rooms.specs.Jobs.{job_named};
ghost use Rattle.replay_job.specs.Endings.{Prints, PrintsFront, TakesFront};
ghost use Rattle.make_job.specs.Outcomes.{Makes, MakesFront};
ghost use Rattle.rooms.specs.Runs.{IsStatus, IsStatusOf, Serves};

use crate::job::{Job, job_of};
use join_job::join_job;
use make_job::make_job;
use replay_job::replay_job;
use room_link::accept::Accept;
use room_link::gate::Gate;
use room_link::sink::Sink;
use room_link::source::Source;
use room_server::serve_job;
use rooms_val::Steps;
use snapshot_jobs::{restore_job, save_job};
use std::alloc::Global;
use std::sync::Wait;
use std::sync::ledger::Ledger;
use std::thread::Threads;

/// The status of words that are in no row of the usage.
pub const USAGE: u8 = 2;

/// The status of who was refused memory.
pub const OUT_OF_MEMORY: u8 = 6;

/// Does what the words ask for, without the program's name, and returns the status with which the program ends: 0 where the
/// job is done, 2 where the words ask for none, 3 where the recording or the script is refused, 4 where the source failed, 5
/// where the sink failed, 6 where memory was refused, 7 where a worker failed, 8 where the link failed, 9 where a text of
/// the room is refused. It costs what the job does. What a recording writes has a line for each view that a client watches,
/// whenever the view changes. A server serves the links of the workers, which wait at the gate; how many links a worker has
/// is not read from the words here. A client joins over the next link of the first worker, and plays its script there;
/// without one it plays over a link that has ended.
pub fn run<
    R: Threads + Wait + Sync,
    S: Source,
    K: Sink,
    A: Accept + Send,
    G: Gate + Sync,
    L: Ledger,
>(
    rt: &R,
    alloc: Global,
    words: &[String],
    source: &mut S,
    sink: &mut K,
    workers: &mut Vec<A>,
    gate: &G,
    steps: &mut Steps<L>,
) -> u8
where
    A::Link: Send,
    requires numbered { vec_len workers.old < 2 ^ 32 }
    ensures known { IsStatus result }

    // 2 comes exactly where the words ask for no job, and then nothing is read or written. A made
    // recording ends with 0, 5 or 6, a server with 0, 5, 6 or 7, and a client with 0 or 3 to 9.
    ensures usage { (result ≡ 2) ↔ (job_named (map string_bytes words.now) ≡ None) }
    ensures statuses { IsStatusOf (job_named (map string_bytes words.now)) result }
    ensures untouched { result ≡ 2
        → (source.new ≡ source.old) × (sink.new ≡ sink.old) × (workers.new ≡ workers.old) }

    // A replay: on 0 and 3 what the recording writes is written, and the status is the recording's;
    // on 4, 5 and 6 a front of it is written.
    ensures done { (trace : Bool) → job_named (map string_bytes words.now) ≡ Some (Job.Replay trace)
        → (result ≡ 0) ⊎ (result ≡ 3)
        → Prints trace (S.left source.old) result (K.held sink.old) (K.held sink.new) }
    ensures stopped { (trace : Bool)
        → job_named (map string_bytes words.now) ≡ Some (Job.Replay trace)
        → (result ≡ 4) ⊎ (result ≡ 5) ⊎ (result ≡ 6)
        → PrintsFront trace (S.left source.old) (K.held sink.old) (K.held sink.new) }

    // In each world to which its first lines lead, a client that has caught up with the room shows
    // the room's document.
    ensures shown { (trace : Bool)
        → job_named (map string_bytes words.now) ≡ Some (Job.Replay trace)
        → IfSome (S.left source.old) (CaughtUpPrintTheRoom trace) }

    // A recording that is saved: on 0 and 3 the line of the room that it leaves is written, or the fault line alone, and the
    // status is the recording's; on 4, 5 and 6 a front of that is written.
    ensures saved { job_named (map string_bytes words.now) ≡ Some Job.Save
        → (result ≡ 0) ⊎ (result ≡ 3)
        → SavesAll (S.left source.old) result (K.held sink.old) (K.held sink.new) }
    ensures unsaved { job_named (map string_bytes words.now) ≡ Some Job.Save
        → (result ≡ 4) ⊎ (result ≡ 5) ⊎ (result ≡ 6)
        → SavesFront (S.left source.old) (K.held sink.old) (K.held sink.new) }

    // A recording that goes on from a saved room: on 0 and 3 what that writes is written, and the status is the
    // recording's; on 4, 5 and 6 a front of it is written.
    ensures restored { job_named (map string_bytes words.now) ≡ Some Job.Restore
        → (result ≡ 0) ⊎ (result ≡ 3)
        → RestoresAll (S.left source.old) result (K.held sink.old) (K.held sink.new) }
    ensures unrestored { job_named (map string_bytes words.now) ≡ Some Job.Restore
        → (result ≡ 4) ⊎ (result ≡ 5) ⊎ (result ≡ 6)
        → RestoresAllFront (S.left source.old) (K.held sink.old) (K.held sink.new) }

    // A made recording: on 0 what is made by the seed is written, on 5 and 6 a front of it; and
    // nothing is read.
    ensures made { (seed size : ℕ) (print : Bool)
        → job_named (map string_bytes words.now) ≡ Some (Job.Make seed size print)
        → result ≡ 0 → Makes seed size print (K.held sink.old) (K.held sink.new) }
    ensures unmade { (seed size : ℕ) (print : Bool)
        → job_named (map string_bytes words.now) ≡ Some (Job.Make seed size print)
        → (result ≡ 5) ⊎ (result ≡ 6)
        → MakesFront seed size print (K.held sink.old) (K.held sink.new) }
    ensures unread { (seed size : ℕ) (print : Bool)
        → job_named (map string_bytes words.now) ≡ Some (Job.Make seed size print)
        → source.new ≡ source.old }

    // A server: the rooms are served by the workers and closed, and on 0 and 7 the lines that say so are written; on 7 a
    // worker failed.
    ensures served { (port count rooms links : ℕ)
        → job_named (map string_bytes words.now) ≡ Some (Job.Serve port count rooms links)
        → Serves A.Link.faults A.Link.told A.faults A.told rooms workers.old.items workers.new.items
        (K.held sink.old) (K.held sink.new) (K.faults sink.old) (K.faults sink.new) result }

    // A client: the script was played over the next link of the first worker, which got it back, where that tells its links;
    // where no worker is, or no link was left, over a link that has ended. The status is how it ended. On 7 the worker
    // failed: no link was handed out, and nothing was read or written.
    ensures joined { (port room : ℕ)
        → job_named (map string_bytes words.now) ≡ Some (Job.Join port room)
        → result ≢ 7 → PlaysOverWorkers A.Link.faults A.Link.told A.told room (S.left source.old)
        (K.held sink.old) (K.held sink.new) result workers.old.items workers.new.items }
    ensures unjoined { (port room : ℕ)
        → job_named (map string_bytes words.now) ≡ Some (Job.Join port room)
        → result ≡ 7 → FirstFails A.faults A.told workers.old.items workers.new.items
        × (source.new ≡ source.old) × (sink.new ≡ sink.old) }

    // On every status the source held a front of at most 2^30 bytes, followed by what it holds.
    ensures reads { TakesFront most_bytes (S.left source.old) (S.left source.new) }

    // 4 comes only where the source had a fault in this call, 5 only where the sink had one.
    ensures source_failed { result ≡ 4 → S.faults source.old < S.faults source.new }
    ensures sink_failed { result ≡ 5 → K.faults sink.old < K.faults sink.new }
{
    match job_of(words) {
        None => USAGE,
        Some(job) => match job {
            Job::Replay { trace } => replay_job(alloc, trace, source, sink, steps).status,
            Job::Save => save_job(alloc, source, sink, steps),
            Job::Restore => restore_job(alloc, source, sink, steps),
            Job::Make { seed, size, print } => make_job(alloc, seed, size, print, sink, steps),
            Job::Serve { rooms, .. } => serve_job(rt, alloc, rooms, sink, workers, gate).status,
            Job::Join { room, .. } => join_job(alloc, room, workers, source, sink, steps),
        },
    }
}
