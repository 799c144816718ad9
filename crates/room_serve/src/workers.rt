//! Serving the links of workers.
ghost use Rattle.std.specs.Prelude.{◌≡◌, ◌<◌, ◌≤◌, ◌^◌, ◌+◌, ◌++◌, ℕ, [], length, reverse, Ok, Some, map, slice_get, vec_len, vec_capacity, IfOk, OnOk};
ghost use Rattle.room_link.specs.Exchange.{Tells};
ghost use Rattle.room_link.specs.Worker.{GivesBack};
ghost use Rattle.room_serve.specs.Reports.{ServesIn, IsReport};
ghost use Rattle.room_serve.specs.Stations.{tally_of, worker_of, IsWorked};
ghost use Rattle.room_serve.specs.Tallies.{service, shift_of, IsServedLink, IsShift, AreTallied};
ghost use Rattle.room_serve.specs.declared.workers.Station.{Station};

use crate::report::Report;
use crate::service::serve_link;
use crate::tally::Tally;
use room_link::accept::Accept;
use room_link::gate::Gate;
use room_link::link::Link;
use room_link::passing::Stop;
use room_run::RunningRoom;
use rooms_val::{Mem, OutOfMemory};
use std::alloc::Global;
use std::sync::Wait;
use std::thread;
use std::thread::Threads;

/// Serves the links of some workers, each in a thread of its own, one link after another, until it has none left or
/// fails: what its links came to, in the workers' order. Each link is given back to its worker. A worker's number is
/// its place. It waits for the links, and for the turns of the rooms. It costs what the links cost, and a report for
/// each.
///
/// # Errors
///
/// Memory was refused, for a report, for the tallies or to a worker, and what the links came to is lost.
pub fn serve<R: Threads + Wait + Sync, A: Accept + Send, G: Gate + Sync>(
    rt: &R,
    alloc: Global,
    rooms: &[RunningRoom],
    workers: &mut Vec<A>,
    gate: &G,
) -> Mem<Vec<Tally>>
where
    A::Link: Send,
    requires few { length rooms.now < 2 ^ 32 }
    requires numbered { vec_len workers.old < 2 ^ 32 }
    ensures kept { vec_len workers.new ≡ vec_len workers.old }
    ensures tallied { IfOk result (λ tallies. AreTallied A.Link.faults A.Link.told
        (ServesIn rooms.now) (IsReport rooms.now) A.faults A.told
        workers.old.items workers.new.items tallies.items) }
{
    let mut tallies = Vec::with_capacity(alloc, workers.len())?;
    let mut stations = Vec::with_capacity(alloc, workers.len())?;
    send_out(workers, &mut stations);
    work_all(rt, alloc, rooms, &mut stations, gate);
    call_back(stations, workers, &mut tallies)?;
    Ok(tallies)
}

// A worker at work, and what its links came to, once it is done.
struct Station<A> {
    worker: A,
    tally: Mem<Tally>,
}

// Sends each worker to a station.
fn send_out<A>(workers: &mut Vec<A>, stations: &mut Vec<Station<A>>)
    requires empty { stations.old.items ≡ [] }
    requires place { vec_len workers.old ≤ vec_capacity stations.old }
    ensures left { workers.new.items ≡ [] }
    ensures place { vec_capacity workers.new ≡ vec_capacity workers.old }
    ensures sent { map worker_of stations.new.items ≡ workers.old.items }
{
    workers.reverse();
    send_from_the_end(workers, stations);
}

// Sends each worker to a station, the last one first.
fn send_from_the_end<A>(workers: &mut Vec<A>, stations: &mut Vec<Station<A>>)
    requires place { vec_len stations.old + vec_len workers.old ≤ vec_capacity stations.old }
    ensures left { workers.new.items ≡ [] }
    ensures place { vec_capacity workers.new ≡ vec_capacity workers.old }
    ensures sent { map worker_of stations.new.items
        ≡ map worker_of stations.old.items ++ reverse workers.old.items }
{
    'workers: while !workers.is_empty() {
        stations.push_reserved(Station {
            worker: workers.take_last(),
            tally: Err(OutOfMemory),
        });
    }
}

// Lets each worker serve its links, in a thread of its own.
fn work_all<R: Threads + Wait + Sync, A: Accept + Send, G: Gate + Sync>(
    rt: &R,
    alloc: Global,
    rooms: &[RunningRoom],
    stations: &mut [Station<A>],
    gate: &G,
)
where
    A::Link: Send,
    requires few { length rooms.now < 2 ^ 32 }
    requires numbered { length stations.old < 2 ^ 32 }
    ensures count { length stations.new ≡ length stations.old }
    ensures worked { (place : ℕ) (before after : Station A)
        → slice_get stations.old place ≡ Some before
        → slice_get stations.new place ≡ Some after
        → IsWorked A.Link.faults A.Link.told A.faults A.told rooms.now before after }
{
    let threads = stations.len();
    if threads == 0 {
        return;
    }
    thread::for_each_mut(
        rt,
        stations,
        threads,
        &|number, station: &mut Station<A>| {
            station.tally = serve_worker(
                rt,
                alloc,
                rooms,
                number as u32,
                &mut station.worker,
                gate,
            );
        },
    );
}

// Serves a worker's links one after another, until none is left or it fails: what they came to.
fn serve_worker<R: Wait, A: Accept, G: Gate>(
    rt: &R,
    alloc: Global,
    rooms: &[RunningRoom],
    number: u32,
    worker: &mut A,
    gate: &G,
) -> Mem<Tally>
    requires few { length rooms.now < 2 ^ 32 }
    ensures shift { IfOk result (λ tally. IsShift A.Link.faults A.Link.told
        (ServesIn rooms.now) (IsReport rooms.now) A.faults A.told
        (shift_of worker.old worker.new tally)) }
{
    let mut reports = Vec::new(alloc);
    'links: for _ in rt.forever() {
        reports.reserve(1)?;
        match worker.next() {
            Ok(Some(link)) => {
                let report = serve_and_return(rt, alloc, rooms, number, worker, link, gate);
                reports.push_reserved(report);
            }
            Ok(None) => return Ok(Tally {
                reports,
                failed: false,
            }),
            Err(Stop::Failed) => return Ok(Tally {
                reports,
                failed: true,
            }),
            Err(Stop::OutOfMemory) => return Err(OutOfMemory),
        }
    }
    unreachable!()
}

// Serves a link, and gives it back to its worker: what is told of it.
fn serve_and_return<R: Wait, A: Accept, G: Gate>(
    rt: &R,
    alloc: Global,
    rooms: &[RunningRoom],
    number: u32,
    worker: &mut A,
    mut link: A::Link,
    gate: &G,
) -> Report
    requires few { length rooms.now < 2 ^ 32 }
    ensures faults { A.faults worker.new ≡ A.faults worker.old }
    ensures back { (back : A.Link) × Tells (GivesBack back) (A.told worker.old) (A.told worker.new)
        × IsServedLink A.Link.faults A.Link.told (ServesIn rooms.now) (IsReport rooms.now)
        (service link back result) }
{
    let report = serve_link(rt, alloc, rooms, number, &mut link, gate);
    worker.back(link);
    report
}

// Calls the workers back, and takes what their links came to.
fn call_back<A>(
    mut stations: Vec<Station<A>>,
    workers: &mut Vec<A>,
    tallies: &mut Vec<Tally>,
) -> Mem<()>
    requires workers { (workers.old.items ≡ []) × (vec_len stations ≤ vec_capacity workers.old) }
    requires tallies { (tallies.old.items ≡ []) × (vec_len stations ≤ vec_capacity tallies.old) }
    ensures workers { workers.new.items ≡ map worker_of stations.items }
    ensures tallies { OnOk result (map Ok tallies.new.items ≡ map tally_of stations.items) }
{
    stations.reverse();
    call_from_the_end(stations, workers, tallies)
}

// Calls the workers back, the last one first.
fn call_from_the_end<A>(
    mut stations: Vec<Station<A>>,
    workers: &mut Vec<A>,
    tallies: &mut Vec<Tally>,
) -> Mem<()>
    requires workers { (workers.old.items ≡ []) × (vec_len stations ≤ vec_capacity workers.old) }
    requires tallies { (tallies.old.items ≡ []) × (vec_len stations ≤ vec_capacity tallies.old) }
    ensures workers { workers.new.items ≡ map worker_of (reverse stations.items) }
    ensures tallies { OnOk result (map Ok tallies.new.items
        ≡ map tally_of (reverse stations.items)) }
{
    let mut refused = false;
    'stations: while !stations.is_empty() {
        let Station { worker, tally } = stations.take_last();
        workers.push_reserved(worker);
        match tally {
            Ok(tally) => tallies.push_reserved(tally),
            Err(_) => refused = true,
        }
    }
    stations.destroy_empty();
    if refused { Err(OutOfMemory) } else { Ok(()) }
}
