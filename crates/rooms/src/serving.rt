//! Starting a run: over standard input and output, for a server over a listener, and for a client over a connection.
ghost use Rattle.std.specs.Prelude.{◌≡◌, ◌≢◌, ◌<◌, ◌↔◌, ◌^◌, string_bytes, map, vec_len, None, IfOk};
ghost use Rattle.rooms.specs.Jobs.{job_named};
ghost use Rattle.rooms.specs.Runs.{IsStatus};

use crate::job::{Job, job_of};
use crate::run::{OUT_OF_MEMORY, run};
use join_job::WORKER_FAILED;
use room_link::accept::Accept;
use room_link::gate::OpenGate;
use room_link::memory_accept::SteadyAccept;
use room_link::memory_link::SteadyLink;
use room_link::standard::{StandardInput, StandardOutput};
use rooms_val::{Mem, Steps};
use socket_link::connecting::{ConnectingWorker, LocalPort};
use socket_link::worker::ListenerWorker;
use std::alloc::Global;
use std::io;
use std::io::Write;
use std::net::TcpListener;
use std::sync::Wait;
use std::sync::ledger::{Blank, Ledger};
use std::thread::Threads;
use tungstenite::RandomKeys;

// The status of a server that can't listen.
const CANNOT_LISTEN: u8 = 7;

/// Does what the words ask for: a server listens first, and a client has a worker that connects.
pub(crate) fn start_run<R: Threads + Wait + Sync, L: Ledger>(
    host: &HostRuntime,
    rt: &R,
    words: &[String],
    blank: Blank,
) -> u8
    requires name { blank.name ≡ L.name }
    requires parts { blank.parts ≡ L.parts }
    requires some { 0 < blank.parts }
    ensures usage { (result ≡ 2) ↔ (job_named (map string_bytes words.now) ≡ None) }
    ensures known { IsStatus result }
{
    match job_of(words) {
        Some(
            Job::Serve {
                port,
                workers,
                links,
                ..
            },
        ) => listens::<R, L>(host, rt, words, port, workers, links, blank),
        Some(Job::Join { port, .. }) => connects::<R, L>(host, rt, words, port, blank),
        _ => {
            let mut workers = Vec::new(host.alloc());
            runs::<R, SteadyAccept<SteadyLink>, L>(host, rt, words, &mut workers, blank)
        }
    }
}

// Listens on a port of this machine, and runs with so many workers, each for so many links.
fn listens<R: Threads + Wait + Sync, L: Ledger>(
    host: &HostRuntime,
    rt: &R,
    words: &[String],
    port: u16,
    workers: u32,
    links: u32,
    blank: Blank,
) -> u8
    requires name { blank.name ≡ L.name }
    requires parts { blank.parts ≡ L.parts }
    requires some { 0 < blank.parts }
    requires asked { job_named (map string_bytes words.now) ≢ None }
    ensures usage { result ≢ 2 }
    ensures known { IsStatus result }
{
    let Ok(listener) = TcpListener::bind(host, ("127.0.0.1", port)) else {
        tell(host, "rooms: cannot listen\n");
        return CANNOT_LISTEN;
    };
    let Ok(line) = format!(in host.alloc(); "rooms: listening on 127.0.0.1:{port}\n") else {
        return OUT_OF_MEMORY;
    };
    tell(host, line.as_str());
    let Ok(mut workers) = workers_of(host.alloc(), &listener, workers, links) else {
        return OUT_OF_MEMORY;
    };
    let status = runs::<R, ListenerWorker<'_, TcpListener>, L>(
        host,
        rt,
        words,
        &mut workers,
        blank,
    );
    if status == WORKER_FAILED {
        tell(host, "rooms: a worker failed\n");
    }
    status
}

// Runs with one worker, which connects to a port of this machine.
fn connects<R: Threads + Wait + Sync, L: Ledger>(
    host: &HostRuntime,
    rt: &R,
    words: &[String],
    port: u16,
    blank: Blank,
) -> u8
    requires name { blank.name ≡ L.name }
    requires parts { blank.parts ≡ L.parts }
    requires some { 0 < blank.parts }
    requires asked { job_named (map string_bytes words.now) ≢ None }
    ensures usage { result ≢ 2 }
    ensures known { IsStatus result }
{
    let connector = LocalPort::new(host, port);
    let keys = RandomKeys::new(host);
    let Ok(mut workers) = Vec::with_capacity(host.alloc(), 1) else {
        return OUT_OF_MEMORY;
    };
    workers.push_reserved(ConnectingWorker::new(host.alloc(), connector, keys));
    let status = runs::<
        R,
        ConnectingWorker<LocalPort<'_, HostRuntime>, RandomKeys<&HostRuntime>>,
        L,
    >(host, rt, words, &mut workers, blank);
    if status == WORKER_FAILED {
        tell(host, "rooms: cannot connect\n");
    }
    status
}

// So many workers over a listener, each for so many links.
fn workers_of(
    alloc: Global,
    listener: &TcpListener,
    count: u32,
    links: u32,
) -> Mem<Vec<ListenerWorker<'_, TcpListener>>>
    ensures { IfOk result (λ workers. vec_len workers ≡ count) }
{
    let mut workers = Vec::with_capacity(alloc, count as usize)?;
    'workers: for _ in 0..count {
        workers.push_reserved(ListenerWorker::new(alloc, listener, links));
    }
    Ok(workers)
}

// Runs over standard input and output, with a counter of steps that nobody reads.
fn runs<R: Threads + Wait + Sync, A: Accept + Send, L: Ledger>(
    host: &HostRuntime,
    rt: &R,
    words: &[String],
    workers: &mut Vec<A>,
    blank: Blank,
) -> u8
where
    A::Link: Send,
    requires name { blank.name ≡ L.name }
    requires parts { blank.parts ≡ L.parts }
    requires some { 0 < blank.parts }
    requires numbered { vec_len workers.old < 2 ^ 32 }
    ensures usage { (result ≡ 2) ↔ (job_named (map string_bytes words.now) ≡ None) }
    ensures known { IsStatus result }
{
    let mut source = StandardInput::new(host.reader());
    let mut sink = StandardOutput::new(io::writer(host));
    let mut steps = Steps::<L>::new(blank);
    run(
        rt,
        host.alloc(),
        words,
        &mut source,
        &mut sink,
        workers,
        &OpenGate,
        &mut steps,
    )
}

// Tells something on standard error. Where that can't be written, nothing is lost but the line.
fn tell(host: &HostRuntime, text: &str) {
    let _ = host.stderr().write_all(text.as_bytes());
}
