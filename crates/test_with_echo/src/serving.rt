//! Workers, each in a thread.
use crate::echo::serve_link;
use room_link::accept::Accept;
use socket_link::worker::ListenerWorker;
use std::alloc::{AllocError, Global};
use std::io::Print;
use std::net::TcpListener;
use std::thread::{Threads, for_each_mut};

/// How many workers there may be.
pub(crate) const MOST_WORKERS: usize = 64;

/// So many workers over one listener, each for so many links.
pub(crate) fn workers_of(
    alloc: Global,
    listener: &TcpListener,
    count: usize,
    links: u32,
) -> Result<Vec<ListenerWorker<'_, TcpListener>>, AllocError> {
    let mut workers = Vec::new(alloc);
    for _ in 0..count {
        workers.push(ListenerWorker::new(alloc, listener, links))?;
    }
    Ok(workers)
}

/// Serves each link of a worker, and prints what came of it.
fn serve_one<R: Print, A: Accept>(rt: &R, alloc: Global, number: usize, worker: &mut A) {
    for _ in 0..u64::MAX {
        match worker.next() {
            Ok(Some(link)) => {
                let mut link = link;
                let report = serve_link(alloc, &mut link);
                worker.back(link);
                let word = report.end.word();
                // Where a line can't be printed, nothing is lost but the line.
                let _ = println!(rt;
                    "{word} after {} texts and {} idles",
                    report.texts, report.idles
                );
            }
            Ok(None) => return,
            Err(_) => {
                let _ = println!(rt; "worker {number} failed");
                return;
            }
        }
    }
}

/// Serves the links of all workers, each worker in a thread.
pub(crate) fn serve<R: Print + Threads + Sync, A: Accept + Send>(
    rt: &R,
    alloc: Global,
    workers: &mut Vec<A>,
)
where
    A::Link: Send,
{
    for_each_mut(
        rt,
        workers.as_mut_slice(),
        MOST_WORKERS,
        &|number, worker| { serve_one(rt, alloc, number, worker) },
    );
}
