//! The program `test_with_echo`: a server that answers each text by itself, over the links of `socket_link`, so that
//! `checks/sockets` can try them by real clients. Its words are `test_with_echo PORT WORKERS LINKS`: it listens on
//! 127.0.0.1, has that many workers, and ends when each has served that many links. Without words it prints its usage.
//!
//! - A text `leave` closes the link for `INVALID_RECORD`, and so does one of more than 4,194,304 bytes.
//! - A text `flood` is answered by 30 texts of 1 MiB.
//! - Any other text is sent back.
//!
//! A line tells what came of each link, when it ended: `ended` after 3 texts and 1 idles.
#![tactic(auto)]

mod echo;
mod serving;

use serving::{MOST_WORKERS, serve, workers_of};
use std::net::TcpListener;
use std::process::ExitCode;
use std::{env, io};

const USAGE: &str = "usage: test_with_echo PORT WORKERS LINKS";

/// What the words ask for.
#[derive(Clone, Copy)]
struct Job {
    port: u16,
    workers: usize,
    links: u32,
}

/// The job that the words name, or none.
fn job_of(words: &[String]) -> Option<Job> {
    let [_, port, workers, links] = words else {
        return None;
    };
    let Ok(port) = port.parse::<u16>() else {
        return None;
    };
    let Ok(workers) = workers.parse::<usize>() else {
        return None;
    };
    let Ok(links) = links.parse::<u32>() else {
        return None;
    };
    if workers == 0 || workers > MOST_WORKERS {
        return None;
    }
    Some(Job {
        port,
        workers,
        links,
    })
}

fn main(rt: HostRuntime) -> io::Result<ExitCode> {
    let alloc = rt.alloc();
    let mut words = Vec::new(alloc);
    for word in env::args(&rt)? {
        words.push(word)?;
    }
    let Some(job) = job_of(&words) else {
        println!(&rt; "{USAGE}")?;
        return Ok(ExitCode::from(if words.len() > 1 { 2 } else { 0 }));
    };
    let listener = TcpListener::bind(&rt, ("127.0.0.1", job.port))?;
    let address = listener.local_addr()?;
    println!(&rt; "listening on {address}")?;
    let mut workers = workers_of(alloc, &listener, job.workers, job.links)?;
    serve(&rt, alloc, &mut workers);
    Ok(ExitCode::SUCCESS)
}
