//! A client's end of a link: a worker that connects, over a real listener or over known bytes.
use crate::link_calls::link_words;
use crate::listener_ends::{OneKey, Served, serve_all};
use room_link::accept::Accept;
use room_link::link::Link;
use room_link::passing::{Incoming, Stop};
use socket_link::connecting::{Connect, ConnectingWorker};
use std::alloc::Global;
use std::io::{Read, Write};
use std::net::{OpenStream, Shutdown};
use std::test::Fail;
use std::thread::{Threads, join};
use std::time::Duration;
use std::{io, str};

/// How many inputs of a link are looked at. Each Idle takes up to 50 milliseconds.
const INPUTS: u32 = 400;

/// How a server answers this client's handshake.
const ANSWER: &str =
    "HTTP/1.1 101 Switching Protocols\r\nUpgrade: websocket\r\nConnection: Upgrade\r\nSec-WebSocket-Accept: Pm67CwmGrFe1rDPxCoSOLlyfYRI=\r\n\r\n";

/// A stream that gives known bytes and then ends, and takes whatever is written.
#[derive(Drop)]
pub(crate) struct KnownStream {
    bytes: Vec<u8>,
    at: usize,
}

impl Read for KnownStream {
    fn read(&mut self, buf: &mut [u8]) -> io::Result<usize> {
        let rest = self.bytes.get(self.at..).unwrap_or(&[]);
        let taken = buf.len().min(rest.len());
        buf[..taken].copy_from_slice(&rest[..taken]);
        self.at = self.at.saturating_add(taken);
        Ok(taken)
    }
}

impl Write for KnownStream {
    fn write(&mut self, buf: &[u8]) -> io::Result<usize> {
        Ok(buf.len())
    }

    fn flush(&mut self) -> io::Result<()> {
        Ok(())
    }
}

impl OpenStream for KnownStream {
    fn shutdown(&self, _how: Shutdown) -> io::Result<()> {
        Ok(())
    }

    fn set_nodelay(&self, _nodelay: bool) -> io::Result<()> {
        Ok(())
    }

    fn set_read_timeout(&self, _dur: Option<Duration>) -> io::Result<()> {
        Ok(())
    }

    fn set_write_timeout(&self, _dur: Option<Duration>) -> io::Result<()> {
        Ok(())
    }
}

/// Connects to a stream that answers the handshake, and then gives these bytes.
#[derive(Drop)]
pub(crate) struct Known<'a> {
    alloc: Global,
    frames: &'a [u8],
}

impl<'a> Connect for Known<'a> {
    type Stream = KnownStream;

    fn port(&self) -> u16 {
        80
    }

    fn connect(&self) -> io::Result<KnownStream> {
        let mut bytes = Vec::new(self.alloc);
        bytes.extend_from_slice(ANSWER.as_bytes())?;
        bytes.extend_from_slice(self.frames)?;
        Ok(KnownStream { bytes, at: 0 })
    }
}

/// What the calls on a client's link over these frames of a server answer, as words.
pub(crate) fn played_over(alloc: Global, frames: &[u8], calls: &str) -> Result<String, Fail> {
    let known = Known { alloc, frames };
    let mut worker = ConnectingWorker::new(alloc, known, OneKey);
    let Some(link) = worker.next()? else {
        return Ok(String::from_str(alloc, "NONE")?);
    };
    let mut link = link;
    let words = link_words(alloc, &mut link, calls)?;
    worker.back(link);
    Ok(words)
}

/// Says hello over a link, asks to leave at the answer, and takes what comes up to the end, as words.
fn visit<K: Link>(alloc: Global, link: &mut K) -> Result<String, Fail> {
    let mut words = String::new(alloc);
    link.send("{\"hello\":1}")?;
    for _ in 0..INPUTS {
        match link.next()? {
            Incoming::Text(bytes) => {
                words.push_str("text ")?;
                words.push_str(str::from_utf8(&bytes)?)?;
                words.push_str("; ")?;
                link.send("leave")?;
            }
            Incoming::Idle => {}
            Incoming::End => {
                words.push_str("end; ")?;
                return Ok(words);
            }
        }
    }
    Ok(words)
}

/// Visits over each link of a worker. What each visit takes, and how the worker ends, as words.
pub(crate) fn visit_all<A: Accept>(alloc: Global, worker: &mut A) -> Result<String, Fail> {
    let mut words = String::new(alloc);
    for _ in 0..INPUTS {
        match worker.next() {
            Ok(Some(link)) => {
                let mut link = link;
                let visited = visit(alloc, &mut link);
                worker.back(link);
                words.push_str(visited?.as_str())?;
            }
            Ok(None) => {
                words.push_str("none")?;
                return Ok(words);
            }
            Err(Stop::Failed) => words.push_str("failed; ")?,
            Err(Stop::OutOfMemory) => words.push_str("memory; ")?,
        }
    }
    Ok(words)
}

/// Serves a worker's links in one thread, and visits over another worker's in a second one: what came of
/// each link, and what the visits took.
pub(crate) fn meet_workers<R: Threads, A: Accept + Send, B: Accept + Send>(
    rt: &R,
    alloc: Global,
    server: &mut A,
    client: &mut B,
) -> Result<(Vec<Served>, String), Fail>
where
    A::Link: Send,
    B::Link: Send,
{
    let (served, words) = join(rt, || serve_all(alloc, server), || visit_all(alloc, client));
    let words = words?;
    Ok((served?, words))
}
