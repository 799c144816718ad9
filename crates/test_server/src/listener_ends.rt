//! A server over a listener, and a client.
ghost use Rattle.std.specs.Prelude.{◌≤◌, ◌<◌, ◌^◌, vec_len};

use room_link::accept::Accept;
use room_link::gate::OpenGate;
use room_link::memory_sink::SteadySink;
use room_server::serve_job;
use std::alloc::Global;
use std::io::{Read, Write};
use std::net::{Net, SocketAddr, TcpStream};
use std::sync::Wait;
use std::test::Fail;
use std::thread::{Threads, join};
use test_with_served::spell_out;
use tungstenite::handshake::client::{request_of, start};
use tungstenite::{MaskKeys, Message, WebSocket};

// How many messages a client reads at most before its server has closed.
const READS: u32 = 16;

// The keys by which this client masks its frames: always the same.
#[derive(Clone, Copy, Debug)]
struct OneKey;

impl MaskKeys for OneKey {
    fn next_key(&mut self) -> [u8; 4] {
        [1, 2, 3, 4]
    }
}

// Says the texts of words, and reads one answer.
fn ask<S: Read + Write + Drop>(
    alloc: Global,
    socket: &mut WebSocket<S, OneKey>,
    says: &str,
) -> Result<String, Fail> {
    for word in spell_out(alloc, says)?.as_str().split_whitespace() {
        socket.send(Message::text(alloc, word)?)?;
    }
    let answer = socket.read()?;
    Ok(String::from_str(
        alloc,
        match &answer {
            Message::Text(text) => text.as_str(),
            _ => "no text",
        },
    )?)
}

// Closes, and waits for the server to do so: whether it did.
fn part<S: Read + Write + Drop>(socket: &mut WebSocket<S, OneKey>) -> Result<bool, Fail> {
    socket.close(None)?;
    for _ in 0..READS {
        if socket.read().is_err() {
            return Ok(true);
        }
    }
    Ok(false)
}

// Visits a server over a stream, says the texts of words, and closes: the answer.
fn visit<S: Read + Write + Drop>(alloc: Global, stream: S, says: &str) -> Result<String, Fail> {
    let request = request_of(alloc, "ws://127.0.0.1/")?;
    let rounds = start(alloc, [3; 16], OneKey, request, stream, None)?;
    let Ok((socket, _)) = rounds.handshake() else {
        return Err(Fail::from("no handshake"));
    };
    let mut socket = socket;
    let answer = ask(alloc, &mut socket, says)?;
    if part(&mut socket)? {
        Ok(answer)
    } else {
        Err(Fail::from("the server didn't close"))
    }
}

// Connects, and visits the server.
fn visit_at<R: Net>(
    rt: &R,
    alloc: Global,
    address: SocketAddr,
    says: &str,
) -> Result<String, Fail> {
    let stream = TcpStream::connect(rt, address)?;
    visit(alloc, stream, says)
}

// What came of a server and a client.
#[derive(Drop)]
pub(crate) struct Met {
    // the server's status
    pub(crate) status: u8,
    // its lines
    pub(crate) lines: String,
    // the client's answer
    pub(crate) answer: String,
}

/// Serves a room by workers in one thread, while a client says the texts of words in another.
pub(crate) fn meet<R: Threads + Wait + Net + Sync, A: Accept + Send>(
    rt: &R,
    alloc: Global,
    workers: &mut Vec<A>,
    address: SocketAddr,
    says: &str,
) -> Result<Met, Fail>
where
    A::Link: Send,
    requires few { vec_len workers.old ≤ 16 }
{
    let mut sink = SteadySink::new(alloc, 65_536);
    let (status, answer) = join(
        rt,
        ||
            requires { vec_len workers.now < 2 ^ 32 }
        { serve_job(rt, alloc, 1, &mut sink, workers, &OpenGate).status },
        || visit_at(rt, alloc, address, says),
    );
    let answer = answer?;
    let lines = String::from_utf8(sink.bytes().to_vec(alloc)?)?;
    Ok(Met {
        status,
        lines,
        answer,
    })
}
