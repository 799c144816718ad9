//! The two ends of a link over a listener: a worker that serves its links, and a client.
use room_link::accept::Accept;
use room_link::link::Link;
use room_link::passing::{Incoming, Stop};
use std::alloc::{AllocError, Global};
use std::io::{Read, Write};
use std::net::{Net, SocketAddr, TcpStream};
use std::str;
use std::test::Fail;
use std::thread::{Threads, join};
use sync_msgs::EndReason;
use tungstenite::handshake::client::{request_of, start};
use tungstenite::{Bytes, MaskKeys, Message, WebSocket};

/// How many inputs of a link are looked at. Each Idle takes up to 50 milliseconds.
const INPUTS: u32 = 400;

/// What came of a link.
#[derive(Clone, Copy, Debug, PartialEq, Eq, Drop)]
pub(crate) struct Served {
    /// Whether it ended, or was closed, and nothing failed.
    pub(crate) is_well: bool,
    /// How many texts came.
    pub(crate) texts: u32,
    /// Whether an Idle came.
    pub(crate) was_idle: bool,
}

/// Answers each text of a link by itself, and closes it at the text `leave`.
fn serve<K: Link>(link: &mut K) -> Served {
    let mut served = Served {
        is_well: false,
        texts: 0,
        was_idle: false,
    };
    for _ in 0..INPUTS {
        match link.next() {
            Ok(Incoming::Text(bytes)) => {
                served.texts = served.texts.saturating_add(1);
                let Ok(text) = str::from_utf8(&bytes) else {
                    return served;
                };
                if text == "leave" {
                    served.is_well = link.close(EndReason::InvalidRecord).is_ok();
                    return served;
                }
                if link.send(text).is_err() {
                    return served;
                }
            }
            Ok(Incoming::Idle) => served.was_idle = true,
            Ok(Incoming::End) => {
                served.is_well = true;
                return served;
            }
            Err(_) => return served,
        }
    }
    served
}

/// Serves each link of a worker.
pub(crate) fn serve_all<A: Accept>(
    alloc: Global,
    worker: &mut A,
) -> Result<Vec<Served>, AllocError> {
    let mut all = Vec::new(alloc);
    for _ in 0..INPUTS {
        match worker.next() {
            Ok(Some(link)) => {
                let mut link = link;
                let served = serve(&mut link);
                worker.back(link);
                all.push(served)?;
            }
            Ok(None) => return Ok(all),
            Err(Stop::Failed) => return Ok(all),
            Err(Stop::OutOfMemory) => return Err(AllocError),
        }
    }
    Ok(all)
}

/// The keys by which a client masks its frames: always the same.
#[derive(Clone, Copy, Debug)]
pub(crate) struct OneKey;

impl MaskKeys for OneKey {
    fn next_key(&mut self) -> [u8; 4] {
        [1, 2, 3, 4]
    }
}

/// What a message is, as words.
fn words_of(alloc: Global, message: &Message) -> Result<String, Fail> {
    Ok(match message {
        Message::Text(text) => format!(in alloc; "text {}; ", text.as_str())?,
        Message::Pong(bytes) => format!(in alloc; "pong of {}; ", bytes.len())?,
        Message::Close(Some(frame)) => {
            let code = u16::from(frame.code);
            format!(in alloc; "close {code} {}; ", frame.reason.as_str())?
        }
        _ => String::from_str(alloc, "other; ")?,
    })
}

/// Sends a message, and adds what is read then, as words.
fn asks<S: Read + Write + Drop>(
    alloc: Global,
    socket: &mut WebSocket<S, OneKey>,
    message: Message,
    words: &mut String,
) -> Result<(), Fail> {
    socket.send(message)?;
    let answer = socket.read()?;
    let word = words_of(alloc, &answer)?;
    words.push_str(word.as_str())?;
    Ok(())
}

/// Visits a server over a stream: what the client reads, as words.
fn visit<S: Read + Write + Drop>(alloc: Global, stream: S) -> Result<String, Fail> {
    let request = request_of(alloc, "ws://127.0.0.1/")?;
    let rounds = start(alloc, [3; 16], OneKey, request, stream, None)?;
    let Ok((socket, _)) = rounds.handshake() else {
        return Ok(String::from_str(alloc, "no handshake")?);
    };
    let mut socket = socket;
    let mut words = String::new(alloc);
    let hello = Message::text(alloc, "{\"hello\":1}")?;
    asks(alloc, &mut socket, hello, &mut words)?;
    let ping = Message::Ping(Bytes::copy_from_slice(alloc, b"four")?);
    asks(alloc, &mut socket, ping, &mut words)?;
    let leave = Message::text(alloc, "leave")?;
    asks(alloc, &mut socket, leave, &mut words)?;
    words.push_str(if socket.read().is_err() {
        "end"
    } else {
        "more"
    })?;
    Ok(words)
}

/// Connects, and visits the server.
fn visit_at<R: Net>(rt: &R, alloc: Global, address: SocketAddr) -> Result<String, Fail> {
    let stream = TcpStream::connect(rt, address)?;
    visit(alloc, stream)
}

/// Serves a worker's links in one thread, while a client visits in another: what came of each link, and what the client
/// read.
pub(crate) fn meet<R: Threads + Net + Sync, A: Accept + Send>(
    rt: &R,
    alloc: Global,
    worker: &mut A,
    address: SocketAddr,
) -> Result<(Vec<Served>, String), Fail>
where
    A::Link: Send,
{
    let (served, words) = join(
        rt,
        || serve_all(alloc, worker),
        || visit_at(rt, alloc, address),
    );
    let words = words?;
    Ok((served?, words))
}
