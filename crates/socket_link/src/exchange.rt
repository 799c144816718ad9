//! What is read from a socket and written to it.
ghost use Rattle.std.specs.Prelude.{◌≡◌, Some, OnOk};
ghost use Rattle.socket_link.specs.Reasons.{reason_text};
ghost use Rattle.socket_link.specs.Sockets.{IfText, HasNoText, ReadsText, heard_by};
ghost use Rattle.socket_link.specs.declared.bounds.TheConstants.{CLOSE_CODE};
ghost use Rattle.tungstenite.specs.Socket.{Writes};
ghost use Rattle.websocket.specs.Connection.{write_step, close_step};
ghost use Rattle.websocket.specs.Content.{text};
ghost use Rattle.websocket.specs.declared.protocol.frame.coding.CloseCode.TheVariants.{Library};

use crate::bounds::{CLOSE_CODE, CLOSE_WAITS, DROPPED_PIECE, DROPPED_READS};
use crate::heard::Heard;
use crate::reason::reason_text;
use std::alloc::Global;
use std::io;
use std::io::{ErrorKind, Read, Write};
use std::net::{OpenStream, Shutdown};
use sync_msgs::EndReason;
use tungstenite::{Bytes, CloseCode, CloseFrame, Error, MaskKeys, Message, Utf8Bytes, WebSocket};
use websocket::error::ProtocolError;

/// A socket of a link, whose frames are masked by these keys.
pub(crate) type Socket<S, K> = WebSocket<Heard<S>, K>;

/// Why a call on a socket gave nothing.
#[derive(Clone, Copy, Debug, PartialEq, Eq)]
pub enum Broken {
    /// Memory was refused.
    Memory,
    /// Anything else.
    Fault,
}

/// What came of one read.
#[derive(Drop)]
pub(crate) enum Came {
    /// A text.
    Text(Vec<u8>),
    /// A ping or a pong.
    Sign,
    /// Nothing in the time of a wait.
    Wait,
    /// The end: the peer closed, or its stream ended.
    End,
}

/// Why an error broke the call.
pub(crate) fn why(error: &Error) -> Broken {
    match error {
        Error::OutOfMemory => Broken::Memory,
        _ => Broken::Fault,
    }
}

/// Reads one message.
pub(crate) fn read_next<S: Read + Write + OpenStream + Drop, K: MaskKeys + Drop>(
    socket: &mut Socket<S, K>,
    alloc: Global,
) -> Result<Came, Broken>
    ensures { IfText result (ReadsText (heard_by S.remaining) socket.old socket.new) }
{
    match socket.read() {
        Ok(Message::Text(words)) => match Vec::from_slice(alloc, words.as_str().as_bytes()) {
            Ok(bytes) => Ok(Came::Text(bytes)),
            Err(_) => Err(Broken::Memory),
        },
        Ok(Message::Ping(_)) => Ok(Came::Sign),
        Ok(Message::Pong(_)) => Ok(Came::Sign),
        Ok(Message::Binary(_)) => Err(refuse(socket, CloseCode::Unsupported)),
        Ok(Message::Close(_)) => {
            // The answer to a close may still wait to be sent. Whether it goes changes nothing.
            let _ = socket.flush();
            Ok(Came::End)
        }
        Err(error) => at_error(socket, &error),
    }
}

// What an error of a read stands for. What the peer can be told of it, it is told.
fn at_error<S: Read + Write + OpenStream + Drop, K: MaskKeys + Drop>(
    socket: &mut Socket<S, K>,
    error: &Error,
) -> Result<Came, Broken>
    ensures { HasNoText result }
{
    match error {
        Error::ConnectionClosed | Error::AlreadyClosed => Ok(Came::End),
        Error::Protocol(ProtocolError::ResetWithoutClosingHandshake) => Ok(Came::End),
        Error::Io(cause) if is_wait(cause) => Ok(Came::Wait),
        Error::Capacity(_) => Err(refuse(socket, CloseCode::Size)),
        Error::Utf8 => Err(refuse(socket, CloseCode::Invalid)),
        Error::Protocol(_) => Err(refuse(socket, CloseCode::Protocol)),
        _ => Err(why(error)),
    }
}

// Whether a read ended since its time was over, or by a signal. No byte is lost.
fn is_wait(cause: &io::Error) -> bool {
    matches!(cause.kind(), ErrorKind::WouldBlock | ErrorKind::Interrupted)
}

// Closes a socket for a fault of the peer's frames, with its code.
fn refuse<S: Read + Write + OpenStream + Drop, K: MaskKeys + Drop>(
    socket: &mut Socket<S, K>,
    code: CloseCode,
) -> Broken {
    let told = socket.close(Some(CloseFrame {
        code,
        reason: Utf8Bytes::new(),
    }));
    if told.is_ok() {
        drop_rest(socket);
    }
    Broken::Fault
}

// Reads what the peer still sends, and drops it, within bounds. Else the system would reset the stream
// under the close, and the peer wouldn't see its code.
fn drop_rest<S: Read + Write + OpenStream + Drop, K: MaskKeys + Drop>(socket: &mut Socket<S, K>) {
    if socket.get_ref().stream.shutdown(Shutdown::Write).is_err() {
        return;
    }
    let mut piece = [0; DROPPED_PIECE];
    let mut waits: u32 = 0;
    for _ in 0..DROPPED_READS {
        match socket.get_mut().read(&mut piece) {
            Ok(0) => return,
            Ok(_) => {}
            Err(cause) if is_wait(&cause) => {
                waits = waits.saturating_add(1);
                if waits >= CLOSE_WAITS {
                    return;
                }
            }
            Err(_) => return,
        }
    }
}

/// Sends a text.
pub(crate) fn send_text<S: Read + Write + Drop, K: MaskKeys + Drop>(
    socket: &mut Socket<S, K>,
    alloc: Global,
    words: &str,
) -> Result<(), Broken>
    ensures { OnOk result (Writes (heard_by S.contents) socket.old socket.new
        (write_step socket.old.conn (text words.now))) }
{
    let Ok(message) = Message::text(alloc, words) else {
        return Err(Broken::Memory);
    };
    match socket.send(message) {
        Ok(()) => Ok(()),
        Err(error) => Err(why(&error)),
    }
}

/// Sends a ping, which asks the peer for an answer.
pub(crate) fn send_ping<S: Read + Write + Drop, K: MaskKeys + Drop>(
    socket: &mut Socket<S, K>,
) -> Result<(), Broken> {
    match socket.send(Message::Ping(Bytes::new())) {
        Ok(()) => Ok(()),
        Err(error) => Err(why(&error)),
    }
}

/// Closes a socket for a reason of the room.
pub(crate) fn close_for<S: Read + Write + Drop, K: MaskKeys + Drop>(
    socket: &mut Socket<S, K>,
    reason: EndReason,
) -> Result<(), Broken>
    ensures { OnOk result (Writes (heard_by S.contents) socket.old socket.new
        (close_step socket.old.conn (Some (Library CLOSE_CODE, reason_text reason)))) }
{
    let frame = CloseFrame {
        code: CloseCode::Library(CLOSE_CODE),
        reason: Utf8Bytes::from_static(reason_text(reason)),
    };
    match socket.close(Some(frame)) {
        Ok(()) => Ok(()),
        Err(error) => Err(why(&error)),
    }
}

/// Reads and drops messages up to the answer to a close, within a number of messages and waits.
pub(crate) fn await_answer<S: Read + Write + Drop, K: MaskKeys + Drop>(socket: &mut Socket<S, K>) {
    for _ in 0..CLOSE_WAITS {
        match socket.read() {
            Ok(_) => {}
            Err(Error::Io(cause)) if is_wait(&cause) => {}
            Err(_) => return,
        }
    }
}
