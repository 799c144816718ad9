//! The wire of a link: its stream, on which a handshake opens a socket.
ghost use Rattle.std.specs.Prelude.{IfOk, OnOk};
ghost use Rattle.socket_link.specs.Sockets.{IfText, heard_by};
ghost use Rattle.socket_link.specs.Wires.{Shaken, Opened, WireReads, WireSends, WireCloses};

use crate::bounds::{READ_WAIT, WRITE_WAIT};
use crate::exchange::{
    Broken, Came, Socket, await_answer, close_for, read_next, send_ping, send_text,
};
use crate::heard::Heard;
use crate::side::Side;
use std::alloc::Global;
use std::io::{Read, Write};
use std::net::OpenStream;
use std::time::Duration;
use std::{io, mem};
use sync_msgs::EndReason;

/// A stream, and the socket that a handshake opens on it.
#[derive(Drop)]
pub(crate) enum Wire<S, K> {
    /// A stream before the handshake, and the side of which it is to be made.
    Fresh(S, K),
    /// A socket after it.
    Open(Socket<S, K>),
    /// Neither: the handshake failed.
    Over,
}

// Sets the waits of a stream, and that small packets go at once.
fn set_waits<S: OpenStream>(stream: &S) -> io::Result<()> {
    stream.set_nodelay(true)?;
    stream.set_read_timeout(Some(Duration::from_millis(READ_WAIT)))?;
    stream.set_write_timeout(Some(Duration::from_millis(WRITE_WAIT)))
}

// Makes the handshake of a side on a stream, within a number of waits.
fn greet<S: Read + Write + OpenStream + Drop, K: Side>(
    alloc: Global,
    stream: S,
    side: K,
) -> Result<Socket<S, K>, Broken>
    ensures { IfOk result (Shaken K.role) }
{
    if set_waits(&stream).is_err() {
        return Err(Broken::Fault);
    }
    side.shake_hands(alloc, Heard { stream, reads: 0 })
}

impl<S: Read + Write + OpenStream + Drop, K: Side> Wire<S, K> {
    /// Makes the handshake, unless it was made. It is made once: a wire whose handshake failed is over.
    fn open(&mut self, alloc: Global) -> Result<(), Broken>
        ensures { OnOk result (Opened K.role self.old self.new) }
    {
        match mem::replace(self, Wire::Over) {
            Wire::Fresh(stream, side) => {
                *self = Wire::Open(greet(alloc, stream, side)?);
                Ok(())
            }
            Wire::Open(socket) => {
                *self = Wire::Open(socket);
                Ok(())
            }
            Wire::Over => Err(Broken::Fault),
        }
    }

    /// Reads one message.
    #[tactic(auto, using(crate::proofs::WireLemmas::opened_reads))]
    pub(crate) fn next(&mut self, alloc: Global) -> Result<Came, Broken>
        ensures { IfText result (WireReads K.role (heard_by S.remaining) self.old self.new) }
    {
        self.open(alloc)?;
        match self {
            Wire::Open(socket) => read_next(socket, alloc),
            _ => Err(Broken::Fault),
        }
    }

    /// Sends a text.
    #[tactic(auto, using(crate::proofs::WireLemmas::opened_sends))]
    pub(crate) fn send(&mut self, alloc: Global, words: &str) -> Result<(), Broken>
        ensures { OnOk result (WireSends K.role (heard_by S.contents) self.old self.new words.now) }
    {
        self.open(alloc)?;
        match self {
            Wire::Open(socket) => send_text(socket, alloc, words),
            _ => Err(Broken::Fault),
        }
    }

    /// Closes the wire for a reason of the room.
    #[tactic(auto, using(crate::proofs::WireLemmas::opened_closes))]
    pub(crate) fn close(&mut self, alloc: Global, reason: EndReason) -> Result<(), Broken>
        ensures { OnOk result (WireCloses K.role (heard_by S.contents) self.old self.new reason) }
    {
        self.open(alloc)?;
        match self {
            Wire::Open(socket) => close_for(socket, reason),
            _ => Err(Broken::Fault),
        }
    }

    /// Sends a ping, where the wire is open.
    pub(crate) fn ping(&mut self) -> Result<(), Broken> {
        match self {
            Wire::Open(socket) => send_ping(socket),
            _ => Err(Broken::Fault),
        }
    }

    /// Reads and drops up to the answer to a close, within bounds.
    pub(crate) fn settle(&mut self) {
        if let Wire::Open(socket) = self {
            await_answer(socket);
        }
    }

    /// How many reads of the stream gave bytes, modulo 2^64, where the wire is open.
    pub(crate) fn reads(&self) -> u64 {
        match self {
            Wire::Open(socket) => socket.get_ref().reads,
            _ => 0,
        }
    }
}
