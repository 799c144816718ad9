//! A link over a WebSocket.
ghost use Rattle.std.specs.Prelude.{◌≡◌, ℕ, ◌<◌, ◌≤◌, None, OnOk};
ghost use Rattle.room_link.specs.Stops.{OnFailed};
ghost use Rattle.socket_link.specs.Sockets.{heard_by};
ghost use Rattle.socket_link.specs.Wires.{WireReads, WireSends, WireCloses};

use crate::counting::stop_for;
use crate::exchange::{Broken, Came};
use crate::side::{ClientSide, Side};
use crate::silence::{Asks, Silence};
use crate::wire::Wire;
use room_link::link::Link;
use room_link::passing::{Incoming, Stop};
use std::alloc::Global;
use std::io::{Read, Write};
use std::net::OpenStream;
use sync_msgs::EndReason;
use tungstenite::NoMask;

/// A link over a WebSocket, of the side `K`: a server's, unless it is said. It tells nothing of what is
/// left and what it sent; a text that it gives is one that its socket read, and what it sends goes into
/// its socket.
#[derive(Drop)]
pub struct SocketLink<S, K = NoMask> {
    alloc: Global,
    wire: Wire<S, K>,
    silence: Silence,
    // Whether the link was closed, and the answer is still to be awaited.
    is_closing: bool,
    faults: u64,
}

/// A client's link over a WebSocket.
pub type ClientLink<S, M> = SocketLink<S, ClientSide<M>>;

impl<S: Read + Write + OpenStream + Drop, K: Side> SocketLink<S, K> {
    ghost use Rattle.socket_link.specs.Links.{link_faults, IfGivesText};

    /// A link over a stream on which nothing was read or written. The handshake of its side is made at
    /// the first call.
    pub fn new(alloc: Global, stream: S, side: K) -> SocketLink<S, K>
        ensures { link_faults result ≡ 0 }
    {
        SocketLink {
            alloc,
            wire: Wire::Fresh(stream, side),
            silence: Silence::new(),
            is_closing: false,
            faults: 0,
        }
    }

    /// Where the link was closed, reads and drops what comes up to the peer's answer, at most
    /// `CLOSE_WAITS` messages and waits. Else the stream may be reset under the close.
    pub fn settle(&mut self) {
        if self.is_closing {
            self.is_closing = false;
            self.wire.settle();
        }
    }

    // What a wait without a message gives: an Idle, until the peer is silent for too long.
    fn after_wait(&mut self) -> Result<Incoming, Stop>
        ensures none { IfGivesText result (λ _. ⊥) }
        ensures stays { link_faults self.old ≤ link_faults self.new }
        ensures failed { OnFailed result (link_faults self.old < link_faults self.new) }
    {
        let asked = match self.silence.wait(self.wire.reads()) {
            Asks::Nothing => Ok(()),
            Asks::Ping => self.wire.ping(),
            Asks::Fault => Err(Broken::Fault),
        };
        match asked {
            Ok(()) => Ok(Incoming::Idle),
            Err(broken) => Err(stop_for(&mut self.faults, broken)),
        }
    }
}

impl<S: Read + Write + OpenStream + Drop, K: Side> Link for SocketLink<S, K> {
    ghost use Rattle.socket_link.specs.Links.{link_faults, wire_of, IfGivesText};

    ghost faults = { link_faults };

    ghost told = { λ _. None };

    /// One read of the socket, which waits for at most `READ_WAIT` where no byte comes. That, and a
    /// ping or pong, is an Idle. After `WAITS_TO_PING` waits without a byte the peer is sent a ping, and
    /// after `WAITS_TO_FAULT` it is a fault.
    fn next(&mut self) -> Result<Incoming, Stop>
        // A text is one that the socket read.
        ensures given { IfGivesText result
            (WireReads K.role (heard_by S.remaining) (wire_of self.old) (wire_of self.new)) }

        // As at any link.
        ensures faults_stay { link_faults self.old ≤ link_faults self.new }
        ensures failed { OnFailed result (link_faults self.old < link_faults self.new) }
    {
        match self.wire.next(self.alloc) {
            Ok(Came::Text(bytes)) => {
                self.silence.end();
                Ok(Incoming::Text(bytes))
            }
            Ok(Came::Sign) => {
                self.silence.end();
                Ok(Incoming::Idle)
            }
            Ok(Came::Wait) => self.after_wait(),
            Ok(Came::End) => Ok(Incoming::End),
            Err(broken) => Err(stop_for(&mut self.faults, broken)),
        }
    }

    /// A write that finds no room for `WRITE_WAIT` is a fault.
    fn send(&mut self, text: &str) -> Result<(), Stop>
        // The text went into the socket.
        ensures sent { OnOk result
            (WireSends K.role (heard_by S.contents) (wire_of self.old) (wire_of self.new)
            text.now) }

        // As at any link.
        ensures faults_stay { link_faults self.old ≤ link_faults self.new }
        ensures failed { OnFailed result (link_faults self.old < link_faults self.new) }
    {
        match self.wire.send(self.alloc, text) {
            Ok(()) => Ok(()),
            Err(broken) => Err(stop_for(&mut self.faults, broken)),
        }
    }

    /// The peer gets the code `CLOSE_CODE` and the reason's text. `settle` then awaits its answer.
    fn close(&mut self, reason: EndReason) -> Result<(), Stop>
        // The close went into the socket.
        ensures closed { OnOk result
            (WireCloses K.role (heard_by S.contents) (wire_of self.old) (wire_of self.new) reason) }

        // As at any link.
        ensures faults_stay { link_faults self.old ≤ link_faults self.new }
        ensures failed { OnFailed result (link_faults self.old < link_faults self.new) }
    {
        match self.wire.close(self.alloc, reason) {
            Ok(()) => {
                self.is_closing = true;
                Ok(())
            }
            Err(broken) => Err(stop_for(&mut self.faults, broken)),
        }
    }
}
