//! A worker that connects to a server, once.
ghost use Rattle.std.specs.Prelude.{◌≡◌, ◌<◌, ◌≤◌, None, IfOk, IfErr, IfSome};
ghost use Rattle.room_link.specs.Stops.{OnFailed};
ghost use Rattle.room_link.specs.declared.passing.Stop.TheVariants.{OutOfMemory};

use crate::counting::count_fault;
use crate::link::{ClientLink, SocketLink};
use crate::side::ClientSide;
use room_link::accept::Accept;
use room_link::passing::Stop;
use std::alloc::Global;
use std::io;
use std::io::{Read, Write};
use std::net::{Net, OpenStream, TcpStream};
use tungstenite::MaskKeys;

/// What connects to a port of this machine.
pub trait Connect {
    /// Its connections.
    type Stream: Drop;

    /// The port.
    fn port(&self) -> u16;

    /// Connects, and waits for the other end as long as the system does.
    fn connect(&self) -> io::Result<Self::Stream>;
}

/// Connects to a port of 127.0.0.1 over the system's sockets.
#[derive(Drop)]
pub struct LocalPort<'a, R> {
    net: &'a R,
    port: u16,
}

impl<'a, R: Net> LocalPort<'a, R> {
    /// Connections to this port.
    pub fn new(net: &'a R, port: u16) -> LocalPort<'a, R> {
        LocalPort { net, port }
    }
}

impl<'a, R: Net> Connect for LocalPort<'a, R> {
    type Stream = R::Stream;

    fn port(&self) -> u16 {
        self.port
    }

    fn connect(&self) -> io::Result<R::Stream> {
        TcpStream::connect(self.net, ("127.0.0.1", self.port))
    }
}

/// A worker of a client: it makes one link. It tells nothing of which link this is.
#[derive(Drop)]
pub struct ConnectingWorker<C, M> {
    alloc: Global,
    connector: C,
    // The keys of the link that it still makes.
    keys: Option<M>,
    faults: u64,
}

impl<C: Connect, M: MaskKeys> ConnectingWorker<C, M> {
    ghost use Rattle.socket_link.specs.Connecting.{connecting_faults, connects_left};

    /// A worker that connects once. The link masks its frames by these keys.
    pub fn new(alloc: Global, connector: C, keys: M) -> ConnectingWorker<C, M>
        ensures faults { connecting_faults result ≡ 0 }
        ensures links { connects_left result ≡ 1 }
    {
        ConnectingWorker {
            alloc,
            connector,
            keys: Some(keys),
            faults: 0,
        }
    }
}

impl<C: Connect + Drop, M: MaskKeys + Drop> Accept for ConnectingWorker<C, M>
where
    C::Stream: Read + Write + OpenStream + Drop,
{
    type Link = ClientLink<C::Stream, M>;

    ghost use Rattle.socket_link.specs.Connecting.{connecting_faults, connects_left, UsesLink};
    ghost use Rattle.socket_link.specs.Links.{link_faults};

    ghost faults = { connecting_faults };

    ghost told = { λ _. None };

    /// Connects. The handshake is left to the link. A connection that fails uses up the link too, and is
    /// counted. It takes no memory.
    fn next(&mut self) -> Result<Option<ClientLink<C::Stream, M>>, Stop>
        // The one link is used up, by a fault too, and none is given only where none is left.
        ensures counted { UsesLink result (connects_left self.old) (connects_left self.new) }

        // An error is a fault, unless the count is at its end.
        ensures memory { IfErr result
            (λ stop. stop ≡ OutOfMemory → connecting_faults self.old ≡ u64.MAX) }

        // As at any worker.
        ensures faults_stay { connecting_faults self.old ≤ connecting_faults self.new }
        ensures failed { OnFailed result (connecting_faults self.old < connecting_faults self.new) }
        ensures new { IfOk result (λ next. IfSome next (λ link. link_faults link ≡ 0)) }
    {
        let Some(keys) = self.keys.take() else {
            return Ok(None);
        };
        match self.connector.connect() {
            Ok(stream) => {
                let side = ClientSide::new(keys, self.connector.port());
                Ok(Some(SocketLink::new(self.alloc, stream, side)))
            }
            Err(_) => Err(count_fault(&mut self.faults)),
        }
    }

    /// Awaits the answer to a close, where the link was closed, and lets the link go.
    fn back(&mut self, link: ClientLink<C::Stream, M>) {
        let mut link = link;
        link.settle();
    }
}
