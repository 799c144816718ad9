//! A worker that accepts links from a listener.
ghost use Rattle.std.specs.Prelude.{◌≡◌, ◌<◌, ◌≤◌, None, IfOk, IfSome};
ghost use Rattle.room_link.specs.Stops.{OnFailed};

use crate::bounds::ACCEPTS;
use crate::counting::count_fault;
use crate::link::SocketLink;
use room_link::accept::Accept;
use room_link::passing::Stop;
use std::alloc::Global;
use std::io::{ErrorKind, Read, Write};
use std::net::{OpenListener, OpenStream};
use tungstenite::NoMask;

/// A worker that accepts a number of links from a listener, which other workers may share. It tells
/// nothing of which links these are.
#[derive(Drop)]
pub struct ListenerWorker<'a, L> {
    alloc: Global,
    listener: &'a L,
    // How many links it still accepts.
    links: u32,
    faults: u64,
}

impl<'a, L: OpenListener> ListenerWorker<'a, L> {
    ghost use Rattle.socket_link.specs.Workers.{worker_faults, links_left};

    /// A worker that accepts so many links.
    pub fn new(alloc: Global, listener: &'a L, links: u32) -> ListenerWorker<'a, L>
        ensures faults { worker_faults result ≡ 0 }
        ensures links { links_left result ≡ links }
    {
        ListenerWorker {
            alloc,
            listener,
            links,
            faults: 0,
        }
    }
}

// Accepts a connection, and again where one was aborted before it was accepted or a signal came; `ACCEPTS` times
// at most.
fn accept_connection<L: OpenListener>(listener: &L) -> Option<L::Stream> {
    for _ in 0..ACCEPTS {
        match listener.accept() {
            Ok((stream, _)) => return Some(stream),
            Err(cause) => match cause.kind() {
                ErrorKind::ConnectionAborted | ErrorKind::Interrupted => {}
                _ => return None,
            },
        }
    }
    None
}

impl<'a, L: OpenListener> Accept for ListenerWorker<'a, L>
where
    L::Stream: Read + Write + OpenStream + Drop,
{
    type Link = SocketLink<L::Stream>;

    ghost use Rattle.socket_link.specs.Links.{link_faults};
    ghost use Rattle.socket_link.specs.Workers.{worker_faults, links_left, CountsLink};

    ghost faults = { worker_faults };

    ghost told = { λ _. None };

    /// Waits for a connection as long as it takes. The handshake is left to the link. A failure uses up
    /// a link too.
    fn next(&mut self) -> Result<Option<SocketLink<L::Stream>>, Stop>
        ensures counted { IfOk result (CountsLink (links_left self.old) (links_left self.new)) }

        // As at any worker.
        ensures faults_stay { worker_faults self.old ≤ worker_faults self.new }
        ensures failed { OnFailed result (worker_faults self.old < worker_faults self.new) }
        ensures new { IfOk result (λ next. IfSome next (λ link. link_faults link ≡ 0)) }
    {
        if self.links == 0 {
            return Ok(None);
        }
        self.links -= 1;
        match accept_connection(self.listener) {
            Some(stream) => Ok(Some(SocketLink::new(self.alloc, stream, NoMask))),
            None => Err(count_fault(&mut self.faults)),
        }
    }

    /// Awaits the answer to a close, where the link was closed, and lets the link go.
    fn back(&mut self, link: SocketLink<L::Stream>) {
        let mut link = link;
        link.settle();
    }
}
