//! What is noted of a link while it is served.
ghost use Rattle.std.specs.Prelude.{◌≡◌, ◌↔◌, true, Some};
ghost use Rattle.link_texts.specs.Sending.{count_up};
ghost use Rattle.room_link.specs.Exchange.{Tells};
ghost use Rattle.room_serve.specs.Accounts.{nothing, stopped, IsOpen, IsBlamed};
ghost use Rattle.room_serve.specs.Turns.{Closes, Delivers, Replies};
ghost use Rattle.sync_msgs.specs.declared.end_reason.EndReason.TheVariants.{InvalidRecord};

use link_texts::{Sent, WireFault};
use room_link::link::Link;
use room_link::passing::Stop;
use rooms_val::Mem;
use std::alloc::Global;
use sync_msgs::{EndReason, Out};

/// What is noted of a link while it is served: what came, what went out, and what ends the service.
/// A `Report` tells it once the service has ended.
///
/// The service goes on as long as no text was refused, the link had no fault and wasn't closed, and
/// memory wasn't refused. No call on an account returns an error: a fault of the link is noted, and so
/// is that memory was refused.
#[derive(Clone, Copy, Debug, PartialEq, Eq)]
pub struct Account {
    // How many texts came, the one that names the room among them, from 0. It stays at 2^64 - 1.
    pub(crate) texts: u64,
    // How many texts went out, which stays at 2^64 - 1, and the reason of the last close; none if
    // the link wasn't closed.
    pub(crate) sent: Sent,
    // Why a text was refused; none if none was.
    pub(crate) wire: Option<WireFault>,
    // Whether a call on the link failed. Then the link's count of faults rose.
    pub(crate) fault: bool,
    // Whether memory was refused: to a call on the link, to the room, or here.
    pub(crate) memory: bool,
}

impl Account {
    // Nothing came, nothing went out, nothing failed.
    pub(crate) fn new() -> Account
        ensures { result ≡ nothing }
    {
        Account {
            texts: 0,
            sent: Sent::new(),
            wire: None,
            fault: false,
            memory: false,
        }
    }

    // Whether nothing ends the service.
    pub(crate) fn is_open(&self) -> bool
        ensures { result ≡ true ↔ IsOpen self.now }
    {
        self.wire.is_none() && !self.fault && !self.memory && self.sent.ended.is_none()
    }

    // Counts a text that came: its number, from 0.
    pub(crate) fn count(&mut self) -> u64
        ensures { self.new ≡ record self.old { texts = count_up self.old.texts } }
    {
        let number = self.texts;
        if number < u64::MAX {
            self.texts = number + 1;
        }
        number
    }

    // Notes why a call on the link returned no value.
    pub(crate) fn stop(&mut self, stop: Stop)
        ensures { self.new ≡ stopped stop self.old }
    {
        match stop {
            Stop::Failed => self.fault = true,
            Stop::OutOfMemory => self.memory = true,
        }
    }

    // Sends what a session was given.
    pub(crate) fn send<K: Link>(&mut self, alloc: Global, link: &mut K, outs: &[Out])
        ensures blamed { IsBlamed self.old.fault self.new.fault
            (K.faults link.old) (K.faults link.new) }
        ensures sent { Tells (Delivers outs.now self.old self.new)
            (K.told link.old) (K.told link.new) }
    {
        match self.sent.send_all(alloc, link, outs) {
            Ok(()) => {}
            Err(stop) => self.stop(stop),
        }
    }

    // Sends what a call of the room gave, if it gave something.
    pub(crate) fn reply<K: Link>(&mut self, alloc: Global, link: &mut K, outs: Mem<Vec<Out>>)
        ensures blamed { IsBlamed self.old.fault self.new.fault
            (K.faults link.old) (K.faults link.new) }
        ensures replied { Tells (Replies outs self.old self.new)
            (K.told link.old) (K.told link.new) }
    {
        match outs {
            Ok(outs) => self.send(alloc, link, &outs),
            Err(_) => self.memory = true,
        }
    }

    // Closes the link.
    pub(crate) fn close<K: Link>(&mut self, link: &mut K, reason: EndReason)
        ensures blamed { IsBlamed self.old.fault self.new.fault
            (K.faults link.old) (K.faults link.new) }
        ensures wire { self.new.wire ≡ self.old.wire }
        ensures closed { Tells (Closes reason self.old self.new)
            (K.told link.old) (K.told link.new) }
    {
        match self.sent.close(link, reason) {
            Ok(()) => {}
            Err(stop) => self.stop(stop),
        }
    }

    // Notes why a text is refused, and closes the link.
    pub(crate) fn refuse<K: Link>(&mut self, link: &mut K, wire: WireFault)
        ensures blamed { IsBlamed self.old.fault self.new.fault
            (K.faults link.old) (K.faults link.new) }
        ensures wire { self.new.wire ≡ Some wire }
        ensures closed { Tells (Closes InvalidRecord self.old self.new)
            (K.told link.old) (K.told link.new) }
    {
        self.wire = Some(wire);
        self.close(link, EndReason::InvalidRecord);
    }
}
