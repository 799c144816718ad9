//! Links whose arrivals are given beforehand, and which keep what is sent, in memory.
ghost use Rattle.std.specs.Prelude.{◌≡◌, ◌<◌, ◌≤◌, ◌↔◌, [], Some, map};
ghost use Rattle.room_link.specs.Exchange.{Takes, Sends};
ghost use Rattle.room_link.specs.MemoryLink.{arrival_of, exchange_of};
ghost use Rattle.room_link.specs.Stops.{IsFailed, OnFailed};
ghost use Rattle.room_link.specs.declared.passing.Outgoing.TheVariants as outgoing;

use crate::Failed;
use crate::link::Link;
use crate::passing::{Arrival, Incoming, Outgoing, Stop};
use crate::script::Script;
use rooms_val::Text;
use std::alloc::Global;
use std::collections::VecDeque;
use sync_msgs::EndReason;

/// A link in memory that never fails. It gives its arrivals in order, and then the End, and keeps
/// what is sent.
#[derive(Drop)]
pub struct SteadyLink {
    /// What is still to come, the next first.
    pub arrivals: VecDeque<Arrival>,
    /// What went out, the oldest first.
    pub sent: Vec<Outgoing>,
    // By which what is sent is copied.
    alloc: Global,
}

impl SteadyLink {
    /// A link on which these are to come, and nothing was sent.
    pub fn new(alloc: Global, arrivals: VecDeque<Arrival>) -> SteadyLink
        ensures { exchange_of result ≡ record { left = map arrival_of arrivals.items; sent = [] } }
    {
        SteadyLink {
            arrivals,
            sent: Vec::new(alloc),
            alloc,
        }
    }
}

impl Link for SteadyLink {
    ghost faults = { λ _. 0 };

    ghost told = { λ link. Some (exchange_of link) };

    /// It takes no memory.
    fn next(&mut self) -> Result<Incoming, Stop> {
        Ok(match self.arrivals.pop_front() {
            Some(Arrival::Text(bytes)) => Incoming::Text(bytes),
            Some(Arrival::Idle) => Incoming::Idle,
            None => Incoming::End,
        })
    }

    fn send(&mut self, text: &str) -> Result<(), Stop> {
        let copy = Text::of(self.alloc, text)?;
        self.sent.push(Outgoing::Text(copy))?;
        Ok(())
    }

    fn close(&mut self, reason: EndReason) -> Result<(), Stop> {
        self.sent.push(Outgoing::Close(reason))?;
        Ok(())
    }
}

/// A link in memory of which listed calls fail. A call that fails takes nothing and sends nothing.
#[derive(Drop)]
pub struct MemoryLink {
    pub link: SteadyLink,
    pub script: Script,
}

impl Link for MemoryLink {
    ghost use Rattle.room_link.specs.Script.{IsToFail};

    ghost faults = { λ link. link.script.faults };

    ghost told = { λ link. Some (exchange_of link.link) };

    fn next(&mut self) -> Result<Incoming, Stop>
        ensures listed { IsFailed result ↔ IsToFail self.old.script }

        // As at any link.
        ensures faults_stay { self.old.script.faults ≤ self.new.script.faults }
        ensures failed { OnFailed result (self.old.script.faults < self.new.script.faults) }
        ensures taken { Takes result (exchange_of self.old.link) (exchange_of self.new.link) }
    {
        if self.script.fails() {
            return Err(Stop::Failed);
        }
        self.link.next()
    }

    fn send(&mut self, text: &str) -> Result<(), Stop>
        ensures listed { IsFailed result ↔ IsToFail self.old.script }

        // As at any link.
        ensures faults_stay { self.old.script.faults ≤ self.new.script.faults }
        ensures failed { OnFailed result (self.old.script.faults < self.new.script.faults) }
        ensures sent { Sends result (outgoing.Text text.now)
            (exchange_of self.old.link) (exchange_of self.new.link) }
    {
        if self.script.fails() {
            return Err(Stop::Failed);
        }
        self.link.send(text)
    }

    fn close(&mut self, reason: EndReason) -> Result<(), Stop>
        ensures listed { IsFailed result ↔ IsToFail self.old.script }

        // As at any link.
        ensures faults_stay { self.old.script.faults ≤ self.new.script.faults }
        ensures failed { OnFailed result (self.old.script.faults < self.new.script.faults) }
        ensures closed { Sends result (outgoing.Close reason)
            (exchange_of self.old.link) (exchange_of self.new.link) }
    {
        if self.script.fails() {
            return Err(Stop::Failed);
        }
        self.link.close(reason)
    }
}
