//! What accepts links that are given beforehand, and keeps those that come back, in memory.
ghost use Rattle.std.specs.Prelude.{◌≡◌, ◌+◌, ◌<◌, ◌≤◌, ◌↔◌, [], ◌∷◌, ◌++◌, All, Some, IsSome, IfOk, IfSome, OnSome, OnOk, OnErr, vec_len, vec_capacity, option_map};
ghost use Rattle.room_link.specs.Exchange.{Tells};
ghost use Rattle.room_link.specs.Stops.{IsFailed, OnFailed};
ghost use Rattle.room_link.specs.Worker.{Accepts, Adds, GivesBack, returned_of};

use crate::accept::Accept;
use crate::link::Link;
use crate::passing::Stop;
use crate::script::Script;
use std::alloc::{AllocError, Global};
use std::collections::VecDeque;

/// Hands out links in order, never fails, and keeps those that come back. It tells its links until
/// more come back than it handed out.
#[derive(Drop)]
pub struct SteadyAccept<L: Link> {
    // The links that are left, the next first.
    links: VecDeque<L>,
    // The links that came back, and a place for each that is out.
    returned: Vec<L>,
    // How many of the links that are out have their place.
    places: usize,
    // Whether each link that came back is kept.
    is_whole: bool,
    ghost fresh: { All (λ link. L.faults link ≡ 0) links.items },
    ghost room: { vec_len returned + places ≤ vec_capacity returned },
}

impl<L: Link + Drop> SteadyAccept<L> {
    ghost use Rattle.room_link.specs.MemoryAccept.{worker_of};

    /// It has no link.
    pub fn new(alloc: Global) -> Self
        ensures { worker_of result ≡ Some (record { left = []; returned = [] }) }
    {
        SteadyAccept {
            links: VecDeque::new(alloc),
            returned: Vec::new(alloc),
            places: 0,
            is_whole: true,
        }
    }

    /// Adds a link, which had no fault yet, behind those that are left.
    ///
    /// # Errors
    ///
    /// Memory was refused, and nothing changed.
    pub fn add(&mut self, link: L) -> Result<(), AllocError>
        requires { L.faults link ≡ 0 }
        ensures ok { OnOk result (Tells (Adds link) (worker_of self.old) (worker_of self.new)) }
        ensures err { OnErr result (worker_of self.new ≡ worker_of self.old) }
        ensures tells { IsSome (worker_of self.old) → IsSome (worker_of self.new) }
    {
        self.links.push_back(link)?;
        Ok(())
    }

    /// The links that came back, the oldest first, where each is kept.
    pub fn returned_links(&self) -> Option<&[L]>
        ensures { option_map (λ links. links.now) result ≡ returned_of (worker_of self.now) }
    {
        if self.is_whole {
            Some(self.returned.as_slice())
        } else {
            None
        }
    }
}

impl<L: Link + Drop> Accept for SteadyAccept<L> {
    type Link = L;

    ghost use Rattle.room_link.specs.MemoryAccept.{worker_of, places_of};

    ghost faults = { λ _. 0 };

    ghost told = { worker_of };

    /// It takes the place that the link needs when it comes back.
    fn next(&mut self) -> Result<Option<L>, Stop>
        ensures places { IfOk result (λ next.
            OnSome next (places_of self.new ≡ places_of self.old + 1)) }
        ensures tells { IsSome (worker_of self.old) → IsSome (worker_of self.new) }

        // As at any worker.
        ensures failed { OnFailed result ⊥ }
        ensures new { IfOk result (λ next. IfSome next (λ link. L.faults link ≡ 0)) }
        ensures taken { Tells (Accepts result) (worker_of self.old) (worker_of self.new) }
    {
        if self.links.is_empty() {
            return Ok(None);
        }
        self.returned.reserve(self.places + 1)?;
        self.places += 1;
        Ok(self.links.pop_front())
    }

    /// A link that has no place, since more came back than were handed out, is let go.
    fn back(&mut self, link: L)
        ensures tells { 0 < places_of self.old →
            IsSome (worker_of self.old) → IsSome (worker_of self.new) }

        // As at any worker.
        ensures kept { Tells (GivesBack link) (worker_of self.old) (worker_of self.new) }
    {
        if self.places == 0 {
            self.is_whole = false;
            return;
        }
        self.places -= 1;
        self.returned.push_reserved(link);
    }
}

/// Hands out links in memory, and listed calls of `next` fail. A call that fails loses no link.
#[derive(Drop)]
pub struct MemoryAccept<L: Link> {
    pub accept: SteadyAccept<L>,
    pub script: Script,
}

impl<L: Link + Drop> Accept for MemoryAccept<L> {
    type Link = L;

    ghost use Rattle.room_link.specs.MemoryAccept.{worker_of};
    ghost use Rattle.room_link.specs.Script.{IsToFail};

    ghost faults = { λ accept. accept.script.faults };

    ghost told = { λ accept. worker_of accept.accept };

    fn next(&mut self) -> Result<Option<L>, Stop>
        ensures listed { IsFailed result ↔ IsToFail self.old.script }

        // As at any worker.
        ensures faults_stay { self.old.script.faults ≤ self.new.script.faults }
        ensures failed { OnFailed result (self.old.script.faults < self.new.script.faults) }
        ensures new { IfOk result (λ next. IfSome next (λ link. L.faults link ≡ 0)) }
        ensures taken { Tells (Accepts result)
            (worker_of self.old.accept) (worker_of self.new.accept) }
    {
        if self.script.fails() {
            return Err(Stop::Failed);
        }
        self.accept.next()
    }

    fn back(&mut self, link: L) {
        self.accept.back(link);
    }
}
