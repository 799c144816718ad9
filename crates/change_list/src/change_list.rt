//! The list of what changed, and when.
ghost use Rattle.std.specs.Prelude.{◌≡◌, ℕ, ◌+◌, ◌<◌, ◌≤◌, ◌≤ℤ◌, pos, [], ◌∷◌, ◌++◌, length, filter, true, false, IsTrue, ◌↔◌, IsOk, IfOk, OnOk, OnErr};
ghost use Rattle.change_list.specs.Changes.{listed, IsListed, without_id, AreUpTo, AreInOrder, is_after, AreSince, most_dead, kept_dead, next_start, next_dead};

use crate::entries::{Change, dead_without, insert_node, move_to, place_of, take_node};
use crate::gather::{gather, sort};
use crate::prune::{KEPT_DEAD, MOST_DEAD, clock_at, forget_up_to, free_up_to};
use links_core::{Links, ListId};
use rooms_val::{Mem, Steps, Text};
use std::alloc::Global;
use std::marker::Model;
use std::sync::ledger::Ledger;

/// Ids with the clock of their last change, live or dead.
#[derive(Drop)]
pub struct ChangeList {
    // The nodes of the live ids and of the dead ones, each in the order of their last change, and
    // those to be used again.
    links: Links,
    live: ListId,
    dead: ListId,
    free: ListId,
    // The change of each node.
    entries: Vec<Change>,
    // The nodes of the live and the dead ids, by rising id.
    order: Vec<usize>,
    // How many are dead.
    dead_count: usize,
    // The clock above which no dead id was dropped.
    start: i64,
}

impl Model for ChangeList {
    ghost use Rattle.std.specs.Prelude.{◌-◌, min, vec_len, vec_capacity};
    ghost use Rattle.links_core.specs.Lists.{list_at};
    ghost use Rattle.change_list.specs.Changes.{Changes};
    ghost use Rattle.change_list.specs.Kept.{changes_at, IsWhole};

    ghost Value = { Changes };

    ghost view = { λ s. record {
      live = changes_at s.entries.items (list_at s.links.lists 0);
      dead = changes_at s.entries.items (list_at s.links.lists 1);
      start = s.start;
      spare = min (min s.links.spare (vec_capacity s.entries - vec_len s.entries))
          (vec_capacity s.order - vec_len s.order);
    } };

    ghost invariant = { λ s. IsWhole s.live.number s.dead.number s.free.number s.links.count
        s.links.lists s.entries.items s.order.items s.dead_count };
}

impl ChangeList {
    /// A list without ids, whose dead begin at 0.
    pub fn new(alloc: Global) -> Mem<ChangeList>
        ensures { IfOk result (λ l. (l.live ≡ []) × (l.dead ≡ []) × (l.start ≡ pos 0)) }
    {
        ChangeList::starting(alloc, 0)
    }

    /// A list without ids, whose dead begin at a clock from 0 on.
    pub fn starting(alloc: Global, start: i64) -> Mem<ChangeList>
        requires { pos 0 ≤ℤ start }
        ensures { IfOk result (λ l. (l.live ≡ []) × (l.dead ≡ []) × (l.start ≡ start)) }
    {
        let mut links = Links::new(alloc);
        let live = links.list()?;
        let dead = links.list()?;
        let free = links.list()?;
        Ok(ChangeList {
            links,
            live,
            dead,
            free,
            entries: Vec::new(alloc),
            order: Vec::new(alloc),
            dead_count: 0,
            start,
        })
    }

    /// Takes the memory for so many calls of `touch`.
    ///
    /// # Errors
    ///
    /// Memory was refused; no id changed.
    pub fn reserve(&mut self, additional: usize) -> Mem<()>
        ensures ok { OnOk result (additional ≤ self.new.spare) }
        ensures live { self.new.live ≡ self.old.live }
        ensures dead { self.new.dead ≡ self.old.dead }
        ensures start { self.new.start ≡ self.old.start }
        ensures spare { self.old.spare ≤ self.new.spare }
    {
        self.links.reserve(additional)?;
        self.entries.reserve(additional)?;
        self.order.reserve(additional)?;
        Ok(())
    }

    /// Lets an id be live since a clock, which no listed clock is above.
    ///
    /// It takes no memory where the id is listed, and costs a logarithm and a fixed number of
    /// steps. A new id also costs a move of a word for each id above it.
    ///
    /// # Errors
    ///
    /// Memory was refused, which can't be where the id is listed or `reserve` left some to spare;
    /// no id changed.
    pub fn touch(&mut self, id: Text, clock: i64) -> Mem<()>
        requires { AreUpTo clock (listed self.old) }
        ensures live { OnOk result (self.new.live ≡ without_id id self.old.live
            ++ record { id = id; clock = clock; live = true } ∷ []) }
        ensures dead { OnOk result (self.new.dead ≡ without_id id self.old.dead) }
        ensures err { OnErr result
            ((self.new.live ≡ self.old.live) × (self.new.dead ≡ self.old.dead)) }
        ensures start { self.new.start ≡ self.old.start }

        // With some to spare the call succeeds, and takes at most one from it; of a listed id it
        // takes none.
        ensures sure { 0 < self.old.spare → IsOk result }
        ensures spare { self.old.spare ≤ self.new.spare + 1 }
        ensures again { IsListed (listed self.old) id → IsOk result }
        ensures kept { IsListed (listed self.old) id → self.old.spare ≤ self.new.spare }
    {
        let place = match place_of(&self.entries, &self.order, id.as_str()) {
            Ok(place) => {
                let node = self.order[place];
                self.dead_count = dead_without(&self.entries, node, self.dead_count);
                move_to(
                    &mut self.links,
                    &mut self.entries,
                    node,
                    self.live,
                    clock,
                    true,
                );
                return Ok(());
            }
            Err(place) => place,
        };
        self.order.reserve(1)?;
        let change = Change {
            id,
            clock,
            live: true,
        };
        let node = take_node(&mut self.links, self.free, &mut self.entries, change)?;
        insert_node(&mut self.order, place, node);
        self.links.push_back(self.live, node);
        Ok(())
    }

    /// Lets a live id be dead since a clock, which no listed clock is above. It takes no memory,
    /// and costs a logarithm and a fixed number of steps.
    pub fn bury(&mut self, id: &str, clock: i64)
        requires live { IsListed self.old.live id.now }
        requires latest { AreUpTo clock (listed self.old) }
        ensures live { self.new.live ≡ without_id id.now self.old.live }
        ensures dead { self.new.dead
            ≡ self.old.dead ++ record { id = id.now; clock = clock; live = false } ∷ [] }
        ensures start { self.new.start ≡ self.old.start }
        ensures spare { self.new.spare ≡ self.old.spare }
    {
        let place = match place_of(&self.entries, &self.order, id) {
            Ok(place) => place,
            Err(_) => unreachable!(),
        };
        let node = self.order[place];
        move_to(
            &mut self.links,
            &mut self.entries,
            node,
            self.dead,
            clock,
            false,
        );
        self.dead_count += 1;
    }

    /// Drops the oldest dead ids where more than 3,000 are dead, and tells whether it did.
    ///
    /// The dead then begin at the clock of the one that has 2,700 after it, and those up to that
    /// clock are dropped. It takes no memory, and costs what is dropped and a pass over the order
    /// of ids.
    pub fn prune(&mut self) -> bool
        ensures pruned { IsTrue result ↔ (most_dead < length self.old.dead) }
        ensures start { self.new.start
            ≡ next_start most_dead kept_dead self.old.start self.old.dead }
        ensures dead { self.new.dead ≡ next_dead most_dead kept_dead self.old.start self.old.dead }
        ensures live { self.new.live ≡ self.old.live }
        ensures spare { self.old.spare ≤ self.new.spare }
    {
        if self.dead_count <= MOST_DEAD {
            return false;
        }
        let place = self.dead_count - KEPT_DEAD - 1;
        self.start = clock_at(&self.links, self.dead, &self.entries, place);
        free_up_to(
            &mut self.links,
            self.dead,
            self.free,
            &self.entries,
            self.start,
            &mut self.dead_count,
        );
        forget_up_to(&mut self.order, &self.entries, self.start);
        true
    }

    /// The clock at which the dead begin: no dead id with a clock above it was dropped.
    pub fn starts_at(&self) -> i64
        ensures start { result ≡ self.now.start }

        // What holds of every list stands here, for callers that want it.
        ensures order { AreInOrder self.now }
    {
        self.start
    }

    /// The changes after a clock by rising id, at one step for each and one more. It costs what it
    /// gives, and their sorting.
    pub fn since<L: Ledger>(
        &self,
        alloc: Global,
        clock: i64,
        steps: &mut Steps<L>,
    ) -> Mem<Vec<Change>>
        ensures ok { IfOk result (λ found. AreSince (listed self.now) clock found.items) }
        ensures ticked { IfOk result (λ found. steps.new ≡ steps.old + (length found.items + 1)) }
        ensures untold { OnErr result (steps.new
            ≤ steps.old + (length (filter (is_after clock) (listed self.now)) + 1)) }
    {
        steps.tick();
        let mut found = Vec::new(alloc);
        gather(
            alloc,
            &self.links,
            self.live,
            &self.entries,
            clock,
            &mut found,
            steps,
        )?;
        gather(
            alloc,
            &self.links,
            self.dead,
            &self.entries,
            clock,
            &mut found,
            steps,
        )?;
        sort(&mut found)?;
        Ok(found)
    }
}
