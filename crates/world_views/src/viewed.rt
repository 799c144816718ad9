//! A world whose clients watch views, which plays a recording event by event.
ghost use Rattle.std.specs.Prelude.{◌≡◌, [], ℕ, List, true, IfOk, OnOk, Ok, Err};
ghost use Rattle.rooms_val.specs.Data.{Pairs};
ghost use Rattle.room_model.specs.Schemas.{WorldSchemas};
ghost use Rattle.room_model.specs.Rooms.{Room};
ghost use Rattle.room_model.specs.Worlds.{world_over};
ghost use Rattle.room_model.specs.declared.event.Event.{Event};
ghost use Rattle.rec_format.specs.declared.recorded.RecordedEvent.TheVariants as recorded;
ghost use Rattle.side_effects.specs.declared.fault.EditFault.{EditFault};
ghost use Rattle.tl_tables.specs.Tables.{IsVersion};
ghost use Rattle.sync_world.specs.Playing.{IsPlayed};
ghost use Rattle.sync_world.specs.Standing.{IsAtVersion};
ghost use Rattle.sync_world.specs.Standing as world_of;
ghost use Rattle.sync_world.specs.Viewing.{changed_by, stores_of};
ghost use Rattle.sync_world.specs.CaughtUp.{CaughtUpShowTheRoom};
ghost use Rattle.sync_world.specs.Entries.{ReadonlyEditNothing, AuthorsNameTheirOwn};
ghost use Rattle.sync_world.specs.Entries.{OthersRemovePresences, ClosesSince};
ghost use Rattle.sync_world.specs.Restoring.{IsSinceMark, GoesBack, Shows};
ghost use Rattle.world_views.specs.Views.{Viewed, nothing_viewed, nobody_viewing, tells, on_event, on_watch, on_query, after_recorded};
ghost use Rattle.world_views.specs.Standing.{Keeps, MayTell, After, Stands, StepsTo, IsPlayable};

use crate::lines::{add_told, one_line, world_lines};
use live_views::WatchFault;
use rec_format::{PrintedLine, RecordedEvent};
use room_model::fault::StepFault;
use room_model::{Event, IdList};
use rooms_val::{Mem, OutOfMemory, Steps};
use shape_tree::{Query, View};
use side_effects::EditFault;
use std::alloc::Global;
use std::sync::ledger::Ledger;
use sync_world::{World, changed_by};

/// The lines that an event prints, or why it can't happen.
type Answer = Result<Vec<PrintedLine>, StepFault<EditFault>>;

/// A room, the clients over it, what is in flight between them, and what each client watches.
#[derive(Drop)]
pub struct ViewedWorld {
    // The world. Its clients' stores have what they watch. It is spent also where memory ran out beside it.
    world: World,
}

impl ViewedWorld {
    /// A world whose room has the schema of a version of the tables; nobody entered the room, and there
    /// is no client. It costs the schema.
    pub fn new(alloc: Global, version: u32) -> Mem<ViewedWorld>
        requires { IsVersion version }
        ensures { IfOk result (λ code. (schemas : WorldSchemas EditFault)
            × (IsAtVersion version schemas) × Stands schemas nothing_viewed code) }
    {
        Ok(ViewedWorld::over(World::new(alloc, version)?))
    }

    /// A world over a room that nobody entered, so that there is no client and nobody watches. It
    /// costs nothing.
    pub fn over(world: World) -> ViewedWorld
        ensures { (schemas : WorldSchemas EditFault) (room : Room)
            → world_of.Stands schemas (world_over room) world → stores_of world ≡ []
            → Stands schemas (nobody_viewing (world_over room)) result }
    {
        ViewedWorld { world }
    }

    /// Lets an event of a recording happen, and returns the lines that it prints: its own, with
    /// `trace` also those of the messages that it moves, and then what each client has to tell, by
    /// client and by watch. A client's version is one of the tables, and a paste moves by at most
    /// 2^53 - 1 in each direction. It costs what the event costs in the world, and a look at each watch
    /// of the one client whose document or watches it may change; a query costs a walk over the ids of
    /// what its client shows.
    ///
    /// A bail and an undo bring back what their client showed, under the conditions of
    /// `World::step`. What that says of the clients and of the room's history afterwards holds here.
    ///
    /// # Errors
    ///
    /// `NoSuchClient`, `NoSuchSession`, `NothingThere`, `Edit`, `Connect`, `NoMark`, `Limit`, `Clip`,
    /// `NoClip` and `Paste` exactly if the definitions refuse the event so; then the world is as before.
    /// After `OutOfMemory` every further step returns it.
    pub fn step<L: Ledger>(
        &mut self,
        alloc: Global,
        event: RecordedEvent,
        trace: bool,
        steps: &mut Steps<L>,
    ) -> Result<Vec<PrintedLine>, StepFault<EditFault>>
        requires { IsPlayable event }
        ensures step { (schemas : WorldSchemas EditFault) (viewed : Viewed)
            → Stands schemas viewed self.old
            → StepsTo schemas viewed (after_recorded schemas trace viewed event) result self.new }
        ensures goes_back { OnOk result ((schemas : WorldSchemas EditFault) (viewed : Viewed)
            (number : ℕ) (name : List ℕ) (before : Pairs) (e : Event)
            → event ≡ recorded.World e → Stands schemas viewed self.old
            → IsSinceMark schemas number name before viewed.world
            → GoesBack schemas viewed.world number name before e
            → Shows schemas number before self.new.world) }
        ensures caught_up { CaughtUpShowTheRoom self.new.world }
        ensures readonly { ReadonlyEditNothing self.new.world }
        ensures authored { AuthorsNameTheirOwn self.new.world }
        ensures unauthored { OthersRemovePresences self.new.world }
        ensures closing { OnOk result ((schemas : WorldSchemas EditFault) (viewed : Viewed)
            → Stands schemas viewed self.old
            → ClosesSince schemas viewed.world.room self.new.world) }
        ensures spent { self.old.world.spent ≡ true
            → (result ≡ Err StepFault.OutOfMemory) × (self.new.world.spent ≡ true) }
        ensures spends { result ≡ Err StepFault.OutOfMemory → self.new.world.spent ≡ true }
    {
        if self.world.is_spent() {
            return Err(StepFault::OutOfMemory);
        }
        match self.take(alloc, event, trace, steps) {
            Ok(answer) => answer,
            Err(_) => {
                self.world.spend();
                Err(StepFault::OutOfMemory)
            }
        }
    }

    /// The world by itself.
    pub fn world(&self) -> &World
        ensures { result.now ≡ self.now.world }
    {
        &self.world
    }

    // Lets an event of a recording happen. Where memory is refused beside the world nothing is said of it.
    fn take<L: Ledger>(
        &mut self,
        alloc: Global,
        event: RecordedEvent,
        trace: bool,
        steps: &mut Steps<L>,
    ) -> Mem<Answer>
        requires { IsPlayable event }
        ensures steps { IfOk result (λ answer. (schemas : WorldSchemas EditFault) (viewed : Viewed)
            → Stands schemas viewed self.old
            → StepsTo schemas viewed (after_recorded schemas trace viewed event) answer self.new) }
        ensures spends { result ≡ Ok (Err StepFault.OutOfMemory) → self.new.world.spent ≡ true }
    {
        match event {
            RecordedEvent::World(event) => self.happen(alloc, event, trace, steps),
            RecordedEvent::Watch { client, view } => self.watch(alloc, client, &view, steps),
            RecordedEvent::Query {
                client,
                type_name,
                where_,
            } => self.query(alloc, client, type_name.as_str(), &where_),
        }
    }

    // Lets an event happen in the world, and the client tell whose document it may change.
    fn happen<L: Ledger>(
        &mut self,
        alloc: Global,
        event: Event,
        trace: bool,
        steps: &mut Steps<L>,
    ) -> Mem<Answer>
        requires { IsPlayed event }
        ensures steps { IfOk result (λ answer. (schemas : WorldSchemas EditFault) (viewed : Viewed)
            → Stands schemas viewed self.old
            → StepsTo schemas viewed (on_event schemas trace event viewed) answer self.new) }
        ensures spends { result ≡ Ok (Err StepFault.OutOfMemory) → self.new.world.spent ≡ true }
    {
        let changed = changed_by(&event);
        match self.world.step(alloc, event, trace, steps) {
            Ok(lines) => {
                let lines = world_lines(alloc, lines)?;
                Ok(Ok(self.tell_changed(alloc, changed, lines, steps)?))
            }
            Err(fault) => Ok(Err(fault)),
        }
    }

    // A client watches a view, and tells it.
    fn watch<L: Ledger>(
        &mut self,
        alloc: Global,
        client: u64,
        view: &View,
        steps: &mut Steps<L>,
    ) -> Mem<Answer>
        ensures steps { IfOk result (λ answer. (schemas : WorldSchemas EditFault) (viewed : Viewed)
            → Stands schemas viewed self.old
            → StepsTo schemas viewed (on_watch schemas client view.now viewed) answer self.new) }
        ensures spends { result ≡ Ok (Err StepFault.OutOfMemory) → self.new.world.spent ≡ true }
    {
        if !self.world.has_client(client) {
            return Ok(Err(StepFault::NoSuchClient));
        }
        match self.world.watch(alloc, client, view) {
            Ok(_) => Ok(Ok(self.tell(alloc, client, Vec::new(alloc), steps)?)),
            Err(WatchFault::Full) => Ok(Err(StepFault::Limit)),
            Err(WatchFault::OutOfMemory) => Err(OutOfMemory),
        }
    }

    // A client asks for the ids of the records of a type, among those that it shows, that meet a
    // query.
    fn query(&self, alloc: Global, client: u64, type_name: &str, query: &Query) -> Mem<Answer>
        ensures steps { IfOk result (λ answer. (schemas : WorldSchemas EditFault) (viewed : Viewed)
            → Stands schemas viewed self.now
            → StepsTo schemas viewed (on_query schemas client type_name.now query.now viewed) answer
            self.now) }
        ensures spends { result ≡ Ok (Err StepFault.OutOfMemory) → self.now.world.spent ≡ true }
    {
        if !self.world.has_client(client) {
            return Ok(Err(StepFault::NoSuchClient));
        }
        let ids = IdList::of(self.world.query(alloc, client, type_name, query)?);
        Ok(Ok(one_line(alloc, PrintedLine::Ids { client, ids })?))
    }

    // Adds what the client has to tell whose document an event may have changed, if there is one.
    fn tell_changed<L: Ledger>(
        &mut self,
        alloc: Global,
        changed: Option<u64>,
        lines: Vec<PrintedLine>,
        steps: &mut Steps<L>,
    ) -> Mem<Vec<PrintedLine>>
        ensures { IfOk result (λ all. (schemas : WorldSchemas EditFault) (viewed : Viewed)
            → After schemas changed viewed self.old.world
            → (all.items ≡ (tells schemas lines.items viewed).lines)
            × Keeps schemas (tells schemas lines.items viewed).viewed self.new.world) }
    {
        match changed {
            Some(client) => self.tell(alloc, client, lines, steps),
            None => Ok(lines),
        }
    }

    // Adds what a client has to tell, if it was made. Nobody else has something to tell.
    fn tell<L: Ledger>(
        &mut self,
        alloc: Global,
        client: u64,
        lines: Vec<PrintedLine>,
        steps: &mut Steps<L>,
    ) -> Mem<Vec<PrintedLine>>
        ensures { IfOk result (λ all. (schemas : WorldSchemas EditFault) (viewed : Viewed)
            → MayTell schemas client viewed self.old.world
            → (all.items ≡ (tells schemas lines.items viewed).lines)
            × Keeps schemas (tells schemas lines.items viewed).viewed self.new.world) }
    {
        if !self.world.has_client(client) {
            return Ok(lines);
        }
        let told = self.world.told(alloc, client, steps)?;
        add_told(client, lines, told)
    }
}
