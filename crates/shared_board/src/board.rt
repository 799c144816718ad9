//! A board, and who joins it.
ghost use Rattle.std.specs.Prelude.{◌≡◌, ◌↔◌, ◌<◌, ◌≤◌, suc, true, false, IsTrue, IfOk, IfSome, IfNone, Err, vec_len};
ghost use Rattle.room_model.specs.Schemas.{WorldSchemas};
ghost use Rattle.room_model.specs.Worlds as model;
ghost use Rattle.room_model.specs.Worlds.{new_world, after_event};
ghost use Rattle.room_model.specs.declared.event.Event.TheVariants as event;
ghost use Rattle.room_model.specs.declared.limits.TheConstants.{MOST_CLIENTS, MOST_RECORDED};
ghost use Rattle.side_effects.specs.declared.fault.EditFault.{EditFault};
ghost use Rattle.tl_tables.specs.Tables.{IsVersion};
ghost use Rattle.sync_world.specs.Answers as world_of;
ghost use Rattle.sync_world.specs.Playing.{IsPlayed};
ghost use Rattle.sync_world.specs.Standing.{IsAtVersion};
ghost use Rattle.sync_world.specs.Standing as standing_of;
ghost use Rattle.shared_board.specs.Apart.{IsApart};
ghost use Rattle.shared_board.specs.Calls.{Answers, AreLines, IsNext, Happens};
ghost use Rattle.shared_board.specs.Standing.{Stands};
ghost use Rattle.shared_board.specs.declared.fault.BoardFault.TheVariants as board_fault;

use crate::fault::{BoardFault, fault_of};
use room_model::fault::StepFault;
use room_model::limits::{MOST_CLIENTS, MOST_RECORDED};
use room_model::{Event, OutLine};
use rooms_val::Steps;
use side_effects::EditFault;
use std::alloc::Global;
use std::marker::Brand;
use std::sync::ledger::{Blank, Ledger};
use sync_world::World;
use tl_tables::NEWEST_VERSION;

/// A client of a board, as the board's calls name it. One that has joined another board may be taken for one of this board.
#[derive(Clone, Copy, Debug, PartialEq, Eq)]
pub struct ClientId {
    // By the order in which clients joined, from 0.
    pub(crate) number: u64,
}

/// A room with its clients, and what is on the way between them. A client that isn't connected draws by itself; its edits
/// are pending, and go to the room once it is connected.
#[derive(Drop)]
pub struct Board {
    // What memory is taken from.
    pub(crate) alloc: Global,
    // The room, the clients, and what is on the way. Nothing is said of it once memory ran out.
    pub(crate) world: World,
    // How many connections were made, 4,096 at most.
    pub(crate) entered: u64,
}

impl Board {
    /// An empty board of a version of the tables, 1 to `NEWEST_VERSION`. Nobody has joined it. It costs the schema.
    ///
    /// # Errors
    /// `NoSuchVersion` exactly for a version that the tables don't have, or `OutOfMemory`.
    pub fn new(alloc: Global, version: u32) -> Result<Board, BoardFault>
        ensures unknown { (result ≡ Err board_fault.NoSuchVersion) ↔ (¬ (IsVersion version)) }
        ensures stands { IfOk result (λ board. (schemas : WorldSchemas EditFault)
            × (IsAtVersion version schemas) × Stands schemas new_world board) }
    {
        if !is_version(version) {
            return Err(BoardFault::NoSuchVersion);
        }
        match World::new(alloc, version) {
            Ok(world) => Ok(Board {
                alloc,
                world,
                entered: 0,
            }),
            Err(_) => Err(BoardFault::OutOfMemory),
        }
    }

    /// A client of a version joins, 1 to `NEWEST_VERSION`. It isn't connected, and its document is empty. It costs the
    /// schema.
    ///
    /// # Errors
    /// `NoSuchVersion` exactly for a version that the tables don't have; `Limit` exactly where 64 clients have joined; or
    /// `OutOfMemory`.
    pub fn join(&mut self, version: u32) -> Result<ClientId, BoardFault>
        ensures unknown { ¬ (IsVersion version)
            → (result ≡ Err board_fault.NoSuchVersion) × (self.new ≡ self.old) }
        ensures step { IsVersion version → (schemas : WorldSchemas EditFault) (state : model.World)
            → Stands schemas state self.old
            → Answers (IsNext state) schemas state (event.Client version) result self.new }
    {
        if !is_version(version) {
            return Err(BoardFault::NoSuchVersion);
        }
        match self.next_number() {
            Some(number) => match self.happen(Event::Client { version }) {
                Ok(_) => Ok(ClientId { number }),
                Err(fault) => Err(fault),
            },
            None => Err(BoardFault::Limit),
        }
    }

    /// A client asks to be connected, so that its edits go to the room. It costs a pass over the connections.
    ///
    /// # Errors
    /// `NoSuchClient`; `Connect` where the client has a connection, or the room ended one of it for another cause than that
    /// it lay too far behind; `Limit` where 64 connections are in the room or 4,096 were made; or `OutOfMemory`. A
    /// connection that was cut, or that the room ended, is still in the room.
    pub fn connect(&mut self, client: ClientId) -> Result<(), BoardFault>
        ensures { (schemas : WorldSchemas EditFault) (state : model.World)
            → Stands schemas state self.old
            → Happens schemas state (event.Connect client.number false) result self.new }
    {
        self.enter(client, false)
    }

    /// The same of a client whose edits the room doesn't look at.
    ///
    /// # Errors
    /// Those of `connect`.
    pub fn connect_readonly(&mut self, client: ClientId) -> Result<(), BoardFault>
        ensures { (schemas : WorldSchemas EditFault) (state : model.World)
            → Stands schemas state self.old
            → Happens schemas state (event.Connect client.number true) result self.new }
    {
        self.enter(client, true)
    }

    // A client asks to be connected.
    fn enter(&mut self, client: ClientId, readonly: bool) -> Result<(), BoardFault>
        ensures { (schemas : WorldSchemas EditFault) (state : model.World)
            → Stands schemas state self.old
            → Happens schemas state (event.Connect client.number readonly) result self.new }
    {
        let event = Event::Connect {
            client: client.number,
            readonly,
        };
        match step(self.alloc, &mut self.world, event) {
            Ok(_) => {
                self.entered = one_more(self.entered);
                Ok(())
            }
            Err(why) => Err(fault_of(why)),
        }
    }

    // Lets an event happen by which nobody connects, and returns the lines that it prints.
    pub(crate) fn happen(&mut self, event: Event) -> Result<Vec<OutLine>, BoardFault>
        requires played { IsPlayed event }
        requires apart { IsApart event }
        ensures { (schemas : WorldSchemas EditFault) (state : model.World)
            → Stands schemas state self.old
            → Answers AreLines schemas state event result self.new }
    {
        match step(self.alloc, &mut self.world, event) {
            Ok(lines) => Ok(lines),
            Err(why) => Err(fault_of(why)),
        }
    }

    // The number of the client that joins next, or none where there are 64 clients.
    fn next_number(&self) -> Option<u64>
        ensures found { IfSome result (λ number. number ≡ vec_len self.now.world.live.clients) }
        ensures none { IfNone result (MOST_CLIENTS ≤ vec_len self.now.world.live.clients) }
    {
        let mut number = 0;
        'clients: while number < MOST_CLIENTS {
            if !self.world.has_client(number) {
                return Some(number);
            }
            number += 1;
        }
        None
    }
}

// Whether the tables have a version.
fn is_version(version: u32) -> bool
    ensures { IsTrue result ↔ IsVersion version }
{
    1 <= version && version <= NEWEST_VERSION
}

// How many connections were made after a further one.
fn one_more(entered: u64) -> u64
    ensures { entered < MOST_RECORDED → result ≡ suc entered }
{
    if entered < MOST_RECORDED {
        entered + 1
    } else {
        entered
    }
}

// Lets an event happen in a world. The steps are counted for nobody.
pub(crate) fn step(
    alloc: Global,
    world: &mut World,
    event: Event,
) -> Result<Vec<OutLine>, StepFault<EditFault>>
    requires { IsPlayed event }
    ensures { (schemas : WorldSchemas EditFault) (state : model.World)
        → standing_of.Stands schemas state world.old
        → world_of.StepsTo schemas state (after_event schemas false state event) result world.new }
{
    step_in::<Brand>(Blank::new(1), alloc, world, event)
}

fn step_in<L: Ledger>(
    blank: Blank,
    alloc: Global,
    world: &mut World,
    event: Event,
) -> Result<Vec<OutLine>, StepFault<EditFault>>
    requires name { blank.name ≡ L.name }
    requires parts { blank.parts ≡ L.parts }
    requires some { 0 < blank.parts }
    requires played { IsPlayed event }
    ensures { (schemas : WorldSchemas EditFault) (state : model.World)
        → standing_of.Stands schemas state world.old
        → world_of.StepsTo schemas state (after_event schemas false state event) result world.new }
{
    let mut steps = Steps::<L>::new(blank);
    world.step(alloc, event, false, &mut steps)
}
