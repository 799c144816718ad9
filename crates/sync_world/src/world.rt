//! A world, which plays a recording event by event.
ghost use Rattle.std.specs.Prelude.{◌≡◌, ◌≢◌, ◌<◌, ℕ, List, Bool, [], true, Some, IfOk, OnOk, Err, slice_get, vec_len};
ghost use Rattle.rooms_val.specs.Data.{Pairs};
ghost use Rattle.room_model.specs.Schemas.{WorldSchemas};
ghost use Rattle.room_model.specs.Replicas.{Client};
ghost use Rattle.room_model.specs.Worlds as model;
ghost use Rattle.room_model.specs.Worlds.{new_world, world_over, after_event};
ghost use Rattle.room_model.specs.Rooms as state_of;
ghost use Rattle.room_model.specs.Reachable.{IsBeginning};
ghost use Rattle.room_schemas.specs.Decided.{decided};
ghost use Rattle.peer_schemas.specs.Clients.{schemas_of};
ghost use Rattle.sync_room.specs.Standing as room_of;
ghost use Rattle.sync_room.specs.Standing.{tree_of};
ghost use Rattle.side_effects.specs.declared.fault.EditFault.{EditFault};
ghost use Rattle.tl_tables.specs.Tables.{IsVersion, IsSchemaAt};
ghost use Rattle.sync_peer.specs.Standing as peer_of;
ghost use Rattle.sync_world.specs.Playing.{IsPlayed};
ghost use Rattle.sync_world.specs.States.{client_state};
ghost use Rattle.sync_world.specs.Standing.{Stands, IsAtVersion};
ghost use Rattle.sync_world.specs.Answers.{StepsTo, is_spent};
ghost use Rattle.sync_world.specs.Restoring.{IsSinceMark, GoesBack, Shows};
ghost use Rattle.sync_world.specs.Viewing.{stores_of, KeepsStores};
ghost use Rattle.sync_peer.specs.Viewing.{store_of};
ghost use Rattle.sync_world.specs.CaughtUp.{CaughtUpShowTheRoom};
ghost use Rattle.sync_world.specs.Entries.{ReadonlyEditNothing, AuthorsNameTheirOwn};
ghost use Rattle.sync_world.specs.Entries.{OthersRemovePresences, ClosesSince};

use crate::changes::changed_by;
use crate::live::{Answer, Live};
use room_model::fault::StepFault;
use room_model::limits::LAST_CLOCK;
use room_model::{Event, OutLine};
use rooms_val::{Mem, OutOfMemory, Steps};
use side_effects::EditFault;
use std::alloc::Global;
use std::sync::ledger::Ledger;
use sync_peer::Peer;
use sync_room::Room;
use tl_tables::{TableFault, schema_at};
use world_queues::Queues;

/// A room, the clients over it, and what is in flight between them.
#[derive(Drop)]
pub struct World {
    // The parts. Nothing is said of them once memory ran out.
    pub(crate) live: Live,
    // Whether memory ran out.
    spent: bool,
}

impl World {
    /// A world whose room has the schema of a version of the tables; nobody entered the room, and there
    /// is no client. It costs the schema.
    pub fn new(alloc: Global, version: u32) -> Mem<World>
        requires { IsVersion version }
        ensures stands { IfOk result (λ world. (schemas : WorldSchemas EditFault)
            × (IsAtVersion version schemas) × Stands schemas new_world world) }
        ensures stores { IfOk result (λ world. stores_of world ≡ []) }
    {
        match schema_at(alloc, version) {
            Ok(schema) => Ok(World::over(alloc, Room::new(alloc, schema, LAST_CLOCK as i64)?)),
            Err(TableFault::NoSuchVersion) => unreachable!(),
            Err(TableFault::OutOfMemory) => Err(OutOfMemory),
        }
    }

    /// A world over a room with which calls begin, as it was made or loaded, whose schema is that of a
    /// version of the tables; there is no client. It costs nothing.
    pub fn over(alloc: Global, room: Room) -> World
        ensures stands { (version : ℕ) (state : state_of.Room) → IsVersion version
            → IsSchemaAt version (tree_of room) → room_of.Stands state room
            → IsBeginning (decided (tree_of room)) state
            → IsAtVersion version (schemas_of (tree_of room))
            × Stands (schemas_of (tree_of room)) (world_over state) result }
        ensures stores { stores_of result ≡ [] }
    {
        World {
            live: Live {
                room,
                queues: Queues::new(alloc),
                clients: Vec::new(alloc),
            },
            spent: false,
        }
    }

    /// Lets an event happen, and returns the lines that it prints; with `trace` also those of the
    /// messages that it moves. A client's version is one of the tables, and a paste moves by at most
    /// 2^53 - 1 in each direction. It costs what the room and the client take for it, however many
    /// events came before; `Show`, `End`, `Copy` and `Paste` cost the document.
    ///
    /// A bail to a mark makes the client show again what it showed when it made the mark, if since
    /// then it had edits, but no delivery but its end, undo, redo or bail, and made no mark of the
    /// name; so does an undo, if there is no later mark at all and some edit left an inverse. The
    /// records that they patch back are to be admitted at the client's version.
    ///
    /// Afterwards each client that owes no edit and has reached the room's clock shows the room's
    /// document, seen at its version. In the room's history an entry of a read-only session names no
    /// id of the document; an entry with an author names ids of the document and the author's own
    /// presence alone; and one without author is one of those with which the room began, or removes
    /// the presence of a session that was ended or has left, by the event that appended the entry.
    ///
    /// # Errors
    ///
    /// `NoSuchClient`, `NoSuchSession`, `NothingThere`, `Edit`, `Connect`, `NoMark`, `Limit`, `Clip`, `NoClip` and
    /// `Paste` exactly if the definitions refuse the event so; then the world is as before. After `OutOfMemory` every
    /// further step returns it.
    pub fn step<L: Ledger>(
        &mut self,
        alloc: Global,
        event: Event,
        trace: bool,
        steps: &mut Steps<L>,
    ) -> Result<Vec<OutLine>, StepFault<EditFault>>
        requires { IsPlayed event }
        ensures step { (schemas : WorldSchemas EditFault) (world : model.World)
            → Stands schemas world self.old
            → StepsTo schemas world (after_event schemas trace world event) result self.new }
        ensures goes_back { OnOk result ((schemas : WorldSchemas EditFault) (world : model.World)
            (number : ℕ) (name : List ℕ) (before : Pairs)
            → Stands schemas world self.old → IsSinceMark schemas number name before world
            → GoesBack schemas world number name before event
            → Shows schemas number before self.new) }
        ensures stores { result ≢ Err StepFault.OutOfMemory
            → KeepsStores event (stores_of self.old) (stores_of self.new) }
        ensures caught_up { CaughtUpShowTheRoom self.new }
        ensures readonly { ReadonlyEditNothing self.new }
        ensures authored { AuthorsNameTheirOwn self.new }
        ensures unauthored { OthersRemovePresences self.new }
        ensures closing { OnOk result ((schemas : WorldSchemas EditFault) (world : model.World)
            → Stands schemas world self.old → ClosesSince schemas world.room self.new) }
        ensures spent { self.old.spent ≡ true
            → (result ≡ Err StepFault.OutOfMemory) × (self.new.spent ≡ true) }
        ensures spends { result ≡ Err StepFault.OutOfMemory → self.new.spent ≡ true }
    {
        if self.spent {
            return Err(StepFault::OutOfMemory);
        }
        let changed = changed_by(&event);
        match self.live.happen(alloc, event, trace, steps) {
            Ok(answer) => {
                self.live.tell_sound(changed);
                self.spent = is_spent(&answer);
                answer
            }
            Err(_) => {
                self.spent = true;
                Err(StepFault::OutOfMemory)
            }
        }
    }

    /// Whether memory ran out, so that every further step returns `OutOfMemory`.
    pub fn is_spent(&self) -> bool
        ensures { result ≡ self.now.spent }
    {
        self.spent
    }

    /// Has every further step return `OutOfMemory`. It is for who does more at a step, and was refused
    /// memory for that.
    pub fn spend(&mut self)
        ensures { self.new.spent ≡ true }
    {
        self.spent = true;
    }

    /// The client of a number, which was made. It stands for the client of the definitions with the
    /// base that this has of the room, and its store has what the client watches, with what was last
    /// told of that.
    pub fn peer(&self, client: u64) -> &Peer
        requires { client < vec_len self.now.live.clients }
        ensures stands { (schemas : WorldSchemas EditFault) (world : model.World) (one : Client)
            → Stands schemas world self.now → slice_get world.clients client ≡ Some one
            → peer_of.Stands schemas (client_state schemas world.room.history one) result.now }
        ensures store { slice_get (stores_of self.now) client ≡ Some (store_of result.now) }
    {
        &self.live.clients[client as usize].peer
    }

    /// The room. It stands for the room of the definitions, and its schema decides.
    pub fn room(&self) -> &Room
        ensures stands { (schemas : WorldSchemas EditFault) (world : model.World)
            → Stands schemas world self.now → room_of.Stands world.room result.now }
        ensures decided { (schemas : WorldSchemas EditFault) (world : model.World)
            → Stands schemas world self.now → schemas ≡ schemas_of (tree_of result.now) }
    {
        &self.live.room
    }
}

// Whether an answer says that memory ran out.
fn is_spent(answer: &Answer) -> bool
    ensures { result ≡ is_spent answer.now }
{
    matches!(answer, Err(StepFault::OutOfMemory))
}
