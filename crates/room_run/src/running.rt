//! A running room, and its turn.
ghost use Rattle.std.specs.Prelude.{◌≡◌, ℕ, ◌∷◌, [], ◌++◌, IfOk, Some, None};
ghost use Rattle.room_model.specs.Rooms.{new_room};
ghost use Rattle.room_events.specs.declared.room_event.RoomEvent.{RoomEvent};
ghost use Rattle.room_events.specs.Legal.{Legal};
ghost use Rattle.room_run.specs.Held.{longer};
ghost use Rattle.room_run.specs.Openings.{schemas_of, last_of};
ghost use Rattle.room_run.specs.Rule.{newcomer};
ghost use Rattle.room_run.specs.Steps.{without_turn};
ghost use Rattle.room_run.specs.Turn.{HasTurn, Turned, IsOwn, Added};
ghost use Rattle.room_run.specs.declared.views.Story.{Story};
ghost use Rattle.sync_room.specs.Standing.{Stands};

use crate::held::Held;
use crate::turns::{Append, Give, Sit, Take, Turns};
use crate::views::View;
use atomic_table::{Refused, Seat, Table};
use rooms_val::{Mem, OutOfMemory};
use std::alloc::Global;
use std::snapshot::Snapshot;
use std::sync::Wait;
use std::thread;
use sync_room::Room;

// The seat of a caller.
pub(crate) type Place = Seat<Option<Held>, View>;

// The word that counts the events of the pen, and the one that is 1 while a seat has the turn.
pub(crate) const COUNT: usize = 0;

const TURN: usize = 1;

// How often a caller yields before it sleeps. The caller tries to take the turn before each of these yields, and once more
// after the last: it tries 17 times before it sleeps. After a sleep it tries once before it sleeps again.
const TRIES: u32 = 16;

/// A room that several threads call. It keeps its whole history until it is closed.
#[derive(Drop)]
pub struct RunningRoom {
    pub(crate) table: Table<Option<Held>, View, Snapshot<Room>, Turns, Global>,
    pub(crate) alloc: Global,
    ghost counts: { (table.shared.table_id.words ≡ 2) × (table.shared.table_id.slots ≡ 1) },
}

impl RunningRoom {
    /// A running room of a room in which nothing has happened.
    ///
    /// # Errors
    ///
    /// Memory was refused.
    pub fn open(alloc: Global, room: Room) -> Mem<RunningRoom>
        requires { (bound : ℕ) × Stands (new_room bound) room }
        ensures { IfOk result (λ running. running.table.shared.key.value ≡ room) }
    {
        let opening = Snapshot::of(&room);
        let mut slots = Vec::with_capacity(alloc, 1)?;
        slots.push_reserved(Some(Held::new(alloc, room)));
        match Table::new(alloc, &[0, 0], slots, &opening) {
            Ok((table, _seat)) => Ok(RunningRoom { table, alloc }),
            Err(Refused { slots: _ }) => Err(OutOfMemory),
        }
    }

    // A seat that has seen nothing.
    pub(crate) fn seat(&self) -> Place
        ensures own { result.table_id ≡ self.now.table.shared.table_id }
        ensures new { result.me ≡ (newcomer self.now.table.shared.key, []) }
    {
        self.table.shared.load_new_seat::<Sit>(COUNT).1
    }

    // Waits for the turn, and takes it. It tries a few times, and then sleeps until a turn ends.
    pub(crate) fn take<R: Wait>(&self, rt: &R, seat: &mut Place) -> Held
        requires own { seat.old.table_id ≡ self.now.table.shared.table_id }
        requires ours { seat.old.me.0.opening ≡ Some self.now.table.shared.key }
        requires idle { seat.old.me.1 ≡ [] }
        ensures own { seat.new.table_id ≡ seat.old.table_id }
        ensures turn { HasTurn seat.new.me result }
        ensures seen { Turned seat.old.me.0 seat.new.me.0 }
    {
        let mut tries = 0;
        for _ in rt.forever() {
            if self.table.shared.compare_exchange::<Take>(seat, TURN, 0, 1) == 0 {
                match self.table.shared.exchange(seat, 0, None) {
                    Some(held) => return held,
                    None => unreachable!(),
                }
            }
            if tries < TRIES {
                tries += 1;
                thread::yield_now();
            } else {
                self.table.shared.park(rt, TURN, 1);
            }
        }
        unreachable!()
    }

    // Counts an event that is new in the pen.
    pub(crate) fn append(&self, seat: &mut Place, held: Held) -> Held
        requires own { seat.old.table_id ≡ self.now.table.shared.table_id }
        requires turn { (before : Story) × (event : RoomEvent) × HasTurn seat.old.me before
            × (held ≡ longer before event) × IsOwn before.pen seat.old.me.0.mine event }
        ensures own { seat.new.table_id ≡ seat.old.table_id }
        ensures same { result ≡ held }
        ensures turn { HasTurn seat.new.me held }
        ensures added { (event : RoomEvent) → held.pen ≡ seat.old.me.0.seen ++ event ∷ []
            → Added seat.old.me.0 seat.new.me.0 (event ∷ []) }
    {
        let _events = held.len();
        drop(self.table.shared.exchange(seat, 0, Some(held)));
        self.table.shared.fetch_add::<Append>(seat, COUNT, 1);
        match self.table.shared.exchange(seat, 0, None) {
            Some(held) => held,
            None => unreachable!(),
        }
    }

    // Gives the turn back, and wakes a caller that sleeps.
    pub(crate) fn give(&self, seat: &mut Place, held: Held)
        requires own { seat.old.table_id ≡ self.now.table.shared.table_id }
        requires turn { HasTurn seat.old.me held }
        ensures own { seat.new.table_id ≡ seat.old.table_id }
        ensures given { seat.new.me ≡ (without_turn seat.old.me.0, []) }
        ensures legal { Legal (schemas_of held.opening) (last_of held.opening) held.pen }
    {
        held.is_legal();
        drop(self.table.shared.exchange(seat, 0, Some(held)));
        self.table.shared.swap::<Give>(seat, TURN, 0);
        self.table.shared.wake_one(TURN);
    }
}
