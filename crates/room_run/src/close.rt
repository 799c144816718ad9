//! The end of a running room.
ghost use Rattle.std.specs.Prelude.{◌≡◌, All};
ghost use Rattle.room_schemas.specs.Decided.{decided};
ghost use Rattle.room_events.specs.Legal.{Legal};
ghost use Rattle.room_run.specs.Openings.{schemas_of, last_of, room_after};
ghost use Rattle.room_run.specs.Passes.{room_of_gone, AllEndBy};
ghost use Rattle.room_run.specs.Rooms.{id_of, opening_of};
ghost use Rattle.room_run.specs.Rule.{story};
ghost use Rattle.sync_room.specs.Standing.{Stands, tree_of};

use crate::passes::Gone;
use crate::running::{COUNT, RunningRoom};
use crate::turns::{Learn, TakeIn};
use room_events::RoomEvents;
use std::sync::Wait;
use sync_room::Room;

/// What a running room was.
#[derive(Drop)]
pub struct Closed {
    /// The room.
    pub room: Room,
    /// All that happened in it, the oldest first.
    pub pen: RoomEvents,
}

impl RunningRoom {
    /// Closes the room, with those that have left. Of a pass that isn't handed in nothing is said; its session may still be
    /// in the room. It may wait for the turn. It takes no memory, and costs a step for each that is handed in.
    pub fn close<R: Wait>(self, rt: &R, gone: Vec<Gone>) -> Closed
        requires own { All (λ g. room_of_gone g ≡ id_of self) gone.items }
        ensures legal { Legal (schemas_of (opening_of self))
            (last_of (opening_of self)) result.pen }
        ensures room { Stands (room_after (story (opening_of self) result.pen)) result.room }
        ensures schema { decided (tree_of result.room) ≡ schemas_of (opening_of self) }
        ensures ends { AllEndBy result.pen gone.items }
    {
        let mut seat = self.seat();
        let held = self.take(rt, &mut seat);
        let shared = &self.table.shared;
        'gone: for one in gone {
            let Gone { session: _, badge } = one;
            shared.join_seat::<TakeIn>(&mut seat, badge.into_seat());
        }
        shared.load::<Learn>(&mut seat, COUNT);
        held.into_closed()
    }
}
