//! What is in the slot of a running room.
ghost use Rattle.std.specs.Prelude.{◌≡◌, ℕ, [], length, true, Some, None};
ghost use Rattle.std.specs.Prelude.{IfOk, OnOk, OnErr, MatchOption};
ghost use Rattle.room_model.specs.Rooms.{new_room, is_full};
ghost use Rattle.room_model.specs.declared.handled.Handled.{Handled};
ghost use Rattle.room_schemas.specs.Decided.{decided};
ghost use Rattle.room_events.specs.Events.{events_of};
ghost use Rattle.room_events.specs.Legal.{Legal};
ghost use Rattle.room_events.specs.declared.room_event.RoomEvent.TheVariants.{Enter, Message, Drain, Leave};
ghost use Rattle.room_run.specs.Held.{longer, IsInside, IsDrained};
ghost use Rattle.room_run.specs.Openings.{schemas_of, last_of, room_after};
ghost use Rattle.sync_msgs.specs.declared.out.Out.{Out};
ghost use Rattle.sync_room.specs.Standing.{Stands, tree_of};
ghost use Rattle.sync_room.specs.declared.enter.EnterFault.TheVariants as fault;

use crate::close::Closed;
use crate::one_call;
use room_events::{RoomEvent, RoomEvents};
use rooms_val::{Mem, OutOfMemory};
use std::alloc::Global;
use std::marker::Model;
use std::snapshot::Snapshot;
use sync_msgs::{ClientMessage, Out};
use sync_room::{EnterFault, Room};

// A room and its pen. Contracts see the pen and the room as it was opened. Each call of the room is stored in the pen at
// once.
#[derive(Drop)]
pub(crate) struct Held {
    // The room as it was opened.
    opening: Snapshot<Room>,
    // The room after the events of the pen.
    room: Room,
    // What happened, the oldest first.
    pen: Vec<RoomEvent>,
    // How many sessions are in the room; the pen has place for the leave of each.
    inside: usize,
}

impl Model for Held {
    ghost use Rattle.std.specs.Prelude.{vec_capacity};
    ghost use Rattle.room_run.specs.Held.{Carries};
    ghost use Rattle.room_run.specs.Openings.{schemas_of, last_of};
    ghost use Rattle.room_run.specs.contracts.views.Story.{the_row};
    ghost use Rattle.room_run.specs.declared.views.Story.{Story};

    ghost Value = { Story };

    ghost coded = { the_row.coded };

    ghost view = { λ h. record { opening = h.opening; pen = h.pen.items } };

    ghost invariant = { λ h. Carries (schemas_of h.opening) (last_of h.opening)
        h.room h.pen.items h.inside (vec_capacity h.pen) };
}

impl Held {
    // A new room, in which nothing has happened.
    pub(crate) fn new(alloc: Global, room: Room) -> Held
        requires { (bound : ℕ) × Stands (new_room bound) room }
        ensures pen { result.pen ≡ [] }
        ensures opening { result.opening.value ≡ room }
    {
        Held {
            opening: Snapshot::of(&room),
            room,
            pen: Vec::new(alloc),
            inside: 0,
        }
    }

    // That the pen is legal.
    pub(crate) fn is_legal(&self)
        ensures { Legal (schemas_of self.now.opening) (last_of self.now.opening) self.now.pen }
    {
        let _events = self.pen.len();
    }

    // How many events there are.
    pub(crate) fn len(&self) -> usize
        ensures { result ≡ length self.now.pen }
    {
        self.pen.len()
    }

    // A session enters, with the number that is next.
    pub(crate) fn enter(&mut self, alloc: Global, readonly: bool) -> Result<u64, EnterFault>
        ensures entered { IfOk result (λ number. self.new
            ≡ longer self.old (Enter number readonly)) }
        ensures new { IfOk result (λ number. events_of number self.old.pen ≡ []) }
        ensures full { result ≡ Err fault.Full → is_full (room_after self.old) ≡ true }
        ensures err { OnErr result (self.new ≡ self.old) }
    {
        if self.pen.reserve(self.inside + 2).is_err() {
            return Err(EnterFault::OutOfMemory);
        }
        let session = match self.room.enter(alloc, readonly) {
            Ok(session) => session,
            Err(fault) => return Err(fault),
        };
        let number = session.number();
        self.pen.push_reserved(RoomEvent::Enter(number, readonly));
        self.inside += 1;
        Ok(number)
    }

    // A session that is inside sends a message.
    pub(crate) fn handle(&mut self, alloc: Global, number: u64, message: &ClientMessage) -> Mem<()>
        requires inside { IsInside number self.old.pen }
        ensures ok { IfOk result (λ _. (reply : Handled)
            × (self.new ≡ longer self.old (Message number message.now reply))) }
        ensures err { OnErr result (self.new ≡ self.old) }
    {
        let said = message.copy(alloc)?;
        self.pen.reserve(self.inside + 1)?;
        let session = one_call::session_in(&self.room, number);
        let reply = one_call::handle(alloc, &mut self.room, session, message)?;
        self.pen
            .push_reserved(RoomEvent::Message(number, said, reply));
        Ok(())
    }

    // A session that is inside is given what is next for it. Returns a copy of that, or that memory for the copy was
    // refused. Returns `None` if there is nothing, and then nothing happens.
    pub(crate) fn drain(&mut self, alloc: Global, number: u64) -> Mem<Option<Mem<Out>>>
        requires inside { IsInside number self.old.pen }
        ensures ok { IfOk result (λ given. MatchOption given
            ((self.new ≡ self.old) × IsDrained number self.old)
            (λ copy. (out : Out) × (self.new ≡ longer self.old (Drain number (Some out)))
            × IfOk copy (λ c. c ≡ out))) }
        ensures err { OnErr result (self.new ≡ self.old) }
    {
        self.pen.reserve(self.inside + 1)?;
        let session = one_call::session_in(&self.room, number);
        match one_call::drain(alloc, &mut self.room, session)? {
            None => Ok(None),
            Some(out) => {
                let copy = out.copy(alloc);
                self.pen.push_reserved(RoomEvent::Drain(number, Some(out)));
                Ok(Some(copy))
            }
        }
    }

    // Notes that there is nothing for a session that is inside.
    pub(crate) fn note_nothing(&mut self, number: u64) -> Mem<()>
        requires inside { IsInside number self.old.pen }
        requires drained { IsDrained number self.old }
        ensures ok { OnOk result (self.new ≡ longer self.old (Drain number None)) }
        ensures drained { OnOk result (IsDrained number self.new) }
        ensures err { OnErr result (self.new ≡ self.old) }
    {
        self.pen.reserve(self.inside + 1)?;
        self.pen.push_reserved(RoomEvent::Drain(number, None));
        Ok(())
    }

    // A session that is inside leaves. It takes no memory.
    pub(crate) fn leave(&mut self, number: u64)
        requires inside { IsInside number self.old.pen }
        ensures { self.new ≡ longer self.old (Leave number) }
    {
        let session = one_call::session_in(&self.room, number);
        self.room.leave(session);
        self.pen.push_reserved(RoomEvent::Leave(number));
        self.inside -= 1;
    }

    // The room and the pen.
    pub(crate) fn into_closed(self) -> Closed
        ensures pen { result.pen ≡ self.pen }
        ensures legal { Legal (schemas_of self.opening) (last_of self.opening) self.pen }
        ensures room { Stands (room_after self) result.room }
        ensures schema { decided (tree_of result.room) ≡ schemas_of self.opening }
    {
        let Held { room, pen, .. } = self;
        Closed {
            room,
            pen: RoomEvents::of(pen),
        }
    }
}
