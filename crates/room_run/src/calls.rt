//! The calls of a running room.
ghost use Rattle.std.specs.Prelude.{◌≡◌, ℕ, List, [], ◌∷◌, Some, None, IfOk, IfErr, OnOk, OnErr};
ghost use Rattle.room_model.specs.declared.handled.Handled.{Handled};
ghost use Rattle.room_events.specs.declared.room_event.RoomEvent.{RoomEvent};
ghost use Rattle.room_events.specs.declared.room_event.RoomEvent.TheVariants.{Message, Leave};
ghost use Rattle.room_run.specs.Calls.{Acts, IsEntered, HasSeenFull, IsBegun};
ghost use Rattle.room_run.specs.Calls.{given, given_all, given_idle};
ghost use Rattle.room_run.specs.Held.{IsDrained};
ghost use Rattle.room_run.specs.Passes.{room_of, view_of, room_of_gone, view_of_gone, IfFull};
ghost use Rattle.room_run.specs.Rooms.{id_of, opening_of};
ghost use Rattle.room_run.specs.Rule.{story};
ghost use Rattle.sync_msgs.specs.declared.out.Out.{Out};

use crate::passes::{Gone, Pass, PassFault};
use crate::running::{Place, RunningRoom};
use atomic_table::Badge;
use rooms_val::Mem;
use std::mem;
use std::sync::Wait;
use sync_msgs::{ClientMessage, Out};
use sync_room::EnterFault;

impl RunningRoom {
    /// Lets a session enter, which may be read-only: then the room looks at no diff of its pushes. It may wait for the turn,
    /// and costs a copy of one small event. It takes the memory that `leave` needs.
    ///
    /// # Errors
    ///
    /// `Full` exactly if 64 sessions were in the room when this caller had its turn, or 2^53 - 1 had entered; what the
    /// `Gone` has seen shows it. `OutOfMemory` if memory was refused; then nothing has happened.
    pub fn pass<R: Wait>(&self, rt: &R, readonly: bool) -> Result<Pass, PassFault>
        ensures own { IfOk result (λ pass. room_of pass ≡ id_of self.now) }
        ensures entered { IfOk result (λ pass.
            IsEntered (opening_of self.now) pass.session readonly (view_of pass)) }
        ensures own_full { IfErr result
            (IfFull (λ gone. room_of_gone gone ≡ id_of self.now)) }
        ensures full { IfErr result (IfFull (λ gone. (gone.session ≡ None)
            × HasSeenFull (opening_of self.now) (view_of_gone gone))) }
    {
        let mut seat = self.seat();
        let held = self.take(rt, &mut seat);
        let (held, entered) = self.enter(&mut seat, held, readonly);
        self.give(&mut seat, held);
        let badge = seat.into_badge();
        match entered {
            Ok(session) => Ok(Pass { session, badge }),
            Err(EnterFault::Full) => {
                let session = None;
                Err(PassFault::Full(Gone { session, badge }))
            }
            Err(EnterFault::OutOfMemory) => Err(PassFault::OutOfMemory),
        }
    }

    /// In one turn, gives the room a message of the pass's session, and the session all that there is for it: what was
    /// given, in order. It may wait for the turn. It costs what `Room::handle` and `Room::drain` cost, and a copy of the
    /// message and of what is given.
    ///
    /// # Errors
    ///
    /// Memory was refused. The events made so far stand, what they gave is lost, and a later call gives the rest.
    pub fn handle<R: Wait>(&self, rt: &R, pass: &mut Pass, message: &ClientMessage) -> Mem<Vec<Out>>
        requires own { room_of pass.old ≡ id_of self.now }
        ensures own { room_of pass.new ≡ room_of pass.old }
        ensures session { pass.new.session ≡ pass.old.session }
        ensures ok { IfOk result (λ outs. (reply : Handled)
            × Acts (opening_of self.now) pass.old.session (view_of pass.old) (view_of pass.new)
            (Message pass.old.session message.now reply ∷ given_all pass.old.session outs.items)) }
        ensures err { OnErr result ((events : List RoomEvent)
            × IsBegun pass.old.session message.now events
            × Acts (opening_of self.now) pass.old.session (view_of pass.old)
            (view_of pass.new) events) }
    {
        let mut seat: Place = mem::replace(&mut pass.badge, Badge::blank()).into_seat();
        let held = self.take(rt, &mut seat);
        let (held, outs) = self.converse(rt, &mut seat, held, pass.session, message);
        self.give(&mut seat, held);
        pass.badge = seat.into_badge();
        outs
    }

    /// In one turn, gives the pass's session all that there is for it: what was given, in order. If there is nothing,
    /// nothing happens. After what the pass has seen then, the room has nothing more for the session. It may wait for the
    /// turn. It costs what `Room::drain` costs, and a copy of what is given.
    ///
    /// # Errors
    ///
    /// Memory was refused. The events made so far stand, what they gave is lost, and a later call gives the rest.
    pub fn idle<R: Wait>(&self, rt: &R, pass: &mut Pass) -> Mem<Vec<Out>>
        requires own { room_of pass.old ≡ id_of self.now }
        ensures own { room_of pass.new ≡ room_of pass.old }
        ensures session { pass.new.session ≡ pass.old.session }
        ensures ok { IfOk result (λ outs.
            Acts (opening_of self.now) pass.old.session (view_of pass.old) (view_of pass.new)
            (given_idle pass.old.session outs.items)) }
        ensures drained { OnOk result (IsDrained pass.old.session
            (story (opening_of self.now) (view_of pass.new).seen)) }
        ensures err { OnErr result ((lost : List Out)
            × Acts (opening_of self.now) pass.old.session (view_of pass.old) (view_of pass.new)
            (given pass.old.session lost)) }
    {
        let mut seat: Place = mem::replace(&mut pass.badge, Badge::blank()).into_seat();
        let held = self.take(rt, &mut seat);
        let (held, outs) = self.look(rt, &mut seat, held, pass.session);
        self.give(&mut seat, held);
        pass.badge = seat.into_badge();
        outs
    }

    /// The pass's session leaves the room. It may wait for the turn. It takes no memory, and costs what `Room::leave` costs.
    pub fn leave<R: Wait>(&self, rt: &R, pass: Pass) -> Gone
        requires own { room_of pass ≡ id_of self.now }
        ensures own { room_of_gone result ≡ room_of pass }
        ensures session { result.session ≡ Some pass.session }
        ensures left { Acts (opening_of self.now) pass.session (view_of pass) (view_of_gone result)
            (Leave pass.session ∷ []) }
    {
        let Pass { session, badge } = pass;
        let mut seat: Place = badge.into_seat();
        let held = self.take(rt, &mut seat);
        let held = self.part(&mut seat, held, session);
        self.give(&mut seat, held);
        Gone {
            session: Some(session),
            badge: seat.into_badge(),
        }
    }
}
