//! What is done in a turn: single events, each counted at once, and the events of a whole call.
ghost use Rattle.std.specs.Prelude.{◌≡◌, ℕ, List, [], ◌∷◌, ◌++◌, true, Some, None};
ghost use Rattle.std.specs.Prelude.{IfOk, OnOk, OnErr, MatchOption};
ghost use Rattle.room_model.specs.Rooms.{is_full};
ghost use Rattle.room_model.specs.declared.handled.Handled.{Handled};
ghost use Rattle.room_events.specs.Events.{events_of};
ghost use Rattle.room_events.specs.declared.room_event.RoomEvent.{RoomEvent};
ghost use Rattle.room_events.specs.declared.room_event.RoomEvent.TheVariants.{Enter, Message, Drain, Leave};
ghost use Rattle.room_run.specs.Calls.{given, given_all, given_idle, IsBegun};
ghost use Rattle.room_run.specs.Held.{IsDrained};
ghost use Rattle.room_run.specs.Openings.{room_after};
ghost use Rattle.room_run.specs.Turn.{HasTurn, IsReady, Added};
ghost use Rattle.sync_msgs.specs.declared.out.Out.{Out};
ghost use Rattle.sync_room.specs.declared.enter.EnterFault.TheVariants as fault;

use crate::held::Held;
use crate::running::{Place, RunningRoom};
use rooms_val::{Mem, OutOfMemory};
use std::sync::Wait;
use sync_msgs::{ClientMessage, Out};
use sync_room::EnterFault;

impl RunningRoom {
    // A session enters, for a seat that has made no event.
    pub(crate) fn enter(
        &self,
        seat: &mut Place,
        mut held: Held,
        readonly: bool,
    ) -> (Held, Result<u64, EnterFault>)
        requires own { seat.old.table_id ≡ self.now.table.shared.table_id }
        requires turn { HasTurn seat.old.me held }
        requires new { seat.old.me.0.mine ≡ [] }
        ensures own { seat.new.table_id ≡ seat.old.table_id }
        ensures turn { HasTurn seat.new.me result.0 }
        ensures entered { IfOk result.1 (λ number. (events_of number seat.old.me.0.seen ≡ [])
            × Added seat.old.me.0 seat.new.me.0 (Enter number readonly ∷ [])) }
        ensures full { result.1 ≡ Err fault.Full
            → is_full (room_after held) ≡ true }
        ensures err { OnErr result.1 (Added seat.old.me.0 seat.new.me.0 []) }
    {
        match held.enter(self.alloc, readonly) {
            Ok(number) => (self.append(seat, held), Ok(number)),
            Err(fault) => (held, Err(fault)),
        }
    }

    // A session sends a message.
    fn hear(
        &self,
        seat: &mut Place,
        mut held: Held,
        number: u64,
        message: &ClientMessage,
    ) -> (Held, Mem<()>)
        requires own { seat.old.table_id ≡ self.now.table.shared.table_id }
        requires ready { IsReady number seat.old.me held }
        ensures own { seat.new.table_id ≡ seat.old.table_id }
        ensures ready { IsReady number seat.new.me result.0 }
        ensures ok { IfOk result.1 (λ _. (reply : Handled)
            × Added seat.old.me.0 seat.new.me.0 (Message number message.now reply ∷ [])) }
        ensures err { OnErr result.1 (Added seat.old.me.0 seat.new.me.0 []) }
    {
        match held.handle(self.alloc, number, message) {
            Ok(()) => (self.append(seat, held), Ok(())),
            Err(refused) => (held, Err(refused)),
        }
    }

    // A session is given what is next for it, if there is anything.
    fn drain(&self, seat: &mut Place, mut held: Held, number: u64) -> (Held, Mem<Option<Out>>)
        requires own { seat.old.table_id ≡ self.now.table.shared.table_id }
        requires ready { IsReady number seat.old.me held }
        ensures own { seat.new.table_id ≡ seat.old.table_id }
        ensures ready { IsReady number seat.new.me result.0 }
        ensures ok { IfOk result.1 (λ out. MatchOption out
            (Added seat.old.me.0 seat.new.me.0 [] × IsDrained number result.0)
            (λ out. Added seat.old.me.0 seat.new.me.0 (Drain number (Some out) ∷ []))) }
        ensures err { OnErr result.1 ((lost : List Out)
            × Added seat.old.me.0 seat.new.me.0 (given number lost)) }
    {
        match held.drain(self.alloc, number) {
            Ok(None) => (held, Ok(None)),
            Ok(Some(copy)) => {
                let held = self.append(seat, held);
                match copy {
                    Ok(out) => (held, Ok(Some(out))),
                    Err(refused) => (held, Err(refused)),
                }
            }
            Err(refused) => (held, Err(refused)),
        }
    }

    // A session is given all that there is for it.
    fn drain_all<R: Wait>(
        &self,
        rt: &R,
        seat: &mut Place,
        mut held: Held,
        number: u64,
    ) -> (Held, Mem<Vec<Out>>)
        requires own { seat.old.table_id ≡ self.now.table.shared.table_id }
        requires ready { IsReady number seat.old.me held }
        ensures own { seat.new.table_id ≡ seat.old.table_id }
        ensures ready { IsReady number seat.new.me result.0 }
        ensures ok { IfOk result.1 (λ outs.
            Added seat.old.me.0 seat.new.me.0 (given number outs.items)
            × IsDrained number result.0) }
        ensures err { OnErr result.1 ((lost : List Out)
            × Added seat.old.me.0 seat.new.me.0 (given number lost)) }
    {
        let mut outs = Vec::new(self.alloc);
        'drains: for _ in rt.forever() {
            if outs.reserve(1).is_err() {
                return (held, Err(OutOfMemory));
            }
            let (after, out) = self.drain(seat, held, number);
            held = after;
            match out {
                Ok(Some(out)) => outs.push_reserved(out),
                Ok(None) => return (held, Ok(outs)),
                Err(refused) => return (held, Err(refused)),
            }
        }
        unreachable!()
    }

    // Notes that there is nothing more for a session.
    fn note_nothing(&self, seat: &mut Place, mut held: Held, number: u64) -> (Held, Mem<()>)
        requires own { seat.old.table_id ≡ self.now.table.shared.table_id }
        requires ready { IsReady number seat.old.me held }
        requires drained { IsDrained number held }
        ensures own { seat.new.table_id ≡ seat.old.table_id }
        ensures ready { IsReady number seat.new.me result.0 }
        ensures ok { OnOk result.1 (Added seat.old.me.0 seat.new.me.0 (Drain number None ∷ [])) }
        ensures drained { OnOk result.1 (IsDrained number result.0) }
        ensures err { OnErr result.1 (Added seat.old.me.0 seat.new.me.0 []) }
    {
        match held.note_nothing(number) {
            Ok(()) => (self.append(seat, held), Ok(())),
            Err(refused) => (held, Err(refused)),
        }
    }

    // A session is given all that there is for it, and it is noted that there is nothing more.
    fn drain_out<R: Wait>(
        &self,
        rt: &R,
        seat: &mut Place,
        held: Held,
        number: u64,
    ) -> (Held, Mem<Vec<Out>>)
        requires own { seat.old.table_id ≡ self.now.table.shared.table_id }
        requires ready { IsReady number seat.old.me held }
        ensures own { seat.new.table_id ≡ seat.old.table_id }
        ensures ready { IsReady number seat.new.me result.0 }
        ensures ok { IfOk result.1 (λ outs. Added seat.old.me.0 seat.new.me.0
            (given_all number outs.items)) }
        ensures err { OnErr result.1 ((lost : List Out)
            × Added seat.old.me.0 seat.new.me.0 (given number lost)) }
    {
        let (held, drained) = self.drain_all(rt, seat, held, number);
        match drained {
            Ok(outs) => {
                let (held, noted) = self.note_nothing(seat, held, number);
                match noted {
                    Ok(()) => (held, Ok(outs)),
                    Err(refused) => (held, Err(refused)),
                }
            }
            Err(refused) => (held, Err(refused)),
        }
    }

    // A session sends a message, and is then given all that there is for it.
    pub(crate) fn converse<R: Wait>(
        &self,
        rt: &R,
        seat: &mut Place,
        held: Held,
        number: u64,
        message: &ClientMessage,
    ) -> (Held, Mem<Vec<Out>>)
        requires own { seat.old.table_id ≡ self.now.table.shared.table_id }
        requires ready { IsReady number seat.old.me held }
        ensures own { seat.new.table_id ≡ seat.old.table_id }
        ensures ready { IsReady number seat.new.me result.0 }
        ensures ok { IfOk result.1 (λ outs. (reply : Handled) × Added seat.old.me.0 seat.new.me.0
            (Message number message.now reply ∷ given_all number outs.items)) }
        ensures err { OnErr result.1 ((events : List RoomEvent) × IsBegun number message.now events
            × Added seat.old.me.0 seat.new.me.0 events) }
    {
        let (held, heard) = self.hear(seat, held, number, message);
        match heard {
            Ok(()) => self.drain_out(rt, seat, held, number),
            Err(refused) => (held, Err(refused)),
        }
    }

    // A session is given all that there is for it, if there is anything.
    pub(crate) fn look<R: Wait>(
        &self,
        rt: &R,
        seat: &mut Place,
        held: Held,
        number: u64,
    ) -> (Held, Mem<Vec<Out>>)
        requires own { seat.old.table_id ≡ self.now.table.shared.table_id }
        requires ready { IsReady number seat.old.me held }
        ensures own { seat.new.table_id ≡ seat.old.table_id }
        ensures ready { IsReady number seat.new.me result.0 }
        ensures ok { IfOk result.1 (λ outs. Added seat.old.me.0 seat.new.me.0
            (given_idle number outs.items)) }
        ensures drained { OnOk result.1 (IsDrained number result.0) }
        ensures err { OnErr result.1 ((lost : List Out)
            × Added seat.old.me.0 seat.new.me.0 (given number lost)) }
    {
        let (held, drained) = self.drain_all(rt, seat, held, number);
        match drained {
            Ok(outs) => {
                if outs.is_empty() {
                    return (held, Ok(outs));
                }
                let (held, noted) = self.note_nothing(seat, held, number);
                match noted {
                    Ok(()) => (held, Ok(outs)),
                    Err(refused) => (held, Err(refused)),
                }
            }
            Err(refused) => (held, Err(refused)),
        }
    }

    // A session leaves. It takes no memory.
    pub(crate) fn part(&self, seat: &mut Place, mut held: Held, number: u64) -> Held
        requires own { seat.old.table_id ≡ self.now.table.shared.table_id }
        requires ready { IsReady number seat.old.me held }
        ensures own { seat.new.table_id ≡ seat.old.table_id }
        ensures turn { HasTurn seat.new.me result }
        ensures left { Added seat.old.me.0 seat.new.me.0 (Leave number ∷ []) }
        ensures all { events_of number seat.new.me.0.seen ≡ seat.new.me.0.mine }
    {
        held.leave(number);
        self.append(seat, held)
    }
}
