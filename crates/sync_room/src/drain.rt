//! What a room gives to its sessions.
ghost use Rattle.std.specs.Prelude.{◌≡◌, ◌+◌, ◌<◌, ◌≤◌, ◌-◌, ℕ, Bool, true, false, Some, None, IfOk, OnErr, length};
ghost use Rattle.slab.specs.Slab.{ContainsKey, get};
ghost use Rattle.room_model.specs.Histories.{changed_after};
ghost use Rattle.room_model.specs.Rooms as model;
ghost use Rattle.room_model.specs.Rooms.{next_for, session_at};
ghost use Rattle.room_schemas.specs.Decided.{decided};
ghost use Rattle.sync_msgs.specs.declared.out.Out.TheVariants as out;
ghost use Rattle.sync_room.specs.Sending.{told_since, message_in, IsNext, IsChanged, Sends};
ghost use Rattle.sync_room.specs.Sessions.{IsIn, session_of, phase_of, with_at};
ghost use Rattle.sync_room.specs.Standing.{Stands, Agrees, Drains, IsUnended, tree_of};
ghost use Rattle.sync_room.specs.declared.session.Phase.TheVariants as phase;
ghost use Rattle.sync_room.specs.declared.session.Session.{Session};

use crate::room::Room;
use crate::session::{Phase, Session, SessionId, member};
use room_messages::{Request, snapshot, updates};
use rooms_val::{Mem, Steps};
use std::alloc::Global;
use std::sync::ledger::Ledger;
use sync_msgs::{EndReason, Out, ServerMessage};

impl Room {
    /// Gives a session that is in the room what is next for it, and notes that it was: why it was
    /// ended, once; the answer to its connect, which is made now; a pong for each ping that waits;
    /// or what happened since the last message. `None` exactly if there is nothing.
    ///
    /// It costs what it gives; for the answer to a connect it looks up the presences of the sessions
    /// that are in the room, of which there are 64 at most. If it tells what changed since a clock, it
    /// walks over no other record, and counts at most a step for each id whose last entry lies above
    /// that clock, and one more.
    ///
    /// # Errors
    ///
    /// Memory was refused; the room is as it was.
    pub fn drain<L: Ledger>(
        &mut self,
        alloc: Global,
        session: SessionId,
        steps: &mut Steps<L>,
    ) -> Mem<Option<Out>>
        requires { IsIn session self.old.sessions }
        ensures step { IfOk result (λ given. (state : model.Room) → Stands state self.old
            → Drains state session.number
            (next_for (decided (tree_of self.old)) state session.number) given self.new) }
        ensures ticks { IfOk result (λ given. (state : model.Room) (s : model.Session) (clock : ℕ)
            → Stands state self.old → session_at session.number state ≡ Some s
            → told_since state s.phase ≡ Some clock
            → steps.new ≤ steps.old + (length (changed_after clock state.history) + 1)) }
        ensures err { OnErr result (self.new ≡ self.old) }

        // Whoever was in the room still is, and the schema stays.
        ensures others { (other : SessionId) → IsIn other self.old.sessions
            → IsIn other self.new.sessions }
        ensures schema { tree_of self.new ≡ tree_of self.old }
    {
        match next_kind(self.sessions.at(session)) {
            Next::End(reason, told) => Ok(self.tell_end(session.key, reason, told)),
            Next::Pong => Ok(Some(self.pong(session.key))),
            Next::Message => self.send(alloc, session.key, steps),
        }
    }

    // Gives out why a session was ended, if it wasn't told so.
    fn tell_end(&mut self, key: usize, reason: EndReason, told: bool) -> Option<Out>
        requires { ContainsKey self.old.sessions.present key }
        ensures told { told ≡ true → (result ≡ None) × (self.new ≡ self.old) }
        ensures untold { told ≡ false → (s : Session) → get self.old.sessions.present key ≡ Some s
            → (result ≡ Some (out.End reason))
            × IsChanged key (record s { phase = phase.Ended reason true }) self.old self.new }
        ensures others { (other : SessionId) → IsIn other self.old.sessions
            → IsIn other self.new.sessions }
        ensures schema { tree_of self.new ≡ tree_of self.old }
    {
        if told {
            return None;
        }
        let ended = Phase::Ended { reason, told: true };
        self.sessions.set_phase(key, ended);
        Some(Out::End(reason))
    }

    // Answers a ping that waits.
    fn pong(&mut self, key: usize) -> Out
        requires there { ContainsKey self.old.sessions.present key }
        requires waits { (s : Session) → get self.old.sessions.present key ≡ Some s → 0 < s.pings }
        ensures pong { result ≡ out.Message ServerMessage.Pong }
        ensures fewer { (s : Session) → get self.old.sessions.present key ≡ Some s
            → IsChanged key (record s { pings = s.pings - 1 }) self.old self.new }
        ensures others { (other : SessionId) → IsIn other self.old.sessions
            → IsIn other self.new.sessions }
        ensures schema { tree_of self.new ≡ tree_of self.old }
    {
        let pings = self.sessions.present[key].pings;
        self.sessions.set_pings(key, pings - 1);
        Out::Message(ServerMessage::Pong)
    }

    // Sends a session the answer to its connect, or what happened since the last message.
    fn send<L: Ledger>(
        &mut self,
        alloc: Global,
        key: usize,
        steps: &mut Steps<L>,
    ) -> Mem<Option<Out>>
        requires { ContainsKey self.old.sessions.present key }
        ensures step { IfOk result (λ given. (state : model.Room) (s : Session)
            → Stands state self.old → IsUnended key s self.old
            → Sends (message_in (decided (tree_of self.old)) state s.number (session_of s)
            (phase_of s.phase)) key s given self.old self.new) }
        ensures ticks { IfOk result (λ given. (state : model.Room) (s : Session) (clock : ℕ)
            → Stands state self.old → IsUnended key s self.old
            → told_since state (phase_of s.phase) ≡ Some clock
            → steps.new ≤ steps.old + (length (changed_after clock state.history) + 1)) }
        ensures err { OnErr result (self.new ≡ self.old) }
        ensures others { (other : SessionId) → IsIn other self.old.sessions
            → IsIn other self.new.sessions }
        ensures schema { tree_of self.new ≡ tree_of self.old }
    {
        match self.message(alloc, key, steps)? {
            Some(message) => {
                self.sessions.reach(key, self.history.clock());
                Ok(Some(Out::Message(message)))
            }
            None => Ok(None),
        }
    }

    // The answer to the connect of a session, or what happened since the last message to it, if
    // anything.
    fn message<L: Ledger>(
        &self,
        alloc: Global,
        key: usize,
        steps: &mut Steps<L>,
    ) -> Mem<Option<ServerMessage>>
        requires { ContainsKey self.now.sessions.present key }
        ensures said { IfOk result (λ said. (state : model.Room) (s : Session)
            → Stands state self.now → get self.now.sessions.present key ≡ Some s
            → said ≡ message_in (decided (tree_of self.now)) state s.number (session_of s)
            (phase_of s.phase)) }
        ensures ticks { IfOk result (λ said. (state : model.Room) (s : Session) (clock : ℕ)
            → Stands state self.now → get self.now.sessions.present key ≡ Some s
            → told_since state (phase_of s.phase) ≡ Some clock
            → steps.new ≤ steps.old + (length (changed_after clock state.history) + 1)) }
    {
        let session = &self.sessions.present[key];
        match &session.phase {
            Phase::Asked {
                request,
                reached,
                plan,
            } => {
                let member = member(session, plan);
                let present = self.sessions.numbers(alloc)?;
                let request = Request {
                    id: request,
                    reached: *reached,
                };
                let said = snapshot(
                    alloc,
                    &self.history,
                    member,
                    present.as_slice(),
                    request,
                    steps,
                )?;
                Ok(Some(said))
            }
            Phase::Live { sent, plan } => {
                if self.history.clock() <= *sent {
                    return Ok(None);
                }
                let member = member(session, plan);
                let said = updates(alloc, &self.history, member, *sent, &session.pushed, steps)?;
                Ok(Some(said))
            }
            _ => Ok(None),
        }
    }
}

// Of what kind it is what a session is given next, if anything.
enum Next {
    // Why it was ended, if it wasn't told so.
    End(EndReason, bool),
    // A pong.
    Pong,
    // The answer to its connect, or what happened since the last message, if anything.
    Message,
}

fn next_kind(session: &Session) -> Next
    ensures { IsNext session.now result }
{
    match &session.phase {
        Phase::Ended { reason, told } => Next::End(*reason, *told),
        Phase::Asked { .. } => Next::Message,
        _ => {
            if 0 < session.pings {
                Next::Pong
            } else {
                Next::Message
            }
        }
    }
}
