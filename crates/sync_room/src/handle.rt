//! What a room makes of the messages of its sessions.
ghost use Rattle.std.specs.Prelude.{◌≡◌, ◌<ℤ◌, ◌^◌, ℕ, pos, Bool, false, Some, None, IfOk, OnOk, OnErr};
ghost use Rattle.rooms_val.specs.Maps.{AreRising};
ghost use Rattle.room_model.specs.Accepting.{pushed_diff};
ghost use Rattle.room_model.specs.Reachable.{IsRising};
ghost use Rattle.room_model.specs.Rooms as model;
ghost use Rattle.room_model.specs.Rooms.{Ask, after_message, after_connect, after_push, after_ping, protocol_fault};
ghost use Rattle.room_schemas.specs.Decided.{decided};
ghost use Rattle.room_accept.specs.Pushes.{push_of};
ghost use Rattle.room_accept.specs.Suiting.{Suits};
ghost use Rattle.slab.specs.Slab.{ContainsKey, get};
ghost use Rattle.sync_room.specs.Sessions.{IsIn, session_of, phase_of, is_new};
ghost use Rattle.sync_room.specs.Standing.{Stands, Agrees, Follows, Replies, IsUnended, Judges, tree_of};
ghost use Rattle.sync_room.specs.declared.session.Session.{Session};

use crate::room::Room;
use crate::session::{Phase, SessionId, member};
use field_ops::Diff;
use migrate_seq::Serialized;
use room_accept::{Accepted, Push, SessionPlan};
use room_model::Handled;
use room_model::limits::PROTOCOL;
use rooms_val::{Mem, Steps, Text};
use std::alloc::Global;
use std::sync::ledger::Ledger;
use sync_msgs::{ClientMessage, EndReason};

impl Room {
    /// Takes a message of a session that is in the room, and tells what became of it.
    ///
    /// A message costs what it says, and a logarithm of the records for each id of its diff. Where it
    /// makes an entry, it also costs a pass over the sessions, of which there are 64 at most, and one
    /// more for each that is ended as too slow. Each session that is ended costs a logarithm of the
    /// records. Where ids are forgotten, the message also costs those and a pass over the ids.
    ///
    /// # Errors
    ///
    /// Memory was refused; the room is as it was.
    pub fn handle<L: Ledger>(
        &mut self,
        alloc: Global,
        session: SessionId,
        message: &ClientMessage,
        steps: &mut Steps<L>,
    ) -> Mem<Handled>
        requires { IsIn session self.old.sessions }
        ensures step { IfOk result (λ reply. (state : model.Room) → Stands state self.old
            → Replies (after_message (decided (tree_of self.old)) state session.number message.now)
            reply self.new) }
        ensures err { OnErr result ((state : model.Room) → Stands state self.old
            → Stands state self.new) }

        // Whoever was in the room still is, and the schema stays.
        ensures others { (other : SessionId) → IsIn other self.old.sessions
            → IsIn other self.new.sessions }
        ensures schema { tree_of self.new ≡ tree_of self.old }

        // The ids of the message's diff rise, as those of each diff do.
        ensures rises { IsRising message.now }
    {
        message_rises(message);
        if let Phase::Ended { reason, .. } = &self.sessions.at(session).phase {
            return Ok(Handled::Ended(*reason));
        }
        match message {
            ClientMessage::Connect {
                connect_request_id,
                last_server_clock,
                protocol_version,
                schema,
            } => self.connect(
                alloc,
                session.key,
                connect_request_id,
                *last_server_clock,
                *protocol_version,
                schema,
            ),
            ClientMessage::Push {
                client_clock,
                diff,
                presence,
            } => {
                let push = Push {
                    client_clock: *client_clock,
                    diff,
                    presence,
                };
                self.push(alloc, session.key, push, steps)
            }
            ClientMessage::Ping => Ok(self.ping(session.key)),
        }
    }

    // A session asks to be connected, or is refused.
    fn connect(
        &mut self,
        alloc: Global,
        key: usize,
        request: &Text,
        reached: i64,
        protocol: i64,
        versions: &Serialized,
    ) -> Mem<Handled>
        requires { ContainsKey self.old.sessions.present key }
        ensures step { IfOk result (λ reply. (state : model.Room) (s : Session)
            → Agrees state self.old → IsUnended key s self.old
            → let ask : Ask = record { request = request.now; reached = reached; protocol = protocol; versions = versions.now } in
            Follows (after_connect (decided (tree_of self.old)) s.number (session_of s) ask state
            (phase_of s.phase)) reply self.new) }
        ensures err { OnErr result (self.new ≡ self.old) }
        ensures others { (other : SessionId) → IsIn other self.old.sessions
            → IsIn other self.new.sessions }
        ensures schema { tree_of self.new ≡ tree_of self.old }
    {
        if !is_new(&self.sessions.present[key].phase) {
            return Ok(self.refuse(key, EndReason::InvalidRecord));
        }
        if let Some(reason) = protocol_fault(protocol) {
            return Ok(self.refuse(key, reason));
        }
        match SessionPlan::find(alloc, self.history.schema(), versions)? {
            Ok(plan) => {
                let asked = Phase::Asked {
                    request: request.copy(alloc)?,
                    reached,
                    plan,
                };
                self.sessions.set_phase(key, asked);
                Ok(Handled::Entered)
            }
            Err(reason) => Ok(self.refuse(key, reason)),
        }
    }

    // A live session pushes; any other is ended.
    fn push<L: Ledger>(
        &mut self,
        alloc: Global,
        key: usize,
        push: Push<'_>,
        steps: &mut Steps<L>,
    ) -> Mem<Handled>
        requires { ContainsKey self.old.sessions.present key }
        ensures step { IfOk result (λ reply. (state : model.Room) (s : Session)
            → Agrees state self.old → IsUnended key s self.old
            → Follows (after_push (decided (tree_of self.old)) s.number (session_of s)
            (push_of push.entry) state (phase_of s.phase)) reply self.new) }
        ensures err { OnErr result ((state : model.Room) → Agrees state self.old
            → Agrees state self.new) }
        ensures others { (other : SessionId) → IsIn other self.old.sessions
            → IsIn other self.new.sessions }
        ensures schema { tree_of self.new ≡ tree_of self.old }
    {
        match self.judge(alloc, key, push)? {
            Ok(accepted) => {
                self.sessions.reserve_push(key)?;
                self.history.append(alloc, accepted, steps)?;
                self.sessions.note_push(key, push.client_clock);
                self.end_slow();
                Ok(Handled::Taken)
            }
            Err(reason) => Ok(self.refuse(key, reason)),
        }
    }

    // What is accepted of a push of a session, or why the session is to be ended.
    fn judge(&self, alloc: Global, key: usize, push: Push<'_>) -> Mem<Result<Accepted, EndReason>>
        requires { ContainsKey self.now.sessions.present key }
        ensures judged { IfOk result (λ judged. (state : model.Room) (s : Session)
            → Agrees state self.now → get self.now.sessions.present key ≡ Some s
            → Judges (decided (tree_of self.now)) state s (push_of push.entry) judged) }
        ensures suits { IfOk result
            (λ judged. IfOk judged (Suits (tree_of self.now) self.now.history.kept.records.0)) }
        ensures below { IfOk result
            (λ judged. OnOk judged (self.now.history.kept.clock <ℤ pos (2 ^ 53))) }
    {
        let session = &self.sessions.present[key];
        let Phase::Live { plan, .. } = &session.phase else {
            return Ok(Err(EndReason::InvalidRecord));
        };
        if self.last <= self.history.clock() {
            return Ok(Err(EndReason::RoomFull));
        }
        ids_rise(push.diff);
        let member = member(session, plan);
        match self.history.accept(alloc, member, push)? {
            Some(accepted) => Ok(Ok(accepted)),
            None => Ok(Err(EndReason::InvalidRecord)),
        }
    }

    // A ping waits to be answered, unless too many do.
    fn ping(&mut self, key: usize) -> Handled
        requires { ContainsKey self.old.sessions.present key }
        ensures step { (state : model.Room) (s : Session) → Agrees state self.old
            → IsUnended key s self.old
            → Follows (after_ping s.number (session_of s) state) result self.new }
        ensures others { (other : SessionId) → IsIn other self.old.sessions
            → IsIn other self.new.sessions }
        ensures schema { tree_of self.new ≡ tree_of self.old }
    {
        let pings = self.sessions.present[key].pings;
        self.sessions.set_pings(key, pings.saturating_add(1));
        Handled::Pong
    }
}

// Why a protocol can't be spoken.
fn protocol_fault(version: i64) -> Option<EndReason>
    ensures { result ≡ protocol_fault version }
{
    if version < PROTOCOL {
        return Some(EndReason::ClientTooOld);
    }
    if PROTOCOL < version {
        return Some(EndReason::ServerTooOld);
    }
    None
}

// That the ids of a message's diff rise.
fn message_rises(message: &ClientMessage)
    ensures { IsRising message.now }
{
    if let ClientMessage::Push { diff, .. } = message {
        ids_rise(diff);
    }
}

// That the ids of a push's diff rise, which its number of ids tells.
fn ids_rise(diff: &Option<Diff>)
    ensures { AreRising (pushed_diff diff.now) }
{
    if let Some(diff) = diff {
        let _ = diff.len();
    }
}

// Whether a session has entered, and no more.
fn is_new(phase: &Phase) -> bool
    ensures { result ≡ is_new phase.now }
{
    match phase {
        Phase::New => true,
        _ => false,
    }
}
