//! The sessions that are in a room, and how many have entered.
ghost use Rattle.std.specs.Prelude.{◌≡◌, ◌+◌, ◌<◌, ◌≤◌, ◌++◌, ◌∷◌, [], map, IfOk, OnOk, OnErr, IfSome, IfNone, Some, None, ℕ, true, false};
ghost use Rattle.slab.specs.Slab.{get, entries, slab_len, ContainsKey, Updates};
ghost use Rattle.room_model.specs.Rooms.{Room, is_full, after_enter};
ghost use Rattle.room_model.specs.declared.limits.TheConstants.{MOST_ENTERED};
ghost use Rattle.sync_room.specs.declared.session.Session.{Session};
ghost use Rattle.sync_room.specs.Sessions.{Holds, IsIn, IsRemovalOf, IsWithPushed, HasRoomToNote, with_at, ended_by, reached, is_behind, lesser, IsFirstBehind};

use crate::session::{Phase, Session, SessionId};
use room_history::Removal;
use room_model::limits::{MOST_ENTERED, MOST_SESSIONS};
use rooms_val::Mem;
use slab::Slab;
use std::alloc::Global;
use std::mem;
use sync_msgs::EndReason;

// Sessions under keys that are used again once a session has left.
#[derive(Drop)]
pub(crate) struct Sessions {
    // Those in the room, ended ones too, until they leave.
    pub(crate) present: Slab<Session>,
    // How many have entered, at most 2^53 - 1; the number of the next one.
    pub(crate) entered: u64,
}

impl Sessions {
    // Nobody, and nobody has entered.
    pub(crate) fn new(alloc: Global) -> Sessions
        ensures empty { result.present.slots ≡ [] }
        ensures entered { result.entered ≡ 0 }
    {
        Sessions {
            present: Slab::new(alloc),
            entered: 0,
        }
    }

    // Whether no further session may enter: too many are there, or too many have entered.
    pub(crate) fn is_full(&self) -> bool
        ensures full { (state : Room) → Holds state self.now → result ≡ is_full state }
        ensures place { result ≡ false → self.now.entered < MOST_ENTERED }
    {
        self.present.len() as u64 >= MOST_SESSIONS || self.entered >= MOST_ENTERED
    }

    // Lets a session enter, with what is to remove its presence. Where memory is refused nobody
    // enters.
    pub(crate) fn enter(
        &mut self,
        alloc: Global,
        readonly: bool,
        removal: Removal,
    ) -> Mem<SessionId>
        requires { self.old.entered < MOST_ENTERED }
        ensures number { IfOk result (λ id. id.number ≡ self.old.entered) }
        ensures there { IfOk result (λ id. IsIn id self.new) }
        ensures ok { OnOk result ((state : Room) → Holds state self.old
            → IsRemovalOf self.old.entered removal → Holds (after_enter readonly state) self.new) }
        ensures err { OnErr result ((state : Room) → Holds state self.old → Holds state self.new) }
        ensures others { (other : SessionId) → IsIn other self.old → IsIn other self.new }
    {
        let number = self.entered;
        let key = self.present.insert(Session {
            number,
            readonly,
            pings: 0,
            phase: Phase::New,
            pushed: Vec::new(alloc),
            removal: Some(removal),
        })?;
        self.entered += 1;
        Ok(SessionId { number, key })
    }

    // The session of an id.
    pub(crate) fn at(&self, id: SessionId) -> &Session
        requires { IsIn id self.now }
        ensures { get self.now.present id.key ≡ Some result.now }
    {
        &self.present[id.key]
    }

    // Brings the session under a key into another phase.
    pub(crate) fn set_phase(&mut self, key: usize, phase: Phase)
        requires { ContainsKey self.old.present key }
        ensures { (s : Session) → get self.old.present key ≡ Some s
            → self.new ≡ with_at key (record s { phase = phase }) self.old }
    {
        self.present[key].phase = phase;
    }

    // Ends the session under a key for a reason, and gives what removes its presence, if it wasn't
    // ended before.
    pub(crate) fn end(&mut self, key: usize, reason: EndReason) -> Option<Removal>
        requires { ContainsKey self.old.present key }
        ensures { (s : Session) → get self.old.present key ≡ Some s
            → (result ≡ s.removal) × (self.new ≡ with_at key (ended_by reason s) self.old) }
    {
        let session = &mut self.present[key];
        session.phase = Phase::Ended {
            reason,
            told: false,
        };
        session.removal.take()
    }

    // Takes the memory for the client clock of one more push of the session under a key.
    pub(crate) fn reserve_push(&mut self, key: usize) -> Mem<()>
        requires { ContainsKey self.old.present key }
        ensures kept { (s : Session) → get self.old.present key ≡ Some s
            → (t : Session) × IsWithPushed s.pushed.items s t
            × (self.new ≡ with_at key t self.old) }
        ensures room { OnOk result (HasRoomToNote key self.new) }
        ensures there { ContainsKey self.new.present key }
    {
        self.present[key].pushed.reserve(1)?;
        Ok(())
    }

    // Notes the client clock of a push of the session under a key.
    pub(crate) fn note_push(&mut self, key: usize, client_clock: i64)
        requires there { ContainsKey self.old.present key }
        requires room { HasRoomToNote key self.old }
        ensures { (s : Session) → get self.old.present key ≡ Some s
            → (t : Session) × IsWithPushed (s.pushed.items ++ client_clock ∷ []) s t
            × (self.new ≡ with_at key t self.old) }
    {
        self.present[key].pushed.push_reserved(client_clock);
    }

    // Notes that the session under a key was sent everything up to a clock.
    pub(crate) fn reach(&mut self, key: usize, clock: i64)
        requires { ContainsKey self.old.present key }
        ensures { (s : Session) → get self.old.present key ≡ Some s
            → (t : Session) × IsWithPushed [] (record s { phase = reached clock s.phase }) t
            × (self.new ≡ with_at key t self.old) }
    {
        let session = &mut self.present[key];
        let phase = mem::replace(&mut session.phase, Phase::New);
        session.phase = phase_once_sent(phase, clock);
        session.pushed.clear();
    }

    // Takes the session under a key out of the table, and gives what removes its presence, if it
    // wasn't ended before.
    pub(crate) fn remove(&mut self, key: usize) -> Option<Removal>
        requires { ContainsKey self.old.present key }
        ensures removal { (s : Session) → get self.old.present key ≡ Some s → result ≡ s.removal }
        ensures updates { Updates self.old.present self.new.present key None }
        ensures count { slab_len self.new.present + 1 ≡ slab_len self.old.present }
        ensures entered { self.new.entered ≡ self.old.entered }
    {
        self.present.remove(key).removal
    }

    // Sets how many pings of the session under a key wait.
    pub(crate) fn set_pings(&mut self, key: usize, pings: u32)
        requires { ContainsKey self.old.present key }
        ensures { (s : Session) → get self.old.present key ≡ Some s
            → self.new ≡ with_at key (record s { pings = pings }) self.old }
    {
        self.present[key].pings = pings;
    }

    // The number of each session in the table.
    pub(crate) fn numbers(&self, alloc: Global) -> Mem<Vec<u64>>
        ensures { IfOk result (λ numbers. numbers.items
            ≡ map (λ entry. entry.1.number) (entries self.now.present)) }
    {
        let mut numbers = Vec::new(alloc);
        'sessions: for (_key, session) in self.present.iter() {
            numbers.push(session.number)?;
        }
        Ok(numbers)
    }

    // The key of the session with the least number among the live ones whose sent clock is below
    // a clock.
    pub(crate) fn first_behind(&self, clock: i64) -> Option<usize>
        ensures found { IfSome result (IsFirstBehind clock self.now) }
        ensures none { IfNone result ((key : ℕ) (s : Session) → get self.now.present key ≡ Some s
            → is_behind clock s.phase ≡ false) }
    {
        let mut first: Option<(usize, u64)> = None;
        for (key, session) in self.present.iter() {
            if is_behind(clock, &session.phase) {
                first = lesser(first, key, session.number);
            }
        }
        let (key, _) = first?;
        Some(key)
    }
}

// A phase once its session was sent everything up to a clock.
fn phase_once_sent(phase: Phase, clock: i64) -> Phase
    ensures { result ≡ reached clock phase }
{
    match phase {
        Phase::Asked { plan, .. } => Phase::Live { sent: clock, plan },
        Phase::Live { plan, .. } => Phase::Live { sent: clock, plan },
        other => other,
    }
}

// Whether a live session's sent clock is below a clock.
fn is_behind(clock: i64, phase: &Phase) -> bool
    ensures { result ≡ is_behind clock phase.now }
{
    match phase {
        Phase::Live { sent, .. } => *sent < clock,
        _ => false,
    }
}

// The one with the lesser number of what was found before, if anything, and a session.
fn lesser(first: Option<(usize, u64)>, key: usize, number: u64) -> Option<(usize, u64)>
    ensures { result ≡ lesser first key number }
{
    match first {
        Some((_, found)) => {
            if found <= number {
                first
            } else {
                Some((key, number))
            }
        }
        None => Some((key, number)),
    }
}
