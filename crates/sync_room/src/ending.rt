//! How sessions are ended.
ghost use Rattle.std.specs.Prelude.{◌≡◌, ◌≤ℤ◌, ℕ, pos, Bool, true, false, Some, None, IfSome, IfNone};
ghost use Rattle.room_model.specs.Rooms as model;
ghost use Rattle.room_model.specs.Rooms.{close, end_slow, first_slow, is_present, refuse};
ghost use Rattle.slab.specs.Slab.{ContainsKey, get};
ghost use Rattle.sync_room.specs.Sessions.{IsIn, IsLeastSent, session_of, with_at, ended_by, is_live};
ghost use Rattle.sync_room.specs.Standing.{Agrees, Follows, IsUnended, IsFirstSlow, tree_of};
ghost use Rattle.sync_room.specs.declared.session.Session.{Session};

use crate::room::Room;
use crate::session::SessionId;
use room_model::Handled;
use room_model::limits::MOST_TOLD;
use sync_msgs::EndReason;

impl Room {
    // Ends a session for a reason, if it isn't ended, and tells whether that removed its presence.
    pub(crate) fn end(&mut self, key: usize, reason: EndReason) -> bool
        requires { ContainsKey self.old.sessions.present key }
        ensures table { (s : Session) → get self.old.sessions.present key ≡ Some s
            → self.new.sessions ≡ with_at key (ended_by reason s) self.old.sessions }
        ensures ended { (state : model.Room) (s : Session) → Agrees state self.old
            → IsUnended key s self.old
            → (result ≡ is_present s.number state)
            × Agrees (close s.number (session_of s) (model.ended reason false) state) self.new }
        ensures others { (other : SessionId) → IsIn other self.old.sessions
            → IsIn other self.new.sessions }
        ensures schema { tree_of self.new ≡ tree_of self.old }
    {
        match self.sessions.end(key, reason) {
            Some(removal) => self.history.remove_presence(removal),
            None => false,
        }
    }

    // Ends a session for a reason, and then those that have become too slow by that.
    pub(crate) fn refuse(&mut self, key: usize, reason: EndReason) -> Handled
        requires { ContainsKey self.old.sessions.present key }
        ensures refused { (state : model.Room) (s : Session) → Agrees state self.old
            → IsUnended key s self.old
            → Follows (refuse s.number (session_of s) reason state) result self.new }
        ensures others { (other : SessionId) → IsIn other self.old.sessions
            → IsIn other self.new.sessions }
        ensures schema { tree_of self.new ≡ tree_of self.old }
    {
        if !self.end(key, reason) {
            return Handled::Ended(reason);
        }
        self.end_slow();
        Handled::Ended(reason)
    }

    // Ends each session that has become too slow, the least number first. Since the end of one that
    // has a presence makes an entry, it is asked anew after each. It costs a pass over the sessions
    // for each that is ended, and one more.
    pub(crate) fn end_slow(&mut self)
        ensures ended { (state : model.Room) → Agrees state self.old
            → Agrees (end_slow state) self.new }
        ensures others { (other : SessionId) → IsIn other self.old.sessions
            → IsIn other self.new.sessions }
        ensures schema { tree_of self.new ≡ tree_of self.old }
    {
        'ends: while let Some(key) = self.first_slow() {
            self.end(key, EndReason::Slow);
        }
    }

    // The key of the session with the least number of those that are too slow: more than 32 entries
    // lie above its sent clock, which lies below the start.
    fn first_slow(&self) -> Option<usize>
        ensures live { IfSome result (λ key. (s : Session)
            × (get self.now.sessions.present key ≡ Some s) × (is_live s.phase ≡ true)) }
        ensures first { IfSome result (λ key. (state : model.Room) → Agrees state self.now
            → IsFirstSlow state self.now key) }
        ensures none { IfNone result ((state : model.Room) → Agrees state self.now
            → first_slow state ≡ None) }
    {
        let least = least_sent(self.history.starts_at(), self.history.clock());
        self.sessions.first_behind(least)
    }
}

// The clock below which a live session's sent clock shows that it is too slow, by the start and the
// clock of its room.
fn least_sent(start: i64, clock: i64) -> i64
    requires { pos 0 ≤ℤ clock }
    ensures { IsLeastSent start clock result }
{
    let told = clock - MOST_TOLD as i64;
    if start < told {
        return start;
    }
    told
}
