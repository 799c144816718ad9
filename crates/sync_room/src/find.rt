//! Sessions by their numbers.
ghost use Rattle.std.specs.Prelude.{◌≡◌, IfSome, IfNone, None};
ghost use Rattle.room_model.specs.Rooms as model;
ghost use Rattle.room_model.specs.Rooms.{session_at};
ghost use Rattle.sync_room.specs.Sessions.{IsIn, HasPlace};
ghost use Rattle.sync_room.specs.Standing.{Stands};

use crate::room::Room;
use crate::session::SessionId;
use crate::sessions::Sessions;

impl Room {
    /// The session of a number, for a caller that keeps numbers alone. `None` exactly if no session
    /// of that number is in the room: it hasn't entered, or it has left. It takes no memory, and
    /// costs a pass over the sessions, of which there are 64 at most.
    pub fn find(&self, number: u64) -> Option<SessionId>
        ensures found { IfSome result (λ id. (id.number ≡ number) × IsIn id self.now.sessions) }
        ensures none { IfNone result ((state : model.Room) → Stands state self.now
            → session_at number state ≡ None) }
    {
        self.sessions.find(number)
    }
}

impl Sessions {
    // The session of a number, if it is in the table.
    pub(crate) fn find(&self, number: u64) -> Option<SessionId>
        ensures found { IfSome result (λ id. (id.number ≡ number) × IsIn id self.now) }
        ensures none { IfNone result (¬ (HasPlace number self.now)) }
    {
        'sessions: for (key, session) in self.present.iter() {
            if session.number == number {
                return Some(SessionId { number, key });
            }
        }
        None
    }
}
