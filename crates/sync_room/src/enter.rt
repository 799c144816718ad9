//! Who enters a room, and who leaves it.
ghost use Rattle.std.specs.Prelude.{◌≡◌, ◌≢◌, ◌↔◌, Bool, true, false, length, IfOk, OnOk, OnErr, Some, None};
ghost use Rattle.room_model.specs.Rooms as model;
ghost use Rattle.room_model.specs.Rooms.{is_full, enter, after_enter, after_leave};
ghost use Rattle.sync_room.specs.Sessions.{IsIn};
ghost use Rattle.sync_room.specs.Standing.{Stands, Leaves, tree_of};
ghost use Rattle.sync_room.specs.declared.enter.EnterFault.TheVariants as fault;

use crate::room::Room;
use crate::session::SessionId;
use room_history::Removal;
use rooms_val::OutOfMemory;
use std::alloc::Global;
use thiserror::Error;

/// Why a session can't enter.
#[derive(Clone, Copy, Debug, PartialEq, Eq, Error)]
pub enum EnterFault {
    /// 64 sessions are in the room, or 2^53 - 1 have entered.
    #[error("the room is full")]
    Full,
    /// Memory was refused.
    #[error("out of memory")]
    OutOfMemory,
}

impl From<OutOfMemory> for EnterFault {
    ghost from_gives = { λ _ e. e ≡ fault.OutOfMemory };

    fn from(_refused: OutOfMemory) -> EnterFault {
        EnterFault::OutOfMemory
    }
}

impl Room {
    /// Lets a session enter, which may be read-only: then the room looks at no diff of its pushes.
    /// It takes the memory that `leave` needs, and costs a fixed number of steps.
    ///
    /// # Errors
    ///
    /// `Full` exactly if 64 sessions are in the room, or 2^53 - 1 have entered; a full room never
    /// returns `OutOfMemory`. After either fault the room is as it was.
    pub fn enter(&mut self, alloc: Global, readonly: bool) -> Result<SessionId, EnterFault>
        ensures entered { IfOk result (λ id. (state : model.Room) → Stands state self.old
            → (enter readonly state ≡ Some (after_enter readonly state))
            × Stands (after_enter readonly state) self.new) }
        ensures number { IfOk result (λ id. (state : model.Room) → Stands state self.old
            → id.number ≡ length state.sessions) }
        ensures there { IfOk result (λ id. IsIn id self.new.sessions) }
        ensures full { (state : model.Room) → Stands state self.old
            → (result ≡ Err EnterFault.Full) ↔ (is_full state ≡ true) }
        ensures err { OnErr result ((state : model.Room) → Stands state self.old
            → Stands state self.new) }

        // Whoever was in the room still is, and the schema stays.
        ensures others { (other : SessionId) → IsIn other self.old.sessions
            → IsIn other self.new.sessions }
        ensures schema { tree_of self.new ≡ tree_of self.old }
    {
        if self.sessions.is_full() {
            return Err(EnterFault::Full);
        }
        let removal = Removal::new(alloc, self.sessions.entered)?;
        let id = self.sessions.enter(alloc, readonly, removal)?;
        Ok(id)
    }

    /// Lets a session leave that is in the room. If the session isn't ended, its presence is removed by
    /// an entry, where it is there. After such an entry each session is ended that has become too slow.
    ///
    /// A leave takes no memory, and costs a logarithm of the records. Where it makes an entry, it also
    /// costs a pass over the sessions, of which there are 64 at most. Each session that is ended as too
    /// slow costs one more such pass and a logarithm of the records. Where ids are forgotten, the leave
    /// also costs those and a pass over the ids.
    pub fn leave(&mut self, session: SessionId)
        requires { IsIn session self.old.sessions }
        ensures left { (state : model.Room) → Stands state self.old
            → Leaves (after_leave state session.number) self.new }
        ensures others { (other : SessionId) → other.number ≢ session.number
            → IsIn other self.old.sessions → IsIn other self.new.sessions }
        ensures schema { tree_of self.new ≡ tree_of self.old }
    {
        let Some(removal) = self.sessions.remove(session.key) else {
            return;
        };
        if !self.history.remove_presence(removal) {
            return;
        }
        self.end_slow();
    }
}
