//! What the room tells of one entry of its history.
ghost use Rattle.std.specs.Prelude.{◌≡◌, IfOk};

use field_ops::Diff;
use rooms_val::Mem;
use std::alloc::Global;

/// What the room made of a push.
#[derive(Drop)]
pub enum Action {
    /// All of its diff was accepted, also where it is empty.
    Commit,
    /// Nothing of its diff was accepted, which isn't empty.
    Discard,
    /// This was accepted, as the room did it: a part of the diff, or all of it for a client of an older schema. In a
    /// catch-up it is always empty.
    Rebase(Diff),
}

/// What an entry of the room's history is to a client.
#[derive(Drop)]
pub enum DataEvent {
    /// What changed that wasn't the client's own: another's push or an end of a session; in a catch-up everything. It
    /// never has the presence of the client's own session.
    Patch {
        /// What was accepted.
        diff: Diff,
        /// The room's clock after it, from 1.
        server_clock: i64,
    },
    /// The answer to a push of the client itself.
    PushResult {
        /// The number that the push said.
        client_clock: i64,
        /// The room's clock after it, from 1.
        server_clock: i64,
        /// What the room made of it.
        action: Action,
    },
}

impl Action {
    /// An equal action.
    pub fn copy(&self, alloc: Global) -> Mem<Action>
        ensures { IfOk result (λ action. action ≡ self.now) }
    {
        Ok(match self {
            Action::Commit => Action::Commit,
            Action::Discard => Action::Discard,
            Action::Rebase(diff) => Action::Rebase(diff.copy(alloc)?),
        })
    }
}

impl DataEvent {
    /// An equal event.
    pub fn copy(&self, alloc: Global) -> Mem<DataEvent>
        ensures { IfOk result (λ event. event ≡ self.now) }
    {
        Ok(match self {
            DataEvent::Patch { diff, server_clock } => DataEvent::Patch {
                diff: diff.copy(alloc)?,
                server_clock: *server_clock,
            },
            DataEvent::PushResult {
                client_clock,
                server_clock,
                action,
            } => DataEvent::PushResult {
                client_clock: *client_clock,
                server_clock: *server_clock,
                action: action.copy(alloc)?,
            },
        })
    }
}
