//! The sessions of a room, as it keeps them.
ghost use Rattle.std.specs.Prelude.{◌≡◌};

use room_accept::{Member, SessionPlan};
use room_history::Removal;
use rooms_val::Text;
use sync_msgs::EndReason;

/// A session of a room: its number, which is never used again, and where the room keeps it.
#[derive(Clone, Copy, Debug, PartialEq, Eq)]
pub struct SessionId {
    pub(crate) number: u64,
    pub(crate) key: usize,
}

impl SessionId {
    /// The number of the session. Numbers rise from 0 as sessions enter.
    pub fn number(&self) -> u64
        ensures { result ≡ self.now.number }
    {
        self.number
    }
}

// What is kept of a session that is in the room.
#[derive(Drop)]
pub(crate) struct Session {
    // Its number, from 0.
    pub(crate) number: u64,
    // Whether the room looks at no diff of its pushes.
    pub(crate) readonly: bool,
    // How many pings wait to be answered.
    pub(crate) pings: u32,
    // How far it is.
    pub(crate) phase: Phase,
    // The client clocks of its pushes above its sent clock, the oldest first, once it was answered.
    pub(crate) pushed: Vec<i64>,
    // What removes its presence without memory; there until the session is ended.
    pub(crate) removal: Option<Removal>,
}

// How far a session is.
#[derive(Drop)]
pub(crate) enum Phase {
    // It has entered.
    New,
    // It asked to be connected, and is to be answered.
    Asked {
        // The text under which it asked.
        request: Text,
        // The clock that it says it has reached.
        reached: i64,
        // What leads from its schema to the room's.
        plan: SessionPlan,
    },
    // It was answered.
    Live {
        // The clock up to which it was sent everything, at most the room's.
        sent: i64,
        // What leads from its schema to the room's.
        plan: SessionPlan,
    },
    // It was ended, and perhaps told so.
    Ended {
        reason: EndReason,
        told: bool,
    },
}

// A session as accepting and messages know it, with its plan.
pub(crate) fn member<'a>(session: &Session, plan: &'a SessionPlan) -> Member<'a>
    ensures number { result.session ≡ session.now.number }
    ensures readonly { result.readonly ≡ session.now.readonly }
    ensures plan { result.plan.now ≡ plan.now }
{
    Member {
        session: session.number,
        readonly: session.readonly,
        plan,
    }
}
