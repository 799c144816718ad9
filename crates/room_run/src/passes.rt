//! What threads call a room with.
ghost use Rattle.std.specs.Prelude.{◌≡◌, ◌∷◌, [], false, Some};
ghost use Rattle.room_events.specs.Events.{number_of, has_leave};
ghost use Rattle.room_run.specs.Views.{view_among};

use crate::views::View;
use atomic_table::Badge;

/// A session of a room, for one thread at a time. It knows the part of the room's history that it has seen, and the events
/// that it made. A pass that is dropped doesn't leave: its session stays in the room.
#[derive(Drop)]
pub struct Pass {
    // The number of its session.
    pub(crate) session: u64,
    // What it knows, as the seat of a table.
    pub(crate) badge: Badge<View>,
    pub ghost whole: { badge.views ≡ view_among badge.views ∷ [] },
    pub ghost idle: { (view_among badge.views).turn ≡ false },
    pub ghost number: { number_of (view_among badge.views).mine ≡ Some session },
    pub ghost inside: { has_leave (view_among badge.views).mine ≡ false },
}

impl Pass {
    /// The number of its session. Numbers rise from 0 as sessions enter.
    pub fn session(&self) -> u64
        ensures { result ≡ self.now.session }
    {
        self.session
    }
}

/// A pass that has left, or what a caller has seen that found the room full. It is handed in when the room is closed.
#[derive(Drop)]
pub struct Gone {
    // The number of its session, if it had one.
    pub(crate) session: Option<u64>,
    // What it knew, as the seat of a table.
    pub(crate) badge: Badge<View>,
    pub ghost whole: { badge.views ≡ view_among badge.views ∷ [] },
    pub ghost idle: { (view_among badge.views).turn ≡ false },
    pub ghost number: { number_of (view_among badge.views).mine ≡ session },
}

impl Gone {
    /// The number of its session, if it had one.
    pub fn session(&self) -> Option<u64>
        ensures { result ≡ self.now.session }
    {
        self.session
    }
}

/// Why there is no pass.
#[derive(Drop)]
pub enum PassFault {
    /// 64 sessions were in the room, or 2^53 - 1 had entered, as what was seen shows.
    Full(Gone),
    /// Memory was refused.
    OutOfMemory,
}
