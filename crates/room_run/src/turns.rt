//! The rule of a running room's table, and what each kind of step tells who makes it.
use crate::held::Held;
use crate::views::View;
use atomic_table::{Join, Play, TableRule};
use std::snapshot::Snapshot;
use sync_room::Room;

// The rule: word 0 counts the events of the pen, and word 1 is 1 while a seat has the turn.
pub(crate) struct Turns;

impl TableRule<Option<Held>, View, Snapshot<Room>> for Turns {
    ghost use Rattle.room_run.specs.Rule.{Kept, newcomer};

    ghost holds = { Kept };

    ghost first = { newcomer };
}

// A new seat.
pub(crate) struct Sit;

impl Play<Option<Held>, View> for Sit {
    ghost use Rattle.room_run.specs.Steps.{sat};

    ghost then = { sat };
}

// A try to take the turn.
pub(crate) struct Take;

impl Play<Option<Held>, View> for Take {
    ghost use Rattle.room_run.specs.Steps.{took};

    ghost then = { took };
}

// The pen has one event more.
pub(crate) struct Append;

impl Play<Option<Held>, View> for Append {
    ghost use Rattle.room_run.specs.Steps.{appended};

    ghost then = { appended };
}

// The turn is given back.
pub(crate) struct Give;

impl Play<Option<Held>, View> for Give {
    ghost use Rattle.room_run.specs.Steps.{gave};

    ghost then = { gave };
}

// What a pass knew that has left is noted by who closes the room.
pub(crate) struct TakeIn;

impl Join<View> for TakeIn {
    ghost use Rattle.room_run.specs.Steps.{noted, spent};

    ghost both = { noted };

    ghost spent = { spent };
}

// Who closes the room compares the notes with the pen.
pub(crate) struct Learn;

impl Play<Option<Held>, View> for Learn {
    ghost use Rattle.room_run.specs.Steps.{learned};

    ghost then = { learned };
}
