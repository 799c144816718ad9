//! Single calls of a room, each with a counter of steps of its own.
ghost use Rattle.std.specs.Prelude.{◌≡◌, ◌<◌, IfOk, OnErr, Some};
ghost use Rattle.room_model.specs.Reachable.{IsRising};
ghost use Rattle.room_model.specs.Rooms as model;
ghost use Rattle.room_model.specs.Rooms.{after_message, next_for, session_at};
ghost use Rattle.room_schemas.specs.Decided.{decided};
ghost use Rattle.sync_room.specs.Sessions.{IsIn};
ghost use Rattle.sync_room.specs.Standing.{Stands, Replies, Drains, tree_of};

use room_model::Handled;
use rooms_val::{Mem, Steps};
use std::alloc::Global;
use std::marker::Brand;
use std::sync::ledger::{Blank, Ledger};
use sync_msgs::{ClientMessage, Out};
use sync_room::{Room, SessionId};

// The session of a number that is in the room.
pub(crate) fn session_in(room: &Room, number: u64) -> SessionId
    requires there { (state : model.Room) × (session : model.Session) × Stands state room.now
        × (session_at number state ≡ Some session) }
    ensures number { result.number ≡ number }
    ensures there { IsIn result room.now.sessions }
{
    match room.find(number) {
        Some(session) => session,
        None => unreachable!(),
    }
}

// Gives a room a message of a session.
pub(crate) fn handle(
    alloc: Global,
    room: &mut Room,
    session: SessionId,
    message: &ClientMessage,
) -> Mem<Handled>
    requires { IsIn session room.old.sessions }
    ensures step { IfOk result (λ reply. (state : model.Room) → Stands state room.old
        → Replies (after_message (decided (tree_of room.old)) state session.number message.now)
        reply room.new) }
    ensures err { OnErr result ((state : model.Room) → Stands state room.old
        → Stands state room.new) }
    ensures schema { tree_of room.new ≡ tree_of room.old }
    ensures rises { IsRising message.now }
{
    handle_in::<Brand>(Blank::new(1), alloc, room, session, message)
}

fn handle_in<L: Ledger>(
    blank: Blank,
    alloc: Global,
    room: &mut Room,
    session: SessionId,
    message: &ClientMessage,
) -> Mem<Handled>
    requires name { blank.name ≡ L.name }
    requires parts { blank.parts ≡ L.parts }
    requires some { 0 < blank.parts }
    requires there { IsIn session room.old.sessions }
    ensures step { IfOk result (λ reply. (state : model.Room) → Stands state room.old
        → Replies (after_message (decided (tree_of room.old)) state session.number message.now)
        reply room.new) }
    ensures err { OnErr result ((state : model.Room) → Stands state room.old
        → Stands state room.new) }
    ensures schema { tree_of room.new ≡ tree_of room.old }
    ensures rises { IsRising message.now }
{
    let mut steps = Steps::<L>::new(blank);
    room.handle(alloc, session, message, &mut steps)
}

// Asks a room what is next for a session.
pub(crate) fn drain(alloc: Global, room: &mut Room, session: SessionId) -> Mem<Option<Out>>
    requires { IsIn session room.old.sessions }
    ensures step { IfOk result (λ given. (state : model.Room) → Stands state room.old
        → Drains state session.number
        (next_for (decided (tree_of room.old)) state session.number) given room.new) }
    ensures err { OnErr result (room.new ≡ room.old) }
    ensures schema { tree_of room.new ≡ tree_of room.old }
{
    drain_in::<Brand>(Blank::new(1), alloc, room, session)
}

fn drain_in<L: Ledger>(
    blank: Blank,
    alloc: Global,
    room: &mut Room,
    session: SessionId,
) -> Mem<Option<Out>>
    requires name { blank.name ≡ L.name }
    requires parts { blank.parts ≡ L.parts }
    requires some { 0 < blank.parts }
    requires there { IsIn session room.old.sessions }
    ensures step { IfOk result (λ given. (state : model.Room) → Stands state room.old
        → Drains state session.number
        (next_for (decided (tree_of room.old)) state session.number) given room.new) }
    ensures err { OnErr result (room.new ≡ room.old) }
    ensures schema { tree_of room.new ≡ tree_of room.old }
{
    let mut steps = Steps::<L>::new(blank);
    room.drain(alloc, session, &mut steps)
}
