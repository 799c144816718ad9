//! Sessions that come back to a room of many records.
ghost use Rattle.sync_room.specs.Sessions.{IsIn};

use crate::made::ids_of;
use crate::rooms::{connect_from, fill, new_room};
use rooms_val::{Mem, OutOfMemory, Steps, Text};
use std::alloc::Global;
use std::sync::ledger::Ledger;
use sync_msgs::{ClientMessage, Hydration, Out, ServerMessage};
use sync_room::{Room, SessionId};

/// Puts so many pages into a room in one push, and at each call lets a session come that has reached the room's clock, gives
/// it the answer to its connect, and lets it leave. It returns how many were told to keep the document that they have.
pub(crate) fn return_times<L: Ledger>(
    alloc: Global,
    pages: u32,
    calls: u32,
    steps: &mut Steps<L>,
) -> Mem<i64> {
    let pages = ids_of(alloc, "page", pages)?;
    match new_room(alloc) {
        Ok(mut room) => return_all(alloc, &mut room, &pages, calls, steps),
        Err(_) => Err(OutOfMemory),
    }
}

/// Fills the room, and lets a session come and leave at each call.
fn return_all<L: Ledger>(
    alloc: Global,
    room: &mut Room,
    pages: &[Text],
    calls: u32,
    steps: &mut Steps<L>,
) -> Mem<i64> {
    fill(alloc, room, pages, steps)?;
    let message = connect_from(alloc, room.clock())?;
    let mut kept = 0i64;
    for _ in 0..calls {
        if come_back(alloc, room, &message, steps)? {
            kept = kept.saturating_add(1);
        }
    }
    Ok(kept)
}

/// A session comes and leaves: whether it was told to keep what it has.
fn come_back<L: Ledger>(
    alloc: Global,
    room: &mut Room,
    message: &ClientMessage,
    steps: &mut Steps<L>,
) -> Mem<bool> {
    match room.enter(alloc, false) {
        Ok(session) => stay(alloc, room, session, message, steps),
        Err(_) => Err(OutOfMemory),
    }
}

/// The same of one that has entered.
fn stay<L: Ledger>(
    alloc: Global,
    room: &mut Room,
    session: SessionId,
    message: &ClientMessage,
    steps: &mut Steps<L>,
) -> Mem<bool>
    requires there { IsIn session room.old.sessions }
{
    room.handle(alloc, session, message, steps)?;
    let given = room.drain(alloc, session, steps)?;
    room.leave(session);
    Ok(keeps(&given))
}

/// Whether what is given tells a client to keep the document that it has.
fn keeps(given: &Option<Out>) -> bool {
    match given {
        Some(Out::Message(ServerMessage::Connect { hydration_type, .. })) => {
            *hydration_type == Hydration::WipePresence
        }
        _ => false,
    }
}
