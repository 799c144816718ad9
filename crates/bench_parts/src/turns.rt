//! Sessions that push into rooms by turns, all in one thread.
ghost use Rattle.sync_room.specs.Sessions.{IsIn};

use crate::made::id_of;
use crate::rooms::{connect_message, new_room, push_message, puts, rename_diff};
use crate::touching::Calls;
use rooms_val::{Mem, OutOfMemory, Steps, Text};
use std::alloc::Global;
use std::slice;
use std::sync::ledger::Ledger;
use sync_msgs::ClientMessage;
use sync_room::{Room, SessionId};

/// How many sessions there are at most, and how many rooms.
pub(crate) const SESSIONS: u32 = 8;

/// A session and its page.
#[derive(Drop)]
struct Visit {
    // The number of the session in its room.
    number: u64,
    // Which room it is in.
    room: usize,
    page: Text,
}

/// Lets so many sessions into rooms, and then each push a patch of a page of its own so many times, by turns. There are as many rooms
/// as the calls' step says. After each push the session is given all that there is for it. It returns the sum of the rooms' clocks.
pub(crate) fn push_by_turns<L: Ledger>(
    alloc: Global,
    sessions: u32,
    calls: Calls,
    steps: &mut Steps<L>,
) -> Mem<i64> {
    let mut open = Vec::new(alloc);
    for _ in 0..calls.step.clamp(1, SESSIONS) {
        match new_room(alloc) {
            Ok(room) => open.push(room)?,
            Err(_) => return Err(OutOfMemory),
        }
    }
    push_all(
        alloc,
        &mut open,
        sessions.clamp(1, SESSIONS),
        calls.count,
        steps,
    )?;
    Ok(
        open.iter()
            .fold(0i64, |sum, room| sum.saturating_add(room.clock())),
    )
}

/// Lets the sessions come, and push so many times.
fn push_all<L: Ledger>(
    alloc: Global,
    rooms: &mut [Room],
    sessions: u32,
    count: u32,
    steps: &mut Steps<L>,
) -> Mem<()> {
    let mut visits = Vec::new(alloc);
    for session in 0..sessions {
        visits.push(come(alloc, rooms, session, steps)?)?;
    }
    for call in 0..count {
        for visit in &visits {
            let message = push_message(i64::from(call), rename_diff(alloc, &visit.page)?);
            exchange(alloc, rooms, visit, &message, steps)?;
        }
    }
    Ok(())
}

/// A session enters, connects and puts its page.
fn come<L: Ledger>(
    alloc: Global,
    rooms: &mut [Room],
    session: u32,
    steps: &mut Steps<L>,
) -> Mem<Visit> {
    let room = session as usize % rooms.len().max(1);
    let Some(open) = rooms.get_mut(room) else {
        return Err(OutOfMemory);
    };
    let Ok(id) = open.enter(alloc, false) else {
        return Err(OutOfMemory);
    };
    let visit = Visit {
        number: id.number(),
        room,
        page: id_of(alloc, "page", session)?,
    };
    exchange(alloc, rooms, &visit, &connect_message(alloc)?, steps)?;
    let diff = puts(alloc, slice::from_ref(&visit.page))?;
    exchange(alloc, rooms, &visit, &push_message(0, diff), steps)?;
    Ok(visit)
}

/// A room handles a message of a session, and gives it all that there is for it.
fn exchange<L: Ledger>(
    alloc: Global,
    rooms: &mut [Room],
    visit: &Visit,
    message: &ClientMessage,
    steps: &mut Steps<L>,
) -> Mem<()> {
    let Some(room) = rooms.get_mut(visit.room) else {
        return Ok(());
    };
    match room.find(visit.number) {
        Some(session) => exchange_with(alloc, room, session, message, steps),
        None => Ok(()),
    }
}

/// The same with the session of a number.
fn exchange_with<L: Ledger>(
    alloc: Global,
    room: &mut Room,
    session: SessionId,
    message: &ClientMessage,
    steps: &mut Steps<L>,
) -> Mem<()>
    requires there { IsIn session room.old.sessions }
{
    room.handle(alloc, session, message, steps)?;
    'drains: for _ in 0..u64::MAX {
        if room.drain(alloc, session, steps)?.is_none() {
            return Ok(());
        }
    }
    Ok(())
}
