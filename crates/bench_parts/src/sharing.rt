//! Sessions that push into running rooms, from several threads.
ghost use Rattle.std.specs.Prelude.{◌≡◌, IfOk};
ghost use Rattle.room_run.specs.Passes.{room_of};
ghost use Rattle.room_run.specs.Rooms.{id_of};

use crate::made::id_of as page_of;
use crate::rooms::{connect_message, new_room, push_message, puts, rename_diff, renamed_all};
use crate::touching::Calls;
use crate::turns::SESSIONS;
use room_run::{Pass, RunningRoom};
use rooms_val::{Mem, OutOfMemory, Text};
use std::alloc::Global;
use std::sync::Wait;
use std::thread::Threads;
use std::{slice, thread};
use sync_msgs::ClientMessage;

/// What threads do in running rooms.
#[derive(Clone, Copy)]
pub(crate) enum Shared {
    /// They push patches.
    Share,
    /// They push patches of many pages, so that each waits while another has its turn.
    Wait,
}

/// Each of these calls, by its word.
pub(crate) const SHARED: [(&str, Shared); 2] = [("share", Shared::Share), ("wait", Shared::Wait)];

impl Shared {
    /// Does the call, and returns the sum of the rooms' clocks.
    pub(crate) fn do_in_rooms<R: Threads + Wait + Sync>(
        self,
        rt: &R,
        alloc: Global,
        size: u32,
        calls: Calls,
    ) -> Mem<i64> {
        match self {
            Shared::Share => share(rt, alloc, size, calls),
            Shared::Wait => wait(rt, alloc, size, calls),
        }
    }
}

/// Has so many threads, each for a session of its own, push a patch of a page so many times. They share as many running rooms as the
/// calls' step says.
fn share<R: Threads + Wait + Sync>(rt: &R, alloc: Global, threads: u32, calls: Calls) -> Mem<i64> {
    let rooms = open_rooms(alloc, calls.step)?;
    let count = calls.count;
    let all = thread::map_indices(
        rt,
        alloc,
        threads.clamp(1, SESSIONS) as usize,
        &|i| push_in(rt, alloc, &rooms, i as u32, count),
    )?;
    for one in all {
        one?;
    }
    clocks(rt, alloc, rooms)
}

/// A session pushes in its room.
fn push_in<R: Wait>(
    rt: &R,
    alloc: Global,
    rooms: &[RunningRoom],
    session: u32,
    count: u32,
) -> Mem<()> {
    match rooms.get(session as usize % rooms.len().max(1)) {
        Some(room) => push(rt, alloc, room, session, count),
        None => Ok(()),
    }
}

/// A session comes, puts its page, and pushes a patch of it so many times.
fn push<R: Wait>(rt: &R, alloc: Global, room: &RunningRoom, session: u32, count: u32) -> Mem<()> {
    let page = page_of(alloc, "page", session)?;
    let mut pass = enter(rt, room)?;
    drop(room.handle(rt, &mut pass, &connect_message(alloc)?)?);
    let put = push_message(0, puts(alloc, slice::from_ref(&page))?);
    drop(room.handle(rt, &mut pass, &put)?);
    'pushes: for call in 0..count {
        let patch = push_message(i64::from(call), rename_diff(alloc, &page)?);
        drop(room.handle(rt, &mut pass, &patch)?);
    }
    Ok(())
}

/// A session enters.
fn enter<R: Wait>(rt: &R, room: &RunningRoom) -> Mem<Pass>
    ensures own { IfOk result (λ pass. room_of pass ≡ id_of room.now) }
{
    match room.pass(rt, false) {
        Ok(pass) => Ok(pass),
        Err(_) => Err(OutOfMemory),
    }
}

/// What each session of a room does.
#[derive(Clone, Copy)]
struct Work {
    // How many pages it puts, and patches at each push.
    pages: u32,
    // How often it pushes.
    count: u32,
}

/// Has as many threads as the calls' step says, each for a session of its own, push a patch of so many pages so many times. They share
/// a running room.
fn wait<R: Threads + Wait + Sync>(rt: &R, alloc: Global, pages: u32, calls: Calls) -> Mem<i64> {
    let rooms = open_rooms(alloc, 1)?;
    let work = Work {
        pages,
        count: calls.count,
    };
    let all = thread::map_indices(
        rt,
        alloc,
        calls.step.clamp(1, SESSIONS) as usize,
        &|i| push_in_first(rt, alloc, &rooms, i as u32, work),
    )?;
    for one in all {
        one?;
    }
    clocks(rt, alloc, rooms)
}

/// A session pushes many pages in the first room.
fn push_in_first<R: Wait>(
    rt: &R,
    alloc: Global,
    rooms: &[RunningRoom],
    session: u32,
    work: Work,
) -> Mem<()> {
    match rooms.first() {
        Some(room) => push_many(rt, alloc, room, session, work),
        None => Ok(()),
    }
}

/// A session comes, puts pages of its own, and pushes a patch of all of them so many times.
fn push_many<R: Wait>(
    rt: &R,
    alloc: Global,
    room: &RunningRoom,
    session: u32,
    work: Work,
) -> Mem<()> {
    let pages = pages_of(alloc, session, work.pages)?;
    let mut pass = enter(rt, room)?;
    drop(room.handle(rt, &mut pass, &connect_message(alloc)?)?);
    drop(room.handle(rt, &mut pass, &push_message(0, puts(alloc, &pages)?))?);
    let patches = push_message(1, renamed_all(alloc, &pages)?);
    repeat(rt, room, pass, &patches, work.count)
}

/// The ids of a session's pages.
fn pages_of(alloc: Global, session: u32, count: u32) -> Mem<Vec<Text>> {
    let first = session.saturating_mul(count);
    let mut pages = Vec::new(alloc);
    for number in 0..count {
        pages.push(page_of(alloc, "page", first.saturating_add(number))?)?;
    }
    Ok(pages)
}

/// A session sends a message so many times.
fn repeat<R: Wait>(
    rt: &R,
    room: &RunningRoom,
    mut pass: Pass,
    message: &ClientMessage,
    count: u32,
) -> Mem<()>
    requires own { room_of pass ≡ id_of room.now }
{
    'messages: for _ in 0..count {
        drop(room.handle(rt, &mut pass, message)?);
    }
    Ok(())
}

/// So many running rooms of the newest version, but 1 to 8.
fn open_rooms(alloc: Global, count: u32) -> Mem<Vec<RunningRoom>> {
    let mut rooms = Vec::new(alloc);
    for _ in 0..count.clamp(1, SESSIONS) {
        rooms.push(open(alloc)?)?;
    }
    Ok(rooms)
}

/// A running room of the newest version.
fn open(alloc: Global) -> Mem<RunningRoom> {
    match new_room(alloc) {
        Ok(room) => RunningRoom::open(alloc, room),
        Err(_) => Err(OutOfMemory),
    }
}

/// Closes running rooms, and returns the sum of their clocks.
fn clocks<R: Wait>(rt: &R, alloc: Global, rooms: Vec<RunningRoom>) -> Mem<i64> {
    let mut sum = 0i64;
    for room in rooms {
        let clock = room.close(rt, Vec::new(alloc)).room.clock();
        sum = sum.saturating_add(clock);
    }
    Ok(sum)
}
