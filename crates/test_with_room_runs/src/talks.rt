//! What threads say in a running room, each for a session of its own.
ghost use Rattle.std.specs.Prelude.{◌≡◌, IfOk, OnOk, All};
ghost use Rattle.room_run.specs.Passes.{room_of, room_of_gone};
ghost use Rattle.room_run.specs.Rooms.{id_of};
ghost use Rattle.test_with_room_runs.specs.Talks.{HasLeft, AllLeft};

use room_run::{Gone, RunningRoom};
use rooms_val::{Mem, OutOfMemory};
use std::alloc::Global;
use std::sync::Wait;
use std::thread;
use std::thread::Threads;
use sync_msgs::{ClientMessage, Out};

// What a session was given.
#[derive(Drop)]
pub(crate) struct Given {
    // the number of the session
    pub(crate) session: u64,
    // for each message that it sent, in order, what it was given then
    pub(crate) outs: Vec<Vec<Out>>,
}

// What became of a session.
#[derive(Drop)]
pub(crate) struct Talk {
    // what it was given
    pub(crate) given: Given,
    // what became of its pass
    pub(crate) gone: Gone,
}

// A session enters, sends these messages, and leaves.
fn say_all<R: Wait>(
    rt: &R,
    alloc: Global,
    room: &RunningRoom,
    messages: &[ClientMessage],
) -> Mem<Talk>
    ensures own { HasLeft room.now result }
{
    let Ok(mut pass) = room.pass(rt, false) else {
        return Err(OutOfMemory);
    };
    let mut outs = Vec::new(alloc);
    'messages: for message in messages {
        outs.push(room.handle(rt, &mut pass, message)?)?;
    }
    let session = pass.session();
    Ok(Talk {
        given: Given { session, outs },
        gone: room.leave(rt, pass),
    })
}

// Sessions of as many threads as there are lists of messages: each sends one of them.
pub(crate) fn all_talk<R: Threads + Wait + Sync>(
    rt: &R,
    alloc: Global,
    room: &RunningRoom,
    messages: &[Vec<ClientMessage>],
) -> Mem<Vec<Mem<Talk>>>
    ensures own { IfOk result (λ talks. AllLeft room.now talks.items) }
{
    let talks = thread::map_indices(
        rt,
        alloc,
        messages.len(),
        &|i| say_all(rt, alloc, room, &messages[i]),
    )?;
    Ok(talks)
}

// What sessions were given, and what became of their passes apart.
pub(crate) fn part_talks(
    alloc: Global,
    room: &RunningRoom,
    talks: Vec<Mem<Talk>>,
) -> Mem<(Vec<Given>, Vec<Gone>)>
    requires own { AllLeft room.now talks.items }
    ensures own { IfOk result (λ parts. All (λ gone. room_of_gone gone ≡ id_of room.now) parts.1.items) }
{
    let mut all = Vec::new(alloc);
    let mut gones = Vec::new(alloc);
    'talks: for talk in talks {
        let Talk { given, gone } = talk?;
        all.push(given)?;
        gones.push(gone)?;
    }
    Ok((all, gones))
}
