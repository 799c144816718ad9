//! Sessions of several threads in one running room.
use crate::pens::{open_new_room, replay_difference};
use crate::sayings::{messages_of, said_difference};
use crate::talks::{all_talk, part_talks};
use std::alloc::Global;
use std::sync::Wait;
use std::test::Fail;
use std::thread::Threads;
use sync_msgs::ClientMessage;

/// Lets so many sessions, each in a thread of its own, send so many messages to one new running room, and closes it. `None` if the
/// history has of each session just what it said and was given, in order, and one thread that does what the history says in a new
/// room is given the same and makes the same room; else the first difference.
///
/// # Errors
/// Where memory is refused.
pub fn crowd_difference<R: Threads + Wait + Sync>(
    rt: &R,
    alloc: Global,
    sessions: usize,
    count: u64,
) -> Result<Option<String>, Fail> {
    let mut messages = Vec::new(alloc);
    for place in 0..sessions {
        messages.push(messages_of(alloc, place, count)?)?;
    }
    difference_among(rt, alloc, &messages)
}

// The first difference that sessions show which send these messages.
fn difference_among<R: Threads + Wait + Sync>(
    rt: &R,
    alloc: Global,
    messages: &[Vec<ClientMessage>],
) -> Result<Option<String>, Fail> {
    let room = open_new_room(alloc)?;
    let talks = all_talk(rt, alloc, &room, messages)?;
    let (all, gones) = part_talks(alloc, &room, talks)?;
    let closed = room.close(rt, gones);
    for (said, given) in messages.iter().zip(all.iter()) {
        if let Some(difference) = said_difference(alloc, closed.pen.as_slice(), said, given)? {
            return Ok(Some(difference));
        }
    }
    replay_difference(alloc, &closed)
}
