//! What is reported, what went out, and what happened in a room, as words.
use crate::texts::{add, add_shown};
use room_events::RoomEvent;
use room_link::passing::Outgoing;
use room_run::Closed;
use room_serve::Report;
use std::alloc::Global;
use std::test::Fail;
use sync_msgs::Out;
use wire_msgs::Message;

// What is reported of a link, and how many arrivals are left. What isn't there has no word.
pub(crate) fn report_text(alloc: Global, report: &Report, left: usize) -> Result<String, Fail> {
    let mut words = String::new(alloc);
    add_visit(alloc, &mut words, report)?;
    let counts = format!(in alloc; "texts {} sent {}", report.texts, report.sent)?;
    add(&mut words, counts.as_str())?;
    add_ends(alloc, &mut words, report)?;
    if left > 0 {
        let text = format!(in alloc; "left {left}")?;
        add(&mut words, text.as_str())?;
    }
    Ok(words)
}

// Adds which session of which room it was, and whether one is gone.
fn add_visit(alloc: Global, words: &mut String, report: &Report) -> Result<(), Fail> {
    if let Some(room) = report.room {
        let text = format!(in alloc; "room {room}")?;
        add(words, text.as_str())?;
    }
    if let Some(session) = report.session {
        let text = format!(in alloc; "session {session}")?;
        add(words, text.as_str())?;
    }
    if report.gone.is_some() {
        add(words, "gone")?;
    }
    Ok(())
}

// Adds how it ended.
fn add_ends(alloc: Global, words: &mut String, report: &Report) -> Result<(), Fail> {
    if let Some(reason) = report.ended {
        let text = format!(in alloc; "ended {reason:?}")?;
        add(words, text.as_str())?;
    }
    if let Some(wire) = report.wire {
        let text = format!(in alloc; "wire {wire:?}")?;
        add(words, text.as_str())?;
    }
    if report.fault {
        add(words, "fault")?;
    }
    if report.memory {
        add(words, "memory")?;
    }
    Ok(())
}

/// What went out on a link, as texts and reasons; `-` if nothing did.
///
/// # Errors
/// Where memory is refused.
pub fn sent_text(alloc: Global, sent: &[Outgoing]) -> Result<String, Fail> {
    let mut words = String::new(alloc);
    for what in sent {
        match what {
            Outgoing::Text(text) => add_shown(alloc, &mut words, text.as_str())?,
            Outgoing::Close(reason) => {
                let text = format!(in alloc; "{reason:?}")?;
                add(&mut words, text.as_str())?;
            }
        }
    }
    if words.is_empty() {
        add(&mut words, "-")?;
    }
    Ok(words)
}

// What happened in a room, and its clock.
pub(crate) fn pen_text(alloc: Global, closed: &Closed) -> Result<String, Fail> {
    let mut words = String::new(alloc);
    for event in closed.pen.as_slice() {
        add_event(alloc, &mut words, event)?;
    }
    let clock = format!(in alloc; "clock {}", closed.room.clock())?;
    add(&mut words, clock.as_str())?;
    Ok(words)
}

// Adds an event.
fn add_event(alloc: Global, words: &mut String, event: &RoomEvent) -> Result<(), Fail> {
    match event {
        RoomEvent::Enter(number, readonly) => {
            let word = if *readonly { "enter-readonly" } else { "enter" };
            let text = format!(in alloc; "{word} {number}")?;
            add(words, text.as_str())
        }
        RoomEvent::Message(number, message, reply) => {
            let said = String::from_utf8(message.print(alloc)?)?;
            let front = format!(in alloc; "say {number}")?;
            add(words, front.as_str())?;
            add_shown(alloc, words, said.as_str())?;
            let reply = format!(in alloc; "{reply:?}")?;
            add(words, reply.as_str())
        }
        RoomEvent::Drain(number, out) => {
            let front = format!(in alloc; "give {number}")?;
            add(words, front.as_str())?;
            add_given(alloc, words, out)
        }
        RoomEvent::Leave(number) => {
            let text = format!(in alloc; "leave {number}")?;
            add(words, text.as_str())
        }
    }
}

// Adds what a session was given.
fn add_given(alloc: Global, words: &mut String, out: &Option<Out>) -> Result<(), Fail> {
    match out {
        None => add(words, "nothing"),
        Some(Out::Message(message)) => {
            let given = String::from_utf8(message.print(alloc)?)?;
            add_shown(alloc, words, given.as_str())
        }
        Some(Out::End(reason)) => {
            let text = format!(in alloc; "{reason:?}")?;
            add(words, text.as_str())
        }
    }
}
