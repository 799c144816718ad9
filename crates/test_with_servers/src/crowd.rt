//! A crowd: workers whose links all visit all rooms.
use crate::cast::Worker;
use crate::given::{given_to, is_front, room_of};
use crate::host::{Outcome, outcome_of};
use room_link::passing::Outgoing;
use room_run::Closed;
use room_serve::{Report, Tally};
use std::alloc::Global;
use std::sync::Wait;
use std::test::Fail;
use std::thread::Threads;
use test_with_room_runs::replay_difference;

// How many workers there are, how many rooms, and how many links a worker has: one for each room.
const COUNT: u64 = 16;

// What a link says behind its connect, `TIMES` over, with an Idle now and then: `@` stands for the
// link's number, and `#` for a client clock. So a link has 16 messages, and all links 4,096.
const SAYS: &str = r#"
{"clientClock":#,"diff":{"page:@":["put",$E(@,)],"page:p":["put",$P]},"type":"push"}
{"clientClock":#,"diff":{"page:p":["patch",{"name":["put","Q"]}]},"type":"push"}
.
{"type":"ping"}
{"clientClock":#,"presence":["put",$R(@,bob)],"type":"push"}
{"clientClock":#,"diff":{"page:@":["remove"]},"type":"push"}
.
"#;

const TIMES: u64 = 3;

// How many texts a link has, with its join.
const TEXTS: u64 = 17;

// What comes of a room: the clock has gone up by one for each of 12 pushes of 16 links, and as each
// of these left and took its presence with it. A link's page is removed by it, and the last thing
// that happens to the common page is that it gets its name.
const LAST_CLOCK: u64 = 208;

const LAST_DOC: &str =
    r#"{"page:p":{"id":"page:p","index":"a0","meta":{},"name":"Q","typeName":"page"}}"#;

/// Serves a crowd in memory: 16 workers with 16 links each, which visit 16 rooms, and have 4,096
/// messages. `None` if the lines are as they should, one thread that does in a new room what
/// happened in a room is given the same, and that is what went out on each link; else the first
/// difference.
///
/// # Errors
/// Where memory is refused.
pub fn crowd_difference<R: Threads + Wait + Sync>(
    rt: &R,
    alloc: Global,
) -> Result<Option<String>, Fail> {
    let crowd = crowd_text(alloc)?;
    let Outcome {
        served,
        workers,
        written,
    } = outcome_of(rt, alloc, crowd.as_str())?;
    if served.status != 0 || written.as_str() != lines_text(alloc)?.as_str() {
        return Ok(Some(written));
    }
    if let Some(difference) = rooms_difference(alloc, served.closed.as_slice())? {
        return Ok(Some(difference));
    }
    workers_difference(
        alloc,
        workers.as_slice(),
        served.tallies.as_slice(),
        served.closed.as_slice(),
    )
}

// The crowd, as the first cell of a row. Four workers each begin at the same room, and go around.
fn crowd_text(alloc: Global) -> Result<String, Fail> {
    let mut text = format!(in alloc; "rooms={COUNT}")?;
    for worker in 0..COUNT {
        for visit in 0..COUNT {
            text.push_str(if visit == 0 { " ; " } else { " , " })?;
            add_link(
                alloc,
                &mut text,
                worker * COUNT + visit,
                (worker / 4 * 4 + visit) % COUNT,
            )?;
        }
    }
    Ok(text)
}

// Adds a link, by its number and its room.
fn add_link(alloc: Global, text: &mut String, number: u64, room: u64) -> Result<(), Fail> {
    text.push_str(format!(in alloc;
        r#"{{"readonly":false,"room":{room},"type":"join"}} connect"#
    )?.as_str())?;
    let number = format!(in alloc; "{number}")?;
    let says = SAYS.replace(alloc, "@", number.as_str())?;
    for time in 0..TIMES {
        for (place, word) in says.as_str().split_whitespace().enumerate() {
            let clock = format!(in alloc; "1{time}{place}")?;
            let word = word.replace(alloc, "#", clock.as_str())?;
            text.push(' ')?;
            text.push_str(word.as_str())?;
        }
    }
    Ok(())
}

// The lines that are written.
fn lines_text(alloc: Global) -> Result<String, Fail> {
    let mut lines = String::new(alloc);
    for worker in 0..COUNT {
        lines.push_str(format!(in alloc;
            "{{\"ended\":0,\"faults\":0,\"links\":{COUNT},\"memory\":0,\"worker\":{worker}}}\n"
        )?.as_str())?;
    }
    for room in 0..COUNT {
        lines.push_str(format!(in alloc;
            "{{\"clock\":{LAST_CLOCK},\"doc\":{LAST_DOC},\"presence\":{{}},\"room\":{room}}}\n"
        )?.as_str())?;
    }
    Ok(lines)
}

// How what happened in a room differs from what one thread is given there.
fn rooms_difference(alloc: Global, closed: &[Closed]) -> Result<Option<String>, Fail> {
    for room in closed {
        if let Some(difference) = replay_difference(alloc, room)? {
            return Ok(Some(difference));
        }
    }
    Ok(None)
}

// How what went out on the links of workers differs from what the rooms gave their sessions.
fn workers_difference(
    alloc: Global,
    workers: &[Worker],
    tallies: &[Tally],
    closed: &[Closed],
) -> Result<Option<String>, Fail> {
    for (worker, tally) in workers.iter().zip(tallies.iter()) {
        let links = worker.accept.returned_links().unwrap_or(&[]);
        if links.len() != tally.reports.len() {
            return Ok(Some(String::from_str(alloc, "links that have no reports")?));
        }
        for (link, report) in links.iter().zip(tally.reports.iter()) {
            if let Some(difference) = link_difference(
                alloc,
                link.link.sent.as_slice(),
                report,
                closed,
            )? {
                return Ok(Some(difference));
            }
        }
    }
    Ok(None)
}

// How what went out on a link differs from what its room gave its session.
fn link_difference(
    alloc: Global,
    sent: &[Outgoing],
    report: &Report,
    closed: &[Closed],
) -> Result<Option<String>, Fail> {
    let Some(session) = report.session else {
        return Ok(Some(String::from_str(alloc, "a link without a session")?));
    };
    let Some(room) = room_of(report, closed) else {
        return Ok(Some(String::from_str(alloc, "a link without a room")?));
    };
    let given = given_to(alloc, room.pen.as_slice(), session)?;
    if sent.len() == given.len() && is_front(sent, given.as_slice()) && report.texts == TEXTS {
        return Ok(None);
    }
    Ok(Some(format!(in alloc;
        "{} texts from session {session}, and {} to it: not the {} that it was given",
        report.texts,
        sent.len(),
        given.len()
    )?))
}
