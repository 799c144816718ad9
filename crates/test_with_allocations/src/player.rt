//! What plays a course.
use crate::answers::Answer;
use crate::calls::{Call, cut};
use rooms_val::Mem;
use std::alloc::Global;
use std::io::Print;
use std::test::Fail;
use test_with_boards::board_text;
use test_with_cases::{cells, rows};

/// What the calls of a course are done on.
pub(crate) trait Subject {
    /// Does a call. Where memory is refused the subject is to be as before.
    fn do_call(&mut self, alloc: Global, call: &Call) -> Mem<Answer>;

    /// What it shows.
    fn state_text(&self, alloc: Global) -> Result<String, Fail>;
}

/// How a course is played.
#[derive(Drop)]
pub(crate) struct Manner {
    // Whether a call that was refused is done again, and the course goes on. Else the subject is compared with its twin.
    again: bool,
    // How many allocations are made before, so that a refusal whose number is fixed when the program is built moves.
    before: u64,
}

impl Manner {
    /// How a line says it.
    pub(crate) fn read(line: &str) -> Result<Manner, Fail> {
        let (word, count) = cut(line);
        Ok(Manner {
            again: word == "again",
            before: count.parse::<u64>()?,
        })
    }
}

/// What came of a row.
#[derive(Drop)]
enum Came {
    // The call gave what is written, and the subject shows this.
    Shows(String),
    // This isn't as it is to be.
    Differs(String),
    // The call was refused, and isn't to be done again.
    Refused,
}

/// Plays a course on a subject, which has a twin. `false` if something isn't as it is to be, which is printed.
pub(crate) fn play<S: Subject>(
    rt: &impl Print,
    alloc: Global,
    subject: &mut S,
    twin: &mut S,
    course: &str,
    probes: &str,
    how: &Manner,
) -> Result<bool, Fail> {
    let course = board_text(alloc, course)?;
    let rows = rows(alloc, course.as_str())?;
    let calls = calls_of(alloc, &rows)?;
    let probes = probes_of(alloc, probes)?;
    let now = subject.state_text(alloc)?;
    for _ in 0..how.before {
        drop(Box::new(alloc, 0u8)?);
    }
    println!(rt; "begun")?;
    let Some(place) = first_refused(rt, alloc, subject, &rows, &calls, now, how.again)? else {
        return Ok(false);
    };
    if place == rows.len() {
        println!(rt; "as written")?;
        return Ok(true);
    }
    replay(alloc, twin, &calls, place)?;
    is_as_beside(rt, alloc, subject, twin, &probes)
}

/// The calls of rows.
fn calls_of(alloc: Global, rows: &[&str]) -> Result<Vec<Call>, Fail> {
    let mut calls = Vec::new(alloc);
    for row in rows {
        let [line, ..] = cells(row);
        calls.push(Call::read(alloc, line)?)?;
    }
    Ok(calls)
}

/// The calls by which a subject is compared with its twin.
fn probes_of(alloc: Global, probes: &str) -> Result<Vec<Call>, Fail> {
    let probes = board_text(alloc, probes)?;
    let rows = rows(alloc, probes.as_str())?;
    calls_of(alloc, &rows)
}

/// Plays rows on a subject that shows `now`: how many there are, or were before a call that was refused and isn't done again.
/// `None` if something isn't as it is to be, which is printed.
fn first_refused<S: Subject>(
    rt: &impl Print,
    alloc: Global,
    subject: &mut S,
    rows: &[&str],
    calls: &[Call],
    mut now: String,
    again: bool,
) -> Result<Option<usize>, Fail> {
    let mut place = 0usize;
    for (row, call) in rows.iter().zip(calls.iter()) {
        match play_row(rt, alloc, subject, row, call, now.as_str(), again)? {
            Came::Shows(shows) => now = shows,
            Came::Differs(text) => {
                println!(rt; "{text}")?;
                return Ok(None);
            }
            Came::Refused => return Ok(Some(place)),
        }
        place = place.saturating_add(1);
    }
    Ok(Some(rows.len()))
}

/// Does the call of a row on a subject that shows `now`, and again if it is refused.
fn play_row<S: Subject>(
    rt: &impl Print,
    alloc: Global,
    subject: &mut S,
    row: &str,
    call: &Call,
    now: &str,
    again: bool,
) -> Result<Came, Fail> {
    let [line, wanted, after, ..] = cells(row);
    let first = subject.do_call(alloc, call);
    if first.is_err() {
        let (word, _) = cut(line);
        println!(rt; "refused: {word}")?;
        let shows = subject.state_text(alloc)?;
        if shows.as_str() != now {
            return differs(alloc, row, shows.as_str());
        }
        if !again {
            return Ok(Came::Refused);
        }
    }
    let answer = match first {
        Ok(answer) => answer,
        Err(_) => subject.do_call(alloc, call)?,
    };
    let gives = answer.text(alloc)?;
    if gives.as_str() != wanted {
        return differs(alloc, row, gives.as_str());
    }
    let shows = subject.state_text(alloc)?;
    let written = if after.is_empty() { now } else { after };
    if shows.as_str() != written {
        return differs(alloc, row, shows.as_str());
    }
    Ok(Came::Shows(shows))
}

/// What a row gives or shows in place of what it is to.
fn differs(alloc: Global, row: &str, found: &str) -> Result<Came, Fail> {
    Ok(Came::Differs(format!(in alloc; "{found} at {row}")?))
}

/// Does the first calls on a twin.
fn replay<S: Subject>(
    alloc: Global,
    twin: &mut S,
    calls: &[Call],
    count: usize,
) -> Result<(), Fail> {
    let mut place = 0usize;
    for call in calls {
        if place < count {
            drop(twin.do_call(alloc, call)?);
        }
        place = place.saturating_add(1);
    }
    Ok(())
}

/// Whether a subject tells and shows what its twin does, at each of some calls. If not, that is printed.
fn is_as_beside<S: Subject>(
    rt: &impl Print,
    alloc: Global,
    subject: &mut S,
    twin: &mut S,
    probes: &[Call],
) -> Result<bool, Fail> {
    for probe in probes {
        let told = told_by(alloc, subject, probe)?;
        let wanted = told_by(alloc, twin, probe)?;
        if told.as_str() != wanted.as_str() {
            println!(rt; "{told} in place of {wanted}")?;
            return Ok(false);
        }
    }
    println!(rt; "as beside")?;
    Ok(true)
}

/// What a subject gives at a call, and what it shows then.
fn told_by<S: Subject>(alloc: Global, subject: &mut S, probe: &Call) -> Result<String, Fail> {
    let answer = subject.do_call(alloc, probe)?;
    let gives = answer.text(alloc)?;
    let shows = subject.state_text(alloc)?;
    Ok(format!(in alloc; "{gives} | {shows}")?)
}
