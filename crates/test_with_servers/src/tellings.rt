//! What came of a server, told link by link.
use crate::cast::Worker;
use crate::given::{given_to, is_front, room_of};
use crate::host::Ended;
use room_link::memory_link::MemoryLink;
use room_run::Closed;
use room_serve::{Report, Tally};
use std::alloc::Global;
use std::test::Fail;
use test_with_room_runs::replay_difference;
use test_with_served::sent_text;

impl Ended {
    /// The status.
    pub fn status(&self) -> u8 {
        self.served.status
    }

    /// What came of it, in lines: of each link what is reported, but for the number of its session,
    /// which threads decide, and what went out; what was written; of each room whether one thread
    /// that does in a new room what its history says makes the same; and whether a worker was held
    /// for too long.
    ///
    /// # Errors
    /// Where memory is refused.
    pub fn lines(&self, alloc: Global) -> Result<String, Fail> {
        let mut lines = String::new(alloc);
        let closed = self.served.closed.as_slice();
        for (number, worker) in self.workers.iter().enumerate() {
            let tally = self.served.tallies.get(number);
            add_worker(alloc, &mut lines, number, worker, tally, closed)?;
        }
        lines.push_str(str::from_utf8(self.sink.sink.bytes())?)?;
        for (number, room) in closed.iter().enumerate() {
            add_room(alloc, &mut lines, number, room)?;
        }
        if self.gave_up {
            lines.push_str("a worker was held for too long\n")?;
        }
        Ok(lines)
    }
}

// Adds the lines of a worker's links.
fn add_worker(
    alloc: Global,
    lines: &mut String,
    number: usize,
    worker: &Worker,
    tally: Option<&Tally>,
    closed: &[Closed],
) -> Result<(), Fail> {
    let links = worker.accept.returned_links().unwrap_or(&[]);
    for (place, link) in links.iter().enumerate() {
        let report = match tally {
            Some(tally) => tally.reports.get(place),
            None => None,
        };
        let told = match report {
            Some(report) => report_text(alloc, link, report, closed)?,
            None => String::from_str(alloc, "no report")?,
        };
        let sent = sent_text(alloc, link.link.sent.as_slice())?;
        let line = format!(in alloc; "link {number}.{place}: {told} | {sent}\n")?;
        lines.push_str(line.as_str())?;
    }
    Ok(())
}

// What is reported of a link, and whether its room gave its session what went out.
fn report_text(
    alloc: Global,
    link: &MemoryLink,
    report: &Report,
    closed: &[Closed],
) -> Result<String, Fail> {
    let mut text = match report.room {
        Some(room) => format!(in alloc; "room {room} ")?,
        None => String::new(alloc),
    };
    let counts = format!(in alloc; "texts {} sent {}", report.texts, report.sent)?;
    text.push_str(counts.as_str())?;
    let has_more = !is_given(alloc, link, report, closed)?;
    for (is_so, word) in [
        (report.session.is_some(), " session"),
        (report.ended.is_some(), " ended"),
        (report.wire.is_some(), " wire"),
        (report.fault, " fault"),
        (report.memory, " memory"),
        (has_more, " not given"),
    ] {
        if is_so {
            text.push_str(word)?;
        }
    }
    Ok(text)
}

// Whether what went out on a link is a beginning of what its room gave its session.
fn is_given(
    alloc: Global,
    link: &MemoryLink,
    report: &Report,
    closed: &[Closed],
) -> Result<bool, Fail> {
    let sent = link.link.sent.as_slice();
    let Some(session) = report.session else {
        return Ok(sent.is_empty());
    };
    let Some(room) = room_of(report, closed) else {
        return Ok(false);
    };
    let given = given_to(alloc, room.pen.as_slice(), session)?;
    Ok(is_front(sent, given.as_slice()))
}

// Adds the line of a room.
fn add_room(alloc: Global, lines: &mut String, number: usize, room: &Closed) -> Result<(), Fail> {
    let difference = replay_difference(alloc, room)?;
    let told = match &difference {
        Some(difference) => difference.as_str(),
        None => "as one thread makes it",
    };
    let line = format!(in alloc; "room {number}: {told}\n")?;
    lines.push_str(line.as_str())?;
    Ok(())
}
