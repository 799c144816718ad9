//! Plays the calls of a row on a link, or on what accepts links.
use room_link::accept::Accept;
use room_link::link::Link;
use room_link::memory_accept::{MemoryAccept, SteadyAccept};
use room_link::memory_link::{MemoryLink, SteadyLink};
use room_link::passing::{Arrival, Incoming, Outgoing, Stop};
use room_link::script::Script;
use socket_link::reason::reason_text;
use std::alloc::Global;
use std::collections::VecDeque;
use std::test::Fail;
use sync_msgs::EndReason;
use test_with_cases::cells;

/// Adds a word to a text of words.
fn add(words: &mut String, word: &str) -> Result<(), Fail> {
    if !words.is_empty() {
        words.push(' ')?;
    }
    words.push_str(word)?;
    Ok(())
}

/// The word of a stop.
fn stop_word(stop: Stop) -> &'static str {
    match stop {
        Stop::Failed => "FAILED",
        Stop::OutOfMemory => "MEMORY",
    }
}

/// The numbers of a cell; a cell of `-` has none.
fn numbers(alloc: Global, cell: &str) -> Result<Vec<u64>, Fail> {
    let mut numbers = Vec::new(alloc);
    for word in cell.split_whitespace() {
        if word != "-" {
            numbers.push(word.parse::<u64>()?)?;
        }
    }
    Ok(numbers)
}

/// The arrivals of a cell: `.` is an Idle, `-` nothing, and any other word a text.
fn arrivals(alloc: Global, cell: &str) -> Result<VecDeque<Arrival>, Fail> {
    let mut arrivals = VecDeque::new(alloc);
    for word in cell.split_whitespace() {
        match word {
            "-" => {}
            "." => arrivals.push_back(Arrival::Idle)?,
            text => arrivals.push_back(Arrival::Text(Vec::from_slice(alloc, text.as_bytes())?))?,
        }
    }
    Ok(arrivals)
}

/// What one call of `next` answers, as a word.
fn next_word<K: Link>(alloc: Global, link: &mut K) -> Result<String, Fail> {
    match link.next() {
        Ok(Incoming::Text(bytes)) => Ok(String::from_utf8(bytes)?),
        Ok(Incoming::Idle) => Ok(String::from_str(alloc, ".")?),
        Ok(Incoming::End) => Ok(String::from_str(alloc, "END")?),
        Err(stop) => Ok(String::from_str(alloc, stop_word(stop))?),
    }
}

/// What a call of `send` or `close` answers, as a word.
fn done_word(done: Result<(), Stop>) -> &'static str {
    match done {
        Ok(()) => "ok",
        Err(stop) => stop_word(stop),
    }
}

/// What each call on a link answers, as words: `?` takes what is next, `!` closes for `ROOM_FULL`, and any other word is
/// sent.
pub(crate) fn link_words<K: Link>(
    alloc: Global,
    link: &mut K,
    calls: &str,
) -> Result<String, Fail> {
    let mut words = String::new(alloc);
    for call in calls.split_whitespace() {
        match call {
            "?" => {
                let word = next_word(alloc, link)?;
                add(&mut words, word.as_str())?;
            }
            "!" => add(&mut words, done_word(link.close(EndReason::RoomFull)))?,
            text => add(&mut words, done_word(link.send(text)))?,
        }
    }
    Ok(words)
}

/// What went out on a link, as words.
fn sent_words(alloc: Global, sent: &[Outgoing]) -> Result<String, Fail> {
    let mut words = String::new(alloc);
    for what in sent {
        match what {
            Outgoing::Text(text) => add(&mut words, text.as_str())?,
            Outgoing::Close(reason) => add(&mut words, reason_text(*reason))?,
        }
    }
    Ok(words)
}

/// A value that another thread may have.
fn crossing<T: Send>(value: T) -> T {
    value
}

/// Plays a row of a table of links: what arrives, which calls fail, the calls, and what they answer, with what went out
/// behind `=`. The answer is what came instead, where that differs.
pub(crate) fn link_difference(alloc: Global, row: &str) -> Result<Option<String>, Fail> {
    let [arriving, failing, calls, wanted] = cells(row);
    let mut link = crossing(MemoryLink {
        link: SteadyLink::new(alloc, arrivals(alloc, arriving)?),
        script: Script::new(numbers(alloc, failing)?),
    });
    let answers = link_words(alloc, &mut link, calls)?;
    let sent = sent_words(alloc, link.link.sent.as_slice())?;
    let came = format!(in alloc; "{answers} = {sent}")?;
    Ok(if came.as_str() == wanted {
        None
    } else {
        Some(came)
    })
}

/// Links of which the first has no arrival, the second one, and so on.
fn links_of(alloc: Global, count: u64) -> Result<SteadyAccept<SteadyLink>, Fail> {
    let mut accept = SteadyAccept::new(alloc);
    for number in 0..count {
        let mut arrivals = VecDeque::new(alloc);
        for _ in 0..number {
            arrivals.push_back(Arrival::Idle)?;
        }
        accept.add(SteadyLink::new(alloc, arrivals))?;
    }
    Ok(accept)
}

/// What each call answers, as words: `?` takes the next link, and `<` gives back the last that is out.
fn accept_words<A: Accept<Link = SteadyLink>>(
    alloc: Global,
    accept: &mut A,
    calls: &str,
) -> Result<String, Fail> {
    let mut words = String::new(alloc);
    let mut out = Vec::new(alloc);
    for call in calls.split_whitespace() {
        if call == "?" {
            match accept.next() {
                Ok(Some(link)) => {
                    let number = format!(in alloc; "{}", link.arrivals.len())?;
                    add(&mut words, number.as_str())?;
                    out.push(link)?;
                }
                Ok(None) => add(&mut words, "NONE")?,
                Err(stop) => add(&mut words, stop_word(stop))?,
            }
        } else if let Some(link) = out.pop() {
            accept.back(link);
        }
    }
    Ok(words)
}

/// Plays a row of a table of what accepts links: how many links there are, which calls of `next` fail, the calls, and
/// what they answer, with the links given back behind `=`. The answer is what came instead, where that differs.
pub(crate) fn accept_difference(alloc: Global, row: &str) -> Result<Option<String>, Fail> {
    let [count, failing, calls, wanted] = cells(row);
    let mut accept = crossing(MemoryAccept {
        accept: links_of(alloc, count.parse::<u64>()?)?,
        script: Script::new(numbers(alloc, failing)?),
    });
    let mut came = accept_words(alloc, &mut accept, calls)?;
    came.push_str(" =")?;
    match accept.accept.returned_links() {
        Some(links) => {
            for link in links {
                let number = format!(in alloc; " {}", link.arrivals.len())?;
                came.push_str(number.as_str())?;
            }
        }
        None => came.push_str(" lost")?,
    }
    Ok(if came.as_str() == wanted {
        None
    } else {
        Some(came)
    })
}
