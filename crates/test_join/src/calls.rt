//! A script that is played over a source, a sink and a link in memory.
ghost use Rattle.std.specs.Prelude.{◌≡◌, ◌<◌};

use crate::texts::arrivals_of;
use join_job::{JoinEnd, join_link};
use room_link::memory_link::{MemoryLink, SteadyLink};
use room_link::memory_sink::{MemorySink, SteadySink};
use room_link::memory_source::{MemorySource, SteadySource};
use room_link::passing::Outgoing;
use room_link::script::Script;
use rooms_val::Steps;
use std::alloc::Global;
use std::marker::Brand;
use std::sync::ledger::{Blank, Ledger};
use std::test::Fail;

/// What a call is of: the source, the sink or the link.
#[derive(Clone, Copy, Debug, PartialEq, Eq)]
pub(crate) enum Kind {
    Read,
    Write,
    Link,
}

/// A call that fails: its kind, and its number among the calls of this kind, from 0.
pub(crate) type Failing = Option<(Kind, u64)>;

/// What a script is played over.
#[derive(Drop)]
struct Ends {
    source: MemorySource,
    sink: MemorySink,
    link: MemoryLink,
}

/// The calls of a kind that fail.
fn failing_calls(alloc: Global, kind: Kind, failing: Failing) -> Result<Script, Fail> {
    let mut calls = Vec::new(alloc);
    if let Some((failing_kind, number)) = failing {
        if failing_kind == kind {
            calls.push(number)?;
        }
    }
    Ok(Script::new(calls))
}

/// What a script is played over before it is played. So many bytes are read and written at once.
fn new_ends(
    alloc: Global,
    script: &str,
    comes: &str,
    most: usize,
    failing: Failing,
) -> Result<Ends, Fail>
    requires { 0 < most }
{
    Ok(Ends {
        source: MemorySource {
            source: SteadySource::new(script.as_bytes().to_vec(alloc)?, most),
            script: failing_calls(alloc, Kind::Read, failing)?,
        },
        sink: MemorySink {
            sink: SteadySink::new(alloc, most),
            script: failing_calls(alloc, Kind::Write, failing)?,
        },
        link: MemoryLink {
            link: SteadyLink::new(alloc, arrivals_of(alloc, comes)?),
            script: failing_calls(alloc, Kind::Link, failing)?,
        },
    })
}

fn join_in<L: Ledger>(blank: Blank, alloc: Global, room: u32, ends: &mut Ends) -> JoinEnd
    requires name { blank.name ≡ L.name }
    requires parts { blank.parts ≡ L.parts }
    requires some { 0 < blank.parts }
{
    let mut steps = Steps::<L>::new(blank);
    let Ends { source, sink, link } = ends;
    join_link(alloc, room, link, source, sink, &mut steps)
}

/// Plays a script. The steps are counted for nobody.
fn join(alloc: Global, room: u32, ends: &mut Ends) -> JoinEnd {
    join_in::<Brand>(Blank::new(1), alloc, room, ends)
}

/// What went out, as lines.
fn sent_lines(alloc: Global, sent: &[Outgoing]) -> Result<String, Fail> {
    let mut lines = String::new(alloc);
    for outgoing in sent {
        match outgoing {
            Outgoing::Text(text) => lines.push_str(text.as_str())?,
            Outgoing::Close(_) => lines.push_str("a close")?,
        }
        lines.push('\n')?;
    }
    Ok(lines)
}

/// How a script ends, what goes out and what is written, as one text.
pub(crate) fn outcome(alloc: Global, end: &str, sent: &str, written: &str) -> Result<String, Fail> {
    Ok(format!(in alloc; "{end}\n{sent}\n{written}")?)
}

/// The outcome of a script in a room, over a link on which this comes.
pub(crate) fn play_script(
    alloc: Global,
    room: u32,
    script: &str,
    comes: &str,
    most: usize,
    failing: Failing,
) -> Result<String, Fail>
    requires { 0 < most }
{
    let mut ends = new_ends(alloc, script, comes, most, failing)?;
    let end = format!(in alloc; "{:?}", join(alloc, room, &mut ends))?;
    if !ends.sink.sink.is_whole() {
        return Err(Fail::from("no memory for what is written"));
    }
    let sent = sent_lines(alloc, ends.link.link.sent.as_slice())?;
    let written = String::from_utf8(ends.sink.sink.bytes().to_vec(alloc)?)?;
    outcome(alloc, end.as_str(), sent.as_str(), written.as_str())
}
