//! A board of 405 shapes: what its recording writes, whole, a byte at a time, cut, and where a call fails.
use crate::tests::{line, lines, nth_id, nth_key, nth_shape, replays, run_words};
use room_link::memory_sink::{MemorySink, SteadySink};
use room_link::memory_source::{MemorySource, SteadySource};
use room_link::script::Script;
use std::alloc::Global;
use std::process::Abort;
use std::sync::Wait;
use std::test::Fail;
use std::thread::Threads;

// The shapes of a row, beside these.
const GEOS: usize = 400;

// What doesn't stand on the page: the bindings of the arrow, and the page itself.
const OTHERS: [(&str, &str); 3] = [
    (
        "binding:1",
        r#"{"fromId":"shape:w","id":"binding:1","meta":{},"props":{"anchor":{"x":500,"y":500},"isExact":false,"terminal":"start"},"toId":"shape:m","type":"arrow","typeName":"binding"}"#,
    ),
    (
        "binding:2",
        r#"{"fromId":"shape:w","id":"binding:2","meta":{},"props":{"anchor":{"x":500,"y":500},"isExact":false,"terminal":"end"},"toId":"shape:n","type":"arrow","typeName":"binding"}"#,
    ),
    ("page:p", "PAGE"),
];

// What stands there before the row, with `INDEX` for the index and `POINTS` for points.
const FIRST: [(&str, &str); 4] = [
    (
        "shape:d",
        r#"{"id":"shape:d",INDEX"isLocked":false,"meta":{},"opacity":100,"parentId":"page:p","props":{"color":"black","isClosed":false,"points":[POINTS],"size":"m"},"rotation":0,"type":"draw","typeName":"shape","x":0,"y":0}"#,
    ),
    (
        "shape:f",
        r#"{"id":"shape:f",INDEX"isLocked":false,"meta":{},"opacity":100,"parentId":"page:p","props":{"h":50,"name":"F","w":100},"rotation":0,"type":"frame","typeName":"shape","x":0,"y":0}"#,
    ),
    (
        "shape:m",
        r#"{"id":"shape:m",INDEX"isLocked":false,"meta":{},"opacity":100,"parentId":"page:p","props":{"color":"black","dash":"draw","fill":"none","geo":"rectangle","h":10,"size":"m","text":"","w":10},"rotation":0,"type":"geo","typeName":"shape","x":0,"y":0}"#,
    ),
    (
        "shape:n",
        r#"{"id":"shape:n",INDEX"isLocked":false,"meta":{},"opacity":100,"parentId":"page:p","props":{"color":"black","dash":"draw","fill":"none","geo":"rectangle","h":10,"size":"m","text":"","w":10},"rotation":0,"type":"geo","typeName":"shape","x":0,"y":0}"#,
    ),
];

// What stands there behind the row.
const ARROW: &str =
    r#"{"id":"shape:w",INDEX"isLocked":false,"meta":{},"opacity":100,"parentId":"page:p","props":{"bend":0,"color":"black","end":{"x":10,"y":10},"size":"m","start":{"x":0,"y":0},"text":""},"rotation":0,"type":"arrow","typeName":"shape","x":0,"y":0}"#;

// The last lines of the recording, by their short names. The first of them is its tenth line.
const LAST: &str = "HANDLE SEND DELIVER HANDLE SEND DELIVER QUERY END";

// What a record is written for.
#[derive(Clone, Copy, PartialEq, Eq)]
enum Written {
    // to be put, without an index
    Put,
    // as the room has it at the end
    Kept,
}

// Adds a record under its id.
fn add(
    alloc: Global,
    text: &mut String,
    id: &str,
    record: &str,
    written: Written,
) -> Result<(), Fail> {
    if !text.is_empty() {
        text.push(',')?;
    }
    let part = match written {
        Written::Put => format!(in alloc; r#""{id}":["put",{record}]"#)?,
        Written::Kept => format!(in alloc; r#""{id}":{record}"#)?,
    };
    text.push_str(part.as_str())?;
    Ok(())
}

// The text of the n-th shape's index: it has the n-th key once it is kept.
fn index_of(alloc: Global, n: usize, written: Written) -> Result<String, Fail> {
    match written {
        Written::Put => Ok(String::new(alloc)),
        Written::Kept => {
            let key = nth_key(alloc, n)?;
            Ok(format!(in alloc; r#""index":"{key}","#)?)
        }
    }
}

// Adds the n-th of the page's shapes by its id and its text.
fn add_shape(
    alloc: Global,
    text: &mut String,
    n: usize,
    (id, record): (&str, &str),
    written: Written,
) -> Result<(), Fail> {
    let index = index_of(alloc, n, written)?;
    let record = record.replace(alloc, "INDEX", index.as_str())?;
    add(alloc, text, id, record.as_str(), written)
}

// Adds the row: its shapes stand at x 0 and, once they are kept, at 1, 2 and so on.
fn add_row(alloc: Global, text: &mut String, written: Written) -> Result<(), Fail> {
    let mut x = 1u32;
    for n in 0..GEOS {
        let index = index_of(alloc, n + FIRST.len(), written)?;
        let place = match written {
            Written::Put => 0,
            Written::Kept => x,
        };
        let record = nth_shape(alloc, n, index.as_str(), place)?;
        add(
            alloc,
            text,
            nth_id(alloc, n)?.as_str(),
            record.as_str(),
            written,
        )?;
        x = x.saturating_add(1);
    }
    Ok(())
}

// The points of a drawing.
fn points(alloc: Global) -> Result<String, Fail> {
    let mut text = String::from_str(alloc, r#"{"x":0,"y":0}"#)?;
    for x in 1..600u32 {
        let point = format!(in alloc; r#",{{"x":{x},"y":7}}"#)?;
        text.push_str(point.as_str())?;
    }
    Ok(text)
}

// All records, by id.
fn records(alloc: Global, written: Written) -> Result<String, Fail> {
    let mut text = String::new(alloc);
    for (id, record) in OTHERS {
        add(alloc, &mut text, id, record, written)?;
    }
    for (n, shape) in FIRST.iter().enumerate() {
        add_shape(alloc, &mut text, n, *shape, written)?;
    }
    add_row(alloc, &mut text, written)?;
    let behind = FIRST.len() + GEOS;
    add_shape(alloc, &mut text, behind, ("shape:w", ARROW), written)?;
    let text = text
        .as_str()
        .replace(alloc, "POINTS", points(alloc)?.as_str())?;
    let page = lines(alloc, "PAGE")?;
    Ok(
        text.as_str()
            .replace(alloc, "PAGE", page.as_str().trim_end())?,
    )
}

// The edit that moves the row.
fn moves(alloc: Global) -> Result<String, Fail> {
    let mut text = String::new(alloc);
    let mut x = 1u32;
    for n in 0..GEOS {
        let comma = if n == 0 { "" } else { "," };
        let id = nth_id(alloc, n)?;
        let part = format!(in alloc; r#"{comma}"{id}":["patch",{{"x":["put",{x}]}}]"#)?;
        text.push_str(part.as_str())?;
        x = x.saturating_add(1);
    }
    edit(alloc, text.as_str())
}

// An edit by the inside of its diff.
fn edit(alloc: Global, diff: &str) -> Result<String, Fail> {
    Ok(format!(in alloc; "{{\"client\":0,\"diff\":{{{diff}}},\"do\":\"edit\"}}\n")?)
}

// The recording up to its last lines: the client draws the board, watches how many shapes the page has, moves the row, and
// connects.
fn front(alloc: Global) -> Result<String, Fail> {
    let mut text = lines(alloc, "H; C")?;
    let put = records(alloc, Written::Put)?;
    text.push_str(edit(alloc, put.as_str())?.as_str())?;
    text.push_str(lines(alloc, "COUNT")?.as_str())?;
    text.push_str(moves(alloc)?.as_str())?;
    text.push_str(lines(alloc, "OPEN")?.as_str())?;
    Ok(text)
}

// The recording up to its end.
fn whole(alloc: Global) -> Result<String, Fail> {
    let mut text = front(alloc)?;
    for name in LAST.split_whitespace() {
        text.push_str(lines(alloc, name)?.as_str())?;
    }
    Ok(text)
}

// What the watch, the query and the end write.
const TOLD: &str = r#"{"client":0,"told":405,"watch":0}"#;

const FOUND: &str = r#"{"client":0,"ids":["shape:d"],"query":true}"#;

fn output_of_end(alloc: Global) -> Result<String, Fail> {
    let kept = records(alloc, Written::Kept)?;
    Ok(format!(in alloc; "{{\"clock\":2,\"doc\":{{{kept}}},\"end\":true,\"presence\":{{}}}}\n")?)
}

// A board is drawn, told of, moved, pushed, and found at the end, also where it comes and goes byte by byte.
#[test]
fn replays_a_board(rt: HostRuntime) -> Result<(), Fail> {
    let alloc = rt.alloc();
    let recording = whole(alloc)?;
    let mut written = lines(alloc, TOLD)?;
    written.push_str(lines(alloc, FOUND)?.as_str())?;
    written.push_str(output_of_end(alloc)?.as_str())?;
    for most in [1usize, 65_536] {
        replays(
            &rt,
            alloc,
            "replay",
            recording.as_str(),
            most,
            written.as_str(),
            0,
        )?;
    }
    Ok(())
}

// Replays a recording that comes and goes 4,096 bytes at a time, where a read and a write fail if it comes to them.
fn ends_at<R: Abort + Threads + Wait + Sync>(
    rt: &R,
    alloc: Global,
    recording: &str,
    (read, write): (u64, u64),
    (written, status): (&str, u8),
) -> Result<(), Fail> {
    let mut source = MemorySource {
        source: SteadySource::new(recording.as_bytes().to_vec(alloc)?, 4096),
        script: Script::new([read].to_vec(alloc)?),
    };
    let mut sink = MemorySink {
        sink: SteadySink::new(alloc, 4096),
        script: Script::new([write].to_vec(alloc)?),
    };
    let ended = run_words(rt, alloc, "replay", &mut source, &mut sink)?;
    assert_eq!(rt; ended, status);
    assert_eq!(rt; sink.sink.bytes(), written.as_bytes());
    Ok(())
}

// The board comes as one line of more than eight reads, before which nothing is written; the first writes are a line each.
#[test]
fn ends_where_a_call_for_a_board_fails(rt: HostRuntime) -> Result<(), Fail> {
    let alloc = rt.alloc();
    let recording = whole(alloc)?;
    let recording = recording.as_str();
    for read in 0..8u64 {
        ends_at(&rt, alloc, recording, (read, u64::MAX), ("", 4))?;
    }
    let told = lines(alloc, TOLD)?;
    let mut found = lines(alloc, TOLD)?;
    found.push_str(lines(alloc, FOUND)?.as_str())?;
    ends_at(&rt, alloc, recording, (u64::MAX, 0), ("", 5))?;
    ends_at(&rt, alloc, recording, (u64::MAX, 1), (told.as_str(), 5))?;
    ends_at(&rt, alloc, recording, (u64::MAX, 2), (found.as_str(), 5))
}

// Replays a recording that lacks its end, which is found so at a line.
fn refuses<R: Abort + Threads + Wait + Sync>(
    rt: &R,
    alloc: Global,
    recording: &str,
    written: &str,
    at: u32,
    fault: &str,
) -> Result<(), Fail> {
    let written = format!(in alloc; "{written}{{\"at\":{at},\"fault\":\"{fault}\"}}\n")?;
    replays(rt, alloc, "replay", recording, 65_536, written.as_str(), 3)
}

// Replays a recording that goes on with a line of a number, cut inside it behind each byte.
fn refuses_inside<R: Abort + Threads + Wait + Sync>(
    rt: &R,
    alloc: Global,
    before: &str,
    written: &str,
    line: &str,
    number: u32,
) -> Result<(), Fail> {
    let mut recording = String::from_str(alloc, before)?;
    let mut left = line.len();
    for letter in line.chars() {
        recording.push(letter)?;
        left = left.saturating_sub(1);
        if 0 < left {
            refuses(rt, alloc, recording.as_str(), written, number, "BadJson")?;
        }
    }
    Ok(())
}

// Replays a recording whose last line has this name and number: its end is missing, unless the line is that.
fn replays_up_to<R: Abort + Threads + Wait + Sync>(
    rt: &R,
    alloc: Global,
    recording: &str,
    written: &str,
    name: &str,
    number: u32,
) -> Result<(), Fail> {
    if name == "END" {
        return replays(rt, alloc, "replay", recording, 65_536, written, 0);
    }
    refuses(
        rt,
        alloc,
        recording,
        written,
        number.saturating_add(1),
        "Unended",
    )
}

// Replays a recording that goes on with a line, cut behind each byte of it, and with its newline.
fn replays_along<R: Abort + Threads + Wait + Sync>(
    rt: &R,
    alloc: Global,
    before: &str,
    written: &str,
    name: &str,
    number: u32,
) -> Result<(), Fail> {
    refuses_inside(rt, alloc, before, written, line(name), number)?;
    let mut recording = String::from_str(alloc, before)?;
    recording.push_str(line(name))?;
    let mut written = String::from_str(alloc, written)?;
    written.push_str(adds(alloc, name)?.as_str())?;
    replays_up_to(
        rt,
        alloc,
        recording.as_str(),
        written.as_str(),
        name,
        number,
    )?;
    recording.push('\n')?;
    replays_up_to(
        rt,
        alloc,
        recording.as_str(),
        written.as_str(),
        name,
        number,
    )
}

// What one of the last lines writes.
fn adds(alloc: Global, name: &str) -> Result<String, Fail> {
    match name {
        "QUERY" => lines(alloc, FOUND),
        "END" => output_of_end(alloc),
        _ => Ok(String::new(alloc)),
    }
}

// Replays the recording of the board, cut behind each byte of the last lines that have these numbers.
fn replays_cut<R: Abort + Threads + Wait + Sync>(
    rt: &R,
    alloc: Global,
    from: u32,
    to: u32,
) -> Result<(), Fail> {
    let mut before = front(alloc)?;
    let mut written = lines(alloc, TOLD)?;
    let mut number = 10u32;
    for name in LAST.split_whitespace() {
        if from <= number && number <= to {
            replays_along(rt, alloc, before.as_str(), written.as_str(), name, number)?;
        }
        before.push_str(lines(alloc, name)?.as_str())?;
        written.push_str(adds(alloc, name)?.as_str())?;
        number = number.saturating_add(1);
    }
    Ok(())
}

// A cut inside a line leaves no value, one behind a line no end; but behind the last line nothing is missing.
#[test]
fn replays_a_board_that_is_cut_before_its_last_answer(rt: HostRuntime) -> Result<(), Fail> {
    replays_cut(&rt, rt.alloc(), 11, 13)
}

#[test]
fn replays_a_board_that_is_cut_in_its_last_answer(rt: HostRuntime) -> Result<(), Fail> {
    replays_cut(&rt, rt.alloc(), 14, 15)
}

#[test]
fn replays_a_board_that_is_cut_in_its_last_lines(rt: HostRuntime) -> Result<(), Fail> {
    replays_cut(&rt, rt.alloc(), 16, 17)
}
