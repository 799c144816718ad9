//! What recordings write, and how runs end, over sources and sinks in memory.
ghost use Rattle.std.specs.Prelude.{◌≡◌, ◌<◌, ◌^◌, vec_len};

use crate::run::run;
use room_link::accept::Accept;
use room_link::gate::OpenGate;
use room_link::memory_accept::{MemoryAccept, SteadyAccept};
use room_link::memory_link::SteadyLink;
use room_link::memory_sink::{MemorySink, SteadySink};
use room_link::memory_source::{MemorySource, SteadySource};
use room_link::script::Script;
use room_link::sink::Sink;
use room_link::source::Source;
use rooms_val::{OutOfMemory, Steps};
use std::alloc::Global;
use std::marker::Brand;
use std::process::Abort;
use std::sync::Wait;
use std::sync::ledger::{Blank, Ledger};
use std::test::Fail;
use std::thread::Threads;

// Recordings, what they write, and the status; lines are parted by `; `, and some have short names.
const REPLAYS: &str = r#"
H; C; SHOW; END | NEW; ENDED | 0
;   ; H; ; C; SHOW; END; not looked at | NEW; ENDED | 0
H; C; OPEN; SHOW; PUT; SHOW; HANDLE; SEND; DELIVER; SHOW; {"do":"end"} | {"clock":0,"doc":{},"others":{},"owed":0,"show":0}; {"clock":0,"doc":DOC,"others":{},"owed":1,"show":0}; {"clock":1,"doc":DOC,"others":{},"owed":0,"show":0}; {"clock":1,"doc":DOC,"end":true,"presence":{}} | 0
BASE; {"client":0,"diff":{"shape:a":["patch",{"x":["put",5]}]},"do":"edit"}; {"client":1,"diff":{"shape:a":["patch",{"x":["put",7]}]},"do":"edit"}; SHOW; SHOW1; HANDLE; SEND1; DELIVER1; SHOW1; HANDLE1; SEND; DELIVER; SEND1; DELIVER1; SHOW; SHOW1; END | {"clock":1,"doc":{"page:p":PAGE,"shape:a":GEO100,SIDE5,"y":0}},"others":{},"owed":1,"show":0}; {"clock":1,"doc":{"page:p":PAGE,"shape:a":GEO100,SIDE7,"y":0}},"others":{},"owed":1,"show":1}; {"clock":2,"doc":{"page:p":PAGE,"shape:a":GEO100,SIDE7,"y":0}},"others":{},"owed":1,"show":1}; {"clock":3,"doc":{"page:p":PAGE,"shape:a":GEO100,SIDE7,"y":0}},"others":{},"owed":0,"show":0}; {"clock":3,"doc":{"page:p":PAGE,"shape:a":GEO100,SIDE7,"y":0}},"others":{},"owed":0,"show":1}; {"clock":3,"doc":{"page:p":PAGE,"shape:a":GEO100,SIDE7,"y":0}},"end":true,"presence":{}} | 0
H; C; SHOW; {"client":1.5,"do":"show"} | NEW; {"at":4,"fault":"NotWhole"} | 3
H; {"client":9007199254740992,"do":"show"} | {"at":2,"fault":"OutOfRange"} | 3
H; [[[[[[[[[[[[[[[[[[[[[[[[[[[[[[[[[[[[[[[[[[[[[[[[[[[[[[[[[[[[[[[[[]]]]]]]]]]]]]]]]]]]]]]]]]]]]]]]]]]]]]]]]]]]]]]]]]]]]]]]]]]]]]]]]] | {"at":2,"fault":"TooDeep"} | 3
H; {"do":"sh | {"at":2,"fault":"BadJson"} | 3
H; H | {"at":2,"fault":"Field"} | 3
H; {"do":"fly"} | {"at":2,"fault":"UnknownEvent"} | 3
H; {"client":0,"do":"watch"} | {"at":2,"fault":"Field"} | 3
H; C; FRAMED; {"client":0,"do":"watch","view":{"box":"shape:f"}}; {"client":0,"diff":{"shape:a":["patch",{"parentId":["put","page:p"]}]},"do":"edit"}; {"client":0,"diff":{"shape:a":["patch",{"x":["put",5]}]},"do":"edit"}; END | {"client":0,"told":{"h":50,"w":210,"x":10,"y":0},"watch":0}; {"client":0,"told":{"h":50,"w":100,"x":10,"y":0},"watch":0}; ENDED | 0
H; C; COUNT; PUT; {"client":0,"do":"query","type":"page","where":["eq","name","P"]}; COUNT; {"client":1,"do":"query","type":"page","where":["and",[]]} | {"client":0,"told":0,"watch":0}; {"client":0,"ids":["page:p"],"query":true}; {"client":0,"told":0,"watch":1}; {"at":7,"fault":"NoSuchClient"} | 3
H; SHOW | {"at":2,"fault":"NoSuchClient"} | 3
H; HANDLE | {"at":2,"fault":"NoSuchSession"} | 3
H; C; CONNECT; SEND | {"at":4,"fault":"NothingThere"} | 3
H; C; CONNECT; CONNECT | {"at":4,"fault":"AlreadyOpen"} | 3
H;  | {"at":3,"fault":"Unended"} | 3
 | {"at":1,"fault":"Unended"} | 3
{} | {"at":1,"fault":"NoHeader"} | 3
{"recording":1,"version":6} | {"at":1,"fault":"NoHeader"} | 3
H; C; {"client":0,"diff":{"camera:c":["put",{}]},"do":"edit"} | {"at":3,"fault":"WrongScope camera:c"} | 3
H; C; {"client":0,"diff":{"page:q":["remove"]},"do":"edit"} | {"at":3,"fault":"NoRecord page:q"} | 3
H; C; {"client":0,"diff":{"page:q":["put",{}]},"do":"edit"} | {"at":3,"fault":"Invalid page:q BadId"} | 3
H; C; {"client":0,"do":"presence","record":{}} | {"at":3,"fault":"WrongScope -"} | 3
"#;

// The same of `replay --trace`.
const TRACES: &str = r#"
H; C; OPEN; PUT; HANDLE; SEND; LOSE; END | ASK; ANSWER; {"from":0,"message":{"clientClock":1,"diff":{"page:p":["put",PAGE]},"type":"push"}}; COMMIT; {"clock":1,"doc":DOC,"end":true,"presence":{}} | 0
BASE; {"client":0,"diff":{"shape:a":["put",GEO50,SIDE3,"y":0}]},"do":"edit"}; HANDLE; SEND1; END | ASK; ANSWER; ASK1; ANSWER1; {"from":0,"message":{"clientClock":1,"diff":{"page:p":["put",PAGE],"shape:a":["put",GEO100,SIDE0,"y":0}]},"type":"push"}}; COMMIT; {"message":{"data":[{"diff":{"page:p":["put",PAGE],"shape:a":["put",GEO100,SIDE0,"y":0}]},"serverClock":1,"type":"patch"}],"type":"data"},"to":1}; {"from":0,"message":{"clientClock":2,"diff":{"shape:a":["put",GEO50,SIDE3,"y":0}]},"type":"push"}}; {"message":{"data":[{"diff":{"shape:a":["put",GEO50,SIDE3,"y":0}]},"serverClock":2,"type":"patch"}],"type":"data"},"to":1}; {"clock":2,"doc":{"page:p":PAGE,"shape:a":GEO50,SIDE3,"y":0}},"end":true,"presence":{}} | 0
{"recording":1,"version":4}; {"do":"client","version":4}; C; OPEN; {"client":1,"do":"connect","readonly":false}; {"do":"handle","session":1}; {"do":"send","session":1}; {"client":1,"do":"deliver"}; {"client":0,"diff":{"asset:i":["put",{"id":"asset:i","meta":{},"props":{"dims":{"h":20,"w":30},"mimeType":null,"name":"i","src":null},"type":"image","typeName":"asset"}]},"do":"edit"}; HANDLE; SEND; DELIVER; {"do":"send","session":1}; {"client":1,"do":"deliver"}; {"client":1,"do":"show"}; {"client":1,"diff":{"asset:i":["patch",{"props":["patch",{"w":["put",40]}]}]},"do":"edit"}; {"do":"handle","session":1}; {"do":"send","session":1}; END | {"from":0,"message":{"connectRequestId":"0","lastServerClock":-1,"protocolVersion":2,"schema":{"schemaVersion":2,"sequences":{"rooms.asset":1,"rooms.base":1,"rooms.binding":1,"rooms.shape":2}},"type":"connect"}}; {"message":{"connectRequestId":"0","diff":{},"hydrationType":"wipe_all","isReadonly":false,"protocolVersion":2,"schema":{"schemaVersion":2,"sequences":{"rooms.asset":1,"rooms.base":1,"rooms.binding":1,"rooms.shape":2}},"serverClock":0,"type":"connect"},"to":0}; {"from":1,"message":{"connectRequestId":"1","lastServerClock":-1,"protocolVersion":2,"schema":SCHEMA,"type":"connect"}}; {"message":{"connectRequestId":"1","diff":{},"hydrationType":"wipe_all","isReadonly":false,"protocolVersion":2,"schema":{"schemaVersion":2,"sequences":{"rooms.asset":1,"rooms.base":1,"rooms.binding":1,"rooms.shape":2}},"serverClock":0,"type":"connect"},"to":1}; {"from":0,"message":{"clientClock":1,"diff":{"asset:i":["put",{"id":"asset:i","meta":{},"props":{"dims":{"h":20,"w":30},"mimeType":null,"name":"i","src":null},"type":"image","typeName":"asset"}]},"type":"push"}}; {"message":{"data":[{"action":"commit","clientClock":1,"serverClock":1,"type":"push_result"}],"type":"data"},"to":0}; {"message":{"data":[{"diff":{"asset:i":["put",{"id":"asset:i","meta":{},"props":{"h":20,"mimeType":null,"name":"i","src":null,"w":30},"type":"image","typeName":"asset"}]},"serverClock":1,"type":"patch"}],"type":"data"},"to":1}; {"clock":1,"doc":{"asset:i":{"id":"asset:i","meta":{},"props":{"h":20,"mimeType":null,"name":"i","src":null,"w":30},"type":"image","typeName":"asset"}},"others":{},"owed":0,"show":1}; {"from":1,"message":{"clientClock":1,"diff":{"asset:i":["patch",{"props":["patch",{"w":["put",40]}]}]},"type":"push"}}; {"message":{"data":[{"action":{"rebaseWithDiff":{"asset:i":["put",{"id":"asset:i","meta":{},"props":{"h":20,"mimeType":null,"name":"i","src":null,"w":40},"type":"image","typeName":"asset"}]}},"clientClock":1,"serverClock":2,"type":"push_result"}],"type":"data"},"to":1}; {"clock":2,"doc":{"asset:i":{"id":"asset:i","meta":{},"props":{"dims":{"h":20,"w":40},"mimeType":null,"name":"i","src":null},"type":"image","typeName":"asset"}},"end":true,"presence":{}} | 0
"#;

// The same of `replay --save`.
const SAVES: &str = r#"
H; C; OPEN; SHOW; PUT; SHOW; HANDLE; SEND; DELIVER; SHOW; END | SAVED | 0
H; C; OPEN; {"client":0,"diff":{"page:p":["put",PAGE],"shape:a":["put",GEO100,SIDE0,"y":0}]},"do":"edit"}; HANDLE; SEND; DELIVER; {"client":0,"diff":{"shape:a":["remove"]},"do":"edit"}; HANDLE; END | {"clock":2,"documents":[{"lastChangedClock":1,"state":PAGE}],"schema":SCHEMA,"tombstoneHistoryStartsAtClock":0,"tombstones":{"shape:a":2}} | 0
H; C; OPEN; PUT; SHOW; END | {"clock":0,"documents":[],"schema":SCHEMA,"tombstoneHistoryStartsAtClock":0,"tombstones":{}} | 0
H; C; SHOW; {"client":1.5,"do":"show"} | {"at":4,"fault":"NotWhole"} | 3
H; C; COUNT; SHOW; PUT | {"at":6,"fault":"Unended"} | 3
"#;

// The same of `restore`: what is read begins with the line of a saved room.
const RESTORES: &str = r#"
SAVED; {"recording":1,"version":5}; {"do":"client","version":5}; OPEN; SHOW; END | {"clock":2,"doc":{"page:p":{"hidden":false,"id":"page:p","index":"a0","meta":{},"name":"P","typeName":"page"}},"others":{},"owed":0,"show":0}; {"clock":2,"doc":{"page:p":{"hidden":false,"id":"page:p","index":"a0","meta":{},"name":"P","typeName":"page"}},"end":true,"presence":{}} | 0
SAVED; H; C; OPEN; SHOW; {"client":0,"diff":{"page:p":["patch",{"name":["put","Q"]}]},"do":"edit"}; HANDLE; END | {"clock":1,"doc":DOC,"others":{},"owed":0,"show":0}; {"clock":2,"doc":{"page:p":{"id":"page:p","index":"a0","meta":{},"name":"Q","typeName":"page"}},"end":true,"presence":{}} | 0
;   ; SAVED; ; H; SHOW | {"at":6,"fault":"NoSuchClient"} | 3
SAVED; ; {} | {"at":3,"fault":"NoHeader"} | 3
SAVED | {"at":2,"fault":"Unended"} | 3
 | {"at":1,"fault":"Unended"} | 3
H; H | {"at":1,"fault":"Shape"} | 3
{"clock":1.5 | {"at":1,"fault":"BadJson"} | 3
{"clock":1.5} | {"at":1,"fault":"NotWhole"} | 3
{"clock":0,"documents":[],"schema":{"schemaVersion":2,"sequences":{"rooms.asset":1,"rooms.base":1,"rooms.binding":1,"rooms.page":1,"rooms.shape":2}},"tombstoneHistoryStartsAtClock":0,"tombstones":{}}; H | {"at":1,"fault":"UnknownSequence rooms.asset"} | 3
{"clock":0,"documents":[],"schema":{"schemaVersion":2,"sequences":{"rooms.base":9,"rooms.binding":1,"rooms.shape":2}},"tombstoneHistoryStartsAtClock":0,"tombstones":{}}; H | {"at":1,"fault":"TooNew rooms.base"} | 3
{"clock":0,"documents":[{"lastChangedClock":1,"state":PAGE}],"schema":SCHEMA,"tombstoneHistoryStartsAtClock":0,"tombstones":{}}; H | {"at":1,"fault":"Clocks"} | 3
{"clock":1,"documents":[{"lastChangedClock":1,"state":PAGE},{"lastChangedClock":1,"state":PAGE}],"schema":SCHEMA,"tombstoneHistoryStartsAtClock":0,"tombstones":{}}; H | {"at":1,"fault":"BadRecord page:p"} | 3
{"clock":1,"documents":[{"lastChangedClock":1,"state":{}}],"schema":SCHEMA,"tombstoneHistoryStartsAtClock":0,"tombstones":{}}; H | {"at":1,"fault":"BadRecord -"} | 3
{"clock":2,"documents":[{"lastChangedClock":1,"state":PAGE}],"schema":SCHEMA,"tombstoneHistoryStartsAtClock":0,"tombstones":{"page:p":2}}; ; H | {"at":1,"fault":"BadRecord page:p"} | 3
{"clock":2,"documents":[],"schema":SCHEMA,"tombstoneHistoryStartsAtClock":2,"tombstones":{"page:p":2}}; H | {"at":1,"fault":"Clocks"} | 3
"#;

// The same of `join 1 0` without a worker, so that the link has ended.
const JOINS: &str = r#"
H; DELIVER; SHOW; PUT; SHOW; END | {"client":0,"lost":true}; NEW; {"clock":-1,"doc":DOC,"others":{},"owed":1,"show":0}; {"clock":-1,"end":true,"owed":1} | 0
H; COUNT; PUT; ; {"client":0,"do":"undo"}; END | {"client":0,"told":0,"watch":0}; {"client":0,"undo":true}; {"clock":-1,"end":true,"owed":2} | 0
H; DELIVER; DELIVER | {"client":0,"lost":true}; {"at":3,"fault":"NoSuchSession"} | 3
H; SHOW1 | {"at":2,"fault":"NoSuchClient"} | 3
H; C | {"at":2,"fault":"UnknownEvent"} | 3
H; {"client":0,"diff":{"page:q":["remove"]},"do":"edit"} | {"at":2,"fault":"NoRecord page:q"} | 3
H; SHOW | NEW; {"at":3,"fault":"Unended"} | 3
SHOW | {"at":1,"fault":"NoHeader"} | 3
"#;

// What a server of a room writes whose worker has no link.
const SERVED: &str =
    r#"{"ended":0,"faults":0,"links":0,"memory":0,"worker":0}; {"clock":0,"doc":{},"presence":{},"room":0}"#;

// Two connected clients, of which the first put a page and a shape, and was answered; the second was told.
const BASE: &str =
    r#"H; C; C; OPEN; OPEN1; {"client":0,"diff":{"page:p":["put",PAGE],"shape:a":["put",GEO100,SIDE0,"y":0}]},"do":"edit"}; HANDLE; SEND; DELIVER; SEND1; DELIVER1"#;

// The texts of names that stand in lines: a document and its page, a shape up to its opacity and from there up to its x, and
// a schema.
const PARTS: [(&str, &str); 5] = [
    ("DOC", r#"{"page:p":PAGE}"#),
    (
        "PAGE",
        r#"{"id":"page:p","index":"a0","meta":{},"name":"P","typeName":"page"}"#,
    ),
    (
        "GEO",
        r#"{"id":"shape:a","index":"a0","isLocked":false,"meta":{},"opacity":"#,
    ),
    (
        "SIDE",
        r#""parentId":"page:p","props":{"color":"black","dash":"draw","fill":"none","geo":"rectangle","h":10,"size":"m","text":"","w":10},"rotation":0,"type":"geo","typeName":"shape","x":"#,
    ),
    (
        "SCHEMA",
        r#"{"schemaVersion":2,"sequences":{"rooms.base":1,"rooms.binding":1,"rooms.shape":2}}"#,
    ),
];

// A line by its short name, or the line itself.
pub(crate) fn line(name: &str) -> &str {
    match name {
        "H" => r#"{"recording":1,"version":3}"#,
        "C" => r#"{"do":"client","version":3}"#,
        "SHOW" => r#"{"client":0,"do":"show"}"#,
        "END" => r#"{"do":"end"}"#,
        "CONNECT" => r#"{"client":0,"do":"connect","readonly":false}"#,
        "HANDLE" => r#"{"do":"handle","session":0}"#,
        "SEND" => r#"{"do":"send","session":0}"#,
        "DELIVER" => r#"{"client":0,"do":"deliver"}"#,
        "LOSE" => r#"{"do":"lose","session":0}"#,
        "PUT" => r#"{"client":0,"diff":{"page:p":["put",PAGE]},"do":"edit"}"#,
        "CONNECT1" => r#"{"client":1,"do":"connect","readonly":false}"#,
        "HANDLE1" => r#"{"do":"handle","session":1}"#,
        "SEND1" => r#"{"do":"send","session":1}"#,
        "DELIVER1" => r#"{"client":1,"do":"deliver"}"#,
        "SHOW1" => r#"{"client":1,"do":"show"}"#,
        "ASK" =>
            r#"{"from":0,"message":{"connectRequestId":"0","lastServerClock":-1,"protocolVersion":2,"schema":SCHEMA,"type":"connect"}}"#,
        "ASK1" =>
            r#"{"from":1,"message":{"connectRequestId":"1","lastServerClock":-1,"protocolVersion":2,"schema":SCHEMA,"type":"connect"}}"#,
        "ANSWER" =>
            r#"{"message":{"connectRequestId":"0","diff":{},"hydrationType":"wipe_all","isReadonly":false,"protocolVersion":2,"schema":SCHEMA,"serverClock":0,"type":"connect"},"to":0}"#,
        "ANSWER1" =>
            r#"{"message":{"connectRequestId":"1","diff":{},"hydrationType":"wipe_all","isReadonly":false,"protocolVersion":2,"schema":SCHEMA,"serverClock":0,"type":"connect"},"to":1}"#,
        "COMMIT" =>
            r#"{"message":{"data":[{"action":"commit","clientClock":1,"serverClock":1,"type":"push_result"}],"type":"data"},"to":0}"#,
        "SAVED" =>
            r#"{"clock":1,"documents":[{"lastChangedClock":1,"state":PAGE}],"schema":SCHEMA,"tombstoneHistoryStartsAtClock":0,"tombstones":{}}"#,
        "QUERY" => r#"{"client":0,"do":"query","type":"shape","where":["eq","type","draw"]}"#,
        "COUNT" => r#"{"client":0,"do":"watch","view":{"count":"page:p"}}"#,
        // A page with a frame at x 10, and a shape in it that begins 200 behind the frame's left edge.
        "FRAMED" =>
            r#"{"client":0,"diff":{"page:p":["put",PAGE],"shape:a":["put",{"id":"shape:a","index":"a0","isLocked":false,"meta":{},"opacity":100,"parentId":"shape:f","props":{"color":"black","dash":"draw","fill":"none","geo":"rectangle","h":10,"size":"m","text":"","w":10},"rotation":0,"type":"geo","typeName":"shape","x":200,"y":0}],"shape:f":["put",{"id":"shape:f","index":"a0","isLocked":false,"meta":{},"opacity":100,"parentId":"page:p","props":{"h":50,"name":"F","w":100},"rotation":0,"type":"frame","typeName":"shape","x":10,"y":0}]},"do":"edit"}"#,
        "NEW" => r#"{"clock":-1,"doc":{},"others":{},"owed":0,"show":0}"#,
        "ENDED" => r#"{"clock":0,"doc":{},"end":true,"presence":{}}"#,
        _ => name,
    }
}

// Lines by their short names, each with a newline.
pub(crate) fn lines(alloc: Global, names: &str) -> Result<String, Fail> {
    let mut text = String::new(alloc);
    if names.is_empty() {
        return Ok(text);
    }
    let names = names.replace(alloc, "BASE", BASE)?;
    let names = names
        .as_str()
        .replace(alloc, "OPEN1", "CONNECT1; HANDLE1; SEND1; DELIVER1")?;
    let names = names
        .as_str()
        .replace(alloc, "OPEN", "CONNECT; HANDLE; SEND; DELIVER")?;
    for name in names.as_str().split("; ") {
        text.push_str(line(name))?;
        text.push('\n')?;
    }
    for (name, part) in PARTS {
        text = text.as_str().replace(alloc, name, part)?;
    }
    Ok(text)
}

fn run_counted<R: Threads + Wait + Sync, S: Source, K: Sink, A: Accept + Send, L: Ledger>(
    rt: &R,
    alloc: Global,
    words: &[String],
    source: &mut S,
    sink: &mut K,
    workers: &mut Vec<A>,
    blank: Blank,
) -> u8
where
    A::Link: Send,
    requires name { blank.name ≡ L.name }
    requires parts { blank.parts ≡ L.parts }
    requires some { 0 < blank.parts }
    requires numbered { vec_len workers.old < 2 ^ 32 }
{
    run::<R, S, K, A, OpenGate, L>(
        rt,
        alloc,
        words,
        source,
        sink,
        workers,
        &OpenGate,
        &mut Steps::<L>::new(blank),
    )
}

// Runs over a source and a sink, and workers, with the words that are parted by spaces.
fn run_for<R: Threads + Wait + Sync, S: Source, K: Sink, A: Accept + Send>(
    rt: &R,
    alloc: Global,
    words: &str,
    source: &mut S,
    sink: &mut K,
    workers: &mut Vec<A>,
) -> Result<u8, OutOfMemory>
where
    A::Link: Send,
    requires numbered { vec_len workers.old < 2 ^ 32 }
{
    let mut all = Vec::new(alloc);
    for word in words.split_whitespace() {
        all.push(String::from_str(alloc, word)?)?;
    }
    Ok(run_counted::<R, S, K, A, Brand>(rt, alloc, &all, source, sink, workers, Blank::new(1)))
}

// The same without a worker.
pub(crate) fn run_words<R: Threads + Wait + Sync, S: Source, K: Sink>(
    rt: &R,
    alloc: Global,
    words: &str,
    source: &mut S,
    sink: &mut K,
) -> Result<u8, OutOfMemory> {
    let mut workers = Vec::new(alloc);
    run_for::<R, S, K, SteadyAccept<SteadyLink>>(rt, alloc, words, source, sink, &mut workers)
}

// Replays a recording that comes and goes so many bytes at a time, and asserts what it writes and
// the status.
pub(crate) fn replays<R: Abort + Threads + Wait + Sync>(
    rt: &R,
    alloc: Global,
    words: &str,
    recording: &str,
    most: usize,
    written: &str,
    status: u8,
) -> Result<(), Fail>
    requires { 0 < most }
{
    let mut source = SteadySource::new(recording.as_bytes().to_vec(alloc)?, most);
    let mut sink = SteadySink::new(alloc, most);
    let got = run_words(rt, alloc, words, &mut source, &mut sink)?;
    assert!(rt; sink.is_whole());
    assert_eq!(rt; sink.bytes(), written.as_bytes());
    assert_eq!(rt; got, status);
    Ok(())
}

// Replays each recording of a table, whole and cut at each byte.
fn replays_table<R: Abort + Threads + Wait + Sync>(
    rt: &R,
    alloc: Global,
    words: &str,
    table: &str,
) -> Result<(), Fail> {
    for row in table.lines() {
        let mut cells = row.split(" | ");
        let recording = lines(alloc, cells.next().unwrap_or(""))?;
        let written = lines(alloc, cells.next().unwrap_or(""))?;
        if let Some(status) = cells.next() {
            let status = status.parse::<u8>()?;
            for most in [1usize, 7, 65_536] {
                replays(
                    rt,
                    alloc,
                    words,
                    recording.as_str(),
                    most,
                    written.as_str(),
                    status,
                )?;
            }
        }
    }
    Ok(())
}

#[test]
fn replays_recordings(rt: HostRuntime) -> Result<(), Fail> {
    replays_table(&rt, rt.alloc(), "replay", REPLAYS)
}

#[test]
fn traces_messages(rt: HostRuntime) -> Result<(), Fail> {
    replays_table(&rt, rt.alloc(), "replay --trace", TRACES)
}

#[test]
fn saves_rooms(rt: HostRuntime) -> Result<(), Fail> {
    replays_table(&rt, rt.alloc(), "replay --save", SAVES)
}

#[test]
fn restores_rooms(rt: HostRuntime) -> Result<(), Fail> {
    replays_table(&rt, rt.alloc(), "restore", RESTORES)
}

#[test]
fn joins_over_a_link_that_has_ended(rt: HostRuntime) -> Result<(), Fail> {
    replays_table(&rt, rt.alloc(), "join 1 0", JOINS)
}

// A saved room whose line is filled with blanks up to this length in bytes, and an empty recording.
fn saved_of_length(alloc: Global, length: usize) -> Result<String, Fail> {
    let mut text = lines(alloc, "SAVED")?;
    let _ = text.pop();
    for _ in text.len()..length {
        text.push(' ')?;
    }
    text.push('\n')?;
    text.push_str(lines(alloc, "H; END")?.as_str())?;
    Ok(text)
}

#[test]
fn refuses_a_saved_room_that_is_too_long(rt: HostRuntime) -> Result<(), Fail> {
    let alloc = rt.alloc();
    let longest = saved_of_length(alloc, 1 << 26)?;
    let ended = lines(alloc, r#"{"clock":1,"doc":DOC,"end":true,"presence":{}}"#)?;
    replays(
        &rt,
        alloc,
        "restore",
        longest.as_str(),
        65_536,
        ended.as_str(),
        0,
    )?;
    let longer = saved_of_length(alloc, (1 << 26) + 1)?;
    let fault = lines(alloc, r#"{"at":1,"fault":"LineTooLong"}"#)?;
    replays(
        &rt,
        alloc,
        "restore",
        longer.as_str(),
        65_536,
        fault.as_str(),
        3,
    )
}

// A recording of which one line has so many blanks, with no newline at its end.
fn with_blanks(alloc: Global, blanks: usize) -> Result<String, Fail> {
    let mut recording = lines(alloc, "H")?;
    for _ in 0..blanks {
        recording.push(' ')?;
    }
    recording.push_str("\n{\"do\":\"end\"}")?;
    Ok(recording)
}

#[test]
fn refuses_a_line_that_is_too_long(rt: HostRuntime) -> Result<(), Fail> {
    let alloc = rt.alloc();
    let longest = with_blanks(alloc, 1 << 20)?;
    let ended = lines(alloc, "ENDED")?;
    replays(
        &rt,
        alloc,
        "replay",
        longest.as_str(),
        65_536,
        ended.as_str(),
        0,
    )?;
    let longer = with_blanks(alloc, (1 << 20) + 1)?;
    let fault = lines(alloc, r#"{"at":2,"fault":"LineTooLong"}"#)?;
    replays(
        &rt,
        alloc,
        "replay",
        longer.as_str(),
        65_536,
        fault.as_str(),
        3,
    )
}

// The n-th of the keys that come one behind the other, from 0: `a0` to `az`, then `b00` on.
pub(crate) fn nth_key(alloc: Global, n: usize) -> Result<String, Fail> {
    let mut key = String::from_str(alloc, if n < 62 { "a" } else { "b" })?;
    if 62 <= n {
        key.push(digit((n - 62) / 62))?;
        key.push(digit((n - 62) % 62))?;
    } else {
        key.push(digit(n))?;
    }
    Ok(key)
}

// A digit of keys, by its value below 62.
fn digit(value: usize) -> char {
    "0123456789ABCDEFGHIJKLMNOPQRSTUVWXYZabcdefghijklmnopqrstuvwxyz"
        .chars()
        .nth(value)
        .unwrap_or('0')
}

// The id of the n-th of 1,000 shapes.
pub(crate) fn nth_id(alloc: Global, n: usize) -> Result<String, Fail> {
    Ok(format!(in alloc; "shape:s{}{}{}", n / 100, n / 10 % 10, n % 10)?)
}

// The n-th of 1,000 geo shapes, with this x, and with this text of its index, which may be empty.
pub(crate) fn nth_shape(alloc: Global, n: usize, index: &str, x: u32) -> Result<String, Fail> {
    let id = nth_id(alloc, n)?;
    Ok(format!(in alloc;
        r#"{{"id":"{}",{index}"isLocked":false,"meta":{{}},"opacity":100,"parentId":"page:p","props":{{"color":"black","dash":"draw","fill":"none","geo":"rectangle","h":10,"size":"m","text":"","w":10}},"rotation":0,"type":"geo","typeName":"shape","x":{x},"y":0}}"#,
        id.as_str()
    )?)
}

// A client that counts the shapes of a page puts it with 100 shapes, which is handled, sent and delivered.
fn hundred_put(alloc: Global) -> Result<String, Fail> {
    let mut text = lines(alloc, "H; C; COUNT; OPEN")?;
    text.push_str(
        lines(alloc, r#"{"client":0,"diff":{"page:p":["put",PAGE]"#)?
            .as_str()
            .trim_end(),
    )?;
    for n in 0..100usize {
        let id = nth_id(alloc, n)?;
        let shape = nth_shape(alloc, n, "", 0)?;
        text.push_str(format!(in alloc;
            r#","{}":["put",{}]"#,
            id.as_str(),
            shape.as_str()
        )?.as_str())?;
    }
    text.push_str("},\"do\":\"edit\"}\n")?;
    text.push_str(lines(alloc, "HANDLE; SEND; DELIVER")?.as_str())?;
    Ok(text)
}

// The line by which that client moves the n-th shape to this x.
fn move_to(alloc: Global, n: usize, x: u32) -> Result<String, Fail> {
    let id = nth_id(alloc, n)?;
    Ok(format!(in alloc;
        "{{\"client\":0,\"diff\":{{\"{}\":[\"patch\",{{\"x\":[\"put\",{x}]}}]}},\"do\":\"edit\"}}\n",
        id.as_str()
    )?)
}

// The client moves the first of its shapes so many times; each edit is handled, sent and delivered.
fn many_moves(alloc: Global, moves: u32) -> Result<String, Fail> {
    let mut text = hundred_put(alloc)?;
    let sync = lines(alloc, "HANDLE; SEND; DELIVER")?;
    for x in 1..=moves {
        text.push_str(move_to(alloc, 0, x)?.as_str())?;
        text.push_str(sync.as_str())?;
    }
    text.push_str(lines(alloc, "END")?.as_str())?;
    Ok(text)
}

// The client moves each of its shapes so many times, in turn, and shows what it has before the first of these edits is
// handled, and once all are answered. Before each is handled another client moves the first shape to x 7, which comes to the
// client with the answer.
fn many_pending(alloc: Global, rounds: u32) -> Result<String, Fail> {
    let mut text = hundred_put(alloc)?;
    text.push_str(lines(alloc, "C; OPEN1")?.as_str())?;
    let mut answers = lines(alloc, "SHOW")?;
    let answer = lines(
        alloc,
        r#"{"client":1,"diff":{"shape:s000":["patch",{"x":["put",7]}]},"do":"edit"}; HANDLE1; HANDLE; SEND; DELIVER; SEND1; DELIVER1"#,
    )?;
    for x in 1..=rounds {
        for n in 0..100usize {
            text.push_str(move_to(alloc, n, x)?.as_str())?;
            answers.push_str(answer.as_str())?;
        }
    }
    text.push_str(answers.as_str())?;
    text.push_str(lines(alloc, "SHOW; END")?.as_str())?;
    Ok(text)
}

// What its view tells: the counts before and after the put.
const COUNTS: &str = r#"{"client":0,"told":0,"watch":0}; {"client":0,"told":100,"watch":0}"#;

// The document with the page and its shapes, of which the first and the others have this x. Each shape has the next key.
fn hundred(alloc: Global, first: u32, others: u32) -> Result<String, Fail> {
    let mut text = String::from_str(
        alloc,
        lines(alloc, r#"{"page:p":PAGE"#)?.as_str().trim_end(),
    )?;
    for n in 0..100usize {
        let id = nth_id(alloc, n)?;
        let key = nth_key(alloc, n)?;
        let index = format!(in alloc; "\"index\":\"{}\",", key.as_str())?;
        let shape = nth_shape(
            alloc,
            n,
            index.as_str(),
            if n == 0 { first } else { others },
        )?;
        text.push_str(format!(in alloc; ",\"{}\":{}", id.as_str(), shape.as_str())?.as_str())?;
    }
    text.push('}')?;
    Ok(text)
}

// The line of the end of a recording at this clock, whose room has this document.
fn ended_with(alloc: Global, clock: u64, document: &str) -> Result<String, Fail> {
    Ok(format!(in alloc;
        "{{\"clock\":{clock},\"doc\":{document},\"end\":true,\"presence\":{{}}}}\n"
    )?)
}

// The line of a client that shows this document at this clock, and owes so many edits.
fn shown_with(alloc: Global, clock: u64, document: &str, owed: u64) -> Result<String, Fail> {
    Ok(format!(in alloc;
        "{{\"clock\":{clock},\"doc\":{document},\"others\":{{}},\"owed\":{owed},\"show\":0}}\n"
    )?)
}

// What many moves write: the counts, and the room at the end, whose clock is one more than the moves.
fn output_of_moves(alloc: Global, moves: u32) -> Result<String, Fail> {
    let mut text = lines(alloc, COUNTS)?;
    let document = hundred(alloc, moves, 0)?;
    let clock = u64::from(moves) + 1;
    text.push_str(ended_with(alloc, clock, document.as_str())?.as_str())?;
    Ok(text)
}

// What many pending moves write: the counts, the client with all of them pending and with none, and the room at the end,
// whose clock is raised by the other client too. That moves the first shape last.
fn output_of_pending(alloc: Global, rounds: u32) -> Result<String, Fail> {
    let mut text = lines(alloc, COUNTS)?;
    let before = hundred(alloc, rounds, rounds)?;
    let after = hundred(alloc, 7, rounds)?;
    let moves = u64::from(rounds).saturating_mul(100);
    let clock = moves.saturating_mul(2).saturating_add(1);
    text.push_str(shown_with(alloc, 1, before.as_str(), moves)?.as_str())?;
    text.push_str(shown_with(alloc, clock, after.as_str(), 0)?.as_str())?;
    text.push_str(ended_with(alloc, clock, after.as_str())?.as_str())?;
    Ok(text)
}

// A body that goes over the events before at each event doesn't end in a test's time.
#[test]
fn replays_twenty_thousand_moves(rt: HostRuntime) -> Result<(), Fail> {
    let alloc = rt.alloc();
    let recording = many_moves(alloc, 20_000)?;
    let written = output_of_moves(alloc, 20_000)?;
    replays(
        &rt,
        alloc,
        "replay",
        recording.as_str(),
        65_536,
        written.as_str(),
        0,
    )
}

// A body that replays all that is pending at each message doesn't end in a test's time.
#[test]
fn replays_answers_to_four_thousand_pending_moves(rt: HostRuntime) -> Result<(), Fail> {
    let alloc = rt.alloc();
    let recording = many_pending(alloc, 40)?;
    let written = output_of_pending(alloc, 40)?;
    replays(
        &rt,
        alloc,
        "replay",
        recording.as_str(),
        65_536,
        written.as_str(),
        0,
    )
}

#[test]
fn ends_where_a_write_fails(rt: HostRuntime) -> Result<(), Fail> {
    let alloc = rt.alloc();
    let recording = lines(alloc, "H; C; SHOW; END")?;
    let mut source = SteadySource::new(recording.as_bytes().to_vec(alloc)?, 4096);
    let mut sink = MemorySink {
        sink: SteadySink::new(alloc, 4096),
        script: Script::new([1u64].to_vec(alloc)?),
    };
    assert_eq!(rt; run_words(&rt, alloc, "replay", &mut source, &mut sink)?, 5);
    assert_eq!(rt; sink.sink.bytes(), lines(alloc, "NEW")?.as_bytes());
    Ok(())
}

// Runs with a worker that has no link, and of which a call fails: the status.
fn works<R: Threads + Wait + Sync, S: Source, K: Sink>(
    rt: &R,
    alloc: Global,
    words: &str,
    call: u64,
    source: &mut S,
    sink: &mut K,
) -> Result<u8, Fail> {
    let mut workers = Vec::new(alloc);
    workers.push(MemoryAccept {
        accept: SteadyAccept::<SteadyLink>::new(alloc),
        script: Script::new([call].to_vec(alloc)?),
    })?;
    Ok(run_for(rt, alloc, words, source, sink, &mut workers)?)
}

// Serves a room so: the status.
fn serves<R: Threads + Wait + Sync, K: Sink>(
    rt: &R,
    alloc: Global,
    call: u64,
    sink: &mut K,
) -> Result<u8, Fail> {
    let mut source = SteadySource::new(Vec::new(alloc), 4096);
    works(rt, alloc, "serve 65535 1 1 1", call, &mut source, sink)
}

#[test]
fn ends_where_a_worker_fails(rt: HostRuntime) -> Result<(), Fail> {
    let alloc = rt.alloc();
    let written = lines(alloc, SERVED)?;
    for (call, status) in [(0u64, 7u8), (1, 0)] {
        let mut sink = SteadySink::new(alloc, 4096);
        assert_eq!(rt; serves(&rt, alloc, call, &mut sink)?, status);
        assert_eq!(rt; sink.bytes(), written.as_bytes());
    }
    Ok(())
}

// A client whose worker fails reads and writes nothing; where it has no link left, the script is played over one that has
// ended.
#[test]
fn joins_by_a_worker_that_fails(rt: HostRuntime) -> Result<(), Fail> {
    let alloc = rt.alloc();
    let script = lines(alloc, "H; DELIVER; END")?;
    let written = lines(
        alloc,
        r#"{"client":0,"lost":true}; {"clock":-1,"end":true,"owed":0}"#,
    )?;
    for (call, status, written) in [(0u64, 7u8, ""), (1, 0, written.as_str())] {
        let mut source = SteadySource::new(script.as_bytes().to_vec(alloc)?, 4096);
        let mut sink = SteadySink::new(alloc, 4096);
        assert_eq!(rt;
            works(&rt, alloc, "join 1 0", call, &mut source, &mut sink)?,
            status
        );
        assert_eq!(rt; sink.bytes(), written.as_bytes());
    }
    Ok(())
}

#[test]
fn serves_up_to_a_write_that_fails(rt: HostRuntime) -> Result<(), Fail> {
    let alloc = rt.alloc();
    let mut sink = MemorySink {
        sink: SteadySink::new(alloc, 4096),
        script: Script::new([1u64].to_vec(alloc)?),
    };
    assert_eq!(rt; serves(&rt, alloc, 1, &mut sink)?, 5);
    let front = SERVED.split("; ").next().unwrap_or("");
    assert_eq!(rt; sink.sink.bytes(), lines(alloc, front)?.as_bytes());
    Ok(())
}

// Replays a recording that comes 28 bytes at a time, and of which a read fails.
fn ends_at_read<R: Abort + Threads + Wait + Sync>(
    rt: &R,
    alloc: Global,
    read: u64,
    recording: &str,
    written: &str,
) -> Result<(), Fail> {
    let recording = lines(alloc, recording)?;
    let mut source = MemorySource {
        source: SteadySource::new(recording.as_bytes().to_vec(alloc)?, 28),
        script: Script::new([read].to_vec(alloc)?),
    };
    let mut sink = SteadySink::new(alloc, 4096);
    assert_eq!(rt; run_words(rt, alloc, "replay", &mut source, &mut sink)?, 4);
    assert_eq!(rt; sink.bytes(), lines(alloc, written)?.as_bytes());
    Ok(())
}

#[test]
fn ends_where_a_read_fails(rt: HostRuntime) -> Result<(), Fail> {
    let alloc = rt.alloc();
    // The header and the client have 28 bytes each, and a show has fewer.
    ends_at_read(&rt, alloc, 0, "H; C; SHOW; END", "")?;
    ends_at_read(&rt, alloc, 2, "H; C; SHOW; END", "")?;
    ends_at_read(&rt, alloc, 3, "H; C; SHOW; SHOW; END", "NEW")
}

#[test]
fn takes_no_other_words(rt: HostRuntime) -> Result<(), Fail> {
    let alloc = rt.alloc();
    let table =
        "\nreplay x\nfly\nreplay --trace --trace\n--trace\nreplay --save --trace\nrestore --save\nmake\nmake 7\nmake 0 0\nmake 0 100001\nmake 18446744073709551616 1\nmake 07 1\nmake +7 1\nmake -7 1\nmake 7 01\nmake 7 1 --trace\nmake 7 1 --print --print\nserve\nserve 1 1 1\nserve 0 1 1 1\nserve 65536 1 1 1\nserve 1 0 1 1\nserve 1 17 1 1\nserve 1 1 0 1\nserve 1 1 17 1\nserve 1 1 1 0\nserve 1 1 1 1000001\nserve 01 1 1 1\nserve 1 1 1 1 1\njoin\njoin 1\njoin 0 0\njoin 65536 0\njoin 1 16\njoin 1 00\njoin 1 +1\njoin 1 0 0\n--help";
    for words in table.split('\n') {
        let mut source = SteadySource::new(b"{}".to_vec(alloc)?, 4096);
        let mut sink = SteadySink::new(alloc, 4096);
        assert_eq!(rt; run_words(&rt, alloc, words, &mut source, &mut sink)?, 2);
        assert_eq!(rt; sink.bytes(), b"".as_slice());
    }
    Ok(())
}

// What is written of a recording that the words make.
fn output_of<R: Abort + Threads + Wait + Sync>(
    rt: &R,
    alloc: Global,
    words: &str,
) -> Result<String, Fail> {
    let mut source = SteadySource::new(Vec::new(alloc), 4096);
    let mut sink = SteadySink::new(alloc, 65_536);
    assert_eq!(rt; run_words(rt, alloc, words, &mut source, &mut sink)?, 0);
    assert!(rt; sink.is_whole());
    Ok(String::from_utf8(sink.bytes().to_vec(alloc)?)?)
}

// The first field of the last line.
fn last_first_field(text: &str) -> &str {
    let line = text.lines().last().unwrap_or("");
    line.split(",").next().unwrap_or("")
}

#[test]
fn makes_what_it_sums_up(rt: HostRuntime) -> Result<(), Fail> {
    let alloc = rt.alloc();
    let sum = output_of(&rt, alloc, "make 7 2000")?;
    assert_eq!(rt; sum.as_str().lines().count(), 1);
    assert!(rt; sum.as_str().contains(",\"draws\":2000,\"records\":"));
    let recording = output_of(&rt, alloc, "make 7 2000 --print")?;
    assert!(rt;
        recording
            .as_str()
            .starts_with("{\"recording\":1,\"version\":3}\n")
    );
    assert!(rt; recording.as_str().ends_with("{\"do\":\"end\"}\n"));
    let mut source = SteadySource::new(recording.into_bytes(), 65_536);
    let mut sink = SteadySink::new(alloc, 65_536);
    assert_eq!(rt; run_words(&rt, alloc, "replay", &mut source, &mut sink)?, 0);
    let replayed = String::from_utf8(sink.bytes().to_vec(alloc)?)?;
    assert_eq!(rt;
        last_first_field(replayed.as_str()),
        last_first_field(sum.as_str())
    );
    Ok(())
}

#[test]
fn makes_by_the_least_and_the_greatest_seed(rt: HostRuntime) -> Result<(), Fail> {
    let alloc = rt.alloc();
    for words in ["make 0 1", "make 18446744073709551615 50"] {
        assert_eq!(rt; output_of(&rt, alloc, words)?.as_str().lines().count(), 1);
    }
    Ok(())
}
