//! The lines of recordings: what events and headers are read as, and which lines are none.
use crate::tables::{Reading, plays};
use rec_format::{LineFault, print_recorded, read_header, read_line};
use rooms_val::{Mem, ValFault};
use std::alloc::Global;
use std::test::Fail;

// A line of each form of event, as it is printed.
const EVENTS: &str = r#"
{"do":"client","version":1}
{"do":"client","version":2}
{"do":"client","version":3}
{"client":0,"do":"connect","readonly":false}
{"client":63,"do":"connect","readonly":true}
{"client":0,"diff":{},"do":"edit"}
{"client":1,"diff":{"page:a":["put",{"id":"page:a"}],"page:b":["remove"]},"do":"edit"}
{"client":1,"diff":{"page:a":["patch",{"x":["append",[1],0],"y":["delete"]}]},"do":"edit"}
{"client":2,"do":"presence","record":null}
{"client":2,"do":"presence","record":{"id":"instance_presence:a"}}
{"client":3,"do":"mark","name":""}
{"client":3,"do":"mark","name":"m\n\"1\""}
{"client":4,"do":"undo"}
{"client":5,"do":"redo"}
{"client":6,"do":"bail","name":"m"}
{"do":"handle","session":0}
{"do":"send","session":4095}
{"client":7,"do":"deliver"}
{"client":8,"do":"cut"}
{"do":"lose","session":9007199254740991}
{"client":0,"do":"watch","view":{"box":"shape:a"}}
{"client":63,"do":"watch","view":{"count":""}}
{"client":0,"do":"query","type":"shape","where":["eq","x",0]}
{"client":9,"do":"query","type":"","where":["not",["and",[["gt","x",-1],["or",[]]]]]}
{"client":9007199254740991,"do":"show"}
{"do":"end"}
"#;

// Events as they are printed, each before another line that stands for it.
const WRITTEN_OTHERWISE: &str = r#"
{"client":7,"do":"connect","readonly":true} |  { "readonly" :true, "do":"connect","client":7}
{"do":"end"} | {"do":"show","do":"end"}
{"client":0,"do":"mark","name":"e"} | {"name":"\u0065","do":"mark","client":0}
{"client":1,"do":"watch","view":{"tree":"page:a"}} | {"view": {"tree":"page:\u0061"},"do":"watch","client":1}
{"client":1,"do":"query","type":"page","where":["or",[]]} | {"where":[ "or" ,[ ]],"type":"page","do":"query","client":1}
"#;

// Lines that are no event, each after the fault that is answered.
const REFUSED: &str = r#"
NotWhole | {"client":1.5,"do":"show"}
NotWhole | {"client":1e2,"do":"show"}
OutOfRange | {"client":9007199254740992,"do":"show"}
OutOfRange | {"client":-9007199254740992,"do":"fly"}
BadJson | {"do":"sh
BadJson | {"do":"end"} {"do":"end"}
BadJson | {"do":"end",}
UnknownEvent | {"do":"fly"}
UnknownEvent | {"do":""}
UnknownEvent | {"do":"End"}
UnknownEvent | {"do":"shown","client":0}
UnknownEvent | {"client":-1,"do":"fly","x":[]}
UnknownEvent | {"client":0,"do":"watches","view":{"tree":"page:a"}}
UnknownEvent | {"client":0,"do":"Query","type":"shape","where":["or",[]]}
Field | {"recording":1,"version":3}
Field | []
Field | null
Field | "end"
Field | {}
Field | {"do":null}
Field | {"do":1}
Field | {"do":["end"]}
Field | {"client":0}
Field | {"do":"client"}
Field | {"do":"client","version":0}
Field | {"do":"client","version":6}
Field | {"do":"client","version":-1}
Field | {"do":"client","version":4294967297}
Field | {"do":"client","version":"3"}
Field | {"do":"client","versions":3}
Field | {"client":0,"do":"client","version":3}
Field | {"do":"client","readonly":false,"version":3}
Field | {"client":0,"do":"connect"}
Field | {"do":"connect","readonly":false}
Field | {"client":-1,"do":"connect","readonly":false}
Field | {"client":0,"do":"connect","readonly":0}
Field | {"client":0,"do":"connect","readonly":null}
Field | {"client":0,"do":"connect","readonly":false,"version":3}
Field | {"client":0,"do":"edit"}
Field | {"diff":{},"do":"edit"}
Field | {"client":"0","diff":{},"do":"edit"}
Field | {"client":0,"diff":[],"do":"edit"}
Field | {"client":0,"diff":{"page:a":["delete"]},"do":"edit"}
Field | {"client":0,"diff":{"page:a":["put"]},"do":"edit"}
Field | {"client":0,"diff":{"page:a":["patch",{"x":["append",[],-1]}]},"do":"edit"}
Field | {"client":0,"diff":{},"do":"edit","name":""}
Field | {"client":0,"do":"presence"}
Field | {"do":"presence","record":{}}
Field | {"client":null,"do":"presence","record":{}}
Field | {"client":0,"do":"presence","name":"","record":{}}
Field | {"client":0,"do":"mark"}
Field | {"do":"mark","name":"m"}
Field | {"client":0,"do":"mark","name":1}
Field | {"client":[],"do":"mark","name":"m"}
Field | {"client":0,"do":"mark","name":"m","session":0}
Field | {"client":0,"do":"bail"}
Field | {"do":"bail","name":"m"}
Field | {"client":0,"do":"bail","name":null}
Field | {"client":-1,"do":"bail","name":"m"}
Field | {"client":0,"do":"bail","name":"m","names":[]}
Field | {"do":"undo"}
Field | {"client":-1,"do":"undo"}
Field | {"client":0,"do":"undo","name":"m"}
Field | {"do":"redo"}
Field | {"client":true,"do":"redo"}
Field | {"client":0,"do":"redo","done":true}
Field | {"do":"handle"}
Field | {"do":"handle","session":-1}
Field | {"client":0,"do":"handle"}
Field | {"client":0,"do":"handle","session":0}
Field | {"do":"send"}
Field | {"do":"send","session":"0"}
Field | {"do":"send","session":0,"to":0}
Field | {"do":"lose"}
Field | {"do":"lose","session":{}}
Field | {"client":0,"do":"lose","session":0}
Field | {"do":"deliver"}
Field | {"do":"deliver","session":0}
Field | {"client":false,"do":"deliver"}
Field | {"client":0,"do":"deliver","session":0}
Field | {"do":"cut"}
Field | {"client":"","do":"cut"}
Field | {"client":0,"do":"cut","session":0}
Field | {"client":0,"do":"watch"}
Field | {"do":"watch","view":{"tree":"page:a"}}
Field | {"client":0,"do":"watch","view":{}}
Field | {"client":0,"do":"watch","view":"page:a"}
Field | {"client":-1,"do":"watch","view":{"tree":"page:a"}}
Field | {"client":0,"do":"watch","tree":"page:a"}
Field | {"client":0,"do":"watch","views":{"tree":"page:a"}}
Field | {"client":0,"do":"watch","view":{"tree":"page:a"},"watch":0}
Field | {"client":0,"do":"query"}
Field | {"client":0,"do":"query","type":"shape"}
Field | {"client":0,"do":"query","where":["or",[]]}
Field | {"do":"query","type":"shape","where":["or",[]]}
Field | {"client":0,"do":"query","type":null,"where":["or",[]]}
Field | {"client":0,"do":"query","type":"shape","where":{}}
Field | {"client":0,"do":"query","type":"shape","where":["or"]}
Field | {"client":"0","do":"query","type":"shape","where":["or",[]]}
Field | {"client":0,"do":"query","query":true,"type":"shape","where":["or",[]]}
Field | {"do":"show"}
Field | {"client":-1,"do":"show"}
Field | {"client":0,"do":"show","end":true}
Field | {"client":0,"do":"end"}
Field | {"do":"end","end":true}
"#;

// Headers, each after its version.
const HEADERS: &str = r#"
1 | {"recording":1,"version":1}
2 | {"recording":1,"version":2}
3 |  { "version":3,"recording":1 }
5 | {"recording":1,"version":5}
"#;

// Lines that are no header, each after the fault that is answered.
const NO_HEADERS: &str = r#"
NoHeader | {}
NoHeader | []
NoHeader | 1
NoHeader | {"recording":1}
NoHeader | {"version":3}
NoHeader | {"recording":2,"version":3}
NoHeader | {"recording":"1","version":3}
NoHeader | {"recording":true,"version":3}
NoHeader | {"recording":1,"version":0}
NoHeader | {"recording":1,"version":6}
NoHeader | {"recording":1,"version":-3}
NoHeader | {"recording":1,"version":"3"}
NoHeader | {"made":1,"recording":1,"version":3}
NoHeader | {"recording":1,"seed":1,"version":3}
NoHeader | {"recording":1,"version":3,"x":null}
NoHeader | {"do":"client","version":3}
BadJson | {"recording":1,"version":3
NotWhole | {"recording":1,"version":3.0}
OutOfRange | {"recording":1,"version":9007199254740992}
"#;

// Lines of their lengths, each after its length, and what it is as an event and as a header: `none` where it isn't refused.
// The longest line has 1,048,576 bytes.
const SIZED: &str = r#"
128 Field NoHeader | nested 64
130 TooDeep TooDeep | nested 65
1048576 none NoHeader | padded 1048564 0
1048577 LineTooLong LineTooLong | padded 1048564 1
"#;

// The name of a fault.
fn name_of(fault: LineFault) -> &'static str {
    match fault {
        LineFault::LineTooLong => "LineTooLong",
        LineFault::Val(ValFault::BadJson) => "BadJson",
        LineFault::Val(ValFault::NotWhole) => "NotWhole",
        LineFault::Val(ValFault::OutOfRange) => "OutOfRange",
        LineFault::Val(ValFault::TooDeep) => "TooDeep",
        LineFault::Val(ValFault::OutOfMemory) => "OutOfMemory",
        LineFault::NoHeader => "NoHeader",
        LineFault::UnknownEvent => "UnknownEvent",
        LineFault::Field => "Field",
        LineFault::OutOfMemory => "OutOfMemory",
    }
}

// The event of a line as it is printed, or the name of the line's fault.
pub(crate) fn event_text(alloc: Global, line: &str) -> Result<String, Fail> {
    match read_line(alloc, line.as_bytes()) {
        Ok(event) => Ok(String::from_utf8(print_recorded(alloc, &event)?)?),
        Err(fault) => Ok(String::from_str(alloc, name_of(fault))?),
    }
}

// The version of a header, or the name of the line's fault.
pub(crate) fn header_text(alloc: Global, line: &str) -> Result<String, Fail> {
    match read_header(alloc, line.as_bytes()) {
        Ok(header) => Ok(format!(in alloc; "{}", header.version)?),
        Err(fault) => Ok(String::from_str(alloc, name_of(fault))?),
    }
}

// The length of a line, and the names of what it is refused for as an event and as a header.
pub(crate) fn sized_text(alloc: Global, size: &str) -> Result<String, Fail> {
    let line = line_of_size(alloc, size)?;
    let event = event_fault(alloc, &line);
    let header = header_fault(alloc, &line);
    Ok(format!(in alloc; "{} {event} {header}", line.len())?)
}

// The name of what a line is refused for as an event.
fn event_fault(alloc: Global, line: &[u8]) -> &'static str {
    match read_line(alloc, line) {
        Ok(_) => "none",
        Err(fault) => name_of(fault),
    }
}

// The name of what a line is refused for as a header.
fn header_fault(alloc: Global, line: &[u8]) -> &'static str {
    match read_header(alloc, line) {
        Ok(_) => "none",
        Err(fault) => name_of(fault),
    }
}

// A line of some size: `nested n` is n lists, one in the other, and `padded a b` the end of a recording after a spaces and
// before b.
fn line_of_size(alloc: Global, size: &str) -> Result<Vec<u8>, Fail> {
    let (word, rest) = size.split_once(' ').unwrap_or((size, ""));
    let mut line = Vec::new(alloc);
    if word == "nested" {
        let levels = rest.parse::<u32>()?;
        add(&mut line, b'[', levels)?;
        add(&mut line, b']', levels)?;
        return Ok(line);
    }
    let (before, after) = rest.split_once(' ').unwrap_or((rest, ""));
    add(&mut line, b' ', before.parse::<u32>()?)?;
    line.extend_from_slice(br#"{"do":"end"}"#)?;
    add(&mut line, b' ', after.parse::<u32>()?)?;
    Ok(line)
}

// Adds a byte so many times.
fn add(line: &mut Vec<u8>, byte: u8, count: u32) -> Mem<()> {
    for _ in 0..count {
        line.push(byte)?;
    }
    Ok(())
}

#[test]
fn reads_and_prints_each_event(rt: HostRuntime) -> Result<(), Fail> {
    let tables = [EVENTS, WRITTEN_OTHERWISE, REFUSED];
    plays(&rt, rt.alloc(), Reading::Event, &tables)
}

#[test]
fn reads_each_header(rt: HostRuntime) -> Result<(), Fail> {
    plays(&rt, rt.alloc(), Reading::Header, &[HEADERS, NO_HEADERS])
}

#[test]
fn refuses_what_nests_too_deep_or_is_too_long(rt: HostRuntime) -> Result<(), Fail> {
    plays(&rt, rt.alloc(), Reading::Sized, &[SIZED])
}
