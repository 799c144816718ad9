//! Lines that are read and printed again, and lines that are none.
use crate::tables::{Call, plays};
use room_snapshot::{SnapFault, print, read};
use rooms_val::ValFault;
use std::alloc::Global;
use std::test::Fail;

// What is printed again, and what is wanted of another line.
const LINES: &str = r#"
{"clock":1,"documents":[{"lastChangedClock":1,"state":{"id":"page:p","index":"a0","meta":{},"name":"P","typeName":"page"}}],"schema":{"schemaVersion":2,"sequences":{"rooms.base":1,"rooms.binding":1,"rooms.shape":2}},"tombstoneHistoryStartsAtClock":0,"tombstones":{}}
{"clock":0,"documents":[],"schema":{"schemaVersion":2,"sequences":{}},"tombstoneHistoryStartsAtClock":0,"tombstones":{}}
# Nothing is asked of records, ids and clocks.
{"clock":-9007199254740991,"documents":[{"lastChangedClock":9007199254740991,"state":7},{"lastChangedClock":-1,"state":null}],"schema":{"schemaVersion":2,"sequences":{"a":0}},"tombstoneHistoryStartsAtClock":9,"tombstones":{"":3,"shape:a":-3}}
# Fields in any order, blanks, and a key that stands twice.
{"clock":2,"documents":[{"lastChangedClock":1,"state":[]}],"schema":{"schemaVersion":2,"sequences":{}},"tombstoneHistoryStartsAtClock":0,"tombstones":{"a":1,"b":2}} | {"tombstones": {"b": 2, "a": 1}, "clock": 1, "clock": 2, "schema": {"sequences": {}, "schemaVersion": 2}, "documents": [{"state": [], "lastChangedClock": 1}], "tombstoneHistoryStartsAtClock": 0}
# No JSON, and numbers that aren't taken.
BadJson | {"clock":0
BadJson | {"clock":0,"documents":[],"schema":{"schemaVersion":2,"sequences":{}},"tombstoneHistoryStartsAtClock":0,"tombstones":{}}}
NotWhole | {"clock":0.5,"documents":[],"schema":{"schemaVersion":2,"sequences":{}},"tombstoneHistoryStartsAtClock":0,"tombstones":{}}
OutOfRange | {"clock":9007199254740992,"documents":[],"schema":{"schemaVersion":2,"sequences":{}},"tombstoneHistoryStartsAtClock":0,"tombstones":{}}
OutOfRange | {"clock":0,"documents":[{"lastChangedClock":-9007199254740992,"state":7}],"schema":{"schemaVersion":2,"sequences":{}},"tombstoneHistoryStartsAtClock":0,"tombstones":{}}
# Another form.
Shape | []
Shape | {}
Shape | {"clock":0,"documents":[],"schema":{"schemaVersion":2,"sequences":{}},"tombstoneHistoryStartsAtClock":0}
Shape | {"clock":0,"documents":[],"more":0,"schema":{"schemaVersion":2,"sequences":{}},"tombstoneHistoryStartsAtClock":0,"tombstones":{}}
Shape | {"clock":"0","documents":[],"schema":{"schemaVersion":2,"sequences":{}},"tombstoneHistoryStartsAtClock":0,"tombstones":{}}
Shape | {"clock":0,"documents":{},"schema":{"schemaVersion":2,"sequences":{}},"tombstoneHistoryStartsAtClock":0,"tombstones":{}}
Shape | {"clock":0,"documents":[7],"schema":{"schemaVersion":2,"sequences":{}},"tombstoneHistoryStartsAtClock":0,"tombstones":{}}
Shape | {"clock":0,"documents":[{"lastChangedClock":1}],"schema":{"schemaVersion":2,"sequences":{}},"tombstoneHistoryStartsAtClock":0,"tombstones":{}}
Shape | {"clock":0,"documents":[{"lastChangedClock":null,"state":{}}],"schema":{"schemaVersion":2,"sequences":{}},"tombstoneHistoryStartsAtClock":0,"tombstones":{}}
Shape | {"clock":0,"documents":[{"lastChangedClock":1,"more":2,"state":{}}],"schema":{"schemaVersion":2,"sequences":{}},"tombstoneHistoryStartsAtClock":0,"tombstones":{}}
Shape | {"clock":0,"documents":[],"schema":{"schemaVersion":1,"sequences":{}},"tombstoneHistoryStartsAtClock":0,"tombstones":{}}
Shape | {"clock":0,"documents":[],"schema":{"schemaVersion":2,"sequences":{"a":-1}},"tombstoneHistoryStartsAtClock":0,"tombstones":{}}
Shape | {"clock":0,"documents":[],"schema":{"schemaVersion":2,"sequences":{}},"tombstoneHistoryStartsAtClock":null,"tombstones":{}}
Shape | {"clock":0,"documents":[],"schema":{"schemaVersion":2,"sequences":{}},"tombstoneHistoryStartsAtClock":0,"tombstones":[]}
Shape | {"clock":0,"documents":[],"schema":{"schemaVersion":2,"sequences":{}},"tombstoneHistoryStartsAtClock":0,"tombstones":{"a":"1"}}
"#;

// The name of a fault.
pub(crate) fn fault_name(fault: SnapFault) -> &'static str {
    match fault {
        SnapFault::LineTooLong => "LineTooLong",
        SnapFault::Val(ValFault::BadJson) => "BadJson",
        SnapFault::Val(ValFault::NotWhole) => "NotWhole",
        SnapFault::Val(ValFault::OutOfRange) => "OutOfRange",
        SnapFault::Val(ValFault::TooDeep) => "TooDeep",
        SnapFault::Shape => "Shape",
        SnapFault::Val(ValFault::OutOfMemory) | SnapFault::OutOfMemory => "OutOfMemory",
    }
}

// What is printed of a line that is read, or the fault's name.
pub(crate) fn line_text(alloc: Global, text: &str) -> Result<String, Fail> {
    match read(alloc, text.as_bytes()) {
        Ok(snapshot) => {
            let printed = print(alloc, &snapshot.saved, &snapshot.held)?;
            Ok(String::from_utf8(printed)?)
        }
        Err(fault) => Ok(String::from_str(alloc, fault_name(fault))?),
    }
}

#[test]
fn reads_and_prints_lines(rt: HostRuntime) -> Result<(), Fail> {
    plays(&rt, rt.alloc(), Call::Line, LINES)
}
