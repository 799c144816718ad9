//! The names of faults, and texts that nest.
use crate::tables::{Reading, plays};
use rooms_val::ValFault;
use std::alloc::Global;
use std::test::Fail;
use wire_msgs::{MsgFault, read_client, read_server};

// Texts that nest, each after what it is refused for: pushes of clients and data messages of rooms, so many levels deep.
const NESTED: &str = r#"
none | push 56
TooDeep | push 57
TooDeep | push 64
TooDeep | push 65
none | data 57
none | data 64
TooDeep | data 65
"#;

// The name of a fault.
pub(crate) fn name_of(fault: MsgFault) -> &'static str {
    match fault {
        MsgFault::Val(ValFault::BadJson) => "BadJson",
        MsgFault::Val(ValFault::NotWhole) => "NotWhole",
        MsgFault::Val(ValFault::OutOfRange) => "OutOfRange",
        MsgFault::Val(ValFault::TooDeep) => "TooDeep",
        MsgFault::Val(ValFault::OutOfMemory) => "OutOfMemory of a value",
        MsgFault::UnknownType => "UnknownType",
        MsgFault::MissingField => "MissingField",
        MsgFault::ExtraField => "ExtraField",
        MsgFault::WrongKind => "WrongKind",
        MsgFault::OutOfMemory => "OutOfMemory",
    }
}

// A push so many levels deep, of at least 3: the message, its presence, and lists in what it puts.
fn nested_push(alloc: Global, levels: usize) -> Result<Vec<u8>, Fail> {
    let mut text = Vec::new(alloc);
    text.extend_from_slice(br#"{"clientClock":1,"presence":["put","#)?;
    for _ in 2..levels {
        text.push(b'[')?;
    }
    for _ in 2..levels {
        text.push(b']')?;
    }
    text.extend_from_slice(br#"],"type":"push"}"#)?;
    Ok(text)
}

// A data message so many levels deep, of at least 6: the message, its events, one of them, its
// diff, an operation, and lists in what it puts.
fn nested_data(alloc: Global, levels: usize) -> Result<Vec<u8>, Fail> {
    let mut text = Vec::new(alloc);
    text.extend_from_slice(br#"{"data":[{"diff":{"page:a":["put","#)?;
    for _ in 5..levels {
        text.push(b'[')?;
    }
    for _ in 5..levels {
        text.push(b']')?;
    }
    text.extend_from_slice(br#"]},"serverClock":1,"type":"patch"}],"type":"data"}"#)?;
    Ok(text)
}

// The name of what a text is refused for that nests.
pub(crate) fn nested_fault(alloc: Global, depth: &str) -> Result<String, Fail> {
    let (word, levels) = depth.split_once(' ').unwrap_or((depth, ""));
    let levels = levels.parse::<usize>()?;
    let name = if word == "push" {
        client_fault(alloc, &nested_push(alloc, levels)?)
    } else {
        room_fault(alloc, &nested_data(alloc, levels)?)
    };
    Ok(String::from_str(alloc, name)?)
}

// The name of what a text is refused for as a client's.
fn client_fault(alloc: Global, text: &[u8]) -> &'static str {
    match read_client(alloc, text) {
        Ok(_) => "none",
        Err(fault) => name_of(fault),
    }
}

// The name of what a text is refused for as a room's.
fn room_fault(alloc: Global, text: &[u8]) -> &'static str {
    match read_server(alloc, text) {
        Ok(_) => "none",
        Err(fault) => name_of(fault),
    }
}

#[test]
fn reads_clients_56_deep_and_rooms_64(rt: HostRuntime) -> Result<(), Fail> {
    plays(&rt, rt.alloc(), Reading::Nested, &[NESTED])
}
