//! How deep and how long a line may be, and lines that are cut off.
use crate::lines::fault_name;
use crate::tables::{Call, plays};
use room_snapshot::read;
use room_snapshot::snapshot::LONGEST_LINE;
use std::alloc::Global;
use std::test::Fail;

// A line.
const LINE: &str =
    r#"{"clock":1,"documents":[{"lastChangedClock":1,"state":{"id":"page:p","index":"a0","meta":{},"name":"P","typeName":"page"}}],"schema":{"schemaVersion":2,"sequences":{"rooms.base":1,"rooms.binding":1,"rooms.shape":2}},"tombstoneHistoryStartsAtClock":0,"tombstones":{}}"#;

// What stands before and after the record of a line.
const BEFORE: &str = r#"{"clock":1,"documents":[{"lastChangedClock":1,"state":"#;

const AFTER: &str =
    r#"}],"schema":{"schemaVersion":2,"sequences":{}},"tombstoneHistoryStartsAtClock":0,"tombstones":{}}"#;

// A record of so many levels, which has three above it.
const LEVELS: &str = "
Ok | 0
Ok | 61
TooDeep | 62
";

// The name of what bytes are read as.
fn name_of(alloc: Global, bytes: &[u8]) -> &'static str {
    match read(alloc, bytes) {
        Ok(_) => "Ok",
        Err(fault) => fault_name(fault),
    }
}

// What a line is read as whose record is a list of so many levels.
pub(crate) fn deep_text(alloc: Global, levels: usize) -> Result<String, Fail> {
    let mut text = String::from_str(alloc, BEFORE)?;
    for _ in 0..levels {
        text.push('[')?;
    }
    if levels == 0 {
        text.push('7')?;
    }
    for _ in 0..levels {
        text.push(']')?;
    }
    text.push_str(AFTER)?;
    Ok(String::from_str(alloc, name_of(alloc, text.as_bytes()))?)
}

// What a line is read as whose last bytes, so many, are cut off: one name for each of them.
pub(crate) fn cut_text(alloc: Global, most: usize) -> Result<String, Fail> {
    let bytes = LINE.as_bytes();
    for cut in 1..=most {
        let Some(left) = bytes.len().checked_sub(cut) else {
            return Ok(String::from_str(alloc, "too many")?);
        };
        let name = name_of(alloc, &bytes[..left]);
        if name != "BadJson" {
            return Ok(String::from_str(alloc, name)?);
        }
    }
    Ok(String::from_str(alloc, "BadJson")?)
}

// The line with blanks after it, so many bytes in all.
fn line_of_length(alloc: Global, len: usize) -> Result<Vec<u8>, Fail> {
    let mut bytes = Vec::with_capacity(alloc, len)?;
    bytes.extend_from_slice(LINE.as_bytes())?;
    bytes.resize(len, b' ')?;
    Ok(bytes)
}

#[test]
fn reads_64_levels(rt: HostRuntime) -> Result<(), Fail> {
    plays(&rt, rt.alloc(), Call::Deep, LEVELS)
}

#[test]
fn takes_no_line_that_is_cut(rt: HostRuntime) -> Result<(), Fail> {
    plays(&rt, rt.alloc(), Call::Cut, "BadJson | 50")
}

#[test]
fn refuses_a_line_of_a_byte_more(rt: HostRuntime) -> Result<(), Fail> {
    let bytes = line_of_length(rt.alloc(), LONGEST_LINE + 1)?;
    assert_eq!(rt; name_of(rt.alloc(), &bytes), "LineTooLong");
    Ok(())
}
