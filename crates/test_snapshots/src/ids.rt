//! Which record of a line is told to be at fault.
use crate::tables::{Call, plays};
use room_snapshot::{bad_id, read};
use std::alloc::Global;
use std::test::Fail;

// What is told of a line's records: nothing, or the fault of the first at fault.
const TOLD: &str = r#"
none | {"clock":1,"documents":[],"schema":{"schemaVersion":2,"sequences":{}},"tombstoneHistoryStartsAtClock":0,"tombstones":{}}
none | {"clock":1,"documents":[{"lastChangedClock":1,"state":{"id":"b"}},{"lastChangedClock":1,"state":{"id":"a"}},{"lastChangedClock":1,"state":{"id":""}}],"schema":{"schemaVersion":2,"sequences":{}},"tombstoneHistoryStartsAtClock":0,"tombstones":{"a":1}}
a | {"clock":1,"documents":[{"lastChangedClock":1,"state":{"id":"b"}},{"lastChangedClock":1,"state":{"id":"a"}},{"lastChangedClock":1,"state":{"id":"c"}},{"lastChangedClock":2,"state":{"id":"a","more":1}},{"lastChangedClock":2,"state":{"id":"b"}}],"schema":{"schemaVersion":2,"sequences":{}},"tombstoneHistoryStartsAtClock":0,"tombstones":{}}
- | {"clock":1,"documents":[{"lastChangedClock":1,"state":7}],"schema":{"schemaVersion":2,"sequences":{}},"tombstoneHistoryStartsAtClock":0,"tombstones":{}}
- | {"clock":1,"documents":[{"lastChangedClock":1,"state":{"id":"a"}},{"lastChangedClock":1,"state":{"id":7}},{"lastChangedClock":1,"state":{"id":"a"}}],"schema":{"schemaVersion":2,"sequences":{}},"tombstoneHistoryStartsAtClock":0,"tombstones":{}}
a | {"clock":1,"documents":[{"lastChangedClock":1,"state":{"id":"a"}},{"lastChangedClock":1,"state":{"id":"a"}},{"lastChangedClock":1,"state":{}}],"schema":{"schemaVersion":2,"sequences":{}},"tombstoneHistoryStartsAtClock":0,"tombstones":{}}
"#;

// The fault that is told of a line's records, or `none`.
pub(crate) fn told_text(alloc: Global, text: &str) -> Result<String, Fail> {
    let snapshot = read(alloc, text.as_bytes())?;
    match bad_id(alloc, &snapshot.saved)? {
        Some(told) => Ok(String::from_str(alloc, told.as_str())?),
        None => Ok(String::from_str(alloc, "none")?),
    }
}

#[test]
fn tells_the_first_record_at_fault(rt: HostRuntime) -> Result<(), Fail> {
    plays(&rt, rt.alloc(), Call::BadId, TOLD)
}
