//! Lines that are brought to the schema of a version.
ghost use Rattle.std.specs.Prelude.{◌<ℤ◌, pos, ◌^◌};
ghost use Rattle.room_snapshot.specs.Ids.{HaveIds};
ghost use Rattle.room_snapshot.specs.Saved.{records_of, saved_tree};

use crate::tables::{Call, plays};
use migrate_seq::PlanFault;
use room_snapshot::{Snapshot, bad_id, print, raise, read};
use schema_core::Schema;
use std::alloc::Global;
use std::test::Fail;
use tl_tables::schema_at;

// The first clock that isn't raised.
const CLOCKS_END: i64 = 9_007_199_254_740_992;

// The line after it, the line and the version of the schema.
const RAISED: &str = r#"
# From version 1, where the records don't stand by id.
{"clock":8,"documents":[{"lastChangedClock":8,"state":{"id":"asset:i","props":{"dims":{"h":20,"w":30},"name":"i"},"typeName":"asset"}},{"lastChangedClock":8,"state":{"id":"binding:1","props":{"anchor":{"x":1,"y":2}},"typeName":"binding"}},{"lastChangedClock":8,"state":{"hidden":false,"id":"page:p","typeName":"page"}},{"lastChangedClock":8,"state":{"id":"shape:a","opacity":50,"props":{"dash":"draw","geo":"ellipse"},"type":"geo","typeName":"shape"}}],"schema":{"schemaVersion":2,"sequences":{"rooms.asset":1,"rooms.base":1,"rooms.binding":1,"rooms.page":1,"rooms.shape":2}},"tombstoneHistoryStartsAtClock":2,"tombstones":{"shape:b":3}} | {"clock":7,"documents":[{"lastChangedClock":4,"state":{"alpha":5,"id":"shape:a","props":{"geo":"oval"},"type":"geo","typeName":"shape"}},{"lastChangedClock":5,"state":{"id":"page:p","typeName":"page"}},{"lastChangedClock":6,"state":{"id":"binding:1","props":{"anchorX":1,"anchorY":2},"typeName":"binding"}},{"lastChangedClock":7,"state":{"id":"asset:i","props":{"h":20,"name":"i","w":30},"typeName":"asset"}}],"schema":{"schemaVersion":2,"sequences":{"rooms.base":1}},"tombstoneHistoryStartsAtClock":2,"tombstones":{"shape:b":3}} | 5
# From version 2.
{"clock":8,"documents":[{"lastChangedClock":8,"state":{"id":"binding:1","props":{"anchor":{"x":1,"y":2}},"typeName":"binding"}},{"lastChangedClock":8,"state":{"id":"shape:a","opacity":50,"props":{"dash":"draw","geo":"ellipse"},"type":"geo","typeName":"shape"}}],"schema":{"schemaVersion":2,"sequences":{"rooms.asset":1,"rooms.base":1,"rooms.binding":1,"rooms.page":1,"rooms.shape":2}},"tombstoneHistoryStartsAtClock":0,"tombstones":{}} | {"clock":7,"documents":[{"lastChangedClock":6,"state":{"id":"binding:1","props":{"anchorX":1,"anchorY":2},"typeName":"binding"}},{"lastChangedClock":4,"state":{"id":"shape:a","opacity":50,"props":{"geo":"oval"},"type":"geo","typeName":"shape"}}],"schema":{"schemaVersion":2,"sequences":{"rooms.base":1,"rooms.shape":1}},"tombstoneHistoryStartsAtClock":0,"tombstones":{}} | 5
# From version 3, to 5 and to 4.
{"clock":8,"documents":[{"lastChangedClock":8,"state":{"id":"asset:i","props":{"dims":{"h":20,"w":30}},"typeName":"asset"}},{"lastChangedClock":8,"state":{"hidden":false,"id":"page:p","typeName":"page"}}],"schema":{"schemaVersion":2,"sequences":{"rooms.asset":1,"rooms.base":1,"rooms.binding":1,"rooms.page":1,"rooms.shape":2}},"tombstoneHistoryStartsAtClock":0,"tombstones":{}} | {"clock":7,"documents":[{"lastChangedClock":7,"state":{"id":"asset:i","props":{"h":20,"w":30},"typeName":"asset"}},{"lastChangedClock":5,"state":{"id":"page:p","typeName":"page"}}],"schema":{"schemaVersion":2,"sequences":{"rooms.base":1,"rooms.binding":1,"rooms.shape":2}},"tombstoneHistoryStartsAtClock":0,"tombstones":{}} | 5
{"clock":8,"documents":[{"lastChangedClock":8,"state":{"id":"page:p","typeName":"page"}}],"schema":{"schemaVersion":2,"sequences":{"rooms.asset":1,"rooms.base":1,"rooms.binding":1,"rooms.shape":2}},"tombstoneHistoryStartsAtClock":0,"tombstones":{}} | {"clock":7,"documents":[{"lastChangedClock":5,"state":{"id":"page:p","typeName":"page"}}],"schema":{"schemaVersion":2,"sequences":{"rooms.base":1,"rooms.binding":1,"rooms.shape":2}},"tombstoneHistoryStartsAtClock":0,"tombstones":{}} | 4
# From version 4.
{"clock":9007199254740991,"documents":[{"lastChangedClock":9007199254740991,"state":{"hidden":false,"id":"page:p","typeName":"page"}}],"schema":{"schemaVersion":2,"sequences":{"rooms.asset":1,"rooms.base":1,"rooms.binding":1,"rooms.page":1,"rooms.shape":2}},"tombstoneHistoryStartsAtClock":0,"tombstones":{}} | {"clock":9007199254740990,"documents":[{"lastChangedClock":5,"state":{"id":"page:p","typeName":"page"}}],"schema":{"schemaVersion":2,"sequences":{"rooms.asset":1,"rooms.base":1,"rooms.binding":1,"rooms.shape":2}},"tombstoneHistoryStartsAtClock":0,"tombstones":{}} | 5
# From version 5, where nothing is to be run: the records stay in their order.
{"clock":7,"documents":[{"lastChangedClock":4,"state":{"id":"shape:a","typeName":"shape"}},{"lastChangedClock":5,"state":{"id":"page:p","typeName":"page"}}],"schema":{"schemaVersion":2,"sequences":{"rooms.asset":1,"rooms.base":1,"rooms.binding":1,"rooms.page":1,"rooms.shape":2}},"tombstoneHistoryStartsAtClock":0,"tombstones":{}} | {"clock":7,"documents":[{"lastChangedClock":4,"state":{"id":"shape:a","typeName":"shape"}},{"lastChangedClock":5,"state":{"id":"page:p","typeName":"page"}}],"schema":{"schemaVersion":2,"sequences":{"rooms.asset":1,"rooms.base":1,"rooms.binding":1,"rooms.page":1,"rooms.shape":2}},"tombstoneHistoryStartsAtClock":0,"tombstones":{}} | 5
# Versions without a plan.
UnknownSequence rooms.asset | {"clock":7,"documents":[],"schema":{"schemaVersion":2,"sequences":{"rooms.asset":1,"rooms.base":1,"rooms.binding":1,"rooms.page":1,"rooms.shape":2}},"tombstoneHistoryStartsAtClock":0,"tombstones":{}} | 3
TooNew rooms.base | {"clock":7,"documents":[],"schema":{"schemaVersion":2,"sequences":{"rooms.base":2}},"tombstoneHistoryStartsAtClock":0,"tombstones":{}} | 5
"#;

// What is printed of a line that is brought to the schema of a version, or why there is no plan.
pub(crate) fn raised_text(alloc: Global, version: u32, text: &str) -> Result<String, Fail> {
    let schema = schema_at(alloc, version)?;
    let snapshot = read(alloc, text.as_bytes())?;
    if snapshot.saved.clock >= CLOCKS_END {
        return Err(Fail::from("a clock below 2^53 was wanted"));
    }
    match bad_id(alloc, &snapshot.saved)? {
        Some(_) => Err(Fail::from("records with ids of their own were wanted")),
        None => text_after_raise(alloc, &schema, snapshot),
    }
}

// The same of a snapshot whose records have ids of their own.
fn text_after_raise(alloc: Global, schema: &Schema, snapshot: Snapshot) -> Result<String, Fail>
    requires clock { snapshot.saved.clock <ℤ pos (2 ^ 53) }
    requires ids { HaveIds (records_of (saved_tree snapshot.saved).documents) }
{
    match raise(alloc, schema, snapshot) {
        Ok(saved) => {
            let held = schema.sequences().serialized(alloc)?;
            Ok(String::from_utf8(print(alloc, &saved, &held)?)?)
        }
        Err(PlanFault::TooNew(name)) => { Ok(format!(in alloc; "TooNew {}", name.as_str())?) }
        Err(PlanFault::UnknownSequence(name)) => {
            Ok(format!(in alloc; "UnknownSequence {}", name.as_str())?)
        }
        Err(PlanFault::OutOfMemory) => Err(Fail::from("memory was wanted")),
    }
}

#[test]
fn raises_lines(rt: HostRuntime) -> Result<(), Fail> {
    plays(&rt, rt.alloc(), Call::Raise, RAISED)
}
