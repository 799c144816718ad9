//! From which saved rooms a room begins, and whom it tells what.
//!
//! What the steps of scripts are, `test_with_rooms` tells.
use crate::played::{Script, plays};
use std::test::Fail;

// The clocks of a saved room fit together.
const CLOCKS: &str = r#"
# The room's clock is below the last one.
load 1 {"clock":0,"documents":[],"start":0,"tombstones":[]} | loaded
load 1 {"clock":1,"documents":[],"start":0,"tombstones":[]} | Clocks
load 9 {"clock":8,"documents":[],"start":0,"tombstones":[]} | loaded
clock | 8
load 9 {"clock":9,"documents":[],"start":0,"tombstones":[]} | Clocks
load 9 {"clock":10,"documents":[],"start":0,"tombstones":[]} | Clocks
# The start lies from 0 to the room's clock.
load 9 {"clock":2,"documents":[],"start":-1,"tombstones":[]} | Clocks
load 9 {"clock":-1,"documents":[],"start":-1,"tombstones":[]} | Clocks
load 9 {"clock":-1,"documents":[],"start":0,"tombstones":[]} | Clocks
load 9 {"clock":2,"documents":[],"start":0,"tombstones":[]} | loaded
load 9 {"clock":2,"documents":[],"start":2,"tombstones":[]} | loaded
start | 2
load 9 {"clock":2,"documents":[],"start":3,"tombstones":[]} | Clocks
# The clock of each record lies from 1 to the room's, whatever the start.
load 9 {"clock":0,"documents":[[1,$P]],"start":0,"tombstones":[]} | Clocks
load 9 {"clock":0,"documents":[[0,$P]],"start":0,"tombstones":[]} | Clocks
load 9 {"clock":3,"documents":[[0,$P]],"start":0,"tombstones":[]} | Clocks
load 9 {"clock":3,"documents":[[1,$P]],"start":3,"tombstones":[]} | loaded
load 9 {"clock":3,"documents":[[3,$P]],"start":0,"tombstones":[]} | loaded
load 9 {"clock":3,"documents":[[4,$P]],"start":0,"tombstones":[]} | Clocks
load 9 {"clock":3,"documents":[[1,$P],[4,$E(q)]],"start":0,"tombstones":[]} | Clocks
# The clock of each removal lies above the start, and up to the room's clock.
load 9 {"clock":3,"documents":[],"start":1,"tombstones":[[1,"shape:a"]]} | Clocks
load 9 {"clock":3,"documents":[],"start":1,"tombstones":[[2,"shape:a"]]} | loaded
load 9 {"clock":3,"documents":[],"start":1,"tombstones":[[3,"shape:a"]]} | loaded
load 9 {"clock":3,"documents":[],"start":1,"tombstones":[[4,"shape:a"]]} | Clocks
load 9 {"clock":3,"documents":[],"start":1,"tombstones":[[2,"shape:a"],[1,"shape:b"]]} | Clocks
load 9 {"clock":3,"documents":[],"start":3,"tombstones":[[3,"shape:a"]]} | Clocks
"#;

// Each record is admitted to the document under the id that it says, which stood nowhere before.
const RECORDS: &str = r#"
load 9 {"clock":3,"documents":[[1,{"index":"a0","meta":{},"name":"P","typeName":"page"}]],"start":0,"tombstones":[]} | BadRecord -
load 9 {"clock":3,"documents":[[1,{"id":7,"index":"a0","meta":{},"name":"P","typeName":"page"}]],"start":0,"tombstones":[]} | BadRecord -
load 9 {"clock":3,"documents":[[1,7]],"start":0,"tombstones":[]} | BadRecord -
# Presence, and what is a client's own.
load 9 {"clock":3,"documents":[[1,$R(1,ann)]],"start":0,"tombstones":[]} | BadRecord instance_presence:1
load 9 {"clock":3,"documents":[[1,{"id":"camera:c","meta":{},"typeName":"camera","x":0,"y":0,"z":100}]],"start":0,"tombstones":[]} | BadRecord camera:c
# A page without an index, one that says another type, and an id of no type.
load 9 {"clock":3,"documents":[[1,{"id":"page:q","meta":{},"name":"","typeName":"page"}]],"start":0,"tombstones":[]} | BadRecord page:q
load 9 {"clock":3,"documents":[[1,{"id":"page:q","index":"a0","meta":{},"name":"","typeName":"shape"}]],"start":0,"tombstones":[]} | BadRecord page:q
load 9 {"clock":3,"documents":[[1,{"id":"q","index":"a0","meta":{},"name":"","typeName":"page"}]],"start":0,"tombstones":[]} | BadRecord q
# An id twice, with another clock and another record too.
load 9 {"clock":3,"documents":[[1,$P],[1,$P]],"start":0,"tombstones":[]} | BadRecord page:p
load 9 {"clock":3,"documents":[[1,$E(q)],[2,$P],[3,$E(q,x)]],"start":0,"tombstones":[]} | BadRecord page:q
load 9 {"clock":3,"documents":[[1,$E(q)],[2,$P],[3,$E(r,x)]],"start":0,"tombstones":[]} | loaded
# Of several the first of the list.
load 9 {"clock":3,"documents":[[1,$E(b)],[3,$R(2,bob)],[1,$R(1,ann)]],"start":0,"tombstones":[]} | BadRecord instance_presence:2
load 9 {"clock":3,"documents":[[1,$E(b)],[3,$E(b)],[1,7]],"start":0,"tombstones":[]} | BadRecord page:b
"#;

// Each removed id is one of the document, and stood nowhere before.
const REMOVALS: &str = r#"
load 9 {"clock":3,"documents":[],"start":0,"tombstones":[[1,"instance_presence:1"]]} | BadRecord instance_presence:1
load 9 {"clock":3,"documents":[],"start":0,"tombstones":[[1,"camera:c"]]} | BadRecord camera:c
load 9 {"clock":3,"documents":[],"start":0,"tombstones":[[1,"-"]]} | BadRecord -
load 9 {"clock":3,"documents":[],"start":0,"tombstones":[[1,"shape:a"],[2,"shape:a"]]} | BadRecord shape:a
load 9 {"clock":3,"documents":[],"start":0,"tombstones":[[1,"shape:a"],[1,"shape:a"]]} | BadRecord shape:a
load 9 {"clock":3,"documents":[[1,$P]],"start":0,"tombstones":[[2,"page:p"]]} | BadRecord page:p
load 9 {"clock":3,"documents":[[1,$P]],"start":0,"tombstones":[[2,"page:q"]]} | loaded
# Of several the first of the list, and records before removed ids.
load 9 {"clock":3,"documents":[],"start":0,"tombstones":[[1,"shape:b"],[2,"camera:c"],[3,"camera:a"]]} | BadRecord camera:c
load 9 {"clock":3,"documents":[[1,$P],[2,$P]],"start":0,"tombstones":[[2,"camera:c"]]} | BadRecord page:p
"#;

// Of several causes clocks come first, and size last.
const CAUSES: &str = r#"
load 9 {"clock":3,"documents":[[4,$R(1,ann)]],"start":0,"tombstones":[]} | Clocks
load 9 {"clock":3,"documents":[[1,$R(1,ann)]],"start":0,"tombstones":[[4,"shape:a"]]} | Clocks
load 3 {"clock":3,"documents":[[1,$R(1,ann)]],"start":0,"tombstones":[]} | Clocks
load 3 {"clock":3,"documents":[],"start":0,"tombstones":[^10000 3001 [1,"page:@"]^]} | Clocks
load 9 {"clock":3,"documents":[[1,$R(1,ann)]],"start":0,"tombstones":[^10000 3001 [1,"page:@"]^]} | BadRecord instance_presence:1
load 9 {"clock":3,"documents":[],"start":0,"tombstones":[^10000 3001 [1,"page:@"]^,[2,"page:10000"]]} | BadRecord page:10000
load 9 {"clock":3,"documents":[[1,$R(1,ann)]],"start":3,"tombstones":[^10000 3001 [1,"page:@"]^]} | Clocks
"#;

// A room that doesn't begin leaves the other one as it was.
const LEFT: &str = r#"
enter | 0
connect 0 3 -1 | entered
drain 0 | wipe_all 0 {}
push 0 1 {"page:p":["put",$P]} | taken
load 9 {"clock":3,"documents":[[1,7]],"start":0,"tombstones":[]} | BadRecord -
drain 0 | 1 push 1 commit
document | {"page:p":$P}
"#;

// From what no room begins.
const FAULTS: [Script; 5] = [
    Script {
        shows: "begins from clocks that fit together alone",
        last: 1_000,
        parts: &[CLOCKS],
    },
    Script {
        shows: "begins with records of the document alone",
        last: 1_000,
        parts: &[RECORDS],
    },
    Script {
        shows: "begins with removed ids of the document alone",
        last: 1_000,
        parts: &[REMOVALS],
    },
    Script {
        shows: "names the first cause",
        last: 1_000,
        parts: &[CAUSES],
    },
    Script {
        shows: "leaves the other room",
        last: 1_000,
        parts: &[LEFT],
    },
];

#[test]
fn begins_from_what_fits_alone(rt: HostRuntime) -> Result<(), Fail> {
    plays(&rt, rt.alloc(), &FAULTS)
}

// At most 3,000 removed ids.
const MOST_REMOVED: &str = r#"
load 9 {"clock":1,"documents":[],"start":0,"tombstones":[^10000 3000 [1,"page:@"]^]} | loaded
enter | 0
connect 0 3 0 | entered
count 0 | wipe_presence 1: 3000 operations, 3000 removes
load 9 {"clock":1,"documents":[],"start":0,"tombstones":[^10000 3001 [1,"page:@"]^]} | TooLarge
load 9 {"clock":1,"documents":[],"start":0,"tombstones":[^10000 3000 [1,"page:@"]^,[1,"shape:a"]]} | TooLarge
"#;

// The records weigh at most 2,097,152 together: 63 of 32,768, one of 32,725 and one of 43, which may weigh 44 nowhere.
const HEAVIEST: &str = r#"
load 9 {"clock":1,"documents":[^10 64 [1,$E(@,~32724~)]^],"start":0,"tombstones":[]} | loaded
load 9 {"clock":1,"documents":[^10 63 [1,$E(@,~32724~)]^,[1,$E(a,~32682~)],[1,$E(b)]],"start":0,"tombstones":[]} | loaded
load 9 {"clock":1,"documents":[^10 63 [1,$E(@,~32724~)]^,[1,$E(a,~32682~)],[1,$E(b,x)]],"start":0,"tombstones":[]} | TooLarge
load 9 {"clock":1,"documents":[^10 64 [1,$E(@,~32724~)]^,[1,$E(a)]],"start":0,"tombstones":[]} | TooLarge
"#;

// How much may be saved, besides the number of records.
const LARGE: [Script; 2] = [
    Script {
        shows: "begins with 3000 removed ids and no more",
        last: 1_000,
        parts: &[MOST_REMOVED],
    },
    Script {
        shows: "begins with a weight of 2097152 and no more",
        last: 1_000,
        parts: &[HEAVIEST],
    },
];

#[test]
fn begins_with_a_weight_of_2097152_and_no_more(rt: HostRuntime) -> Result<(), Fail> {
    plays(&rt, rt.alloc(), &LARGE)
}

// At most 16,384 records.
const MOST: &str = r#"
load 9 {"clock":1,"documents":[^10000 16385 [1,$E(@)]^],"start":0,"tombstones":[]} | TooLarge
load 9 {"clock":1,"documents":[^10000 16384 [1,$E(@)]^],"start":0,"tombstones":[]} | loaded
"#;

// How many records may be saved.
const MOST_RECORDS: [Script; 1] = [Script {
    shows: "begins with 16384 records and no more",
    last: 1_000,
    parts: &[MOST],
}];

#[test]
fn begins_with_16384_records_and_no_more(rt: HostRuntime) -> Result<(), Fail> {
    plays(&rt, rt.alloc(), &MOST_RECORDS)
}

// Clients that were in the room before it was saved come back, each to the clock that it had.
const BACK: &str = r#"
enter | 0
connect 0 3 -1 | entered
drain 0 | wipe_all 0 {}
push 0 1 {"page:p":["put",$P],"shape:a":["put",$G(a,a0,0)],"shape:b":["put",$G(b,a1,1)]} | taken
push 0 2 {"shape:a":["patch",{"x":["put",5]}]} | taken
push 0 3 {"shape:b":["remove"]} | taken
presence 0 4 ["put",$R(x,ann)] | taken
reload 1000 | loaded
# Presence was an entry, and is there for nobody.
enter | 0
connect 0 3 3 | entered
drain 0 | wipe_presence 4 {}
enter | 1
connect 1 3 4 | entered
drain 1 | wipe_presence 4 {}
enter | 2
connect 2 3 2 | entered
drain 2 | wipe_presence 4 {"shape:b":["remove"]}
enter | 3
connect 3 3 1 | entered
drain 3 | wipe_presence 4 {"shape:a":["put",$G(a,a0,5)],"shape:b":["remove"]}
enter | 4
connect 4 3 0 | entered
drain 4 | wipe_presence 4 {"page:p":["put",$P],"shape:a":["put",$G(a,a0,5)],"shape:b":["remove"]}
# As its version has it.
enter | 5
connect 5 1 1 | entered
drain 5 | wipe_presence 4 {"shape:a":["put",$G1(a,a0,5)],"shape:b":["remove"]}
# Who is new, and who is above the clock, lacks everything.
enter | 6
connect 6 3 -1 | entered
drain 6 | wipe_all 4 {"page:p":["put",$P],"shape:a":["put",$G(a,a0,5)]}
enter | 7
connect 7 3 5 | entered
drain 7 | wipe_all 4 {"page:p":["put",$P],"shape:a":["put",$G(a,a0,5)]}
# The room goes on at the next clock.
push 0 5 {"shape:a":["remove"],"shape:b":["put",$G(b,a1,2)]} | taken
drain 0 | 5 push 5 commit
drain 1 | 5 {"shape:a":["remove"],"shape:b":["put",$G(b,a1,2)]}
saved | {"clock":5,"documents":[[1,$P],[5,$G(b,a1,2)]],"start":0,"tombstones":[[5,"shape:a"]]}
"#;

// Who is below the start is told everything, and who is at it what changed.
const BELOW: &str = r#"
load 1000 {"clock":5,"documents":[[2,$P],[4,$G(a,a0,0)]],"start":3,"tombstones":[[4,"shape:b"],[5,"shape:c"]]} | loaded
enter | 0
connect 0 3 2 | entered
drain 0 | wipe_all 5 {"page:p":["put",$P],"shape:a":["put",$G(a,a0,0)]}
enter | 1
connect 1 3 3 | entered
drain 1 | wipe_presence 5 {"shape:a":["put",$G(a,a0,0)],"shape:b":["remove"],"shape:c":["remove"]}
enter | 2
connect 2 3 4 | entered
drain 2 | wipe_presence 5 {"shape:c":["remove"]}
enter | 3
connect 3 3 5 | entered
drain 3 | wipe_presence 5 {}
"#;

// A room that forgot removals is saved and begins again.
const FORGOTTEN: &str = r#"
enter | 0
connect 0 3 -1 | entered
drain 0 | wipe_all 0 {}
bulk 0 1 10000 3001 "page:@":["put",$E(@)] | taken
bulk 0 2 10000 301 "page:@":["remove"] | taken
bulk 0 3 10301 2700 "page:@":["remove"] | taken
start | 2
reload 1000 | loaded
clock | 3
start | 2
document | {}
enter | 0
connect 0 3 1 | entered
count 0 | wipe_all 3: 0 operations, 0 removes
enter | 1
connect 1 3 2 | entered
count 1 | wipe_presence 3: 2700 operations, 2700 removes
# It goes on to forget: of 3,001 removals the 301st by clock was at clock 3, with all those that were loaded.
bulk 0 4 20000 301 "page:@":["put",$E(@)] | taken
bulk 0 5 20000 300 "page:@":["remove"] | taken
start | 2
push 0 6 {"page:20300":["remove"]} | taken
start | 3
enter | 2
connect 2 3 3 | entered
count 2 | wipe_presence 6: 301 operations, 301 removes
"#;

// Who comes back.
const BACKS: [Script; 3] = [
    Script {
        shows: "tells who comes back what was missed",
        last: 1_000,
        parts: &[BACK],
    },
    Script {
        shows: "tells who is below the start everything",
        last: 1_000,
        parts: &[BELOW],
    },
    Script {
        shows: "forgets from the start on that was saved",
        last: 1_000,
        parts: &[FORGOTTEN],
    },
];

#[test]
fn tells_who_comes_back_what_was_missed(rt: HostRuntime) -> Result<(), Fail> {
    plays(&rt, rt.alloc(), &BACKS)
}
