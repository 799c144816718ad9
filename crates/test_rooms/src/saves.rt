//! What is saved of a room, and the room that begins from it.
//!
//! What the steps of scripts are, `test_with_rooms` tells.
use crate::played::{Script, plays};
use std::test::Fail;

// A session that puts a page and two shapes.
const BOARD: &str = r#"
enter | 0
connect 0 3 -1 | entered
drain 0 | wipe_all 0 {}
push 0 1 {"page:p":["put",$P],"shape:a":["put",$G(a,a0,0)],"shape:b":["put",$G(b,a1,1)]} | taken
"#;

// Nothing happened.
const NOTHING: &str = r#"
saved | {"clock":0,"documents":[],"start":0,"tombstones":[]}
enter | 0
connect 0 3 -1 | entered
saved | {"clock":0,"documents":[],"start":0,"tombstones":[]}
"#;

// One push puts records. They are saved by rising id.
const PUTS: &str = r#"
saved | {"clock":1,"documents":[[1,$P],[1,$G(a,a0,0)],[1,$G(b,a1,1)]],"start":0,"tombstones":[]}
"#;

// The clock of a record is that of the last entry that names it.
const PATCHES: &str = r#"
push 0 2 {"shape:a":["patch",{"x":["put",5]}]} | taken
push 0 3 {"page:q":["put",$E(q)]} | taken
saved | {"clock":3,"documents":[[1,$P],[3,$E(q)],[2,$G(a,a0,5)],[1,$G(b,a1,1)]],"start":0,"tombstones":[]}
push 0 4 {"shape:a":["put",$G(a,a0,6)]} | taken
push 0 5 {} | taken
saved | {"clock":5,"documents":[[1,$P],[3,$E(q)],[4,$G(a,a0,6)],[1,$G(b,a1,1)]],"start":0,"tombstones":[]}
"#;

// Removed ids are saved by rising id, with the clocks of their removals.
const REMOVALS: &str = r#"
push 0 2 {"shape:b":["remove"]} | taken
saved | {"clock":2,"documents":[[1,$P],[1,$G(a,a0,0)]],"start":0,"tombstones":[[2,"shape:b"]]}
push 0 3 {"shape:a":["remove"]} | taken
saved | {"clock":3,"documents":[[1,$P]],"start":0,"tombstones":[[3,"shape:a"],[2,"shape:b"]]}
"#;

// A removed id that is put again is a record alone, with the clock of the later put.
const PUT_AGAIN: &str = r#"
push 0 2 {"shape:a":["remove"]} | taken
push 0 3 {"shape:a":["put",$G(a,a2,7)]} | taken
saved | {"clock":3,"documents":[[1,$P],[3,$G(a,a2,7)],[1,$G(b,a1,1)]],"start":0,"tombstones":[]}
"#;

// Presence is saved neither where it is there nor where it was removed. Its entries count.
const PRESENCES: &str = r#"
enter | 1
connect 1 3 -1 | entered
drain 1 | wipe_all 1 {"page:p":["put",$P],"shape:a":["put",$G(a,a0,0)],"shape:b":["put",$G(b,a1,1)]}
presence 1 1 ["put",$R(x,ann)] | taken
presences | {"instance_presence:1":$R(1,ann)}
saved | {"clock":2,"documents":[[1,$P],[1,$G(a,a0,0)],[1,$G(b,a1,1)]],"start":0,"tombstones":[]}
push 0 2 {"shape:b":["remove"]} | taken
leave 1 | left
presences | {}
saved | {"clock":4,"documents":[[1,$P],[1,$G(a,a0,0)]],"start":0,"tombstones":[[3,"shape:b"]]}
"#;

// What a session that only reads asks for changes no record and no clock of one: its pushes are entries that name nothing.
const READ_ONLY: &str = r#"
enter readonly | 1
connect 1 3 1 | entered
drain 1 | wipe_presence 1 readonly {}
push 1 1 {"page:q":["put",$E(q)],"shape:a":["patch",{"x":["put",9]}],"shape:b":["remove"]} | taken
saved | {"clock":2,"documents":[[1,$P],[1,$G(a,a0,0)],[1,$G(b,a1,1)]],"start":0,"tombstones":[]}
"#;

// What is saved.
const SAVES: [Script; 7] = [
    Script {
        shows: "saves a room where nothing happened",
        last: 1_000,
        parts: &[NOTHING],
    },
    Script {
        shows: "saves records by rising id",
        last: 1_000,
        parts: &[BOARD, PUTS],
    },
    Script {
        shows: "saves a record with the clock of its last entry",
        last: 1_000,
        parts: &[BOARD, PATCHES],
    },
    Script {
        shows: "saves removed ids with the clocks of their removals",
        last: 1_000,
        parts: &[BOARD, REMOVALS],
    },
    Script {
        shows: "saves no removal of what was put again",
        last: 1_000,
        parts: &[BOARD, PUT_AGAIN],
    },
    Script {
        shows: "saves no presence",
        last: 1_000,
        parts: &[BOARD, PRESENCES],
    },
    Script {
        shows: "saves nothing of a session that only reads",
        last: 1_000,
        parts: &[BOARD, READ_ONLY],
    },
];

#[test]
fn saves_documents_with_their_clocks(rt: HostRuntime) -> Result<(), Fail> {
    plays(&rt, rt.alloc(), &SAVES)
}

// A room where nothing happened begins as one where nothing happened.
const EMPTY: &str = r#"
reload 1000 | loaded
clock | 0
start | 0
document | {}
saved | {"clock":0,"documents":[],"start":0,"tombstones":[]}
"#;

// A patched record, a removal, presence and a last entry that names nothing: all but the presence is there again.
const WHOLE: &str = r#"
push 0 2 {"shape:a":["patch",{"x":["put",5]}]} | taken
presence 0 3 ["put",$R(x,ann)] | taken
push 0 4 {"shape:b":["remove"]} | taken
push 0 5 - | taken
clock | 5
document | {"page:p":$P,"shape:a":$G(a,a0,5)}
presences | {"instance_presence:0":$R(0,ann)}
saved | {"clock":5,"documents":[[1,$P],[2,$G(a,a0,5)]],"start":0,"tombstones":[[4,"shape:b"]]}
reload 1000 | loaded
clock | 5
start | 0
document | {"page:p":$P,"shape:a":$G(a,a0,5)}
presences | {}
record shape:a | $G(a,a0,5)
record shape:b | none
saved | {"clock":5,"documents":[[1,$P],[2,$G(a,a0,5)]],"start":0,"tombstones":[[4,"shape:b"]]}
# And so once more.
reload 1000 | loaded
saved | {"clock":5,"documents":[[1,$P],[2,$G(a,a0,5)]],"start":0,"tombstones":[[4,"shape:b"]]}
"#;

// What is loaded in another order is saved by rising id. The start is kept.
const ORDERED: &str = r#"
load 1000 {"clock":9,"documents":[[4,$G(a,a0,5)],[9,$E(q)],[1,$P]],"start":3,"tombstones":[[5,"shape:c"],[4,"shape:b"]]} | loaded
clock | 9
start | 3
document | {"page:p":$P,"page:q":$E(q),"shape:a":$G(a,a0,5)}
saved | {"clock":9,"documents":[[1,$P],[9,$E(q)],[4,$G(a,a0,5)]],"start":3,"tombstones":[[4,"shape:b"],[5,"shape:c"]]}
reload 1000 | loaded
clock | 9
start | 3
document | {"page:p":$P,"page:q":$E(q),"shape:a":$G(a,a0,5)}
saved | {"clock":9,"documents":[[1,$P],[9,$E(q)],[4,$G(a,a0,5)]],"start":3,"tombstones":[[4,"shape:b"],[5,"shape:c"]]}
"#;

// What is saved, and begins again.
const ROUND_TRIPS: [Script; 3] = [
    Script {
        shows: "begins again where nothing happened",
        last: 1_000,
        parts: &[EMPTY],
    },
    Script {
        shows: "begins again with all that was saved",
        last: 1_000,
        parts: &[BOARD, WHOLE],
    },
    Script {
        shows: "begins again with a start above 0",
        last: 1_000,
        parts: &[ORDERED],
    },
];

#[test]
fn begins_again_with_what_was_saved(rt: HostRuntime) -> Result<(), Fail> {
    plays(&rt, rt.alloc(), &ROUND_TRIPS)
}
