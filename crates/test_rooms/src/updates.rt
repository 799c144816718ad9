//! What sessions are sent.
//!
//! What the steps of scripts are, `test_with_rooms` tells.
use crate::played::{Script, plays};
use std::test::Fail;

// Two sessions, of which the first puts a page and a shape.
const BASE: &str = r#"
enter | 0
connect 0 3 -1 | entered
drain 0 | wipe_all 0 {}
enter | 1
connect 1 3 -1 | entered
drain 1 | wipe_all 0 {}
push 0 1 {"page:p":["put",$P],"shape:a":["put",$G(a,a0,0)]} | taken
drain 0 | 1 push 1 commit
drain 1 | 1 {"page:p":["put",$P],"shape:a":["put",$G(a,a0,0)]}
"#;

// A patch of what another session has removed is discarded; an entry is told also if it is empty.
const REMOVED: &str = r#"
push 0 2 {"shape:a":["remove"]} | taken
push 1 1 {"shape:a":["patch",{"x":["put",9]}]} | taken
drain 1 | 2 {"shape:a":["remove"]}, 3 push 1 discard
drain 0 | 2 push 2 commit, 3 {}
drain 0 | nothing
"#;

// Another session is told a put with the whole record, and a patch as it is.
const PUT: &str = r#"
push 0 2 {"shape:a":["put",$G(a,a0,3,50)]} | taken
push 0 3 {"shape:a":["patch",{"x":["put",5]}]} | taken
drain 1 | 2 {"shape:a":["put",$G(a,a0,3,50)]}, 3 {"shape:a":["patch",{"x":["put",5]}]}
drain 0 | 2 push 2 commit, 3 push 3 commit
record shape:a | $G(a,a0,5,50)
"#;

// A client comes back after its shape was removed: it is told the removal, and puts the shape again.
const BACK_AFTER_A_REMOVAL: &str = r#"
push 0 2 {"shape:b":["put",$G(b,a1,1)]} | taken
drain 1 | 2 {"shape:b":["put",$G(b,a1,1)]}
push 1 1 {"shape:b":["remove"]} | taken
enter | 2
connect 2 3 1 | entered
drain 2 | wipe_presence 3 {"shape:b":["remove"]}
push 2 3 {"shape:b":["put",$G(b,a1,1)]} | taken
drain 2 | 4 push 3 commit
record shape:b | $G(b,a1,1)
"#;

// A client comes back whose append was accepted, and appends at the same place again: there is one more point, not two.
const BACK_AFTER_AN_APPEND: &str = r#"
push 0 2 {"shape:d":["put",$D(d,a1)]} | taken
drain 0 | 2 push 2 commit
push 0 3 {"shape:d":["patch",{"props":["patch",{"points":["append",[{"x":1,"y":1}],1]}]}]} | taken
enter | 2
connect 2 3 2 | entered
drain 2 | wipe_presence 3 {"shape:d":["put",{"id":"shape:d","index":"a1","isLocked":false,"meta":{},"opacity":100,"parentId":"page:p","props":{"color":"black","isClosed":false,"points":[{"x":0,"y":0},{"x":1,"y":1}],"size":"m"},"rotation":0,"type":"draw","typeName":"shape","x":0,"y":0}]}
push 2 4 {"shape:d":["patch",{"props":["patch",{"points":["append",[{"x":1,"y":1}],1]}]}]} | taken
drain 2 | 4 push 4 commit
record shape:d | {"id":"shape:d","index":"a1","isLocked":false,"meta":{},"opacity":100,"parentId":"page:p","props":{"color":"black","isClosed":false,"points":[{"x":0,"y":0},{"x":1,"y":1}],"size":"m"},"rotation":0,"type":"draw","typeName":"shape","x":0,"y":0}
"#;

// The first session has version 3 and the second version 1, which edits.
const OLD: &str = r#"
enter | 0
connect 0 3 -1 | entered
drain 0 | wipe_all 0 {}
enter | 1
connect 1 1 -1 | entered
drain 1 | wipe_all 0 {}
push 0 1 {"page:p":["put",$P],"shape:a":["put",$G(a,a0,0)]} | taken
drain 0 | 1 push 1 commit
drain 1 | 1 {"page:p":["put",$P],"shape:a":["put",$G1(a,a0,0)]}
push 1 1 {"shape:a":["patch",{"alpha":["put",5]}]} | taken
record shape:a | $G(a,a0,0,50)
drain 1 | 2 push 1 rebase {"shape:a":["put",$G1(a,a0,0,5)]}
drain 0 | 2 {"shape:a":["put",$G(a,a0,0,50)]}
"#;

// A read-only session edits, which is discarded, and sets its presence, which is taken; then it leaves.
const READ_ONLY: &str = r#"
enter | 0
connect 0 3 -1 | entered
drain 0 | wipe_all 0 {}
enter readonly | 1
connect 1 3 -1 | entered
drain 1 | wipe_all 0 readonly {}
push 0 1 {"page:p":["put",$P],"shape:a":["put",$G(a,a0,0)]} | taken
drain 0 | 1 push 1 commit
drain 1 | 1 {"page:p":["put",$P],"shape:a":["put",$G(a,a0,0)]}
push 1 1 {"shape:a":["patch",{"x":["put",9]}]} | taken
presence 1 2 ["put",$R(x,ann)] | taken
drain 1 | 2 push 1 discard, 3 push 2 commit
drain 0 | 2 {}, 3 {"instance_presence:1":["put",$R(1,ann)]}
document | {"page:p":$P,"shape:a":$G(a,a0,0)}
presences | {"instance_presence:1":$R(1,ann)}
clock | 3
# Who connects is told the presence of others, its own never.
presence 0 2 ["put",$R(0,bob)] | taken
drain 0 | 4 push 2 commit
enter | 2
connect 2 3 3 | entered
drain 2 | wipe_presence 4 {"instance_presence:0":["put",$R(0,bob)],"instance_presence:1":["put",$R(1,ann)]}
leave 1 | left
drain 0 | 5 {"instance_presence:1":["remove"]}
presences | {"instance_presence:0":$R(0,bob)}
"#;

// Pings are answered one by one before what happened, and after the answer to a connect.
const PINGS: &str = r#"
push 1 1 - | taken
ping 0 | pong
ping 0 | pong
drain 0 | pong
drain 0 | pong
drain 0 | 2 {}
drain 0 | nothing
enter | 2
connect 2 3 2 | entered
ping 2 | pong
drain 2 | wipe_presence 2 {}
drain 2 | pong
drain 2 | nothing
"#;

// 32 entries are told one by one, and 33 as what changed, after the results of the session's own pushes.
const BEHIND: &str = r#"
each 0 2 32 "shape:a":["patch",{"x":["put",@]}] | taken
count 1 | 32 events: 32 operations, 0 removes
drain 1 | nothing
each 0 34 33 "shape:a":["patch",{"x":["put",@]}] | taken
drain 1 | 66 {"shape:a":["put",$G(a,a0,66)]}
count 0 | 66 events: 1 operations, 0 removes
push 1 1 {"shape:a":["remove"]} | taken
each 0 67 32 "page:p":["patch",{"name":["put","@"]}] | taken
drain 1 | 99 push 1 rebase {}, 99 {"page:p":["put",{"id":"page:p","index":"a0","meta":{},"name":"98","typeName":"page"}],"shape:a":["remove"]}
count 0 | 33 events: 2 operations, 1 removes
"#;

// A board in one entry, and 40 patches of one shape: a session at clock 1 is told that shape, and one at clock 41 nothing.
const ONE_OF_MANY: &str = r#"
enter | 0
connect 0 3 -1 | entered
drain 0 | wipe_all 0 {}
enter | 1
connect 1 3 -1 | entered
drain 1 | wipe_all 0 {}
bulk 0 1 10000 1000 "page:p":["put",$P],"shape:@":["put",$G(@,a0,0)] | taken
count 1 | 1 events: 1001 operations, 0 removes
each 0 2 40 "shape:10000":["patch",{"x":["put",@]}] | taken
drain 1 | 41 {"shape:10000":["put",$G(10000,a0,41)]}
enter | 2
connect 2 3 41 | entered
drain 2 | wipe_presence 41 {}
"#;

// A client above the clock lacks everything, and one at the clock nothing.
const ABOVE: &str = r#"
enter | 2
connect 2 3 2 | entered
drain 2 | wipe_all 1 {"page:p":["put",$P],"shape:a":["put",$G(a,a0,0)]}
enter | 3
connect 3 3 1 | entered
drain 3 | wipe_presence 1 {}
enter | 4
connect 4 3 0 | entered
drain 4 | wipe_presence 1 {"page:p":["put",$P],"shape:a":["put",$G(a,a0,0)]}
enter | 5
connect 5 3 -1 | entered
drain 5 | wipe_all 1 {"page:p":["put",$P],"shape:a":["put",$G(a,a0,0)]}
"#;

// Three sessions of three versions edit in turn, and each is told what happened as its version has it.
const THREE_VERSIONS: &str = r#"
enter | 0
connect 0 1 -1 | entered
drain 0 | wipe_all 0 {}
enter | 1
connect 1 2 -1 | entered
drain 1 | wipe_all 0 {}
enter | 2
connect 2 3 -1 | entered
drain 2 | wipe_all 0 {}
# The newest puts.
push 2 1 {"page:p":["put",$P],"shape:a":["put",$G(a,a0,0,45)]} | taken
drain 0 | 1 {"page:p":["put",$P],"shape:a":["put",$G1(a,a0,0,4)]}
drain 1 | 1 {"page:p":["put",$P],"shape:a":["put",$G2(a,a0,0,45)]}
drain 2 | 1 push 1 commit
# The oldest puts.
push 0 1 {"shape:b":["put",$G1(b,a1,1,5)]} | taken
record shape:b | $G(b,a1,1,50)
drain 0 | 2 push 1 rebase {"shape:b":["put",$G1(b,a1,1,5)]}
drain 1 | 2 {"shape:b":["put",$G2(b,a1,1,50)]}
drain 2 | 2 {"shape:b":["put",$G(b,a1,1,50)]}
# The one between patches, in its own words.
push 1 1 {"shape:b":["patch",{"props":["patch",{"geo":["put","oval"]}]}]} | taken
drain 0 | 3 {"shape:b":["put",{"alpha":5,"id":"shape:b","index":"a1","isLocked":false,"meta":{},"parentId":"page:p","props":{"color":"black","fill":"none","geo":"oval","h":10,"size":"m","text":"","w":10},"rotation":0,"type":"geo","typeName":"shape","x":1,"y":0}]}
drain 1 | 3 push 1 rebase {"shape:b":["put",{"id":"shape:b","index":"a1","isLocked":false,"meta":{},"opacity":50,"parentId":"page:p","props":{"color":"black","fill":"none","geo":"oval","h":10,"size":"m","text":"","w":10},"rotation":0,"type":"geo","typeName":"shape","x":1,"y":0}]}
drain 2 | 3 {"shape:b":["put",{"id":"shape:b","index":"a1","isLocked":false,"meta":{},"opacity":50,"parentId":"page:p","props":{"color":"black","dash":"draw","fill":"none","geo":"ellipse","h":10,"size":"m","text":"","w":10},"rotation":0,"type":"geo","typeName":"shape","x":1,"y":0}]}
# A patch of the newest is a put to the older ones, and a remove is one to all.
push 2 2 {"shape:a":["patch",{"x":["put",7]}],"shape:b":["remove"]} | taken
drain 0 | 4 {"shape:a":["put",$G1(a,a0,7,4)],"shape:b":["remove"]}
drain 1 | 4 {"shape:a":["put",$G2(a,a0,7,45)],"shape:b":["remove"]}
drain 2 | 4 push 2 commit
# Those who come back are told what they lack as their version has it.
enter | 3
connect 3 1 1 | entered
drain 3 | wipe_presence 4 {"shape:a":["put",$G1(a,a0,7,4)],"shape:b":["remove"]}
enter | 4
connect 4 2 9 | entered
drain 4 | wipe_all 4 {"page:p":["put",$P],"shape:a":["put",$G2(a,a0,7,45)]}
enter | 5
connect 5 3 3 | entered
drain 5 | wipe_presence 4 {"shape:a":["put",$G(a,a0,7,45)],"shape:b":["remove"]}
"#;

// What is sent.
const UPDATES: [Script; 11] = [
    Script {
        shows: "tells each entry to others and its result to who pushed",
        last: 1_000,
        parts: &[BASE, REMOVED],
    },
    Script {
        shows: "tells a put with the whole record",
        last: 1_000,
        parts: &[BASE, PUT],
    },
    Script {
        shows: "takes up with who comes back",
        last: 1_000,
        parts: &[BASE, BACK_AFTER_A_REMOVAL],
    },
    Script {
        shows: "appends once for who comes back",
        last: 1_000,
        parts: &[BASE, BACK_AFTER_AN_APPEND],
    },
    Script {
        shows: "tells who is above the clock everything",
        last: 1_000,
        parts: &[BASE, ABOVE],
    },
    Script {
        shows: "speaks to each in its version",
        last: 1_000,
        parts: &[OLD],
    },
    Script {
        shows: "speaks three versions",
        last: 1_000,
        parts: &[THREE_VERSIONS],
    },
    Script {
        shows: "looks at no diff of who reads alone",
        last: 1_000,
        parts: &[READ_ONLY],
    },
    Script {
        shows: "answers pings before what happened",
        last: 1_000,
        parts: &[BASE, PINGS],
    },
    Script {
        shows: "tells 33 entries as what changed",
        last: 1_000,
        parts: &[BASE, BEHIND],
    },
    Script {
        shows: "tells one shape of many",
        last: 1_000,
        parts: &[ONE_OF_MANY],
    },
];

#[test]
fn sends_each_session_what_happened(rt: HostRuntime) -> Result<(), Fail> {
    plays(&rt, rt.alloc(), &UPDATES)
}
