//! Clients that connect, lose their connection and come back.
//!
//! What the steps of scripts are, `test_with_worlds` tells.
use crate::played::{BASE, HEADER, Script, plays};
use std::test::Fail;

// A client that did nothing, in a room where nobody is.
const NOTHING: &str = r#"
client 3
{"client":0,"do":"show"} | {"clock":-1,"doc":{},"others":{},"owed":0,"show":0}
{"do":"end"} | {"clock":0,"doc":{},"end":true,"presence":{}}
"#;

// A client that edits before it connects owes its edit until the room accepted it.
const FIRST_EDIT: &str = r#"
client 3
edit 0 {"page:p":["put",$P]}
{"client":0,"do":"show"} | {"clock":-1,"doc":{"page:p":$P},"others":{},"owed":1,"show":0}
open 0 0
{"client":0,"do":"show"} | {"clock":0,"doc":{"page:p":$P},"others":{},"owed":1,"show":0}
sync 0 0
{"client":0,"do":"show"} | {"clock":1,"doc":{"page:p":$P},"others":{},"owed":0,"show":0}
{"do":"end"} | {"clock":1,"doc":{"page:p":$P},"end":true,"presence":{}}
"#;

// A shape that was put, of which the answer was lost, and that another removed since, is put once more.
const PUT_TWICE: &str = r#"
edit 0 {"shape:b":["put",$G(b,a1,1)]}
{"do":"handle","session":0}
{"client":0,"do":"cut"}
get 1 1
edit 1 {"shape:b":["remove"]}
{"do":"handle","session":1}
open 0 2
{"client":0,"do":"show"} | {"clock":3,"doc":{"page:p":$P,"shape:a":$G(a,a0,0),"shape:b":$G(b,a1,1)},"others":{},"owed":1,"show":0}
sync 0 2
{"client":0,"do":"show"} | {"clock":4,"doc":{"page:p":$P,"shape:a":$G(a,a0,0),"shape:b":$G(b,a1,1)},"others":{},"owed":0,"show":0}
# The other is told of its removal, and of the put after it.
get 1 1
{"client":1,"do":"show"} | {"clock":4,"doc":{"page:p":$P,"shape:a":$G(a,a0,0),"shape:b":$G(b,a1,1)},"others":{},"owed":0,"show":1}
{"do":"end"} | {"clock":4,"doc":{"page:p":$P,"shape:a":$G(a,a0,0),"shape:b":$G(b,a1,1)},"end":true,"presence":{}}
"#;

// A point that was appended, of which the answer was lost, is appended once.
const APPENDED_TWICE: &str = r#"
edit 0 {"shape:d":["put",$D(d,a1)]}
sync 0 0
edit 0 {"shape:d":["patch",{"props":["patch",{"points":["append",[{"x":1,"y":1}],1]}]}]}
{"do":"handle","session":0}
{"client":0,"do":"cut"}
open 0 2
{"client":0,"do":"show"} | {"clock":3,"doc":{"page:p":$P,"shape:a":$G(a,a0,0),"shape:d":{"id":"shape:d","index":"a1","isLocked":false,"meta":{},"opacity":100,"parentId":"page:p","props":{"color":"black","isClosed":false,"points":[{"x":0,"y":0},{"x":1,"y":1}],"size":"m"},"rotation":0,"type":"draw","typeName":"shape","x":0,"y":0}},"others":{},"owed":1,"show":0}
sync 0 2
{"client":0,"do":"show"} | {"clock":4,"doc":{"page:p":$P,"shape:a":$G(a,a0,0),"shape:d":{"id":"shape:d","index":"a1","isLocked":false,"meta":{},"opacity":100,"parentId":"page:p","props":{"color":"black","isClosed":false,"points":[{"x":0,"y":0},{"x":1,"y":1}],"size":"m"},"rotation":0,"type":"draw","typeName":"shape","x":0,"y":0}},"others":{},"owed":0,"show":0}
{"do":"end"} | {"clock":4,"doc":{"page:p":$P,"shape:a":$G(a,a0,0),"shape:d":{"id":"shape:d","index":"a1","isLocked":false,"meta":{},"opacity":100,"parentId":"page:p","props":{"color":"black","isClosed":false,"points":[{"x":0,"y":0},{"x":1,"y":1}],"size":"m"},"rotation":0,"type":"draw","typeName":"shape","x":0,"y":0}},"end":true,"presence":{}}
"#;

// A patch of which the answer was lost is accepted twice, the second time over what another made meanwhile.
const PATCHED_TWICE: &str = r#"
edit 0 {"shape:a":["patch",{"x":["put",5]}]}
{"do":"handle","session":0}
{"client":0,"do":"cut"}
get 1 1
edit 1 {"shape:a":["patch",{"x":["put",8]}]}
sync 1 1
{"client":1,"do":"show"} | {"clock":3,"doc":{"page:p":$P,"shape:a":$G(a,a0,8)},"others":{},"owed":0,"show":1}
open 0 2
{"client":0,"do":"show"} | {"clock":3,"doc":{"page:p":$P,"shape:a":$G(a,a0,5)},"others":{},"owed":1,"show":0}
sync 0 2
{"client":0,"do":"show"} | {"clock":4,"doc":{"page:p":$P,"shape:a":$G(a,a0,5)},"others":{},"owed":0,"show":0}
get 1 1
{"client":1,"do":"show"} | {"clock":4,"doc":{"page:p":$P,"shape:a":$G(a,a0,5)},"others":{},"owed":0,"show":1}
{"do":"end"} | {"clock":4,"doc":{"page:p":$P,"shape:a":$G(a,a0,5)},"end":true,"presence":{}}
"#;

// What a client sent before its connection was lost reaches the room after it came back, and comes to it as another's.
const SENT_BEFORE: &str = r#"
edit 0 {"shape:a":["patch",{"x":["put",5]}]}
{"client":0,"do":"cut"}
open 0 2
{"do":"handle","session":0}
get 0 2
{"client":0,"do":"show"} | {"clock":2,"doc":{"page:p":$P,"shape:a":$G(a,a0,5)},"others":{},"owed":1,"show":0}
sync 0 2
{"client":0,"do":"show"} | {"clock":3,"doc":{"page:p":$P,"shape:a":$G(a,a0,5)},"others":{},"owed":0,"show":0}
{"do":"end"} | {"clock":3,"doc":{"page:p":$P,"shape:a":$G(a,a0,5)},"end":true,"presence":{}}
"#;

// Of an older client what it shows and patches is migrated, both ways.
const OLDER: &str = r#"
client 3
client 1
open 0 0
open 1 1
edit 0 {"page:p":["put",$P],"shape:a":["put",$G(a,a0,0)]}
sync 0 0
get 1 1
{"client":1,"do":"show"} | {"clock":1,"doc":{"page:p":$P,"shape:a":$G1(a,a0,0)},"others":{},"owed":0,"show":1}
edit 1 {"shape:a":["patch",{"alpha":["put",5]}]}
{"do":"handle","session":1}
{"do":"send","session":1}
{"do":"send","session":0}
{"do":"end"} | {"clock":2,"doc":{"page:p":$P,"shape:a":$G(a,a0,0,50)},"end":true,"presence":{}}
{"client":1,"do":"deliver"}
{"client":1,"do":"show"} | {"clock":2,"doc":{"page:p":$P,"shape:a":$G1(a,a0,0,5)},"others":{},"owed":0,"show":1}
{"client":0,"do":"deliver"}
{"client":0,"do":"show"} | {"clock":2,"doc":{"page:p":$P,"shape:a":$G(a,a0,0,50)},"others":{},"owed":0,"show":0}
"#;

// A client that is newer than the room is told so, and connects no more.
const NEWER: &str = r#"
client 3
open 0 0 | {"client":0,"ended":"SERVER_TOO_OLD"}
{"client":0,"do":"connect","readonly":false} | Refused SERVER_TOO_OLD
# It has no session any more, and the room has one of which nothing comes.
{"client":0,"do":"cut"} | NoSuchSession
{"client":0,"do":"deliver"} | NoSuchSession
{"do":"send","session":0} | NothingThere
{"do":"handle","session":0} | NothingThere
{"client":0,"do":"connect","readonly":false} | Refused SERVER_TOO_OLD
{"client":0,"do":"show"} | {"clock":-1,"doc":{},"others":{},"owed":0,"show":0}
{"do":"end"} | {"clock":0,"doc":{},"end":true,"presence":{}}
"#;

// A read-only client's edit is discarded, and its presence is seen by others until its session is lost.
const READ_ONLY: &str = r#"
client 3
client 3
open 0 0
{"client":1,"do":"connect","readonly":true}
sync 1 1
edit 0 {"page:p":["put",$P],"shape:a":["put",$G(a,a0,0)]}
sync 0 0
get 1 1
edit 1 {"shape:a":["patch",{"x":["put",9]}]}
{"client":1,"do":"presence","record":{"color":"red","currentPageId":"page:p","cursor":{"x":1,"y":2},"id":"instance_presence:me","meta":{},"selectedShapeIds":[],"typeName":"instance_presence","userName":"u"}}
{"client":1,"do":"show"} | {"clock":1,"doc":{"page:p":$P,"shape:a":$G(a,a0,9)},"others":{},"owed":2,"show":1}
{"do":"handle","session":1}
{"do":"handle","session":1}
get 1 1
get 0 0
{"client":0,"do":"show"} | {"clock":3,"doc":{"page:p":$P,"shape:a":$G(a,a0,0)},"others":{"instance_presence:1":{"color":"red","currentPageId":"page:p","cursor":{"x":1,"y":2},"id":"instance_presence:1","meta":{},"selectedShapeIds":[],"typeName":"instance_presence","userName":"u"}},"owed":0,"show":0}
{"client":1,"do":"show"} | {"clock":3,"doc":{"page:p":$P,"shape:a":$G(a,a0,0)},"others":{},"owed":0,"show":1}
{"do":"end"} | {"clock":3,"doc":{"page:p":$P,"shape:a":$G(a,a0,0)},"end":true,"presence":{"instance_presence:1":{"color":"red","currentPageId":"page:p","cursor":{"x":1,"y":2},"id":"instance_presence:1","meta":{},"selectedShapeIds":[],"typeName":"instance_presence","userName":"u"}}}
{"do":"lose","session":1}
get 0 0
{"client":0,"do":"show"} | {"clock":4,"doc":{"page:p":$P,"shape:a":$G(a,a0,0)},"others":{},"owed":0,"show":0}
{"do":"end"} | {"clock":4,"doc":{"page:p":$P,"shape:a":$G(a,a0,0)},"end":true,"presence":{}}
"#;

// What a client pushes after its session was lost goes nowhere; the client still waits.
const LOST: &str = r#"
{"do":"lose","session":0}
edit 0 {"shape:a":["patch",{"x":["put",5]}]}
{"client":0,"do":"show"} | {"clock":1,"doc":{"page:p":$P,"shape:a":$G(a,a0,5)},"others":{},"owed":1,"show":0}
{"do":"handle","session":0} | NoSuchSession
{"client":0,"do":"show"} | {"clock":1,"doc":{"page:p":$P,"shape:a":$G(a,a0,5)},"others":{},"owed":1,"show":0}
{"do":"end"} | {"clock":1,"doc":{"page:p":$P,"shape:a":$G(a,a0,0)},"end":true,"presence":{}}
"#;

// What was sent before a session was lost is still delivered, and what is owed is pushed by the next session.
const DELIVERED_AFTER: &str = r#"
edit 0 {"shape:a":["patch",{"x":["put",5]}]}
{"do":"handle","session":0}
{"do":"send","session":1}
edit 1 {"shape:a":["patch",{"x":["put",7]}]}
{"do":"lose","session":1}
{"client":1,"do":"deliver"}
{"client":1,"do":"show"} | {"clock":2,"doc":{"page:p":$P,"shape:a":$G(a,a0,7)},"others":{},"owed":1,"show":1}
{"client":1,"do":"deliver"} | NothingThere
{"do":"send","session":1} | NoSuchSession
{"do":"handle","session":1} | NoSuchSession
{"do":"lose","session":1} | NoSuchSession
{"client":1,"do":"connect","readonly":false} | AlreadyOpen
{"client":1,"do":"cut"}
{"client":1,"do":"cut"} | NoSuchSession
{"client":1,"do":"deliver"} | NoSuchSession
{"client":1,"do":"show"} | {"clock":2,"doc":{"page:p":$P,"shape:a":$G(a,a0,7)},"others":{},"owed":1,"show":1}
open 1 2
{"client":1,"do":"show"} | {"clock":2,"doc":{"page:p":$P,"shape:a":$G(a,a0,7)},"others":{},"owed":1,"show":1}
sync 1 2
{"client":1,"do":"show"} | {"clock":3,"doc":{"page:p":$P,"shape:a":$G(a,a0,7)},"others":{},"owed":0,"show":1}
{"do":"end"} | {"clock":3,"doc":{"page:p":$P,"shape:a":$G(a,a0,7)},"end":true,"presence":{}}
"#;

// Of a client whose connection is lost an edit stays its own until it comes back; others' edits reach it then.
const CUT: &str = r#"
{"client":0,"do":"cut"}
edit 0 {"shape:a":["patch",{"x":["put",5]}]}
{"client":0,"do":"show"} | {"clock":1,"doc":{"page:p":$P,"shape:a":$G(a,a0,5)},"others":{},"owed":1,"show":0}
{"do":"handle","session":0} | NothingThere
edit 1 {"shape:a":["patch",{"y":["put",0],"opacity":["put",50]}]}
sync 1 1
{"client":1,"do":"show"} | {"clock":2,"doc":{"page:p":$P,"shape:a":$G(a,a0,0,50)},"others":{},"owed":0,"show":1}
open 0 2
{"client":0,"do":"show"} | {"clock":2,"doc":{"page:p":$P,"shape:a":$G(a,a0,5,50)},"others":{},"owed":1,"show":0}
sync 0 2
{"client":0,"do":"show"} | {"clock":3,"doc":{"page:p":$P,"shape:a":$G(a,a0,5,50)},"others":{},"owed":0,"show":0}
# The session from before is in the room still, and is told all that came since, for nobody.
{"do":"send","session":0}
{"do":"send","session":0} | NothingThere
get 1 1
{"client":1,"do":"show"} | {"clock":3,"doc":{"page:p":$P,"shape:a":$G(a,a0,5,50)},"others":{},"owed":0,"show":1}
{"do":"end"} | {"clock":3,"doc":{"page:p":$P,"shape:a":$G(a,a0,5,50)},"end":true,"presence":{}}
"#;

// Of 3,001 removals the 301 oldest are forgotten. A session that is three entries behind goes on, though its entries began
// before what is remembered, and hears of all; a client that comes back from before begins anew.
const FORGOTTEN: &str = r#"
client 3
client 3
client 3
open 0 0
open 1 1
open 2 2
bulk 0 1000 3001 {"page:p":["put",$P], "shape:@":["put",$G(@,a1,0)]
sync 0 0
get 2 2
query 2 shape ["gt","x",0] | {"client":2,"ids":[],"query":true}
query 2 shape ["eq","id","shape:1300"] | {"client":2,"ids":["shape:1300"],"query":true}
{"client":2,"do":"cut"}
bulk 0 1000 301 { "shape:@":["remove"]
sync 0 0
bulk 0 1301 2700 { "shape:@":["remove"]
{"do":"handle","session":0}
{"client":1,"do":"show"} | {"clock":0,"doc":{},"others":{},"owed":0,"show":1}
get 1 1
{"client":1,"do":"show"} | {"clock":3,"doc":{"page:p":$P},"others":{},"owed":0,"show":1}
open 2 3
{"client":2,"do":"show"} | {"clock":3,"doc":{"page:p":$P},"others":{},"owed":0,"show":2}
{"do":"end"} | {"clock":3,"doc":{"page:p":$P},"end":true,"presence":{}}
"#;

// What connections come to.
const CONNECTIONS: [Script; 13] = [
    Script {
        shows: "shows that nothing happened",
        header: HEADER,
        parts: &[NOTHING],
    },
    Script {
        shows: "owes the edit before the first connect",
        header: HEADER,
        parts: &[FIRST_EDIT],
    },
    Script {
        shows: "puts again what another removed",
        header: HEADER,
        parts: &[BASE, PUT_TWICE],
    },
    Script {
        shows: "appends once what is pushed twice",
        header: HEADER,
        parts: &[BASE, APPENDED_TWICE],
    },
    Script {
        shows: "accepts a patch twice",
        header: HEADER,
        parts: &[BASE, PATCHED_TWICE],
    },
    Script {
        shows: "takes what was sent before a cut",
        header: HEADER,
        parts: &[BASE, SENT_BEFORE],
    },
    Script {
        shows: "migrates for an older client",
        header: HEADER,
        parts: &[OLDER],
    },
    Script {
        shows: "ends a newer client",
        header: r#"{"recording":1,"version":2}"#,
        parts: &[NEWER],
    },
    Script {
        shows: "discards what a reader edits",
        header: HEADER,
        parts: &[READ_ONLY],
    },
    Script {
        shows: "drops what goes to a lost session",
        header: HEADER,
        parts: &[BASE, LOST],
    },
    Script {
        shows: "delivers after a session is lost",
        header: HEADER,
        parts: &[BASE, DELIVERED_AFTER],
    },
    Script {
        shows: "keeps edits over a cut",
        header: HEADER,
        parts: &[BASE, CUT],
    },
    Script {
        shows: "tells a session of removals that are forgotten",
        header: HEADER,
        parts: &[FORGOTTEN],
    },
];

#[test]
fn goes_on_over_each_connection(rt: HostRuntime) -> Result<(), Fail> {
    plays(&rt, rt.alloc(), &CONNECTIONS)
}
