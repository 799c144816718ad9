//! Clients whose edits conflict.
//!
//! What the steps of scripts are, `test_with_worlds` tells.
use crate::played::{BASE, HEADER, Script, plays};
use std::test::Fail;

// Two clients patch the same field: each shows its own until it is told, and the patch that is handled last stands.
const TWO: &str = r#"
edit 0 {"shape:a":["patch",{"x":["put",5]}]}
edit 1 {"shape:a":["patch",{"x":["put",7]}]}
{"client":0,"do":"show"} | {"clock":1,"doc":{"page:p":$P,"shape:a":$G(a,a0,5)},"others":{},"owed":1,"show":0}
{"client":1,"do":"show"} | {"clock":1,"doc":{"page:p":$P,"shape:a":$G(a,a0,7)},"others":{},"owed":1,"show":1}
{"do":"handle","session":0}
get 1 1
{"client":1,"do":"show"} | {"clock":2,"doc":{"page:p":$P,"shape:a":$G(a,a0,7)},"others":{},"owed":1,"show":1}
{"do":"handle","session":1}
get 0 0
get 1 1
{"client":0,"do":"show"} | {"clock":3,"doc":{"page:p":$P,"shape:a":$G(a,a0,7)},"others":{},"owed":0,"show":0}
{"client":1,"do":"show"} | {"clock":3,"doc":{"page:p":$P,"shape:a":$G(a,a0,7)},"others":{},"owed":0,"show":1}
{"do":"end"} | {"clock":3,"doc":{"page:p":$P,"shape:a":$G(a,a0,7)},"end":true,"presence":{}}
"#;

// Three clients patch the same field, and their patches are handled in another order than they were made.
const THREE: &str = r#"
client 3
open 2 2
{"client":2,"do":"show"} | {"clock":1,"doc":{"page:p":$P,"shape:a":$G(a,a0,0)},"others":{},"owed":0,"show":2}
edit 0 {"shape:a":["patch",{"x":["put",5]}]}
edit 1 {"shape:a":["patch",{"x":["put",7]}]}
edit 2 {"shape:a":["patch",{"x":["put",9]}]}
{"client":0,"do":"show"} | {"clock":1,"doc":{"page:p":$P,"shape:a":$G(a,a0,5)},"others":{},"owed":1,"show":0}
{"client":1,"do":"show"} | {"clock":1,"doc":{"page:p":$P,"shape:a":$G(a,a0,7)},"others":{},"owed":1,"show":1}
{"client":2,"do":"show"} | {"clock":1,"doc":{"page:p":$P,"shape:a":$G(a,a0,9)},"others":{},"owed":1,"show":2}
{"do":"handle","session":0}
get 0 0
get 1 1
get 2 2
{"client":0,"do":"show"} | {"clock":2,"doc":{"page:p":$P,"shape:a":$G(a,a0,5)},"others":{},"owed":0,"show":0}
{"client":1,"do":"show"} | {"clock":2,"doc":{"page:p":$P,"shape:a":$G(a,a0,7)},"others":{},"owed":1,"show":1}
{"client":2,"do":"show"} | {"clock":2,"doc":{"page:p":$P,"shape:a":$G(a,a0,9)},"others":{},"owed":1,"show":2}
{"do":"end"} | {"clock":2,"doc":{"page:p":$P,"shape:a":$G(a,a0,5)},"end":true,"presence":{}}
{"do":"handle","session":2}
get 0 0
{"client":0,"do":"show"} | {"clock":3,"doc":{"page:p":$P,"shape:a":$G(a,a0,9)},"others":{},"owed":0,"show":0}
{"do":"handle","session":1}
get 0 0
get 1 1
get 2 2
{"client":0,"do":"show"} | {"clock":4,"doc":{"page:p":$P,"shape:a":$G(a,a0,7)},"others":{},"owed":0,"show":0}
{"client":1,"do":"show"} | {"clock":4,"doc":{"page:p":$P,"shape:a":$G(a,a0,7)},"others":{},"owed":0,"show":1}
{"client":2,"do":"show"} | {"clock":4,"doc":{"page:p":$P,"shape:a":$G(a,a0,7)},"others":{},"owed":0,"show":2}
{"do":"end"} | {"clock":4,"doc":{"page:p":$P,"shape:a":$G(a,a0,7)},"end":true,"presence":{}}
"#;

// A record that one removes and another patches is gone, whichever is handled first: here the removal.
const REMOVED_FIRST: &str = r#"
edit 0 {"shape:a":["remove"]}
edit 1 {"shape:a":["patch",{"x":["put",9]}]}
{"client":0,"do":"show"} | {"clock":1,"doc":{"page:p":$P},"others":{},"owed":1,"show":0}
{"client":1,"do":"show"} | {"clock":1,"doc":{"page:p":$P,"shape:a":$G(a,a0,9)},"others":{},"owed":1,"show":1}
{"do":"handle","session":0}
{"do":"handle","session":1}
get 1 1
{"client":1,"do":"show"} | {"clock":3,"doc":{"page:p":$P},"others":{},"owed":0,"show":1}
get 0 0
{"client":0,"do":"show"} | {"clock":3,"doc":{"page:p":$P},"others":{},"owed":0,"show":0}
{"do":"end"} | {"clock":3,"doc":{"page:p":$P},"end":true,"presence":{}}
"#;

// And here the patch.
const PATCHED_FIRST: &str = r#"
edit 0 {"shape:a":["remove"]}
edit 1 {"shape:a":["patch",{"x":["put",9]}]}
{"do":"handle","session":1}
get 0 0
{"client":0,"do":"show"} | {"clock":2,"doc":{"page:p":$P},"others":{},"owed":1,"show":0}
{"do":"end"} | {"clock":2,"doc":{"page:p":$P,"shape:a":$G(a,a0,9)},"end":true,"presence":{}}
{"do":"handle","session":0}
get 0 0
get 1 1
{"client":0,"do":"show"} | {"clock":3,"doc":{"page:p":$P},"others":{},"owed":0,"show":0}
{"client":1,"do":"show"} | {"clock":3,"doc":{"page:p":$P},"others":{},"owed":0,"show":1}
{"do":"end"} | {"clock":3,"doc":{"page:p":$P},"end":true,"presence":{}}
"#;

// Of two points that are appended at the same place the first stands, and the second is passed over.
const APPENDS: &str = r#"
edit 0 {"shape:d":["put",$D(d,a1)]}
sync 0 0
get 1 1
edit 0 {"shape:d":["patch",{"props":["patch",{"points":["append",[{"x":1,"y":1}],1]}]}]}
edit 1 {"shape:d":["patch",{"props":["patch",{"points":["append",[{"x":2,"y":2}],1]}]}]}
{"client":0,"do":"show"} | {"clock":2,"doc":{"page:p":$P,"shape:a":$G(a,a0,0),"shape:d":{"id":"shape:d","index":"a1","isLocked":false,"meta":{},"opacity":100,"parentId":"page:p","props":{"color":"black","isClosed":false,"points":[{"x":0,"y":0},{"x":1,"y":1}],"size":"m"},"rotation":0,"type":"draw","typeName":"shape","x":0,"y":0}},"others":{},"owed":1,"show":0}
{"client":1,"do":"show"} | {"clock":2,"doc":{"page:p":$P,"shape:a":$G(a,a0,0),"shape:d":{"id":"shape:d","index":"a1","isLocked":false,"meta":{},"opacity":100,"parentId":"page:p","props":{"color":"black","isClosed":false,"points":[{"x":0,"y":0},{"x":2,"y":2}],"size":"m"},"rotation":0,"type":"draw","typeName":"shape","x":0,"y":0}},"others":{},"owed":1,"show":1}
{"do":"handle","session":0}
get 1 1
{"client":1,"do":"show"} | {"clock":3,"doc":{"page:p":$P,"shape:a":$G(a,a0,0),"shape:d":{"id":"shape:d","index":"a1","isLocked":false,"meta":{},"opacity":100,"parentId":"page:p","props":{"color":"black","isClosed":false,"points":[{"x":0,"y":0},{"x":1,"y":1}],"size":"m"},"rotation":0,"type":"draw","typeName":"shape","x":0,"y":0}},"others":{},"owed":1,"show":1}
{"do":"handle","session":1}
get 0 0
get 1 1
{"client":0,"do":"show"} | {"clock":4,"doc":{"page:p":$P,"shape:a":$G(a,a0,0),"shape:d":{"id":"shape:d","index":"a1","isLocked":false,"meta":{},"opacity":100,"parentId":"page:p","props":{"color":"black","isClosed":false,"points":[{"x":0,"y":0},{"x":1,"y":1}],"size":"m"},"rotation":0,"type":"draw","typeName":"shape","x":0,"y":0}},"others":{},"owed":0,"show":0}
{"client":1,"do":"show"} | {"clock":4,"doc":{"page:p":$P,"shape:a":$G(a,a0,0),"shape:d":{"id":"shape:d","index":"a1","isLocked":false,"meta":{},"opacity":100,"parentId":"page:p","props":{"color":"black","isClosed":false,"points":[{"x":0,"y":0},{"x":1,"y":1}],"size":"m"},"rotation":0,"type":"draw","typeName":"shape","x":0,"y":0}},"others":{},"owed":0,"show":1}
# At its end a point is appended again.
edit 1 {"shape:d":["patch",{"props":["patch",{"points":["append",[{"x":2,"y":2}],2]}]}]}
sync 1 1
get 0 0
{"client":0,"do":"show"} | {"clock":5,"doc":{"page:p":$P,"shape:a":$G(a,a0,0),"shape:d":{"id":"shape:d","index":"a1","isLocked":false,"meta":{},"opacity":100,"parentId":"page:p","props":{"color":"black","isClosed":false,"points":[{"x":0,"y":0},{"x":1,"y":1},{"x":2,"y":2}],"size":"m"},"rotation":0,"type":"draw","typeName":"shape","x":0,"y":0}},"others":{},"owed":0,"show":0}
{"client":1,"do":"show"} | {"clock":5,"doc":{"page:p":$P,"shape:a":$G(a,a0,0),"shape:d":{"id":"shape:d","index":"a1","isLocked":false,"meta":{},"opacity":100,"parentId":"page:p","props":{"color":"black","isClosed":false,"points":[{"x":0,"y":0},{"x":1,"y":1},{"x":2,"y":2}],"size":"m"},"rotation":0,"type":"draw","typeName":"shape","x":0,"y":0}},"others":{},"owed":0,"show":1}
{"do":"end"} | {"clock":5,"doc":{"page:p":$P,"shape:a":$G(a,a0,0),"shape:d":{"id":"shape:d","index":"a1","isLocked":false,"meta":{},"opacity":100,"parentId":"page:p","props":{"color":"black","isClosed":false,"points":[{"x":0,"y":0},{"x":1,"y":1},{"x":2,"y":2}],"size":"m"},"rotation":0,"type":"draw","typeName":"shape","x":0,"y":0}},"end":true,"presence":{}}
"#;

// Two clients patch two fields of a record: both patches stand.
const FIELDS: &str = r#"
edit 0 {"shape:a":["patch",{"x":["put",5]}]}
edit 1 {"shape:a":["patch",{"opacity":["put",50]}]}
{"do":"handle","session":1}
{"do":"handle","session":0}
get 0 0
get 1 1
{"client":0,"do":"show"} | {"clock":3,"doc":{"page:p":$P,"shape:a":$G(a,a0,5,50)},"others":{},"owed":0,"show":0}
{"client":1,"do":"show"} | {"clock":3,"doc":{"page:p":$P,"shape:a":$G(a,a0,5,50)},"others":{},"owed":0,"show":1}
{"do":"end"} | {"clock":3,"doc":{"page:p":$P,"shape:a":$G(a,a0,5,50)},"end":true,"presence":{}}
"#;

// The peer of each client has what its client shows: its own patch until it is told of a later one.
const PEERS: &str = r#"
peer 0 | 1 owes 0: {"page:p":$P,"shape:a":$G(a,a0,0)}
edit 0 {"shape:a":["patch",{"x":["put",5]}]}
edit 1 {"shape:a":["patch",{"x":["put",7]}]}
peer 0 | 1 owes 1: {"page:p":$P,"shape:a":$G(a,a0,5)}
peer 1 | 1 owes 1: {"page:p":$P,"shape:a":$G(a,a0,7)}
peer 2 | no client
sync 0 0
get 1 1
peer 0 | 2 owes 0: {"page:p":$P,"shape:a":$G(a,a0,5)}
peer 1 | 2 owes 1: {"page:p":$P,"shape:a":$G(a,a0,7)}
sync 1 1
peer 0 | 2 owes 0: {"page:p":$P,"shape:a":$G(a,a0,5)}
peer 1 | 3 owes 0: {"page:p":$P,"shape:a":$G(a,a0,7)}
get 0 0
peer 0 | 3 owes 0: {"page:p":$P,"shape:a":$G(a,a0,7)}
# A client of an older version has it as that version does.
client 1
open 2 2
peer 2 | 3 owes 0: {"page:p":$P,"shape:a":$G1(a,a0,7)}
"#;

// Each conflict.
const CONFLICTS: [Script; 7] = [
    Script {
        shows: "shows its own of two",
        header: HEADER,
        parts: &[BASE, TWO],
    },
    Script {
        shows: "agrees on one of three",
        header: HEADER,
        parts: &[BASE, THREE],
    },
    Script {
        shows: "removes before a patch",
        header: HEADER,
        parts: &[BASE, REMOVED_FIRST],
    },
    Script {
        shows: "removes after a patch",
        header: HEADER,
        parts: &[BASE, PATCHED_FIRST],
    },
    Script {
        shows: "appends one of two",
        header: HEADER,
        parts: &[BASE, APPENDS],
    },
    Script {
        shows: "keeps patches of two fields",
        header: HEADER,
        parts: &[BASE, FIELDS],
    },
    Script {
        shows: "has each client's own in its peer",
        header: HEADER,
        parts: &[BASE, PEERS],
    },
];

#[test]
fn settles_each_conflict(rt: HostRuntime) -> Result<(), Fail> {
    plays(&rt, rt.alloc(), &CONFLICTS)
}
