//! What a world refuses, and that it is as before then.
//!
//! What the steps of scripts are, `test_with_worlds` tells.
use crate::played::{BASE, HEADER, Script, plays};
use std::test::Fail;

// What is refused, after which everything is as before: an edit that was owed, and what was in flight, too.
const REFUSED: &str = r#"
edit 0 {"shape:a":["patch",{"x":["put",5]}]}
{"client":0,"do":"show"} | {"clock":1,"doc":{"page:p":$P,"shape:a":$G(a,a0,5)},"others":{},"owed":1,"show":0}
edit 0 {"shape:z":["patch",{"x":["put",1]}]} | NoRecord shape:z
edit 0 {"shape:z":["remove"]} | NoRecord shape:z
# Of an edit that is refused no part is made.
edit 0 {"shape:a":["patch",{"x":["put",6]}],"shape:z":["remove"]} | NoRecord shape:z
edit 0 {"shape:a":["patch",{"opacity":["put",101]}]} | Invalid shape:a OutOfBounds
edit 0 {"camera:c":["put",{"id":"camera:c","meta":{},"typeName":"camera","x":0,"y":0,"z":1000}]} | WrongScope camera:c
{"client":0,"do":"presence","record":{"color":7,"currentPageId":"page:p","cursor":{"x":1,"y":2},"id":"instance_presence:me","meta":{},"selectedShapeIds":[],"typeName":"instance_presence","userName":"u"}} | Invalid instance_presence:me WrongKind
{"client":0,"do":"connect","readonly":false} | AlreadyOpen
{"do":"send","session":0} | NothingThere
{"client":0,"do":"deliver"} | NothingThere
{"do":"handle","session":1} | NothingThere
edit 2 {} | NoSuchClient
{"client":2,"do":"presence","record":{"color":"red","currentPageId":"page:p","cursor":{"x":1,"y":2},"id":"instance_presence:me","meta":{},"selectedShapeIds":[],"typeName":"instance_presence","userName":"u"}} | NoSuchClient
{"client":2,"do":"connect","readonly":false} | NoSuchClient
{"client":2,"do":"deliver"} | NoSuchClient
{"client":2,"do":"cut"} | NoSuchClient
{"client":2,"do":"show"} | NoSuchClient
{"do":"handle","session":2} | NoSuchSession
{"do":"send","session":2} | NoSuchSession
{"do":"lose","session":2} | NoSuchSession
{"client":0,"do":"show"} | {"clock":1,"doc":{"page:p":$P,"shape:a":$G(a,a0,5)},"others":{},"owed":1,"show":0}
{"client":1,"do":"show"} | {"clock":1,"doc":{"page:p":$P,"shape:a":$G(a,a0,0)},"others":{},"owed":0,"show":1}
{"do":"end"} | {"clock":1,"doc":{"page:p":$P,"shape:a":$G(a,a0,0)},"end":true,"presence":{}}
# What was in flight is the one edit.
sync 0 0
{"do":"handle","session":0} | NothingThere
{"client":0,"do":"show"} | {"clock":2,"doc":{"page:p":$P,"shape:a":$G(a,a0,5)},"others":{},"owed":0,"show":0}
get 1 1
{"client":1,"do":"show"} | {"clock":2,"doc":{"page:p":$P,"shape:a":$G(a,a0,5)},"others":{},"owed":0,"show":1}
{"do":"end"} | {"clock":2,"doc":{"page:p":$P,"shape:a":$G(a,a0,5)},"end":true,"presence":{}}
"#;

// Nothing is in flight to a session before the room handled its request.
const TOO_SOON: &str = r#"
client 3
{"client":0,"do":"deliver"} | NoSuchSession
{"client":0,"do":"cut"} | NoSuchSession
{"do":"handle","session":0} | NoSuchSession
{"client":0,"do":"connect","readonly":false}
{"do":"send","session":0} | NothingThere
{"client":0,"do":"deliver"} | NothingThere
{"client":0,"do":"connect","readonly":false} | AlreadyOpen
sync 0 0
{"client":0,"do":"show"} | {"clock":0,"doc":{},"others":{},"owed":0,"show":0}
{"do":"end"} | {"clock":0,"doc":{},"end":true,"presence":{}}
"#;

// There is no 65th client.
const CLIENTS: &str = r#"
times 64 {"do":"client","version":3}
client 3 | Limit
client 1 | Limit
{"client":64,"do":"show"} | NoSuchClient
{"client":63,"do":"show"} | {"clock":-1,"doc":{},"others":{},"owed":0,"show":63}
open 63 0
{"client":63,"do":"show"} | {"clock":0,"doc":{},"others":{},"owed":0,"show":63}
{"do":"end"} | {"clock":0,"doc":{},"end":true,"presence":{}}
"#;

// What is refused.
const REFUSALS: [Script; 3] = [
    Script {
        shows: "leaves the world when it refuses",
        header: HEADER,
        parts: &[BASE, REFUSED],
    },
    Script {
        shows: "has nothing to deliver too soon",
        header: HEADER,
        parts: &[TOO_SOON],
    },
    Script {
        shows: "refuses the 65th client",
        header: HEADER,
        parts: &[CLIENTS],
    },
];

#[test]
fn leaves_the_world_when_it_refuses(rt: HostRuntime) -> Result<(), Fail> {
    plays(&rt, rt.alloc(), &REFUSALS)
}
