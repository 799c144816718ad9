//! What clients' edits are completed to, and which are refused.
//!
//! What the steps of scripts are, `test_with_worlds` tells.
use crate::played::{HEADER, Script, plays};
use std::test::Fail;

// A page with one shape; each refused edit leaves both.
const REFUSED: &str = r#"
client 3
edit 0 {"page:p":["put",$P],"shape:a":["put",$G(a,a0,0)]}
edit 0 {"page:p":["remove"]} | LastPage
edit 0 {"shape:b":["put",{"id":"shape:b","index":"a1","isLocked":false,"meta":{},"opacity":100,"parentId":"page:q","props":{},"rotation":0,"type":"group","typeName":"shape","x":0,"y":0}]} | NoParent shape:b
edit 0 {"shape:a":["patch",{"parentId":["put","shape:a"]}]} | UnderItself shape:a
edit 0 {"binding:1":["put",{"fromId":"shape:a","id":"binding:1","meta":{},"props":{"anchor":{"x":0,"y":0},"isExact":true,"terminal":"start"},"toId":"shape:z","type":"arrow","typeName":"binding"}]} | NoEnd binding:1
edit 0 {"shape:z":["patch",{"x":["put",1]}]} | NoRecord shape:z
edit 0 {"shape:a":["patch",{"opacity":["put",101]}]} | Invalid shape:a OutOfBounds
edit 0 {"camera:c":["put",{"id":"camera:c","meta":{},"typeName":"camera","x":0,"y":0,"z":1000}]} | WrongScope camera:c
{"client":0,"do":"show"} | {"clock":-1,"doc":{"page:p":$P,"shape:a":$G(a,a0,0)},"others":{},"owed":1,"show":0}
# Behind the greatest of all keys there is none.
edit 0 {"shape:a":["patch",{"index":["put","zzzzzzzzzzzzzzzzzzzzzzzzzzzzzzzzzzzzzzzzzzzzzzzzzzzzzzzzzzzzzzzzzzzzzzzzzzzzzzzzzzzzzzzzzzzzzzzzzzzzzzzzzzzzzzzzzzzzzzzzzzzzzzzzzzzzzzzzzzzzzzzzzzzzzzzzzzzzzzzzzzzzzzzzzzzzzzzzzzzzzzzzzzzzzzzzzzzzzzzzzzzzzzzzzzzzzzzzzzzzzzzzzzzzzzzzzzzzzzzzzzzzzzzzzzzzzzzz"]}]}
edit 0 {"shape:b":["put",{"id":"shape:b","isLocked":false,"meta":{},"opacity":100,"parentId":"page:p","props":{},"rotation":0,"type":"group","typeName":"shape","x":0,"y":0}]} | NoKey KeyTooLong
"#;

// A frame with a shape in it, a shape and an arrow beside it, and the arrow bound to the shape in the frame.
const FRAMED: &str = r#"
client 3
edit 0 {"binding:1":["put",{"fromId":"shape:w","id":"binding:1","meta":{},"props":{"anchor":{"x":0,"y":0},"isExact":true,"terminal":"end"},"toId":"shape:a","type":"arrow","typeName":"binding"}],"page:p":["put",$P],"shape:a":["put",{"id":"shape:a","index":"a0","isLocked":false,"meta":{},"opacity":100,"parentId":"shape:f","props":{},"rotation":0,"type":"group","typeName":"shape","x":0,"y":0}],"shape:c":["put",$G(c,a1,0)],"shape:f":["put",{"id":"shape:f","index":"a0","isLocked":false,"meta":{},"opacity":100,"parentId":"page:p","props":{"h":50,"name":"","w":100},"rotation":0,"type":"frame","typeName":"shape","x":0,"y":0}],"shape:w":["put",{"id":"shape:w","index":"a2","isLocked":false,"meta":{},"opacity":100,"parentId":"page:p","props":{"bend":0,"color":"black","end":{"x":1,"y":1},"size":"m","start":{"x":0,"y":0},"text":""},"rotation":0,"type":"arrow","typeName":"shape","x":0,"y":0}]}
"#;

// With the frame goes the shape in it, and with that the binding. A shape without index comes behind those of the page.
const REMOVED: &str = r#"
edit 0 {"shape:f":["remove"]}
{"client":0,"do":"show"} | {"clock":-1,"doc":{"page:p":$P,"shape:c":$G(c,a1,0),"shape:w":{"id":"shape:w","index":"a2","isLocked":false,"meta":{},"opacity":100,"parentId":"page:p","props":{"bend":0,"color":"black","end":{"x":1,"y":1},"size":"m","start":{"x":0,"y":0},"text":""},"rotation":0,"type":"arrow","typeName":"shape","x":0,"y":0}},"others":{},"owed":2,"show":0}
edit 0 {"shape:d":["put",{"id":"shape:d","isLocked":false,"meta":{},"opacity":100,"parentId":"page:p","props":{},"rotation":0,"type":"group","typeName":"shape","x":0,"y":0}],"shape:e":["put",{"id":"shape:e","isLocked":false,"meta":{},"opacity":100,"parentId":"page:p","props":{},"rotation":0,"type":"group","typeName":"shape","x":0,"y":0}]}
edit 0 {"shape:c":["remove"],"shape:w":["remove"]}
{"client":0,"do":"show"} | {"clock":-1,"doc":{"page:p":$P,"shape:d":{"id":"shape:d","index":"a3","isLocked":false,"meta":{},"opacity":100,"parentId":"page:p","props":{},"rotation":0,"type":"group","typeName":"shape","x":0,"y":0},"shape:e":{"id":"shape:e","index":"a4","isLocked":false,"meta":{},"opacity":100,"parentId":"page:p","props":{},"rotation":0,"type":"group","typeName":"shape","x":0,"y":0}},"others":{},"owed":4,"show":0}
"#;

// A shape that the same edit moves out of the frame stays, and so does the binding to it.
const MOVED: &str = r#"
edit 0 {"shape:a":["patch",{"parentId":["put","page:p"]}],"shape:f":["remove"]}
edit 0 {"shape:c":["remove"]}
{"client":0,"do":"show"} | {"clock":-1,"doc":{"binding:1":{"fromId":"shape:w","id":"binding:1","meta":{},"props":{"anchor":{"x":0,"y":0},"isExact":true,"terminal":"end"},"toId":"shape:a","type":"arrow","typeName":"binding"},"page:p":$P,"shape:a":{"id":"shape:a","index":"a0","isLocked":false,"meta":{},"opacity":100,"parentId":"page:p","props":{},"rotation":0,"type":"group","typeName":"shape","x":0,"y":0},"shape:w":{"id":"shape:w","index":"a2","isLocked":false,"meta":{},"opacity":100,"parentId":"page:p","props":{"bend":0,"color":"black","end":{"x":1,"y":1},"size":"m","start":{"x":0,"y":0},"text":""},"rotation":0,"type":"arrow","typeName":"shape","x":0,"y":0}},"others":{},"owed":3,"show":0}
"#;

// A shape that an edit moves under a removed one goes with it.
const MOVED_UNDER: &str = r#"
edit 0 {"shape:c":["patch",{"parentId":["put","shape:a"]}],"shape:f":["remove"]}
edit 0 {"shape:w":["remove"]}
{"client":0,"do":"show"} | {"clock":-1,"doc":{"page:p":$P},"others":{},"owed":3,"show":0}
# A shape is put under one that is put under it.
edit 0 {"shape:1":["put",{"id":"shape:1","index":"a0","isLocked":false,"meta":{},"opacity":100,"parentId":"shape:2","props":{},"rotation":0,"type":"group","typeName":"shape","x":0,"y":0}],"shape:2":["put",{"id":"shape:2","index":"a0","isLocked":false,"meta":{},"opacity":100,"parentId":"shape:1","props":{},"rotation":0,"type":"group","typeName":"shape","x":0,"y":0}]} | UnderItself shape:1
"#;

// What becomes of each edit.
const COMPLETIONS: [Script; 4] = [
    Script {
        shows: "refuses what leaves a part without its whole",
        header: HEADER,
        parts: &[REFUSED],
    },
    Script {
        shows: "removes what hangs on a frame",
        header: HEADER,
        parts: &[FRAMED, REMOVED],
    },
    Script {
        shows: "keeps what is moved out",
        header: HEADER,
        parts: &[FRAMED, MOVED],
    },
    Script {
        shows: "removes what is moved under",
        header: HEADER,
        parts: &[FRAMED, MOVED_UNDER],
    },
];

#[test]
fn completes_or_refuses_each_edit(rt: HostRuntime) -> Result<(), Fail> {
    plays(&rt, rt.alloc(), &COMPLETIONS)
}
