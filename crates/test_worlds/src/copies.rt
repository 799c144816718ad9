//! Shapes that are copied and pasted, at one client and at two.
//!
//! What the steps of scripts are, `test_with_worlds` tells.
use crate::played::{BASE, HEADER, Script, plays};
use std::test::Fail;

// A shape is pasted behind its original, moved. The fault that comes first is the one that is named.
const ONE: &str = r#"
{"client":0,"do":"paste","dx":10,"dy":10,"parent":"page:p","prefix":"q"} | NoClip
{"client":0,"do":"copy","ids":["shape:a","shape:a","shape:z"]} | NoShape shape:z
{"client":0,"do":"copy","ids":["shape:a","page:p"]} | NoShape page:p
{"client":0,"do":"copy","ids":["shape:a","shape:a"]} | Doubled shape:a
{"client":2,"do":"copy","ids":["shape:z"]} | NoSuchClient
{"client":2,"do":"paste","dx":0,"dy":0,"parent":"page:p","prefix":"q"} | NoSuchClient
{"client":0,"do":"paste","dx":10,"dy":10,"parent":"page:p","prefix":"q"} | NoClip
{"client":0,"do":"copy","ids":["shape:a"]}
{"client":1,"do":"paste","dx":10,"dy":10,"parent":"page:p","prefix":"q"} | NoClip
{"client":0,"do":"paste","dx":10,"dy":10,"parent":"page:p","prefix":"q"}
{"client":0,"do":"show"} | {"clock":1,"doc":{"page:p":$P,"shape:a":$G(a,a0,0),"shape:q0000":{"id":"shape:q0000","index":"a1","isLocked":false,"meta":{},"opacity":100,"parentId":"page:p","props":{"color":"black","dash":"draw","fill":"none","geo":"rectangle","h":10,"size":"m","text":"","w":10},"rotation":0,"type":"geo","typeName":"shape","x":10,"y":10}},"others":{},"owed":1,"show":0}
{"client":0,"do":"paste","dx":0,"dy":0,"parent":"page:z","prefix":"q"} | Taken shape:q0000
{"client":0,"do":"paste","dx":0,"dy":0,"parent":"page:z","prefix":"r"} | NoParent shape:r0000
{"client":0,"do":"copy","ids":["shape:z"]} | NoShape shape:z
sync 0 0
get 1 1
{"client":1,"do":"show"} | {"clock":2,"doc":{"page:p":$P,"shape:a":$G(a,a0,0),"shape:q0000":{"id":"shape:q0000","index":"a1","isLocked":false,"meta":{},"opacity":100,"parentId":"page:p","props":{"color":"black","dash":"draw","fill":"none","geo":"rectangle","h":10,"size":"m","text":"","w":10},"rotation":0,"type":"geo","typeName":"shape","x":10,"y":10}},"others":{},"owed":0,"show":1}
"#;

// A frame comes with the shape in it, and an arrow with its binding to that.
const FRAMED: &str = r#"
client 3
edit 0 {"page:p":["put",$P],"shape:f":["put",{"id":"shape:f","isLocked":false,"meta":{},"opacity":100,"parentId":"page:p","props":{"h":50,"name":"F","w":100},"rotation":0,"type":"frame","typeName":"shape","x":0,"y":0,"index":"a0"}],"shape:a":["put",{"id":"shape:a","index":"a0","isLocked":false,"meta":{},"opacity":100,"parentId":"shape:f","props":{"color":"black","dash":"draw","fill":"none","geo":"rectangle","h":10,"size":"m","text":"","w":10},"rotation":0,"type":"geo","typeName":"shape","x":0,"y":0}],"shape:c":["put",$G(c,a1,0)],"shape:w":["put",{"id":"shape:w","isLocked":false,"meta":{},"opacity":100,"parentId":"page:p","props":{"bend":0,"color":"black","end":{"x":10,"y":10},"size":"m","start":{"x":0,"y":0},"text":""},"rotation":0,"type":"arrow","typeName":"shape","x":0,"y":0,"index":"a2"}],"binding:1":["put",{"fromId":"shape:w","id":"binding:1","meta":{},"props":{"anchor":{"x":500,"y":500},"isExact":false,"terminal":"start"},"toId":"shape:a","type":"arrow","typeName":"binding"}]}
{"client":0,"do":"copy","ids":["shape:f","shape:w"]}
{"client":0,"do":"paste","dx":0,"dy":0,"parent":"page:p","prefix":"q"}
{"client":0,"do":"show"} | {"clock":-1,"doc":{"binding:1":{"fromId":"shape:w","id":"binding:1","meta":{},"props":{"anchor":{"x":500,"y":500},"isExact":false,"terminal":"start"},"toId":"shape:a","type":"arrow","typeName":"binding"},"binding:q0000":{"fromId":"shape:q0002","id":"binding:q0000","meta":{},"props":{"anchor":{"x":500,"y":500},"isExact":false,"terminal":"start"},"toId":"shape:q0000","type":"arrow","typeName":"binding"},"page:p":$P,"shape:a":{"id":"shape:a","index":"a0","isLocked":false,"meta":{},"opacity":100,"parentId":"shape:f","props":{"color":"black","dash":"draw","fill":"none","geo":"rectangle","h":10,"size":"m","text":"","w":10},"rotation":0,"type":"geo","typeName":"shape","x":0,"y":0},"shape:c":$G(c,a1,0),"shape:f":{"id":"shape:f","index":"a0","isLocked":false,"meta":{},"opacity":100,"parentId":"page:p","props":{"h":50,"name":"F","w":100},"rotation":0,"type":"frame","typeName":"shape","x":0,"y":0},"shape:q0000":{"id":"shape:q0000","index":"a0","isLocked":false,"meta":{},"opacity":100,"parentId":"shape:q0001","props":{"color":"black","dash":"draw","fill":"none","geo":"rectangle","h":10,"size":"m","text":"","w":10},"rotation":0,"type":"geo","typeName":"shape","x":0,"y":0},"shape:q0001":{"id":"shape:q0001","index":"a3","isLocked":false,"meta":{},"opacity":100,"parentId":"page:p","props":{"h":50,"name":"F","w":100},"rotation":0,"type":"frame","typeName":"shape","x":0,"y":0},"shape:q0002":{"id":"shape:q0002","index":"a4","isLocked":false,"meta":{},"opacity":100,"parentId":"page:p","props":{"bend":0,"color":"black","end":{"x":10,"y":10},"size":"m","start":{"x":0,"y":0},"text":""},"rotation":0,"type":"arrow","typeName":"shape","x":0,"y":0},"shape:w":{"id":"shape:w","index":"a2","isLocked":false,"meta":{},"opacity":100,"parentId":"page:p","props":{"bend":0,"color":"black","end":{"x":10,"y":10},"size":"m","start":{"x":0,"y":0},"text":""},"rotation":0,"type":"arrow","typeName":"shape","x":0,"y":0}},"others":{},"owed":2,"show":0}
{"client":0,"do":"paste","dx":0,"dy":0,"parent":"page:p","prefix":"q"} | Taken binding:q0000
"#;

// What was copied stays as it was, whatever becomes of its originals. A further copy takes its place.
const GONE: &str = r#"
{"client":0,"do":"copy","ids":["shape:a"]}
edit 0 {"shape:a":["patch",{"x":["put",5]}]}
edit 0 {"shape:a":["remove"]}
{"client":0,"do":"paste","dx":0,"dy":0,"parent":"page:p","prefix":"q"}
{"client":0,"do":"show"} | {"clock":1,"doc":{"page:p":$P,"shape:q0000":$G(q0000,a0,0)},"others":{},"owed":3,"show":0}
edit 0 {"shape:b":["put",$G(b,a1,7)]}
{"client":0,"do":"copy","ids":["shape:b"]}
{"client":0,"do":"paste","dx":-9,"dy":0,"parent":"page:p","prefix":"r"}
{"client":0,"do":"show"} | {"clock":1,"doc":{"page:p":$P,"shape:b":$G(b,a1,7),"shape:q0000":$G(q0000,a0,0),"shape:r0000":$G(r0000,a2,-2)},"others":{},"owed":5,"show":0}
{"client":0,"do":"copy","ids":[]}
{"client":0,"do":"paste","dx":0,"dy":0,"parent":"page:p","prefix":"s"}
{"client":0,"do":"show"} | {"clock":1,"doc":{"page:p":$P,"shape:b":$G(b,a1,7),"shape:q0000":$G(q0000,a0,0),"shape:r0000":$G(r0000,a2,-2)},"others":{},"owed":6,"show":0}
"#;

// A paste is taken back and done again as an edit is.
const TAKEN_BACK: &str = r#"
{"client":0,"do":"mark","name":"m"}
{"client":0,"do":"copy","ids":["shape:a"]}
{"client":0,"do":"paste","dx":1,"dy":0,"parent":"page:p","prefix":"q"}
{"client":0,"do":"undo"} | {"client":0,"undo":true}
{"client":0,"do":"show"} | {"clock":1,"doc":{"page:p":$P,"shape:a":$G(a,a0,0)},"others":{},"owed":2,"show":0}
{"client":0,"do":"redo"} | {"client":0,"redo":true}
{"client":0,"do":"show"} | {"clock":1,"doc":{"page:p":$P,"shape:a":$G(a,a0,0),"shape:q0000":$G(q0000,a1,1)},"others":{},"owed":3,"show":0}
{"client":0,"do":"paste","dx":2,"dy":0,"parent":"page:p","prefix":"r"}
{"client":0,"do":"bail","name":"m"}
{"client":0,"do":"show"} | {"clock":1,"doc":{"page:p":$P,"shape:a":$G(a,a0,0)},"others":{},"owed":5,"show":0}
"#;

// Of two pastes by one prefix the room has the later one, and so have both clients.
const ONE_PREFIX: &str = r#"
{"client":0,"do":"copy","ids":["shape:a"]}
{"client":1,"do":"copy","ids":["shape:a"]}
{"client":0,"do":"paste","dx":1,"dy":0,"parent":"page:p","prefix":"q"}
{"client":1,"do":"paste","dx":2,"dy":0,"parent":"page:p","prefix":"q"}
sync 0 0
{"client":0,"do":"show"} | {"clock":2,"doc":{"page:p":$P,"shape:a":$G(a,a0,0),"shape:q0000":$G(q0000,a1,1)},"others":{},"owed":0,"show":0}
{"do":"handle","session":1}
get 0 0
get 1 1
{"client":0,"do":"show"} | {"clock":3,"doc":{"page:p":$P,"shape:a":$G(a,a0,0),"shape:q0000":$G(q0000,a1,2)},"others":{},"owed":0,"show":0}
{"client":1,"do":"show"} | {"clock":3,"doc":{"page:p":$P,"shape:a":$G(a,a0,0),"shape:q0000":$G(q0000,a1,2)},"others":{},"owed":0,"show":1}
"#;

// A client of version 1 pastes what it shows.
const OLDER: &str = r#"
client 1
open 2 2
{"client":2,"do":"copy","ids":["shape:a"]}
{"client":2,"do":"paste","dx":3,"dy":0,"parent":"page:p","prefix":"q"}
{"client":2,"do":"show"} | {"clock":1,"doc":{"page:p":$P,"shape:a":$G1(a,a0,0),"shape:q0000":$G1(q0000,a1,3)},"others":{},"owed":1,"show":2}
sync 2 2
get 0 0
{"client":0,"do":"show"} | {"clock":2,"doc":{"page:p":$P,"shape:a":$G(a,a0,0),"shape:q0000":$G(q0000,a1,3)},"others":{},"owed":0,"show":0}
{"client":2,"do":"show"} | {"clock":2,"doc":{"page:p":$P,"shape:a":$G1(a,a0,0),"shape:q0000":$G1(q0000,a1,3)},"others":{},"owed":0,"show":2}
"#;

// What is told of a page counts what is pasted.
const WATCHED: &str = r#"
watch 0 {"tree":"page:p"} | {"client":0,"told":["shape:a"],"watch":0}
{"client":0,"do":"copy","ids":["shape:a"]}
{"client":0,"do":"paste","dx":3,"dy":0,"parent":"page:p","prefix":"q"} | {"client":0,"told":["shape:a","shape:q0000"],"watch":0}
"#;

// Each copy and paste.
const COPYING: [Script; 7] = [
    Script {
        shows: "pastes a shape, or names the first fault",
        header: HEADER,
        parts: &[BASE, ONE],
    },
    Script {
        shows: "pastes a frame with what hangs on it",
        header: HEADER,
        parts: &[FRAMED],
    },
    Script {
        shows: "pastes what was copied",
        header: HEADER,
        parts: &[BASE, GONE],
    },
    Script {
        shows: "takes a paste back",
        header: HEADER,
        parts: &[BASE, TAKEN_BACK],
    },
    Script {
        shows: "pastes twice by one prefix",
        header: HEADER,
        parts: &[BASE, ONE_PREFIX],
    },
    Script {
        shows: "pastes at an older client",
        header: HEADER,
        parts: &[BASE, OLDER],
    },
    Script {
        shows: "tells what is pasted",
        header: HEADER,
        parts: &[BASE, WATCHED],
    },
];

#[test]
fn pastes_what_was_copied(rt: HostRuntime) -> Result<(), Fail> {
    plays(&rt, rt.alloc(), &COPYING)
}
