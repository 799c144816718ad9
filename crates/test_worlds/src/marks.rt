//! Clients that take back what they did, and do it again.
//!
//! What the steps of scripts are, `test_with_worlds` tells.
use crate::played::{BASE, HEADER, Script, plays};
use std::test::Fail;

// An undo goes back to the last mark, which stays; a redo does it again; a bail goes back to its mark and forgets it.
const BACK_AND_AGAIN: &str = r#"
client 3
edit 0 {"page:p":["put",$P],"shape:a":["put",$G(a,a0,0)]}
{"client":0,"do":"mark","name":"m"}
edit 0 {"shape:a":["patch",{"x":["put",1]}]}
edit 0 {"shape:a":["patch",{"x":["put",2]}]}
edit 0 {"shape:a":["patch",{"x":["put",3]}]}
{"client":0,"do":"undo"} | {"client":0,"undo":true}
{"client":0,"do":"show"} | {"clock":-1,"doc":{"page:p":$P,"shape:a":$G(a,a0,0)},"others":{},"owed":5,"show":0}
{"client":0,"do":"redo"} | {"client":0,"redo":true}
{"client":0,"do":"show"} | {"clock":-1,"doc":{"page:p":$P,"shape:a":$G(a,a0,3)},"others":{},"owed":6,"show":0}
{"client":0,"do":"bail","name":"m"}
{"client":0,"do":"show"} | {"clock":-1,"doc":{"page:p":$P,"shape:a":$G(a,a0,0)},"others":{},"owed":7,"show":0}
{"client":0,"do":"undo"} | {"client":0,"undo":true}
{"client":0,"do":"show"} | {"clock":-1,"doc":{},"others":{},"owed":8,"show":0}
{"client":0,"do":"undo"} | {"client":0,"undo":false}
{"client":0,"do":"show"} | {"clock":-1,"doc":{},"others":{},"owed":8,"show":0}
{"client":0,"do":"bail","name":"m"} | NoMark
"#;

// What another client did in between stays.
const OVER_REMOTE: &str = r#"
{"client":0,"do":"mark","name":"m"}
edit 0 {"shape:a":["patch",{"x":["put",5]}]}
sync 0 0
get 1 1
edit 1 {"shape:a":["patch",{"y":["put",9]}]}
{"do":"handle","session":1}
get 0 0
{"client":0,"do":"undo"} | {"client":0,"undo":true}
{"client":0,"do":"show"} | {"clock":3,"doc":{"page:p":$P,"shape:a":{"id":"shape:a","index":"a0","isLocked":false,"meta":{},"opacity":100,"parentId":"page:p","props":{"color":"black","dash":"draw","fill":"none","geo":"rectangle","h":10,"size":"m","text":"","w":10},"rotation":0,"type":"geo","typeName":"shape","x":0,"y":9}},"others":{},"owed":1,"show":0}
"#;

// A bail goes back to the last mark of the name.
const TWO_OF_A_NAME: &str = r#"
{"client":0,"do":"mark","name":"m"}
edit 0 {"shape:a":["patch",{"x":["put",1]}]}
{"client":0,"do":"mark","name":"m"}
edit 0 {"shape:a":["patch",{"x":["put",2]}]}
{"client":0,"do":"bail","name":"m"}
{"client":0,"do":"show"} | {"clock":1,"doc":{"page:p":$P,"shape:a":$G(a,a0,1)},"others":{},"owed":3,"show":0}
{"client":0,"do":"bail","name":"m"}
{"client":0,"do":"show"} | {"clock":1,"doc":{"page:p":$P,"shape:a":$G(a,a0,0)},"others":{},"owed":4,"show":0}
{"client":0,"do":"bail","name":"m"} | NoMark
"#;

// What an undo changes nothing of is done again by nothing, and that is no more to take back.
const NOTHING_AGAIN: &str = r#"
{"client":0,"do":"mark","name":"m"}
edit 0 {"shape:a":["patch",{"x":["put",5]}]}
sync 0 0
get 1 1
edit 1 {"shape:a":["remove"]}
{"do":"handle","session":1}
get 0 0
{"client":0,"do":"undo"} | {"client":0,"undo":true}
{"client":0,"do":"show"} | {"clock":3,"doc":{"page:p":$P},"others":{},"owed":1,"show":0}
{"client":0,"do":"redo"} | {"client":0,"redo":true}
{"client":0,"do":"show"} | {"clock":3,"doc":{"page:p":$P},"others":{},"owed":1,"show":0}
{"client":0,"do":"redo"} | {"client":0,"redo":false}
"#;

// An undo may put what isn't admitted any more: the room ends the session.
const NOT_ADMITTED: &str = r#"
{"client":0,"do":"mark","name":"m"}
edit 0 {"shape:a":["patch",{"props":["patch",{"w":["put",20]}]}]}
edit 1 {"shape:a":["put",{"id":"shape:a","index":"a0","isLocked":false,"meta":{},"opacity":100,"parentId":"page:p","props":{"color":"black","isClosed":false,"points":[{"x":0,"y":0}],"size":"m"},"rotation":0,"type":"draw","typeName":"shape","x":0,"y":0}]}
{"do":"handle","session":0}
{"do":"handle","session":1}
get 0 0
get 1 1
{"client":0,"do":"show"} | {"clock":3,"doc":{"page:p":$P,"shape:a":{"id":"shape:a","index":"a0","isLocked":false,"meta":{},"opacity":100,"parentId":"page:p","props":{"color":"black","isClosed":false,"points":[{"x":0,"y":0}],"size":"m"},"rotation":0,"type":"draw","typeName":"shape","x":0,"y":0}},"others":{},"owed":0,"show":0}
edit 0 {"shape:a":["remove"]}
{"client":0,"do":"undo"} | {"client":0,"undo":true}
{"client":0,"do":"show"} | {"clock":3,"doc":{"page:p":$P,"shape:a":{"id":"shape:a","index":"a0","isLocked":false,"meta":{},"opacity":100,"parentId":"page:p","props":{"color":"black","isClosed":false,"points":[{"x":0,"y":0}],"size":"m","w":10},"rotation":0,"type":"draw","typeName":"shape","x":0,"y":0}},"others":{},"owed":2,"show":0}
{"do":"handle","session":0}
{"do":"handle","session":0}
get 0 0 | {"client":0,"ended":"INVALID_RECORD"}
{"client":0,"do":"connect","readonly":false} | Refused INVALID_RECORD
"#;

// Nobody makes or goes back to marks who wasn't made.
const NO_CLIENT: &str = r#"
client 3
{"client":2,"do":"mark","name":"m"} | NoSuchClient
{"client":2,"do":"undo"} | NoSuchClient
{"client":2,"do":"redo"} | NoSuchClient
{"client":2,"do":"bail","name":"m"} | NoSuchClient
{"client":0,"do":"bail","name":"m"} | NoMark
{"client":0,"do":"redo"} | {"client":0,"redo":false}
{"client":0,"do":"undo"} | {"client":0,"undo":false}
"#;

// What is taken back.
const MARKS: [Script; 6] = [
    Script {
        shows: "goes back and again",
        header: HEADER,
        parts: &[BACK_AND_AGAIN],
    },
    Script {
        shows: "leaves what others did",
        header: HEADER,
        parts: &[BASE, OVER_REMOTE],
    },
    Script {
        shows: "bails to the last mark of a name",
        header: HEADER,
        parts: &[BASE, TWO_OF_A_NAME],
    },
    Script {
        shows: "does nothing again",
        header: HEADER,
        parts: &[BASE, NOTHING_AGAIN],
    },
    Script {
        shows: "puts what is not admitted",
        header: HEADER,
        parts: &[BASE, NOT_ADMITTED],
    },
    Script {
        shows: "knows who was made",
        header: HEADER,
        parts: &[NO_CLIENT],
    },
];

#[test]
fn takes_back_what_a_client_did(rt: HostRuntime) -> Result<(), Fail> {
    plays(&rt, rt.alloc(), &MARKS)
}
