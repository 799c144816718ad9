//! Texts that grow, at one client and at two.
//!
//! What the steps of scripts are, `test_with_worlds` tells.
use crate::played::{BASE, HEADER, Script, plays};
use std::alloc::Global;
use std::test::Fail;

// An append takes effect where the text has so many bytes, in one edit of two that say the same.
const TYPED: &str = r#"
client 3
open 0 0
edit 0 {"page:p":["put",$P],"shape:t":["put",$T(t,a0,Hi)]}
edit 0 {"shape:t":["patch",{"props":["patch",{"text":["append"," é",2]}]}]}
{"client":0,"do":"show"} | {"clock":0,"doc":{"page:p":$P,"shape:t":$T(t,a0,Hi é)},"others":{},"owed":2,"show":0}
edit 0 {"shape:t":["patch",{"props":["patch",{"text":["append"," é",2]}]}]}
{"client":0,"do":"show"} | {"clock":0,"doc":{"page:p":$P,"shape:t":$T(t,a0,Hi é)},"others":{},"owed":3,"show":0}
{"do":"handle","session":0}
{"do":"handle","session":0}
{"do":"handle","session":0}
get 0 0
{"client":0,"do":"show"} | {"clock":3,"doc":{"page:p":$P,"shape:t":$T(t,a0,Hi é)},"others":{},"owed":0,"show":0}
# Five bytes are there. Four would end in the middle of a character.
edit 0 {"shape:t":["patch",{"props":["patch",{"text":["append","!",4]}]}]}
{"client":0,"do":"show"} | {"clock":3,"doc":{"page:p":$P,"shape:t":$T(t,a0,Hi é)},"others":{},"owed":1,"show":0}
edit 0 {"shape:t":["patch",{"props":["patch",{"text":["append","!",5]}]}]}
{"client":0,"do":"show"} | {"clock":3,"doc":{"page:p":$P,"shape:t":$T(t,a0,Hi é!)},"others":{},"owed":2,"show":0}
"#;

// Of two who type at the same place the first one's text stands. The other's patch is accepted, but not its append.
const TWO_TYPE: &str = r#"
edit 0 {"shape:t":["put",$T(t,a1,Hi)]}
sync 0 0
get 1 1
edit 0 {"shape:t":["patch",{"props":["patch",{"text":["append","!",2]}]}]}
edit 1 {"shape:t":["patch",{"props":["patch",{"text":["append","?",2]}]}]}
{"client":0,"do":"show"} | {"clock":2,"doc":{"page:p":$P,"shape:a":$G(a,a0,0),"shape:t":$T(t,a1,Hi!)},"others":{},"owed":1,"show":0}
{"client":1,"do":"show"} | {"clock":2,"doc":{"page:p":$P,"shape:a":$G(a,a0,0),"shape:t":$T(t,a1,Hi?)},"others":{},"owed":1,"show":1}
{"do":"handle","session":0}
{"do":"handle","session":1}
get 0 0
get 1 1
{"client":0,"do":"show"} | {"clock":4,"doc":{"page:p":$P,"shape:a":$G(a,a0,0),"shape:t":$T(t,a1,Hi!)},"others":{},"owed":0,"show":0}
{"client":1,"do":"show"} | {"clock":4,"doc":{"page:p":$P,"shape:a":$G(a,a0,0),"shape:t":$T(t,a1,Hi!)},"others":{},"owed":0,"show":1}
{"do":"end"} | {"clock":4,"doc":{"page:p":$P,"shape:a":$G(a,a0,0),"shape:t":$T(t,a1,Hi!)},"end":true,"presence":{}}
"#;

// An append is taken back by the text that was there, and done again by the longer one.
const TAKEN_BACK: &str = r#"
edit 0 {"shape:t":["put",$T(t,a1,Hi)]}
{"client":0,"do":"mark","name":"m"}
edit 0 {"shape:t":["patch",{"props":["patch",{"text":["append","!",2]}]}]}
edit 0 {"shape:t":["patch",{"props":["patch",{"text":["append","?",3]}]}]}
sync 0 0
sync 0 0
sync 0 0
{"client":0,"do":"show"} | {"clock":4,"doc":{"page:p":$P,"shape:a":$G(a,a0,0),"shape:t":$T(t,a1,Hi!?)},"others":{},"owed":0,"show":0}
{"client":0,"do":"undo"} | {"client":0,"undo":true}
{"client":0,"do":"show"} | {"clock":4,"doc":{"page:p":$P,"shape:a":$G(a,a0,0),"shape:t":$T(t,a1,Hi)},"others":{},"owed":1,"show":0}
{"client":0,"do":"redo"} | {"client":0,"redo":true}
sync 0 0
sync 0 0
{"client":0,"do":"show"} | {"clock":6,"doc":{"page:p":$P,"shape:a":$G(a,a0,0),"shape:t":$T(t,a1,Hi!?)},"others":{},"owed":0,"show":0}
get 1 1
{"client":1,"do":"show"} | {"clock":6,"doc":{"page:p":$P,"shape:a":$G(a,a0,0),"shape:t":$T(t,a1,Hi!?)},"others":{},"owed":0,"show":1}
"#;

// A text isn't appended to a list of that length, nor a list to a text.
const OTHER_KINDS: &str = r#"
edit 0 {"shape:d":["put",$D(d,a1)],"shape:t":["put",$T(t,a2,H)]}
edit 0 {"shape:d":["patch",{"props":["patch",{"points":["append","x",1]}]}],"shape:t":["patch",{"props":["patch",{"text":["append",["x"],1]}]}]}
{"client":0,"do":"show"} | {"clock":1,"doc":{"page:p":$P,"shape:a":$G(a,a0,0),"shape:d":$D(d,a1),"shape:t":$T(t,a2,H)},"others":{},"owed":2,"show":0}
sync 0 0
sync 0 0
{"client":0,"do":"show"} | {"clock":3,"doc":{"page:p":$P,"shape:a":$G(a,a0,0),"shape:d":$D(d,a1),"shape:t":$T(t,a2,H)},"others":{},"owed":0,"show":0}
"#;

// A client of version 1 is told the whole record, and its own append is told to the others as what it made.
const OLDER: &str = r#"
client 1
open 2 2
edit 0 {"shape:t":["put",$T(t,a1,Hi)]}
sync 0 0
get 2 2
edit 0 {"shape:t":["patch",{"props":["patch",{"text":["append","!",2]}]}]}
sync 0 0
get 2 2
{"client":2,"do":"show"} | {"clock":3,"doc":{"page:p":$P,"shape:a":$G1(a,a0,0),"shape:t":$T1(t,a1,Hi!)},"others":{},"owed":0,"show":2}
edit 2 {"shape:t":["patch",{"props":["patch",{"text":["append","?",3]}]}]}
sync 2 2
get 0 0
{"client":0,"do":"show"} | {"clock":4,"doc":{"page:p":$P,"shape:a":$G(a,a0,0),"shape:t":$T(t,a1,Hi!?)},"others":{},"owed":0,"show":0}
{"client":2,"do":"show"} | {"clock":4,"doc":{"page:p":$P,"shape:a":$G1(a,a0,0),"shape:t":$T1(t,a1,Hi!?)},"others":{},"owed":0,"show":2}
"#;

// Each way of typing.
const TYPING: [Script; 5] = [
    Script {
        shows: "appends at the bytes that are there",
        header: HEADER,
        parts: &[TYPED],
    },
    Script {
        shows: "appends one text of two",
        header: HEADER,
        parts: &[BASE, TWO_TYPE],
    },
    Script {
        shows: "takes an append back",
        header: HEADER,
        parts: &[BASE, TAKEN_BACK],
    },
    Script {
        shows: "leaves other kinds alone",
        header: HEADER,
        parts: &[BASE, OTHER_KINDS],
    },
    Script {
        shows: "types beside an older client",
        header: HEADER,
        parts: &[BASE, OLDER],
    },
];

// What fits behind a text of 8,190 bytes.
const NEARLY_FULL: &str = r#"
edit 0 {"shape:t":["patch",{"props":["patch",{"text":["append","é!",8190]}]}]} | Invalid shape:t OutOfBounds
edit 0 {"shape:t":["patch",{"props":["patch",{"text":["append","é",8190]}]}]}
edit 0 {"shape:t":["patch",{"props":["patch",{"text":["append","!",8192]}]}]} | Invalid shape:t OutOfBounds
edit 0 {"shape:t":["patch",{"props":["patch",{"text":["append","",8192]}]}]}
"#;

// The step that puts a text of so many bytes.
fn put_text(alloc: Global, bytes: usize) -> Result<String, Fail> {
    let mut step = String::from_str(alloc, r#"edit 0 {"shape:t":["put",$T(t,a1,"#)?;
    for _ in 0..bytes {
        step.push_str("x")?;
    }
    step.push_str(")]}")?;
    Ok(step)
}

#[test]
fn types_as_others_do(rt: HostRuntime) -> Result<(), Fail> {
    plays(&rt, rt.alloc(), &TYPING)
}

#[test]
fn fills_a_text_up_to_its_bound(rt: HostRuntime) -> Result<(), Fail> {
    let put = put_text(rt.alloc(), 8_190)?;
    let full = Script {
        shows: "appends up to the bound",
        header: HEADER,
        parts: &[BASE, put.as_str(), NEARLY_FULL],
    };
    plays(&rt, rt.alloc(), &[full])
}
