//! The text by which a client joins a room: what it is read from and printed as, and what is refused.
use crate::tables::{Reading, plays};
use link_texts::Join;
use std::alloc::Global;
use std::test::Fail;

// How many rooms there are.
const ROOMS: u32 = 2;

// Joins as they are printed, each before another text that is read as it if there is one, and texts that are none.
const JOINS: &str = r#"
{"readonly":false,"room":0,"type":"join"}
{"readonly":true,"room":1,"type":"join"}
{"readonly":true,"room":0,"type":"join"} | { "type" : "join", "room":0, "readonly":true }
{"readonly":false,"room":1,"type":"join"} | {"room":7,"readonly":false,"type":"jo\u0069n","room":1}
Refused(Join) | {"readonly":false,"room":2,"type":"join"}
Refused(Join) | {"readonly":false,"room":4294967296,"type":"join"}
Refused(Join) | {"readonly":false,"room":-1,"type":"join"}
Refused(Join) | {"readonly":false,"room":0.0,"type":"join"}
Refused(Join) | {"readonly":false,"room":"0","type":"join"}
Refused(Join) | {"readonly":0,"room":0,"type":"join"}
Refused(Join) | {"readonly":null,"room":0,"type":"join"}
Refused(Join) | {"readonly":false,"room":0,"type":"joined"}
Refused(Join) | {"readonly":false,"room":0}
Refused(Join) | {"room":0,"type":"join"}
Refused(Join) | {"readonly":false,"type":"join"}
Refused(Join) | {"name":"a","readonly":false,"room":0,"type":"join"}
Refused(Join) | {"isReadonly":false,"room":0,"type":"join"}
Refused(Join) | [{"readonly":false,"room":0,"type":"join"}]
Refused(Join) | {"readonly":false,"room":0,"type":"join"
Refused(Join) | {"readonly":false,"room":0,"type":"join"} {}
Refused(Join) | {}
Refused(Join) | x
"#;

// What a text is read as, printed, or the fault that it is refused for.
pub(crate) fn join_text(alloc: Global, text: &str) -> Result<String, Fail> {
    match Join::read(alloc, text.as_bytes(), ROOMS) {
        Ok(join) => Ok(String::from_utf8(join.print(alloc)?)?),
        Err(fault) => Ok(format!(in alloc; "{fault:?}")?),
    }
}

#[test]
fn reads_and_prints_joins(rt: HostRuntime) -> Result<(), Fail> {
    plays(&rt, rt.alloc(), Reading::Join, &[JOINS])
}
