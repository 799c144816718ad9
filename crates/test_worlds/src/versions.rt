//! Rooms and clients of each pair of versions.
//!
//! What the steps of scripts are, `test_with_worlds` tells.
use crate::played::{Script, plays};
use std::test::Fail;

// A client of each version, from 1 on.
const CLIENTS: &str = r#"
client 1
client 2
client 3
client 4
client 5
"#;

// In a room of version 1 only a client of that version is answered.
const ROOM_1: &str = r#"
open 0 0
peer 0 | 0 owes 0: {}
open 1 1 | {"client":1,"ended":"SERVER_TOO_OLD"}
open 2 2 | {"client":2,"ended":"SERVER_TOO_OLD"}
open 3 3 | {"client":3,"ended":"SERVER_TOO_OLD"}
open 4 4 | {"client":4,"ended":"SERVER_TOO_OLD"}
peer 4 | -1 owes 0: {}
"#;

const ROOM_2: &str = r#"
open 0 0
peer 0 | 0 owes 0: {}
open 1 1
peer 1 | 0 owes 0: {}
open 2 2 | {"client":2,"ended":"SERVER_TOO_OLD"}
open 3 3 | {"client":3,"ended":"SERVER_TOO_OLD"}
open 4 4 | {"client":4,"ended":"SERVER_TOO_OLD"}
"#;

const ROOM_3: &str = r#"
open 0 0
peer 0 | 0 owes 0: {}
open 1 1
peer 1 | 0 owes 0: {}
open 2 2
peer 2 | 0 owes 0: {}
open 3 3 | {"client":3,"ended":"SERVER_TOO_OLD"}
open 4 4 | {"client":4,"ended":"SERVER_TOO_OLD"}
{"do":"end"} | {"clock":0,"doc":{},"end":true,"presence":{}}
"#;

const ROOM_4: &str = r#"
open 0 0
peer 0 | 0 owes 0: {}
open 1 1
peer 1 | 0 owes 0: {}
open 2 2
peer 2 | 0 owes 0: {}
open 3 3
peer 3 | 0 owes 0: {}
open 4 4 | {"client":4,"ended":"SERVER_TOO_OLD"}
"#;

// The migration of pages to version 5 can't be taken back.
const ROOM_5: &str = r#"
open 0 0 | {"client":0,"ended":"CLIENT_TOO_OLD"}
open 1 1 | {"client":1,"ended":"CLIENT_TOO_OLD"}
open 2 2 | {"client":2,"ended":"CLIENT_TOO_OLD"}
open 3 3 | {"client":3,"ended":"CLIENT_TOO_OLD"}
peer 3 | -1 owes 0: {}
open 4 4
peer 4 | 0 owes 0: {}
edit 4 {"page:p":["put",{"hidden":true,"id":"page:p","index":"a0","meta":{},"name":"P","typeName":"page"}]}
sync 4 4
{"do":"end"} | {"clock":1,"doc":{"page:p":{"hidden":true,"id":"page:p","index":"a0","meta":{},"name":"P","typeName":"page"}},"end":true,"presence":{}}
"#;

// An asset of version 4 is seen and patched by a client of version 1 as that one has it.
const SIZES: &str = r#"
client 4
client 1
open 0 0
open 1 1
edit 0 {"asset:i":["put",{"id":"asset:i","meta":{},"props":{"dims":{"h":20,"w":30},"mimeType":null,"name":"i","src":null},"type":"image","typeName":"asset"}]}
sync 0 0
get 1 1
{"client":1,"do":"show"} | {"clock":1,"doc":{"asset:i":{"id":"asset:i","meta":{},"props":{"h":20,"mimeType":null,"name":"i","src":null,"w":30},"type":"image","typeName":"asset"}},"others":{},"owed":0,"show":1}
edit 1 {"asset:i":["patch",{"props":["patch",{"w":["put",40]}]}]}
sync 1 1
{"client":1,"do":"show"} | {"clock":2,"doc":{"asset:i":{"id":"asset:i","meta":{},"props":{"h":20,"mimeType":null,"name":"i","src":null,"w":40},"type":"image","typeName":"asset"}},"others":{},"owed":0,"show":1}
get 0 0
{"client":0,"do":"show"} | {"clock":2,"doc":{"asset:i":{"id":"asset:i","meta":{},"props":{"dims":{"h":20,"w":40},"mimeType":null,"name":"i","src":null},"type":"image","typeName":"asset"}},"others":{},"owed":0,"show":0}
{"do":"end"} | {"clock":2,"doc":{"asset:i":{"id":"asset:i","meta":{},"props":{"dims":{"h":20,"w":40},"mimeType":null,"name":"i","src":null},"type":"image","typeName":"asset"}},"end":true,"presence":{}}
"#;

// What comes of each version.
const VERSIONS: [Script; 6] = [
    Script {
        shows: "has a room of version 1",
        header: r#"{"recording":1,"version":1}"#,
        parts: &[CLIENTS, ROOM_1],
    },
    Script {
        shows: "has a room of version 2",
        header: r#"{"recording":1,"version":2}"#,
        parts: &[CLIENTS, ROOM_2],
    },
    Script {
        shows: "has a room of version 3",
        header: r#"{"recording":1,"version":3}"#,
        parts: &[CLIENTS, ROOM_3],
    },
    Script {
        shows: "has a room of version 4",
        header: r#"{"recording":1,"version":4}"#,
        parts: &[CLIENTS, ROOM_4],
    },
    Script {
        shows: "has a room of version 5",
        header: r#"{"recording":1,"version":5}"#,
        parts: &[CLIENTS, ROOM_5],
    },
    Script {
        shows: "nests the size of an asset",
        header: r#"{"recording":1,"version":4}"#,
        parts: &[SIZES],
    },
];

#[test]
fn connects_or_refuses_by_versions(rt: HostRuntime) -> Result<(), Fail> {
    plays(&rt, rt.alloc(), &VERSIONS)
}
