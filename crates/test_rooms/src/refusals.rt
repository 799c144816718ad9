//! Who is refused, and why.
//!
//! What the steps of scripts are, `test_with_rooms` tells.
use crate::played::{Script, plays};
use std::test::Fail;

// Connects and pushes that end their session.
const ENDS: &str = r#"
enter | 0
connect 0 none -1 | CLIENT_TOO_OLD
push 0 1 {} | CLIENT_TOO_OLD
drain 0 | end CLIENT_TOO_OLD
drain 0 | nothing
# An ended session is told the same again, and stays in the room.
ping 0 | CLIENT_TOO_OLD
drain 0 | nothing
# The protocol is looked at before the schema.
enter | 1
connect 1 none -1 3 | SERVER_TOO_OLD
enter | 2
connect 2 newer -1 1 | CLIENT_TOO_OLD
enter | 3
connect 3 newer -1 | SERVER_TOO_OLD
enter | 4
connect 4 unknown -1 | SERVER_TOO_OLD
# A push before the connect, and one before its answer.
enter | 5
push 5 1 - | INVALID_RECORD
enter | 6
connect 6 3 -1 | entered
push 6 1 - | INVALID_RECORD
# A second connect.
enter | 7
connect 7 3 -1 | entered
drain 7 | wipe_all 0 {}
connect 7 3 0 | INVALID_RECORD
# A put that isn't admitted, an id that isn't the document's, and a presence that isn't admitted.
enter | 8
connect 8 3 -1 | entered
drain 8 | wipe_all 0 {}
push 8 1 {"page:p":["put",{}]} | INVALID_RECORD
enter | 9
connect 9 3 -1 | entered
drain 9 | wipe_all 0 {}
push 9 1 {"camera:c":["remove"]} | INVALID_RECORD
enter | 10
connect 10 3 -1 | entered
drain 10 | wipe_all 0 {}
presence 10 1 ["put",{}] | INVALID_RECORD
# None of them made an entry.
clock | 0
"#;

// Pushes of a session that may push up to the clock 2.
const FULL_CLOCK: &str = r#"
enter | 0
connect 0 3 -1 | entered
drain 0 | wipe_all 0 {}
push 0 1 - | taken
push 0 2 {} | taken
push 0 3 - | ROOM_FULL
drain 0 | end ROOM_FULL
clock | 2
"#;

// Sessions up to the 64th enter, and another if one leaves; an ended one stays until it does.
const FULL_ROOM: &str = r#"
fill 64 | 64
enter | Full
leave 63 | left
enter | 64
enter readonly | Full
connect 0 none -1 | CLIENT_TOO_OLD
enter | Full
leave 0 | left
enter | 65
enter | Full
clock | 0
"#;

// Who is refused.
const REFUSALS: [Script; 3] = [
    Script {
        shows: "ends who says what it must not",
        last: 1_000,
        parts: &[ENDS],
    },
    Script {
        shows: "refuses the push after its last clock",
        last: 2,
        parts: &[FULL_CLOCK],
    },
    Script {
        shows: "refuses the 65th session",
        last: 1_000,
        parts: &[FULL_ROOM],
    },
];

#[test]
fn refuses_who_must_not_go_on(rt: HostRuntime) -> Result<(), Fail> {
    plays(&rt, rt.alloc(), &REFUSALS)
}
