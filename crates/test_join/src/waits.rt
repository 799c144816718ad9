//! How the waits of a script end: with a message, by 1,200 Idles, by a text that is refused, or with the link; and what goes on then.
use crate::tables::plays;
use std::test::Fail;

/// Waits that end with a message, or since nothing came for long.
const WAITS: &str = r#"
# A wait ends with its 1,200th Idle, and the script goes on.
H; DELIVER; DELIVER; END | .**1200; ANSWER {} 0 | IDLE; ENDED 0 0 | Done: JOIN; ASK
H; DELIVER; END | .**1199; ANSWER {} 0 | ENDED 0 0 | Done: JOIN; ASK
H; DELIVER; END | .**1199 | LOST; ENDED -1 0 | Done: JOIN; ASK
H; DELIVER; DELIVER; END | .**1200 | IDLE; LOST; ENDED -1 0 | Done: JOIN; ASK
# Each wait counts its own.
H; DELIVER; DELIVER; DELIVER; END | .**1199; ANSWER {} 0; .**1199; PATCH {} 1; .**1199; PATCH {} 2 | ENDED 2 0 | Done: JOIN; ASK
# A client that waited in vain is as before.
H; PUT; DELIVER; SHOW; DELIVER; DELIVER; MARK m; UNDO; END | .**1200; ANSWER {} 0; .**1200 | IDLE; SHOWN -1 {"page:p":$P} {} 1; IDLE; UNDONE true; ENDED 0 2 | Done: JOIN; ASK; PUSH 1 {"page:p":["put",$P]}; PUSH 2 {"page:p":["remove"]}
# A message comes in pieces, among Idles.
H; DELIVER; SHOW; END | 1_{"connectRequestId":"0","diff":{"page:p":["put",$P]},"hydrationType":"wipe_all",; .; 0_"isReadonly":false,"protocolVersion":2,"schema":{"schemaVersion":2,"sequences":{}},"serverClock":4,"type":"connect"} | SHOWN 4 {"page:p":$P} {} 0; ENDED 4 0 | Done: JOIN; ASK
H; DELIVER; DELIVER; END | ANSWER {} 0; 2_{"ty; .; 1_pe":; .**1198; 0_"pong"} | ENDED 0 0 | Done: JOIN; ASK
# Its pieces wait where the wait ends before the last of them.
H; DELIVER; DELIVER; SHOW; DELIVER; SHOW; END | ANSWER {} 0; 1_{"data":[{"diff":{"page:p":["put",$P]},; .**1200; 0_"serverClock":1,"type":"patch"}],"type":"data"} | IDLE; SHOWN 0 {} {} 0; SHOWN 1 {"page:p":$P} {} 0; ENDED 1 0 | Done: JOIN; ASK
H; DELIVER; DELIVER; DELIVER; END | 2_{"connectRequestId":"0","diff":{},; .**1200; 1_"hydrationType":"wipe_all","isReadonly":false,; .**1200; 0_"protocolVersion":2,"schema":{"schemaVersion":2,"sequences":{}},"serverClock":5,"type":"connect"} | IDLE; IDLE; ENDED 5 0 | Done: JOIN; ASK
H; DELIVER; DELIVER; END | 1_{"type":; .**1200 | IDLE; LOST; ENDED -1 0 | Done: JOIN; ASK
"#;

/// Texts of a room that are refused: the fault line has the number of the wait's line.
const REFUSED_TEXTS: &str = r#"
H; PUT; DELIVER; DELIVER; SHOW; END | ANSWER {} 0; RESULT "commit" 9 1 | FAULT 4 WrongPending | Server: JOIN; ASK; PUSH 1 {"page:p":["put",$P]}
# No piece.
H; DELIVER; END | * | FAULT 2 BadPiece | Server: JOIN; ASK
H; DELIVER; END | x | FAULT 2 BadPiece | Server: JOIN; ASK
H; DELIVER; END | <x*0> | FAULT 2 BadPiece | Server: JOIN; ASK
H; DELIVER; END | 01_{} | FAULT 2 BadPiece | Server: JOIN; ASK
H; BLANK; DELIVER; END | .**1199; x; ANSWER {} 0 | FAULT 3 BadPiece | Server: JOIN; ASK
H; DELIVER; DELIVER; END | 1_{"type":; .**1200; * | IDLE; FAULT 3 BadPiece | Server: JOIN; ASK
# A piece out of turn, in the wait in which it comes.
H; DELIVER; END | 1_{"type":; 1_"pong"} | FAULT 2 OutOfTurn | Server: JOIN; ASK
H; DELIVER; END | 1_{"type":; ANSWER {} 0 | FAULT 2 OutOfTurn | Server: JOIN; ASK
# No value.
H; DELIVER; END | {"type":"pong" | FAULT 2 BadJson | Server: JOIN; ASK
H; DELIVER; END | {"type":1.5} | FAULT 2 NotWhole | Server: JOIN; ASK
H; DELIVER; END | {"data":<[*64><]*64>,"type":"data"} | FAULT 2 TooDeep | Server: JOIN; ASK
# No message of a room.
H; DELIVER; END | {"type":"ping"} | FAULT 2 UnknownType | Server: JOIN; ASK
H; DELIVER; END | {"type":"data"} | FAULT 2 MissingField | Server: JOIN; ASK
H; DELIVER; END | {"type":"pong","x":1} | FAULT 2 ExtraField | Server: JOIN; ASK
H; DELIVER; END | {"data":1,"type":"data"} | FAULT 2 WrongKind | Server: JOIN; ASK
# A message that the client doesn't take.
H; DELIVER; END | PONG | FAULT 2 NotOpen | Server: JOIN; ASK
H; DELIVER; DELIVER; END | ANSWER {} 0; ANSWER {} 1 | FAULT 3 NotOpen | Server: JOIN; ASK
H; DELIVER; END | {"connectRequestId":"1","diff":{},"hydrationType":"wipe_all","isReadonly":false,"protocolVersion":2,"schema":{"schemaVersion":2,"sequences":{}},"serverClock":0,"type":"connect"} | FAULT 2 WrongRequest | Server: JOIN; ASK
H; DELIVER; DELIVER; END | ANSWER {} 0; RESULT "commit" 1 1 | FAULT 3 NoPending | Server: JOIN; ASK
H; DELIVER; SHOW; DELIVER; END | ANSWER {} 3; PATCH {} 2 | SHOWN 3 {} {} 0; FAULT 4 ClockBack | Server: JOIN; ASK
"#;

/// What goes on after the link has ended, and what doesn't.
const LOST_LINKS: &str = r#"
# No later wait is there.
H; PUT; DELIVER; DELIVER; SHOW; END | - | LOST; FAULT 4 NoSuchSession | Refused: JOIN; ASK
H; DELIVER; PUT; SHOW; DELIVER; END | - | LOST; SHOWN -1 {"page:p":$P} {} 1; FAULT 5 NoSuchSession | Refused: JOIN; ASK
H; DELIVER; DELIVER; BLANK; BLANK; DELIVER; END | ANSWER {} 0 | LOST; FAULT 6 NoSuchSession | Refused: JOIN; ASK
# Edits are shown and owed, and go nowhere.
H; DELIVER; PUT; SHOW; END | - | LOST; SHOWN -1 {"page:p":$P} {} 1; ENDED -1 1 | Done: JOIN; ASK
H; DELIVER; PUT; DELIVER; EDIT {"shape:a":["put",$G(a,a0,0)]}; SHOW; END | ANSWER {} 0 | LOST; SHOWN 0 {"page:p":$P,"shape:a":$G(a,a0,0)} {} 2; ENDED 0 2 | Done: JOIN; ASK; PUSH 1 {"page:p":["put",$P]}
H; DELIVER; BOARD; MARK m; X 1; UNDO; REDO; SHOW; BAIL m; SHOW; END | - | LOST; UNDONE true; REDONE true; SHOWN -1 {"page:p":$P,"shape:a":$G(a,a0,1)} {} 4; SHOWN -1 {"page:p":$P,"shape:a":$G(a,a0,0)} {} 5; ENDED -1 5 | Done: JOIN; ASK
H; WATCH {"count":"page:p"}; DELIVER; BOARD; WATCH {"tree":"page:p"}; QUERY shape ["eq","x",0]; END | - | TOLD 0 0; LOST; TOLD 1 0; TOLD ["shape:a"] 1; IDS ["shape:a"]; ENDED -1 1 | Done: JOIN; ASK
# A presence isn't owed any more, and others aren't seen.
H; DELIVER; PRESENCE $R(me,Ann); SHOW; DELIVER; SHOW; PRESENCE $R(me,Bea); SHOW; END | ANSWER {"instance_presence:1":["put",$R(1,Cat)]} 2 | SHOWN 2 {} {"instance_presence:1":$R(1,Cat)} 1; LOST; SHOWN 2 {} {} 0; SHOWN 2 {} {} 0; ENDED 2 0 | Done: JOIN; ASK; PRESENT 1 $R(me,Ann)
# A refused event ends the script as before.
H; DELIVER; EDIT {"page:p":["remove"]}; END | - | LOST; {"at":3,"fault":"NoRecord page:p"} | Refused: JOIN; ASK
"#;

#[test]
fn waits_for_a_message_or_1200_idles(rt: HostRuntime) -> Result<(), Fail> {
    plays(&rt, rt.alloc(), WAITS)
}

#[test]
fn ends_where_a_text_is_refused(rt: HostRuntime) -> Result<(), Fail> {
    plays(&rt, rt.alloc(), REFUSED_TEXTS)
}

#[test]
fn goes_on_without_its_link(rt: HostRuntime) -> Result<(), Fail> {
    plays(&rt, rt.alloc(), LOST_LINKS)
}
