//! Scripts that are refused, each at the line that the fault line tells.
use crate::tables::plays;
use std::test::Fail;

/// Lines that are refused.
const LINES: &str = r#"
# Headers that are none, so that nobody joins.
{} | - | FAULT 1 NoHeader | Refused
SHOW; H; END | - | FAULT 1 NoHeader | Refused
HEADER 0; END | - | FAULT 1 NoHeader | Refused
HEADER 6; END | - | FAULT 1 NoHeader | Refused
{"recording":2,"version":3}; END | - | FAULT 1 NoHeader | Refused
{"recording":1,"room":0,"version":3}; END | - | FAULT 1 NoHeader | Refused
{"recording":1,"version":3; END | - | FAULT 1 BadJson | Refused
< *1048577>; H; END | - | FAULT 1 LineTooLong | Refused
# A script without an end.
- | - | FAULT 1 Unended | Refused
BLANK; BLANK | - | FAULT 3 Unended | Refused
H | - | FAULT 2 Unended | Refused: JOIN; ASK
H; SHOW; ~ | - | SHOWN -1 {} {} 0; FAULT 3 Unended | Refused: JOIN; ASK
H; DELIVER; PUT; BLANK | ANSWER {} 0 | FAULT 5 Unended | Refused: JOIN; ASK; PUSH 1 {"page:p":["put",$P]}
# A line that is too long, blank or not, and one that isn't.
H; < *1048577>; END | - | FAULT 2 LineTooLong | Refused: JOIN; ASK
H; < *1048576>; END | - | ENDED -1 0 | Done: JOIN; ASK
H; {"client":0,"do":"show"< *1048553>}; END | - | FAULT 2 LineTooLong | Refused: JOIN; ASK
H; {"client":0,"do":"show"< *1048552>}; END | - | SHOWN -1 {} {} 0; ENDED -1 0 | Done: JOIN; ASK
# No value.
H; {"do":"sh; ~ | - | FAULT 2 BadJson | Refused: JOIN; ASK
H; {"client":1.5,"do":"cut"} | - | FAULT 2 NotWhole | Refused: JOIN; ASK
H; <[*65><]*65> | - | FAULT 2 TooDeep | Refused: JOIN; ASK
# No event.
H; H; END | - | FAULT 2 Field | Refused: JOIN; ASK
H; {"do":"show"} | - | FAULT 2 Field | Refused: JOIN; ASK
H; {"client":-1,"do":"show"} | - | FAULT 2 Field | Refused: JOIN; ASK
H; {"client":0,"do":"end"} | - | FAULT 2 Field | Refused: JOIN; ASK
H; WATCH {"count":1} | - | FAULT 2 Field | Refused: JOIN; ASK
# An event that scripts don't have, whatever its other fields are.
H; {"do":"client","version":3} | - | FAULT 2 UnknownEvent | Refused: JOIN; ASK
H; {"client":0,"do":"connect","readonly":false} | - | FAULT 2 UnknownEvent | Refused: JOIN; ASK
H; {"client":0,"do":"copy","ids":[]} | - | FAULT 2 UnknownEvent | Refused: JOIN; ASK
H; {"client":0,"do":"paste","dx":0,"dy":0,"parent":"page:p","prefix":"q"} | - | FAULT 2 UnknownEvent | Refused: JOIN; ASK
H; {"do":"handle","session":0} | - | FAULT 2 UnknownEvent | Refused: JOIN; ASK
H; {"do":"send","session":0} | - | FAULT 2 UnknownEvent | Refused: JOIN; ASK
H; {"client":1,"do":"cut"} | - | FAULT 2 UnknownEvent | Refused: JOIN; ASK
H; {"do":"lose","session":-1,"x":[]} | - | FAULT 2 UnknownEvent | Refused: JOIN; ASK
H; {"client":"x","do":"fly"} | - | FAULT 2 UnknownEvent | Refused: JOIN; ASK
# Another client.
H; {"client":1,"diff":{},"do":"edit"} | - | FAULT 2 NoSuchClient | Refused: JOIN; ASK
H; {"client":1,"do":"presence","record":{}} | - | FAULT 2 NoSuchClient | Refused: JOIN; ASK
H; {"client":1,"do":"mark","name":"m"} | - | FAULT 2 NoSuchClient | Refused: JOIN; ASK
H; {"client":1,"do":"undo"} | - | FAULT 2 NoSuchClient | Refused: JOIN; ASK
H; {"client":1,"do":"redo"} | - | FAULT 2 NoSuchClient | Refused: JOIN; ASK
H; {"client":1,"do":"bail","name":"m"} | - | FAULT 2 NoSuchClient | Refused: JOIN; ASK
H; {"client":1,"do":"watch","view":{"count":"page:p"}} | - | FAULT 2 NoSuchClient | Refused: JOIN; ASK
H; {"client":1,"do":"query","type":"page","where":["and",[]]} | - | FAULT 2 NoSuchClient | Refused: JOIN; ASK
H; SHOW; {"client":1,"do":"show"} | - | SHOWN -1 {} {} 0; FAULT 3 NoSuchClient | Refused: JOIN; ASK
H; BLANK; {"client":9007199254740991,"do":"deliver"} | ANSWER {} 0 | FAULT 3 NoSuchClient | Refused: JOIN; ASK
# What the client can't do. What it said before went out.
H; BOARD; EDIT {"page:p":["remove"]} | - | FAULT 3 LastPage | Refused: JOIN; ASK
H; BOARD; EDIT {"shape:a":["patch",{"opacity":["put",101]}]} | - | {"at":3,"fault":"Invalid shape:a OutOfBounds"} | Refused: JOIN; ASK
H; EDIT {"camera:c":["put",{}]} | - | {"at":2,"fault":"WrongScope camera:c"} | Refused: JOIN; ASK
H; PRESENCE {} | - | {"at":2,"fault":"WrongScope -"} | Refused: JOIN; ASK
H; DELIVER; PUT; MARK m; BAIL n | ANSWER {} 0 | FAULT 5 NoMark | Refused: JOIN; ASK; PUSH 1 {"page:p":["put",$P]}
H; WATCH {"count":"page:p"}**65 | - | TOLD 0 #**64; FAULT 66 Limit | Refused: JOIN; ASK
"#;

#[test]
fn refuses_lines(rt: HostRuntime) -> Result<(), Fail> {
    plays(&rt, rt.alloc(), LINES)
}
