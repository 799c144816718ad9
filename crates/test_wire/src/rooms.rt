//! The messages of rooms: what each is read from and printed as, and what is refused.
use crate::refusals::name_of;
use crate::tables::{Reading, plays};
use std::alloc::Global;
use std::test::Fail;
use sync_msgs::ServerMessage;
use wire_msgs::{Message, read_server};

// A message of each form, and an event of each, as it is printed.
const MESSAGES: &str = r#"
{"connectRequestId":"7","diff":{"page:a":["put",{"id":"page:a"}]},"hydrationType":"wipe_all","isReadonly":false,"protocolVersion":2,"schema":{"schemaVersion":2,"sequences":{"rooms.base":1,"rooms.shape":1}},"serverClock":0,"type":"connect"}
{"connectRequestId":"","diff":{},"hydrationType":"wipe_presence","isReadonly":true,"protocolVersion":-1,"schema":{"schemaVersion":2,"sequences":{}},"serverClock":9007199254740991,"type":"connect"}
{"data":[],"type":"data"}
{"data":[{"diff":{},"serverClock":0,"type":"patch"}],"type":"data"}
{"data":[{"diff":{"page:a":["remove"],"page:b":["patch",{"name":["put","é"]}]},"serverClock":4,"type":"patch"}],"type":"data"}
{"data":[{"action":"commit","clientClock":0,"serverClock":5,"type":"push_result"},{"action":"discard","clientClock":1,"serverClock":6,"type":"push_result"},{"action":{"rebaseWithDiff":{}},"clientClock":2,"serverClock":7,"type":"push_result"},{"action":{"rebaseWithDiff":{"page:a":["put",[[]]]}},"clientClock":9007199254740991,"serverClock":8,"type":"push_result"},{"diff":{},"serverClock":9,"type":"patch"}],"type":"data"}
{"type":"pong"}
"#;

// A message as it is printed, before another text that stands for it.
const WRITTEN_OTHERWISE: &str = r#"
{"data":[{"diff":{},"serverClock":1,"type":"patch"}],"type":"data"} | { "type":"data", "data":[ {"type":"patch","serverClock":1,"diff":{}} ] }
{"data":[{"action":"commit","clientClock":1,"serverClock":2,"type":"push_result"}],"type":"data"} | {"type":"data","data":[{"type":"push_result","serverClock":2,"clientClock":1,"action":"commit"}]}
{"connectRequestId":"7","diff":{},"hydrationType":"wipe_all","isReadonly":false,"protocolVersion":2,"schema":{"schemaVersion":2,"sequences":{}},"serverClock":3,"type":"connect"} | {"type":"connect","serverClock":3,"schema":{"sequences":{},"schemaVersion":2},"protocolVersion":2,"isReadonly":false,"hydrationType":"wipe_all","diff":{},"connectRequestId":"7"}
"#;

// Texts that are no message of a room, each after the fault that is answered. Where several causes
// apply the first is answered.
const REFUSED: &str = r#"
BadJson | {"type":"pong",}
NotWhole | {"data":[1e2],"type":"data"}
OutOfRange | {"data":[-9007199254740992],"type":"fly"}
UnknownType | [{"type":"pong"}]
UnknownType | {"data":[]}
UnknownType | {"type":1}
UnknownType | {"type":"push","clientClock":1}
UnknownType | {"type":"ping"}
UnknownType | {"type":"join","readonly":false,"room":0}
UnknownType | {"data":1,"type":"DATA"}
MissingField | {"type":"connect"}
MissingField | {"diff":{},"hydrationType":"wipe_all","isReadonly":false,"protocolVersion":2,"schema":{"schemaVersion":2,"sequences":{}},"serverClock":3,"type":"connect"}
MissingField | {"connectRequestId":"7","hydrationType":"wipe_all","isReadonly":false,"protocolVersion":2,"schema":{"schemaVersion":2,"sequences":{}},"serverClock":3,"type":"connect"}
MissingField | {"connectRequestId":"7","diff":{},"isReadonly":false,"protocolVersion":2,"schema":{"schemaVersion":2,"sequences":{}},"serverClock":3,"type":"connect"}
MissingField | {"connectRequestId":"7","diff":{},"hydrationType":"wipe_all","protocolVersion":2,"schema":{"schemaVersion":2,"sequences":{}},"serverClock":3,"type":"connect"}
MissingField | {"connectRequestId":"7","diff":{},"hydrationType":"wipe_all","isReadonly":false,"schema":{"schemaVersion":2,"sequences":{}},"serverClock":3,"type":"connect"}
MissingField | {"connectRequestId":"7","diff":{},"hydrationType":"wipe_all","isReadonly":false,"protocolVersion":2,"serverClock":3,"type":"connect"}
MissingField | {"connectRequestId":7,"diff":[],"hydrationType":"wipe","isReadonly":0,"protocolVersion":2,"schema":{},"type":"connect","x":1}
MissingField | {"datum":[],"type":"data"}
ExtraField | {"connectRequestId":"7","diff":{},"hydrationType":"wipe_all","isReadonly":false,"presence":{},"protocolVersion":2,"schema":{},"serverClock":-3,"type":"connect"}
ExtraField | {"data":null,"serverClock":1,"type":"data"}
ExtraField | {"data":[],"type":"pong"}
WrongKind | {"connectRequestId":null,"diff":{},"hydrationType":"wipe_all","isReadonly":false,"protocolVersion":2,"schema":{"schemaVersion":2,"sequences":{}},"serverClock":3,"type":"connect"}
WrongKind | {"connectRequestId":"7","diff":{"a":["delete"]},"hydrationType":"wipe_all","isReadonly":false,"protocolVersion":2,"schema":{"schemaVersion":2,"sequences":{}},"serverClock":3,"type":"connect"}
WrongKind | {"connectRequestId":"7","diff":{},"hydrationType":"wipeAll","isReadonly":false,"protocolVersion":2,"schema":{"schemaVersion":2,"sequences":{}},"serverClock":3,"type":"connect"}
WrongKind | {"connectRequestId":"7","diff":{},"hydrationType":"wipe_all","isReadonly":"false","protocolVersion":2,"schema":{"schemaVersion":2,"sequences":{}},"serverClock":3,"type":"connect"}
WrongKind | {"connectRequestId":"7","diff":{},"hydrationType":"wipe_all","isReadonly":false,"protocolVersion":"2","schema":{"schemaVersion":2,"sequences":{}},"serverClock":3,"type":"connect"}
WrongKind | {"connectRequestId":"7","diff":{},"hydrationType":"wipe_all","isReadonly":false,"protocolVersion":2,"schema":{"schemaVersion":2,"sequences":[]},"serverClock":3,"type":"connect"}
WrongKind | {"connectRequestId":"7","diff":{},"hydrationType":"wipe_all","isReadonly":false,"protocolVersion":2,"schema":{"schemaVersion":2,"sequences":{}},"serverClock":-1,"type":"connect"}
WrongKind | {"data":{},"type":"data"}
WrongKind | {"data":[[]],"type":"data"}
WrongKind | {"data":[{}],"type":"data"}
WrongKind | {"data":[{"type":"pong"}],"type":"data"}
WrongKind | {"data":[{"serverClock":1,"type":"patch"}],"type":"data"}
WrongKind | {"data":[{"diff":{},"type":"patch"}],"type":"data"}
WrongKind | {"data":[{"diff":{},"serverClock":1}],"type":"data"}
WrongKind | {"data":[{"diff":{},"serverClock":-1,"type":"patch"}],"type":"data"}
WrongKind | {"data":[{"diff":[],"serverClock":1,"type":"patch"}],"type":"data"}
WrongKind | {"data":[{"diff":{},"serverClock":1,"type":"patch","x":1}],"type":"data"}
WrongKind | {"data":[{"diff":{},"serverClock":1,"type":"patches"}],"type":"data"}
WrongKind | {"data":[{"diff":{},"serverClock":1,"type":"patch"},{"diff":{},"serverClock":2,"type":"push_result"}],"type":"data"}
WrongKind | {"data":[{"clientClock":1,"serverClock":2,"type":"push_result"}],"type":"data"}
WrongKind | {"data":[{"action":"commit","serverClock":2,"type":"push_result"}],"type":"data"}
WrongKind | {"data":[{"action":"commit","clientClock":-1,"serverClock":2,"type":"push_result"}],"type":"data"}
WrongKind | {"data":[{"action":"commit","clientClock":1,"serverClock":-2,"type":"push_result"}],"type":"data"}
WrongKind | {"data":[{"action":"Commit","clientClock":1,"serverClock":2,"type":"push_result"}],"type":"data"}
WrongKind | {"data":[{"action":null,"clientClock":1,"serverClock":2,"type":"push_result"}],"type":"data"}
WrongKind | {"data":[{"action":{},"clientClock":1,"serverClock":2,"type":"push_result"}],"type":"data"}
WrongKind | {"data":[{"action":{"rebaseWithDiff":[]},"clientClock":1,"serverClock":2,"type":"push_result"}],"type":"data"}
WrongKind | {"data":[{"action":{"rebaseWithDiff":{},"x":1},"clientClock":1,"serverClock":2,"type":"push_result"}],"type":"data"}
WrongKind | {"data":[{"action":"commit","clientClock":1,"serverClock":2,"type":"patch"}],"type":"data"}
"#;

// The text of a message that is read from one, or the name of what the text is refused for.
pub(crate) fn room_text(alloc: Global, text: &str) -> Result<String, Fail> {
    match read_server(alloc, text.as_bytes()) {
        Ok(message) => message_text(alloc, &message),
        Err(fault) => Ok(String::from_str(alloc, name_of(fault))?),
    }
}

// The text of a message, which is that of its value.
fn message_text(alloc: Global, message: &ServerMessage) -> Result<String, Fail> {
    let text = String::from_utf8(message.print(alloc)?)?;
    let of_value = String::from_utf8(message.val(alloc)?.print(alloc)?)?;
    if text.as_str() != of_value.as_str() {
        return Err(Fail::from("a message has another text than its value"));
    }
    Ok(text)
}

#[test]
fn reads_and_prints_each_message_of_a_room(rt: HostRuntime) -> Result<(), Fail> {
    let tables = [MESSAGES, WRITTEN_OTHERWISE, REFUSED];
    plays(&rt, rt.alloc(), Reading::Room, &tables)
}
