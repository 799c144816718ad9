//! The messages of clients: what each is read from and printed as, and what is refused.
use crate::refusals::name_of;
use crate::tables::{Reading, plays};
use std::alloc::Global;
use std::test::Fail;
use sync_msgs::ClientMessage;
use wire_msgs::{Message, read_client};

// A message of each form, as it is printed.
const MESSAGES: &str = r#"
{"connectRequestId":"7","lastServerClock":-1,"protocolVersion":2,"schema":{"schemaVersion":2,"sequences":{"rooms.base":1}},"type":"connect"}
{"connectRequestId":"","lastServerClock":9007199254740991,"protocolVersion":-3,"schema":{"schemaVersion":2,"sequences":{}},"type":"connect"}
{"connectRequestId":"é\n","lastServerClock":-9007199254740991,"protocolVersion":0,"schema":{"schemaVersion":2,"sequences":{"":0,"a/b":9007199254740991}},"type":"connect"}
{"clientClock":0,"type":"push"}
{"clientClock":9007199254740991,"diff":{},"type":"push"}
{"clientClock":1,"diff":{"no id":["remove"],"page:a":["put",null],"page:b":["patch",{"x":["append",[1],4294967295],"y":["delete"]}]},"type":"push"}
{"clientClock":2,"presence":["put",{"id":"instance_presence:a"}],"type":"push"}
{"clientClock":3,"presence":["patch",{"x":["put",[]],"y":["patch",{}]}],"type":"push"}
{"clientClock":4,"diff":{"page:a":["put",{}]},"presence":["put",1],"type":"push"}
{"type":"ping"}
"#;

// A message as it is printed, before another text that stands for it.
const WRITTEN_OTHERWISE: &str = r#"
{"type":"ping"} |  { "type" : "push", "type":"p\u0069ng" }
{"clientClock":5,"diff":{},"presence":["put",null],"type":"push"} | {"type":"push","presence":["put",null],"diff":{},"clientClock":5}
{"connectRequestId":"7","lastServerClock":2,"protocolVersion":2,"schema":{"schemaVersion":2,"sequences":{}},"type":"connect"} | {"schema":{"sequences":{},"schemaVersion":2},"type":"connect","protocolVersion":2,"lastServerClock":2,"connectRequestId":"7"}
"#;

// Texts that are no message of a client, each after the fault that is answered. Where several
// causes apply the first is answered.
const REFUSED: &str = r#"
BadJson | {"type":"ping"
BadJson | {"type":"ping"} {"type":"ping"}
NotWhole | {"clientClock":1.5,"type":"fly"}
OutOfRange | {"clientClock":9007199254740992,"type":"push"}
UnknownType | []
UnknownType | null
UnknownType | "ping"
UnknownType | {}
UnknownType | {"type":null}
UnknownType | {"type":["ping"]}
UnknownType | {"type":"Ping"}
UnknownType | {"type":"pong"}
UnknownType | {"type":"data","data":[]}
UnknownType | {"clientClock":-1,"type":"pushes"}
UnknownType | {"clientClock":1,"diff":{}}
MissingField | {"type":"connect"}
MissingField | {"lastServerClock":0,"protocolVersion":2,"schema":{"schemaVersion":2,"sequences":{}},"type":"connect"}
MissingField | {"connectRequestId":"7","protocolVersion":2,"schema":{"schemaVersion":2,"sequences":{}},"type":"connect"}
MissingField | {"connectRequestId":"7","lastServerClock":0,"schema":{"schemaVersion":2,"sequences":{}},"type":"connect"}
MissingField | {"connectRequestId":"7","lastServerClock":0,"protocolVersion":2,"type":"connect"}
MissingField | {"connectRequestId":7,"lastServerClock":0,"protocolVersion":2,"type":"connect","x":1}
MissingField | {"type":"push"}
MissingField | {"clientclock":1,"type":"push"}
MissingField | {"diff":[],"presence":["remove"],"type":"push"}
MissingField | {"diff":{},"readonly":true,"type":"push"}
ExtraField | {"connectRequestId":7,"diff":{},"lastServerClock":0,"protocolVersion":2,"schema":{"schemaVersion":2,"sequences":{}},"type":"connect"}
ExtraField | {"clientClock":-1,"serverClock":1,"type":"push"}
ExtraField | {"clientClock":1,"diff":{},"presences":["put",1],"type":"push"}
ExtraField | {"":null,"clientClock":1,"type":"push"}
ExtraField | {"clientClock":1,"type":"ping"}
WrongKind | {"connectRequestId":7,"lastServerClock":0,"protocolVersion":2,"schema":{"schemaVersion":2,"sequences":{}},"type":"connect"}
WrongKind | {"connectRequestId":"7","lastServerClock":"0","protocolVersion":2,"schema":{"schemaVersion":2,"sequences":{}},"type":"connect"}
WrongKind | {"connectRequestId":"7","lastServerClock":0,"protocolVersion":null,"schema":{"schemaVersion":2,"sequences":{}},"type":"connect"}
WrongKind | {"connectRequestId":"7","lastServerClock":0,"protocolVersion":2,"schema":{},"type":"connect"}
WrongKind | {"connectRequestId":"7","lastServerClock":0,"protocolVersion":2,"schema":{"schemaVersion":1,"sequences":{}},"type":"connect"}
WrongKind | {"connectRequestId":"7","lastServerClock":0,"protocolVersion":2,"schema":{"schemaVersion":2,"sequences":{"a":-1}},"type":"connect"}
WrongKind | {"clientClock":-1,"type":"push"}
WrongKind | {"clientClock":true,"diff":{},"type":"push"}
WrongKind | {"clientClock":1,"diff":null,"type":"push"}
WrongKind | {"clientClock":1,"diff":{"page:a":["delete"]},"type":"push"}
WrongKind | {"clientClock":1,"diff":{"page:a":["put"]},"type":"push"}
WrongKind | {"clientClock":1,"diff":{"page:a":["patch",{"x":["append",[],4294967296]}]},"type":"push"}
WrongKind | {"clientClock":1,"presence":["remove"],"type":"push"}
WrongKind | {"clientClock":1,"presence":["append",[],0],"type":"push"}
WrongKind | {"clientClock":1,"presence":{},"type":"push"}
WrongKind | {"clientClock":1,"presence":null,"type":"push"}
"#;

// The text of a message that is read from one, or the name of what the text is refused for.
pub(crate) fn client_text(alloc: Global, text: &str) -> Result<String, Fail> {
    match read_client(alloc, text.as_bytes()) {
        Ok(message) => message_text(alloc, &message),
        Err(fault) => Ok(String::from_str(alloc, name_of(fault))?),
    }
}

// The text of a message, which is that of its value.
fn message_text(alloc: Global, message: &ClientMessage) -> Result<String, Fail> {
    let text = String::from_utf8(message.print(alloc)?)?;
    let of_value = String::from_utf8(message.val(alloc)?.print(alloc)?)?;
    if text.as_str() != of_value.as_str() {
        return Err(Fail::from("a message has another text than its value"));
    }
    Ok(text)
}

#[test]
fn reads_and_prints_each_message_of_a_client(rt: HostRuntime) -> Result<(), Fail> {
    let tables = [MESSAGES, WRITTEN_OTHERWISE, REFUSED];
    plays(&rt, rt.alloc(), Reading::Client, &tables)
}
