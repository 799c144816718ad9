//! That messages are copied where memory is ample. What the copies hold is proved.
use crate::tables::{Reading, plays};
use rec_format::reason_text;
use std::alloc::Global;
use std::test::Fail;
use sync_msgs::{EndReason, Out};
use wire_msgs::{Message, read_client, read_server};

// A message of a client of each form.
const CLIENTS: &str = r#"
{"connectRequestId":"7","lastServerClock":-1,"protocolVersion":2,"schema":{"schemaVersion":2,"sequences":{"rooms.base":1}},"type":"connect"}
{"clientClock":1,"diff":{"page:a":["put",{"id":"page:a"}]},"presence":["put",{}],"type":"push"}
{"type":"ping"}
"#;

// What a room sends, in each form: a message, with an event of each form, or why it ends a session.
const ROOMS: &str = r#"
{"connectRequestId":"7","diff":{"page:a":["put",{"id":"page:a"}]},"hydrationType":"wipe_presence","isReadonly":true,"protocolVersion":2,"schema":{"schemaVersion":2,"sequences":{"rooms.base":1}},"serverClock":3,"type":"connect"}
{"type":"pong"}
{"data":[{"diff":{"page:a":["put",{"id":"page:a"}]},"serverClock":4,"type":"patch"},{"action":"commit","clientClock":1,"serverClock":5,"type":"push_result"},{"action":"discard","clientClock":2,"serverClock":5,"type":"push_result"},{"action":{"rebaseWithDiff":{"page:a":["put",{"id":"page:a"}]}},"clientClock":3,"serverClock":5,"type":"push_result"}],"type":"data"}
SLOW
"#;

// The text of a copy of a client's message.
pub(crate) fn client_copy(alloc: Global, text: &str) -> Result<String, Fail> {
    let message = read_client(alloc, text.as_bytes())?;
    let copied = message.copy(alloc)?;
    Ok(String::from_utf8(copied.print(alloc)?)?)
}

// The text of a copy of what a room sends.
pub(crate) fn out_copy(alloc: Global, text: &str) -> Result<String, Fail> {
    let copied = out_of(alloc, text)?.copy(alloc)?;
    match &copied {
        Out::Message(message) => Ok(String::from_utf8(message.print(alloc)?)?),
        Out::End(reason) => Ok(String::from_str(alloc, reason_text(*reason))?),
    }
}

// What a room sends, by its text; a message is a copy.
fn out_of(alloc: Global, text: &str) -> Result<Out, Fail> {
    if text == "SLOW" {
        return Ok(Out::End(EndReason::Slow));
    }
    let message = read_server(alloc, text.as_bytes())?;
    Ok(Out::Message(message.copy(alloc)?))
}

#[test]
fn copies_messages_of_clients(rt: HostRuntime) -> Result<(), Fail> {
    plays(&rt, rt.alloc(), Reading::ClientCopy, &[CLIENTS])
}

#[test]
fn copies_what_rooms_send(rt: HostRuntime) -> Result<(), Fail> {
    plays(&rt, rt.alloc(), Reading::OutCopy, &[ROOMS])
}
