//! A server over a real listener, with its client in one process.
use crate::listener_ends::meet;
use socket_link::worker::ListenerWorker;
use std::net::{Net, TcpListener, TcpStream};
use std::process::Abort;
use std::test::Fail;
use test_with_served::spell_out;

// What the server writes.
const LINES: &str = r#"{"ended":0,"faults":0,"links":1,"memory":0,"worker":0}
{"clock":0,"doc":{},"presence":{},"room":0}
"#;

#[test]
fn a_client_is_served_over_a_listener(rt: HostRuntime) -> Result<(), Fail> {
    let alloc = rt.alloc();
    let listener = TcpListener::bind(&rt, "127.0.0.1:0")?;
    let address = listener.local_addr()?;
    let mut workers = Vec::new(alloc);
    workers.push(ListenerWorker::new(alloc, &listener, 1))?;
    let met = meet(&rt, alloc, &mut workers, address, "join connect")?;
    assert_eq!(&rt; met.answer.as_str(), spell_out(alloc, "answer")?.as_str());
    assert_eq!(&rt; met.status, 0);
    assert_eq!(&rt; met.lines.as_str(), LINES);
    Ok(())
}
