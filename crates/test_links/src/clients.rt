//! A client's links: over a real listener with their server in one process, and over known bytes.
use crate::client_ends::{meet_workers, played_over, visit_all};
use socket_link::connecting::{ConnectingWorker, LocalPort};
use socket_link::worker::ListenerWorker;
use std::net::{Net, TcpListener, TcpStream};
use std::process::Abort;
use std::test::Fail;
use tungstenite::RandomKeys;

#[test]
fn client_and_server_exchange_texts(rt: HostRuntime) -> Result<(), Fail> {
    let alloc = rt.alloc();
    let listener = TcpListener::bind(&rt, "127.0.0.1:0")?;
    let port = listener.local_addr()?.port();
    let mut server = ListenerWorker::new(alloc, &listener, 1);
    let connector = LocalPort::new(&rt, port);
    let mut client = ConnectingWorker::new(alloc, connector, RandomKeys::new(&rt));
    let (served, words) = meet_workers(&rt, alloc, &mut server, &mut client)?;
    assert_eq!(&rt; words.as_str(), "text {\"hello\":1}; end; none");
    assert_eq!(&rt; served.len(), 1);
    for one in &served {
        assert!(&rt; one.is_well);
        assert_eq!(&rt; one.texts, 2);
    }
    Ok(())
}

#[test]
fn a_connection_that_fails_is_the_only_one(rt: HostRuntime) -> Result<(), Fail> {
    let alloc = rt.alloc();
    let listener = TcpListener::bind(&rt, "127.0.0.1:0")?;
    let port = listener.local_addr()?.port();
    drop(listener);
    let connector = LocalPort::new(&rt, port);
    let mut client = ConnectingWorker::new(alloc, connector, RandomKeys::new(&rt));
    assert_eq!(&rt; visit_all(alloc, &mut client)?.as_str(), "failed; none");
    Ok(())
}

#[test]
fn a_client_reads_what_a_server_wrote(rt: HostRuntime) -> Result<(), Fail> {
    let alloc = rt.alloc();
    let texts = played_over(alloc, b"\x81\x02hi\x89\x00\x81\x02yo", "? ? ? ?")?;
    assert_eq!(&rt; texts.as_str(), "hi . yo END");
    let sends = played_over(alloc, b"\x8a\x00\x88\x00", "x ? ? x")?;
    assert_eq!(&rt; sends.as_str(), "ok . END FAILED");
    let binary = played_over(alloc, b"\x82\x01a", "?")?;
    assert_eq!(&rt; binary.as_str(), "FAILED");
    let masked = played_over(alloc, b"\x81\x81\x01\x02\x03\x04a", "?")?;
    assert_eq!(&rt; masked.as_str(), "FAILED");
    let closes = played_over(alloc, b"", "!")?;
    assert_eq!(&rt; closes.as_str(), "ok");
    Ok(())
}
