//! Links over a real listener, with server and client in one process.
use crate::listener_ends::{Served, meet};
use socket_link::worker::ListenerWorker;
use std::net::{Net, TcpListener, TcpStream};
use std::process::Abort;
use std::test::Fail;

#[test]
fn a_client_is_served_over_a_listener(rt: HostRuntime) -> Result<(), Fail> {
    let listener = TcpListener::bind(&rt, "127.0.0.1:0")?;
    let address = listener.local_addr()?;
    let mut worker = ListenerWorker::new(rt.alloc(), &listener, 1);
    let (served, words) = meet(&rt, rt.alloc(), &mut worker, address)?;
    assert_eq!(&rt;
        words.as_str(),
        "text {\"hello\":1}; pong of 4; close 4099 INVALID_RECORD; end"
    );
    assert!(&rt;
        served.as_slice()
            == [Served {
                is_well: true,
                texts: 2,
                was_idle: true
            }]
            .as_slice()
    );
    Ok(())
}
