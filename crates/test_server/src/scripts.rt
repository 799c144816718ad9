//! A server over a real listener, and a client of the library that plays a script there, in one process.
ghost use Rattle.std.specs.Prelude.{◌≡◌, ◌≤◌, ◌<◌, ◌^◌, vec_len};

use join_job::join_job;
use room_link::accept::Accept;
use room_link::gate::OpenGate;
use room_link::memory_sink::SteadySink;
use room_link::memory_source::SteadySource;
use room_server::serve_job;
use rooms_val::Steps;
use socket_link::connecting::{ConnectingWorker, LocalPort};
use socket_link::worker::ListenerWorker;
use std::alloc::Global;
use std::marker::Brand;
use std::net::{Net, TcpListener, TcpStream};
use std::process::Abort;
use std::random::RandomSource;
use std::sync::Wait;
use std::sync::ledger::{Blank, Ledger};
use std::test::Fail;
use std::thread::{Threads, join};
use tungstenite::RandomKeys;

// A client waits for the room's answer, puts a page, waits until that is accepted, and shows what it has.
const SCRIPT: &str = r#"{"recording":1,"version":3}
{"client":0,"do":"deliver"}
{"client":0,"diff":{"page:p":["put",{"id":"page:p","index":"a0","meta":{},"name":"P","typeName":"page"}]},"do":"edit"}
{"client":0,"do":"deliver"}
{"client":0,"do":"show"}
{"do":"end"}
"#;

// What it writes.
const SHOWN: &str =
    r#"{"clock":1,"doc":{"page:p":{"id":"page:p","index":"a0","meta":{},"name":"P","typeName":"page"}},"others":{},"owed":0,"show":0}
{"clock":1,"end":true,"owed":0}
"#;

// What the server writes.
const LINES: &str = r#"{"ended":0,"faults":0,"links":1,"memory":0,"worker":0}
{"clock":1,"doc":{"page:p":{"id":"page:p","index":"a0","meta":{},"name":"P","typeName":"page"}},"presence":{},"room":0}
"#;

// Plays the script as a client of room 0 of the server on a port: the status, and what is shown. The steps are counted for nobody.
fn play_counted<R: Net + RandomSource, L: Ledger>(
    rt: &R,
    alloc: Global,
    port: u16,
    blank: Blank,
) -> Result<(u8, String), Fail>
    requires name { blank.name ≡ L.name }
    requires parts { blank.parts ≡ L.parts }
    requires some { 0 < blank.parts }
{
    let mut workers = Vec::new(alloc);
    let connector = LocalPort::new(rt, port);
    workers.push(ConnectingWorker::new(alloc, connector, RandomKeys::new(rt)))?;
    let mut source = SteadySource::new(SCRIPT.as_bytes().to_vec(alloc)?, 4096);
    let mut sink = SteadySink::new(alloc, 65_536);
    let mut steps = Steps::<L>::new(blank);
    let status = join_job(alloc, 0, &mut workers, &mut source, &mut sink, &mut steps);
    Ok((status, String::from_utf8(sink.bytes().to_vec(alloc)?)?))
}

fn play<R: Net + RandomSource>(rt: &R, alloc: Global, port: u16) -> Result<(u8, String), Fail> {
    play_counted::<R, Brand>(rt, alloc, port, Blank::new(1))
}

// What came of a server and a client.
#[derive(Drop)]
struct Met {
    // the server's status
    served: u8,
    // its lines
    lines: String,
    // the client's status
    played: u8,
    // what it shows
    shown: String,
}

// Serves a room by workers in one thread, while a client plays the script in another.
fn meet<R: Threads + Wait + Net + RandomSource + Sync, A: Accept + Send>(
    rt: &R,
    alloc: Global,
    workers: &mut Vec<A>,
    port: u16,
) -> Result<Met, Fail>
where
    A::Link: Send,
    requires few { vec_len workers.old ≤ 16 }
{
    let mut sink = SteadySink::new(alloc, 65_536);
    let (served, played) = join(
        rt,
        ||
            requires { vec_len workers.now < 2 ^ 32 }
        { serve_job(rt, alloc, 1, &mut sink, workers, &OpenGate).status },
        || play(rt, alloc, port),
    );
    let (played, shown) = played?;
    let lines = String::from_utf8(sink.bytes().to_vec(alloc)?)?;
    Ok(Met {
        served,
        lines,
        played,
        shown,
    })
}

#[test]
fn a_script_is_played_over_a_listener(rt: HostRuntime) -> Result<(), Fail> {
    let alloc = rt.alloc();
    let listener = TcpListener::bind(&rt, "127.0.0.1:0")?;
    let port = listener.local_addr()?.port();
    let mut workers = Vec::new(alloc);
    workers.push(ListenerWorker::new(alloc, &listener, 1))?;
    let met = meet(&rt, alloc, &mut workers, port)?;
    assert_eq!(&rt; met.played, 0);
    assert_eq!(&rt; met.served, 0);
    assert_eq!(&rt; met.shown.as_str(), SHOWN);
    assert_eq!(&rt; met.lines.as_str(), LINES);
    Ok(())
}
