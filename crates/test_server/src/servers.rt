//! Servers.
use std::process::Abort;
use std::test::Fail;
use test_with_servers::{crowd_difference, first_difference};

const SERVERS: &str = r#"
# Two links of one room, of which each waits for the other. Then the second one's second send fails.
rooms=1 hold=0.2>1.1 hold=1.2>0.2 ; join connect push ; join connect ping | answer commit ; answer pong patch | 0 | {"ended":0,"faults":0,"links":1,"memory":0,"worker":0} {"ended":0,"faults":0,"links":1,"memory":0,"worker":1} {"clock":1,"doc":{"page:p":$P,"shape:a":$G(a,a0,0)},"presence":{},"room":0}
rooms=1 hold=0.2>1.1 hold=1.2>0.2 ; join connect push ; fails=4 join connect ping | answer commit ; answer | 0 | {"ended":0,"faults":0,"links":1,"memory":0,"worker":0} {"ended":0,"faults":1,"links":1,"memory":0,"worker":1} {"clock":1,"doc":{"page:p":$P,"shape:a":$G(a,a0,0)},"presence":{},"room":0}
# No worker, a worker that has no link, and links of one worker after one that failed and one that was closed.
rooms=2 | none | 0 | {"clock":0,"doc":{},"presence":{},"room":0} {"clock":0,"doc":{},"presence":{},"room":1}
rooms=1 ; fails=0 join connect , join x , join connect push | - , InvalidRecord , answer commit | 0 | {"ended":1,"faults":1,"links":3,"memory":0,"worker":0} {"clock":1,"doc":{"page:p":$P,"shape:a":$G(a,a0,0)},"presence":{},"room":0}
# Two rooms, of which the second one has a page and a presence that left.
rooms=2 ; join connect ping ; {"readonly":false,"room":1,"type":"join"} connect push {"clientClock":2,"presence":["put",$R(x,bob)],"type":"push"} ; {"readonly":false,"room":2,"type":"join"} connect | answer pong ; answer commit {"data":[{"action":"commit","clientClock":2,"serverClock":2,"type":"push_result"}],"type":"data"} ; InvalidRecord | 0 | {"ended":0,"faults":0,"links":1,"memory":0,"worker":0} {"ended":0,"faults":0,"links":1,"memory":0,"worker":1} {"ended":1,"faults":0,"links":1,"memory":0,"worker":2} {"clock":0,"doc":{},"presence":{},"room":0} {"clock":3,"doc":{"page:p":$P,"shape:a":$G(a,a0,0)},"presence":{},"room":1}
# A worker that fails, at once or after a link. The other one serves its link.
rooms=1 ; accept=0 , join connect | none | 7 | {"ended":0,"faults":0,"links":0,"memory":0,"worker":0} {"clock":0,"doc":{},"presence":{},"room":0}
rooms=1 ; accept=1 , join connect , join connect ; join connect ping | answer ; answer pong | 7 | {"ended":0,"faults":0,"links":1,"memory":0,"worker":0} {"ended":0,"faults":0,"links":1,"memory":0,"worker":1} {"clock":0,"doc":{},"presence":{},"room":0}
# A write that fails, the first one or the second.
rooms=1 write=0 ; join connect | answer | 5 | -
rooms=1 write=1 ; join connect | answer | 5 | {"ended":0,"faults":0,"links":1,"memory":0,"worker":0}
"#;

#[test]
fn serve_as_the_table_says(rt: HostRuntime) -> Result<(), Fail> {
    if let Some(difference) = first_difference(&rt, rt.alloc(), SERVERS)? {
        assert_eq!(&rt; difference.as_str(), "");
    }
    Ok(())
}

#[test]
fn serve_a_crowd_as_one_thread_would(rt: HostRuntime) -> Result<(), Fail> {
    if let Some(difference) = crowd_difference(&rt, rt.alloc())? {
        assert_eq!(&rt; difference.as_str(), "");
    }
    Ok(())
}
