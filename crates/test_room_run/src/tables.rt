//! Calls of one thread, and the histories that they write.
use std::process::Abort;
use std::test::Fail;
use test_with_room_runs::first_difference;

// A script that is played in a running room of its own.
struct Script<'a> {
    // What it shows.
    shows: &'a str,
    // The calls, each with what it answers.
    calls: &'a str,
    // How the history ends.
    pen: &'a str,
}

// 64 sessions enter. A 65th can't, also after another call, but once one has left. Four are handed in: one that has left, and
// three that found the room full and have no session; the others are still in the room.
const FULL: Script = Script {
    shows: "refuses the 65th session",
    calls: r#"
fill 64 | 64
enter | Full
connect 0 3 -1 | wipe_all 0 {}
enter readonly | Full
leave 5 | left
enter | 64
enter | Full
"#,
    pen: r#"enter | 62
enter | 63
connect 0 3 -1 | entered
drain 0 | wipe_all 0 {}
drain 0 | nothing
leave 5 | left
enter | 64
"#,
};

// Two sessions by turns, of which the second is read-only.
const TWO: Script = Script {
    shows: "keeps the calls of two sessions in order",
    calls: r#"
enter | 0
enter readonly | 1
connect 0 3 -1 | wipe_all 0 {}
connect 1 3 -1 | wipe_all 0 readonly {}
push 0 1 {"page:p":["put",$P]} | 1 push 1 commit
push 1 1 {"page:p":["patch",{"name":["put","Q"]}]} | 1 {"page:p":["put",$P]}, 2 push 1 discard
presence 1 2 ["put",$R(x,bob)] | 3 push 2 commit
idle 0 | 2 {}, 3 {"instance_presence:1":["put",$R(1,bob)]}
idle 0 | nothing
ping 0 | pong
push 0 2 {"page:p":["patch",{"name":["put","Q"]}]} | 4 push 2 commit
idle 1 | 4 {"page:p":["patch",{"name":["put","Q"]}]}
leave 1 | left
idle 0 | 5 {"instance_presence:1":["remove"]}
leave 0 | left
"#,
    pen: r#"enter | 0
enter readonly | 1
connect 0 3 -1 | entered
drain 0 | wipe_all 0 {}
drain 0 | nothing
connect 1 3 -1 | entered
drain 1 | wipe_all 0 readonly {}
drain 1 | nothing
push 0 1 {"page:p":["put",$P]} | taken
drain 0 | 1 push 1 commit
drain 0 | nothing
push 1 1 {"page:p":["patch",{"name":["put","Q"]}]} | taken
drain 1 | 1 {"page:p":["put",$P]}, 2 push 1 discard
drain 1 | nothing
presence 1 2 ["put",$R(x,bob)] | taken
drain 1 | 3 push 2 commit
drain 1 | nothing
drain 0 | 2 {}, 3 {"instance_presence:1":["put",$R(1,bob)]}
drain 0 | nothing
ping 0 | pong
drain 0 | pong
drain 0 | nothing
push 0 2 {"page:p":["patch",{"name":["put","Q"]}]} | taken
drain 0 | 4 push 2 commit
drain 0 | nothing
drain 1 | 4 {"page:p":["patch",{"name":["put","Q"]}]}
drain 1 | nothing
leave 1 | left
drain 0 | 5 {"instance_presence:1":["remove"]}
drain 0 | nothing
leave 0 | left
"#,
};

// A session is ended, is told so once, and leaves.
const ENDED: Script = Script {
    shows: "lets an ended session leave",
    calls: r#"
enter | 0
enter | 1
connect 0 3 -1 | wipe_all 0 {}
connect 1 3 -1 | wipe_all 0 {}
push 0 1 {"page:p":["put",{}]} | end INVALID_RECORD
idle 0 | nothing
push 0 2 {} | nothing
leave 0 | left
idle 1 | nothing
leave 1 | left
"#,
    pen: r#"enter | 0
enter | 1
connect 0 3 -1 | entered
drain 0 | wipe_all 0 {}
drain 0 | nothing
connect 1 3 -1 | entered
drain 1 | wipe_all 0 {}
drain 1 | nothing
push 0 1 {"page:p":["put",{}]} | INVALID_RECORD
drain 0 | end INVALID_RECORD
drain 0 | nothing
push 0 2 {} | INVALID_RECORD
drain 0 | nothing
leave 0 | left
leave 1 | left
"#,
};

// A session is in the room when it is closed.
const STAYS: Script = Script {
    shows: "closes with a session in the room",
    calls: r#"
enter | 0
enter | 1
connect 0 3 -1 | wipe_all 0 {}
push 0 1 {"page:p":["put",$P]} | 1 push 1 commit
connect 1 3 -1 | wipe_all 1 {"page:p":["put",$P]}
leave 0 | left
push 1 1 {"page:p":["patch",{"name":["put","Q"]}]} | 2 push 1 commit
"#,
    pen: r#"enter | 0
enter | 1
connect 0 3 -1 | entered
drain 0 | wipe_all 0 {}
drain 0 | nothing
push 0 1 {"page:p":["put",$P]} | taken
drain 0 | 1 push 1 commit
drain 0 | nothing
connect 1 3 -1 | entered
drain 1 | wipe_all 1 {"page:p":["put",$P]}
drain 1 | nothing
leave 0 | left
push 1 1 {"page:p":["patch",{"name":["put","Q"]}]} | taken
drain 1 | 2 push 1 commit
drain 1 | nothing
"#,
};

// The scripts.
const SCRIPTS: [Script; 4] = [FULL, TWO, ENDED, STAYS];

#[test]
fn answers_and_writes_what_tables_say(rt: HostRuntime) -> Result<(), Fail> {
    for script in &SCRIPTS {
        if let Some(difference) = first_difference(&rt, rt.alloc(), script.calls, script.pen)? {
            assert_eq!(&rt; difference.as_str(), "", "{}", script.shows);
        }
    }
    Ok(())
}
