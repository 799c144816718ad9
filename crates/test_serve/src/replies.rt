//! What goes out, and what the room's history is.
use std::process::Abort;
use std::test::Fail;
use test_with_served::first_difference;

// Messages that are answered, whole and in pieces.
const MESSAGES: &str = r#"
. . join . connect . | room 0 session 0 gone texts 2 sent 1 | answer | enter 0 say 0 connect Entered give 0 answer give 0 nothing leave 0 clock 0
{"type":"join","room":0,"readonly":true} connect | room 0 session 0 gone texts 2 sent 1 | answer-readonly | enter-readonly 0 say 0 connect Entered give 0 answer-readonly give 0 nothing leave 0 clock 0
join ping | room 0 session 0 gone texts 2 sent 1 | pong | enter 0 say 0 ping Pong give 0 pong give 0 nothing leave 0 clock 0
join connect . 2_{"ty . 1_pe":"pi . 0_ng"} . | room 0 session 0 gone texts 5 sent 2 | answer pong | enter 0 say 0 connect Entered give 0 answer give 0 nothing say 0 ping Pong give 0 pong give 0 nothing leave 0 clock 0
join connect 2_{"ty . 1_pe":"pi . 0_ng"} . meanwhile connect push | room 0 session 0 gone texts 5 sent 3 | answer patch pong | enter 0 say 0 connect Entered give 0 answer give 0 nothing enter 1 say 1 connect Entered give 1 answer give 1 nothing say 1 push Taken give 1 commit give 1 nothing give 0 patch give 0 nothing say 0 ping Pong give 0 pong give 0 nothing leave 0 clock 1
# One who pushes, and one who pings: each in a room of its own, and one after the other.
join connect push | room 0 session 0 gone texts 3 sent 2 | answer commit | enter 0 say 0 connect Entered give 0 answer give 0 nothing say 0 push Taken give 0 commit give 0 nothing leave 0 clock 1
join connect ping | room 0 session 0 gone texts 3 sent 2 | answer pong | enter 0 say 0 connect Entered give 0 answer give 0 nothing say 0 ping Pong give 0 pong give 0 nothing leave 0 clock 0
join connect push ; join connect ping | room 0 session 0 gone texts 3 sent 2 ; room 0 session 1 gone texts 3 sent 2 | answer commit ; later pong | enter 0 say 0 connect Entered give 0 answer give 0 nothing say 0 push Taken give 0 commit give 0 nothing leave 0 enter 1 say 1 connect Entered give 1 later give 1 nothing say 1 ping Pong give 1 pong give 1 nothing leave 1 clock 1
# The second of them pings once the first has pushed.
join connect ping meanwhile connect push | room 0 session 0 gone texts 3 sent 3 | answer pong patch | enter 0 say 0 connect Entered give 0 answer give 0 nothing enter 1 say 1 connect Entered give 1 answer give 1 nothing say 1 push Taken give 1 commit give 1 nothing say 0 ping Pong give 0 pong give 0 patch give 0 nothing leave 0 clock 1
# The same at an Idle; another one finds nothing.
join connect . . meanwhile connect push | room 0 session 0 gone texts 2 sent 2 | answer patch | enter 0 say 0 connect Entered give 0 answer give 0 nothing enter 1 say 1 connect Entered give 1 answer give 1 nothing say 1 push Taken give 1 commit give 1 nothing give 0 patch give 0 nothing leave 0 clock 1
# A reply that goes out in two pieces.
join connect {"clientClock":1,"diff":{^9^"page:@":["put",$E(@,~30000~)]^},"type":"push"} ; join connect | room 0 session 0 gone texts 3 sent 2 ; room 0 session 1 gone texts 2 sent 2 | answer commit ; (262146) (8892) | enter 0 say 0 connect Entered give 0 answer give 0 nothing say 0 (270850) Taken give 0 commit give 0 nothing leave 0 enter 1 say 1 connect Entered give 1 (271034) give 1 nothing leave 1 clock 1
"#;

// Links that the server closes while something waits for the session, which then isn't given it.
const CLOSED: &str = r#"
join connect connect . meanwhile connect push | room 0 session 0 gone texts 3 sent 1 ended InvalidRecord left 1 | answer InvalidRecord | enter 0 say 0 connect Entered give 0 answer give 0 nothing enter 1 say 1 connect Entered give 1 answer give 1 nothing say 1 push Taken give 1 commit give 1 nothing say 0 connect Ended(InvalidRecord) give 0 InvalidRecord give 0 nothing leave 0 clock 1
join connect x . meanwhile connect push | room 0 session 0 gone texts 3 sent 1 ended InvalidRecord wire Piece(BadPiece) left 1 | answer InvalidRecord | enter 0 say 0 connect Entered give 0 answer give 0 nothing enter 1 say 1 connect Entered give 1 answer give 1 nothing say 1 push Taken give 1 commit give 1 nothing leave 0 clock 1
# An Idle finds that the session is too far behind.
join connect . . meanwhile connect {"clientClock":1,"diff":{^3001^"page:@":["put",$E(@)]^},"type":"push"} {"clientClock":2,"diff":{^3001^"page:@":["remove"]^},"type":"push"} 31*{"clientClock":3,"type":"push"} | room 0 session 0 gone texts 2 sent 1 ended Slow left 1 | answer Slow | ..{"data":[{"action":"commit","clientClock":3,"serverClock":33,"type":"push_result"}],"type":"data"} give 1 nothing give 0 Slow give 0 nothing leave 0 clock 33
# 63 sessions are in the room, or 64.
enter 63 ; join connect ; join connect | room 0 session 63 gone texts 2 sent 1 ; room 0 session 64 gone texts 2 sent 1 | answer ; answer | enters=64 say 63 connect Entered give 63 answer give 63 nothing leave 63 enter 64 say 64 connect Entered give 64 answer give 64 nothing leave 64 clock 0
enter 64 ; join connect . ; {"readonly":true,"room":0,"type":"join"} | room 0 gone texts 1 sent 0 ended RoomFull left 2 ; room 0 gone texts 1 sent 0 ended RoomFull | RoomFull ; RoomFull | enters=64 clock 0
"#;

#[test]
fn sends_what_the_room_gives(rt: HostRuntime) -> Result<(), Fail> {
    for table in [MESSAGES, CLOSED] {
        if let Some(difference) = first_difference(&rt, rt.alloc(), table)? {
            assert_eq!(&rt; difference.as_str(), "");
        }
    }
    Ok(())
}
