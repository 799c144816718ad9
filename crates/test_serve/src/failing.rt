//! Links that fail.
use std::process::Abort;
use std::test::Fail;
use test_with_served::first_difference;

// One link that fails at each of its calls: the first three before another session comes, then the others, and at none.
const AT_EACH_CALL: &str = r#"
fails=0 join connect . ping x y | texts 0 sent 0 fault left 6 | - | clock 0
fails=1 join connect . ping x y | room 0 session 0 gone texts 1 sent 0 fault left 5 | - | enter 0 leave 0 clock 0
fails=2 join connect . ping x y | room 0 session 0 gone texts 2 sent 0 fault left 4 | - | enter 0 say 0 connect Entered give 0 answer give 0 nothing leave 0 clock 0
fails=3 join connect . ping x y meanwhile connect push | room 0 session 0 gone texts 2 sent 1 fault left 4 | answer | enter 0 say 0 connect Entered give 0 answer give 0 nothing enter 1 say 1 connect Entered give 1 answer give 1 nothing say 1 push Taken give 1 commit give 1 nothing leave 0 clock 1
fails=4 join connect . ping x y meanwhile connect push | room 0 session 0 gone texts 2 sent 1 fault left 3 | answer | enter 0 say 0 connect Entered give 0 answer give 0 nothing enter 1 say 1 connect Entered give 1 answer give 1 nothing say 1 push Taken give 1 commit give 1 nothing give 0 patch give 0 nothing leave 0 clock 1
fails=5 join connect . ping x y meanwhile connect push | room 0 session 0 gone texts 2 sent 2 fault left 3 | answer patch | enter 0 say 0 connect Entered give 0 answer give 0 nothing enter 1 say 1 connect Entered give 1 answer give 1 nothing say 1 push Taken give 1 commit give 1 nothing give 0 patch give 0 nothing leave 0 clock 1
fails=6 join connect . ping x y meanwhile connect push | room 0 session 0 gone texts 3 sent 2 fault left 2 | answer patch | enter 0 say 0 connect Entered give 0 answer give 0 nothing enter 1 say 1 connect Entered give 1 answer give 1 nothing say 1 push Taken give 1 commit give 1 nothing give 0 patch give 0 nothing say 0 ping Pong give 0 pong give 0 nothing leave 0 clock 1
fails=7 join connect . ping x y meanwhile connect push | room 0 session 0 gone texts 3 sent 3 fault left 2 | answer patch pong | enter 0 say 0 connect Entered give 0 answer give 0 nothing enter 1 say 1 connect Entered give 1 answer give 1 nothing say 1 push Taken give 1 commit give 1 nothing give 0 patch give 0 nothing say 0 ping Pong give 0 pong give 0 nothing leave 0 clock 1
fails=8 join connect . ping x y meanwhile connect push | room 0 session 0 gone texts 4 sent 3 wire Piece(BadPiece) fault left 1 | answer patch pong | enter 0 say 0 connect Entered give 0 answer give 0 nothing enter 1 say 1 connect Entered give 1 answer give 1 nothing say 1 push Taken give 1 commit give 1 nothing give 0 patch give 0 nothing say 0 ping Pong give 0 pong give 0 nothing leave 0 clock 1
fails=9 join connect . ping x y meanwhile connect push | room 0 session 0 gone texts 4 sent 3 ended InvalidRecord wire Piece(BadPiece) left 1 | answer patch pong InvalidRecord | enter 0 say 0 connect Entered give 0 answer give 0 nothing enter 1 say 1 connect Entered give 1 answer give 1 nothing say 1 push Taken give 1 commit give 1 nothing give 0 patch give 0 nothing say 0 ping Pong give 0 pong give 0 nothing leave 0 clock 1
"#;

// Other calls that fail, after which nothing more goes out.
const AT_OTHERS: &str = r#"
# The end of the texts.
fails=1 join | room 0 session 0 gone texts 1 sent 0 fault | - | enter 0 leave 0 clock 0
# The first and the second of two replies, and the second piece of one.
fails=4 join connect ping meanwhile connect push | room 0 session 0 gone texts 3 sent 1 fault | answer | enter 0 say 0 connect Entered give 0 answer give 0 nothing enter 1 say 1 connect Entered give 1 answer give 1 nothing say 1 push Taken give 1 commit give 1 nothing say 0 ping Pong give 0 pong give 0 patch give 0 nothing leave 0 clock 1
fails=5 join connect ping meanwhile connect push | room 0 session 0 gone texts 3 sent 2 fault | answer pong | enter 0 say 0 connect Entered give 0 answer give 0 nothing enter 1 say 1 connect Entered give 1 answer give 1 nothing say 1 push Taken give 1 commit give 1 nothing say 0 ping Pong give 0 pong give 0 patch give 0 nothing leave 0 clock 1
join connect {"clientClock":1,"diff":{^9^"page:@":["put",$E(@,~30000~)]^},"type":"push"} ; fails=3 join connect ping | room 0 session 0 gone texts 3 sent 2 ; room 0 session 1 gone texts 2 sent 1 fault left 1 | answer commit ; (262146) | enter 0 say 0 connect Entered give 0 answer give 0 nothing say 0 (270850) Taken give 0 commit give 0 nothing leave 0 enter 1 say 1 connect Entered give 1 (271034) give 1 nothing leave 1 clock 1
# Closes: of a text that isn't the join, of an end, and of a full room.
fails=1 {} join | texts 1 sent 0 wire Join fault left 1 | - | clock 0
fails=4 join connect connect ping | room 0 session 0 gone texts 3 sent 1 fault left 1 | answer | enter 0 say 0 connect Entered give 0 answer give 0 nothing say 0 connect Ended(InvalidRecord) give 0 InvalidRecord give 0 nothing leave 0 clock 0
enter 64 ; fails=1 join connect | room 0 gone texts 1 sent 0 fault left 1 | - | enters=64 clock 0
# A link that comes after one that failed.
fails=2 join connect ; join connect push | room 0 session 0 gone texts 2 sent 0 fault ; room 0 session 1 gone texts 3 sent 2 | - ; answer commit | enter 0 say 0 connect Entered give 0 answer give 0 nothing leave 0 enter 1 say 1 connect Entered give 1 answer give 1 nothing say 1 push Taken give 1 commit give 1 nothing leave 1 clock 1
"#;

#[test]
fn sends_a_beginning_where_a_call_fails(rt: HostRuntime) -> Result<(), Fail> {
    for table in [AT_EACH_CALL, AT_OTHERS] {
        if let Some(difference) = first_difference(&rt, rt.alloc(), table)? {
            assert_eq!(&rt; difference.as_str(), "");
        }
    }
    Ok(())
}
