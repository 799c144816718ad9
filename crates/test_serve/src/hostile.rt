//! Texts from hostile peers.
use std::process::Abort;
use std::test::Fail;
use test_with_served::first_difference;

// Each mistake by itself, and what it gets.
const MISTAKES: &str = r#"
# Nothing comes, or another text than the join of a room that is there.
- | texts 0 sent 0 | - | clock 0
{} | texts 1 sent 0 ended InvalidRecord wire Join | InvalidRecord | clock 0
{"readonly":false,"room":1,"type":"join"} | texts 1 sent 0 ended InvalidRecord wire Join | InvalidRecord | clock 0
# What is no piece; one of which the next is missing; one out of its turn; and a text too long by a byte.
join x | room 0 session 0 gone texts 2 sent 0 ended InvalidRecord wire Piece(BadPiece) | InvalidRecord | enter 0 leave 0 clock 0
join 1_a | room 0 session 0 gone texts 2 sent 0 | - | enter 0 leave 0 clock 0
join 2_a 0_b | room 0 session 0 gone texts 3 sent 0 ended InvalidRecord wire Piece(OutOfTurn(1, 0)) | InvalidRecord | enter 0 leave 0 clock 0
join {~4194304~ | room 0 session 0 gone texts 2 sent 0 ended InvalidRecord wire Piece(TooLong) | InvalidRecord | enter 0 leave 0 clock 0
# A value that is too deep, and one that lacks a field.
join {"a":[[[[[[[[[[[[[[[[[[[[[[[[[[[[[[[[[[[[[[[[[[[[[[[[[[[[[[[[[[[[[[[[]]]]]]]]]]]]]]]]]]]]]]]]]]]]]]]]]]]]]]]]]]]]]]]]]]]]]]]]]]]]]]]]} | room 0 session 0 gone texts 2 sent 0 ended InvalidRecord wire Message(Val(TooDeep)) | InvalidRecord | enter 0 leave 0 clock 0
join {"type":"push"} | room 0 session 0 gone texts 2 sent 0 ended InvalidRecord wire Message(MissingField) | InvalidRecord | enter 0 leave 0 clock 0
# A push before the connect, a second connect, and a newer protocol and an older one.
join {"clientClock":1,"type":"push"} | room 0 session 0 gone texts 2 sent 0 ended InvalidRecord | InvalidRecord | enter 0 say 0 {"clientClock":1,"type":"push"} Ended(InvalidRecord) give 0 InvalidRecord give 0 nothing leave 0 clock 0
join connect connect | room 0 session 0 gone texts 3 sent 1 ended InvalidRecord | answer InvalidRecord | enter 0 say 0 connect Entered give 0 answer give 0 nothing say 0 connect Ended(InvalidRecord) give 0 InvalidRecord give 0 nothing leave 0 clock 0
join newer | room 0 session 0 gone texts 2 sent 0 ended ServerTooOld | ServerTooOld | enter 0 say 0 newer Ended(ServerTooOld) give 0 ServerTooOld give 0 nothing leave 0 clock 0
join older | room 0 session 0 gone texts 2 sent 0 ended ClientTooOld | ClientTooOld | enter 0 say 0 older Ended(ClientTooOld) give 0 ClientTooOld give 0 nothing leave 0 clock 0
"#;

// Texts in the place of the join.
const NO_JOIN: &str = r#"
. . | texts 0 sent 0 | - | clock 0
{} . | texts 1 sent 0 ended InvalidRecord wire Join left 1 | InvalidRecord | clock 0
. {"readonly":false,"room":1,"type":"join"} | texts 1 sent 0 ended InvalidRecord wire Join | InvalidRecord | clock 0
{"readonly":false,"room":-1,"type":"join"} | texts 1 sent 0 ended InvalidRecord wire Join | InvalidRecord | clock 0
{"readonly":false,"room":4294967296,"type":"join"} | texts 1 sent 0 ended InvalidRecord wire Join | InvalidRecord | clock 0
{"readonly":false,"room":0.0,"type":"join"} | texts 1 sent 0 ended InvalidRecord wire Join | InvalidRecord | clock 0
{"readonly":0,"room":0,"type":"join"} | texts 1 sent 0 ended InvalidRecord wire Join | InvalidRecord | clock 0
{"readonly":false,"room":0,"type":"Join"} | texts 1 sent 0 ended InvalidRecord wire Join | InvalidRecord | clock 0
{"readonly":false,"room":0} | texts 1 sent 0 ended InvalidRecord wire Join | InvalidRecord | clock 0
{"readonly":false,"room":0,"type":"join","x":1} | texts 1 sent 0 ended InvalidRecord wire Join | InvalidRecord | clock 0
0_{"readonly":false,"room":0,"type":"join"} | texts 1 sent 0 ended InvalidRecord wire Join | InvalidRecord | clock 0
connect join | texts 1 sent 0 ended InvalidRecord wire Join left 1 | InvalidRecord | clock 0
~0~ join | texts 1 sent 0 ended InvalidRecord wire Join left 1 | InvalidRecord | clock 0
# Bytes that aren't UTF-8.
* join | texts 1 sent 0 ended InvalidRecord wire Join left 1 | InvalidRecord | clock 0
{"readonly":false,"room":0,"type":"join*"} | texts 1 sent 0 ended InvalidRecord wire Join | InvalidRecord | clock 0
"#;

// Texts behind the join that are no pieces, or no messages.
const NO_MESSAGE: &str = r#"
join x ping | room 0 session 0 gone texts 2 sent 0 ended InvalidRecord wire Piece(BadPiece) left 1 | InvalidRecord | enter 0 leave 0 clock 0
join ~0~ | room 0 session 0 gone texts 2 sent 0 ended InvalidRecord wire Piece(BadPiece) | InvalidRecord | enter 0 leave 0 clock 0
join join | room 0 session 0 gone texts 2 sent 0 ended InvalidRecord wire Message(UnknownType) | InvalidRecord | enter 0 leave 0 clock 0
# Bytes that aren't UTF-8.
join * | room 0 session 0 gone texts 2 sent 0 ended InvalidRecord wire Piece(BadPiece) | InvalidRecord | enter 0 leave 0 clock 0
join {"type":"ping*"} | room 0 session 0 gone texts 2 sent 0 ended InvalidRecord wire Piece(BadPiece) | InvalidRecord | enter 0 leave 0 clock 0
# As long as a text may be, and a byte longer.
join {~4194303~ | room 0 session 0 gone texts 2 sent 0 ended InvalidRecord wire Message(Val(BadJson)) | InvalidRecord | enter 0 leave 0 clock 0
join 0_{~4194303~ | room 0 session 0 gone texts 2 sent 0 ended InvalidRecord wire Message(Val(BadJson)) | InvalidRecord | enter 0 leave 0 clock 0
join 0_{~4194304~ | room 0 session 0 gone texts 2 sent 0 ended InvalidRecord wire Piece(TooLong) | InvalidRecord | enter 0 leave 0 clock 0
"#;

// Messages by which the room ends the session, and a text behind them.
const ENDED: &str = r#"
join older newer | room 0 session 0 gone texts 2 sent 0 ended ClientTooOld left 1 | ClientTooOld | enter 0 say 0 older Ended(ClientTooOld) give 0 ClientTooOld give 0 nothing leave 0 clock 0
join newer x | room 0 session 0 gone texts 2 sent 0 ended ServerTooOld left 1 | ServerTooOld | enter 0 say 0 newer Ended(ServerTooOld) give 0 ServerTooOld give 0 nothing leave 0 clock 0
"#;

#[test]
fn answers_hostile_texts(rt: HostRuntime) -> Result<(), Fail> {
    for table in [MISTAKES, NO_JOIN, NO_MESSAGE, ENDED] {
        if let Some(difference) = first_difference(&rt, rt.alloc(), table)? {
            assert_eq!(&rt; difference.as_str(), "");
        }
    }
    Ok(())
}
