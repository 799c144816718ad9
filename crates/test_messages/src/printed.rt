//! The lines that are printed.
use crate::tables::{Reading, plays};
use rec_format::{PrintedLine, print_line, print_out};
use room_model::{IdList, OutLine};
use rooms_val::Text;
use std::alloc::Global;
use std::test::Fail;
use sync_msgs::EndReason;
use test_with_cases::value;

// A line of each form as it is printed, before what it says: `show` has the client, the clock, how much is owed, the document
// and the others; `end` the clock, the document and the presences; `fault` the number of the line; `told` the client and the
// watch. A line of the world is printed as one of the world alone, too.
const LINES: &str = r#"
{"clock":-1,"doc":{"page:a":{"x":1}},"others":{},"owed":3,"show":2} | show 2 -1 3 {"page:a":{"x":1}} {}
{"clock":7,"doc":{},"end":true,"presence":{"p":1}} | end 7 {} {"p":1}
{"client":0,"undo":true} | undo 0 true
{"client":1,"redo":false} | redo 1 false
{"at":2,"fault":"NoMark"} | fault 2 NoMark
{"client":4,"ended":"CLIENT_TOO_OLD"} | ended 4 ClientTooOld
{"end":"CLIENT_TOO_OLD","to":5} | ending 5 ClientTooOld
{"client":4,"ended":"SERVER_TOO_OLD"} | ended 4 ServerTooOld
{"end":"SERVER_TOO_OLD","to":5} | ending 5 ServerTooOld
{"client":4,"ended":"INVALID_RECORD"} | ended 4 InvalidRecord
{"end":"INVALID_RECORD","to":5} | ending 5 InvalidRecord
{"client":4,"ended":"ROOM_FULL"} | ended 4 RoomFull
{"end":"ROOM_FULL","to":5} | ending 5 RoomFull
{"client":4,"ended":"SLOW"} | ended 4 Slow
{"end":"SLOW","to":5} | ending 5 Slow
{"client":0,"ids":[],"query":true} | ids 0
{"client":7,"ids":["shape:b","shape:a"],"query":true} | ids 7 shape:b shape:a
{"client":1,"told":{"h":2,"w":1,"x":-3,"y":0},"watch":63} | told 1 63 {"h":2,"w":1,"x":-3,"y":0}
"#;

// The first word of a text, and what comes after it.
fn cut(text: &str) -> (&str, &str) {
    text.split_once(' ').unwrap_or((text, ""))
}

// The number of a text.
fn number(text: &str) -> Result<u64, Fail> {
    Ok(text.parse::<u64>()?)
}

// A line as it is printed.
pub(crate) fn line_text(alloc: Global, said: &str) -> Result<String, Fail> {
    let (word, rest) = cut(said);
    match word {
        "ids" => text_of(alloc, &ids(alloc, rest)?),
        "told" => text_of(alloc, &watch_line(alloc, rest)?),
        _ => world_text(alloc, world_line(alloc, word, rest)?),
    }
}

// The text of a line.
fn text_of(alloc: Global, line: &PrintedLine) -> Result<String, Fail> {
    Ok(String::from_utf8(print_line(alloc, line)?)?)
}

// The text of a line of the world, which is the same by itself and among other lines.
fn world_text(alloc: Global, line: OutLine) -> Result<String, Fail> {
    let alone = alone_text(alloc, &line)?;
    same_among(alloc, &PrintedLine::World(line), alone)
}

// The text of a line of the world by itself.
fn alone_text(alloc: Global, line: &OutLine) -> Result<String, Fail> {
    Ok(String::from_utf8(print_out(alloc, line)?)?)
}

// The text that a line has by itself, if it has the same among other lines.
fn same_among(alloc: Global, line: &PrintedLine, alone: String) -> Result<String, Fail> {
    let among = text_of(alloc, line)?;
    if alone.as_str() != among.as_str() {
        return Err(Fail::from("a line of the world has two texts"));
    }
    Ok(alone)
}

// A line of the world.
fn world_line(alloc: Global, word: &str, rest: &str) -> Result<OutLine, Fail> {
    match word {
        "show" => show(alloc, rest),
        "end" => end(alloc, rest),
        "fault" => fault(alloc, rest),
        "undo" | "redo" => taken_back(word, rest),
        _ => session_end(word, rest),
    }
}

// What a client shows.
fn show(alloc: Global, rest: &str) -> Result<OutLine, Fail> {
    let (client, rest) = cut(rest);
    let (clock, rest) = cut(rest);
    let (owed, rest) = cut(rest);
    let (doc, others) = cut(rest);
    let (client, owed) = (number(client)?, number(owed)?);
    let clock = clock.parse::<i64>()?;
    let doc = value(alloc, doc)?;
    let others = value(alloc, others)?;
    Ok(OutLine::Show {
        client,
        clock,
        doc,
        others,
        owed,
    })
}

// What the room has at the end.
fn end(alloc: Global, rest: &str) -> Result<OutLine, Fail> {
    let (clock, rest) = cut(rest);
    let (doc, presence) = cut(rest);
    let clock = clock.parse::<i64>()?;
    let doc = value(alloc, doc)?;
    let presence = value(alloc, presence)?;
    Ok(OutLine::End {
        clock,
        doc,
        presence,
    })
}

// A line that is refused.
fn fault(alloc: Global, rest: &str) -> Result<OutLine, Fail> {
    let (at, text) = cut(rest);
    let at = number(at)?;
    let text = Text::of(alloc, text)?;
    Ok(OutLine::Fault { at, text })
}

// Whether edits were taken back, or done again.
fn taken_back(word: &str, rest: &str) -> Result<OutLine, Fail> {
    let (client, done) = cut(rest);
    let client = number(client)?;
    let done = done == "true";
    if word == "undo" {
        return Ok(OutLine::Undo { client, done });
    }
    Ok(OutLine::Redo { client, done })
}

// The end of a session, at its client or in a trace.
fn session_end(word: &str, rest: &str) -> Result<OutLine, Fail> {
    let (whose, reason) = cut(rest);
    let whose = number(whose)?;
    let reason = reason_of(reason)?;
    match word {
        "ended" => Ok(OutLine::Ended {
            client: whose,
            reason,
        }),
        "ending" => Ok(OutLine::Ending {
            session: whose,
            reason,
        }),
        _ => Err(Fail::from("no line")),
    }
}

// The reason of a name.
fn reason_of(name: &str) -> Result<EndReason, Fail> {
    match name {
        "ClientTooOld" => Ok(EndReason::ClientTooOld),
        "ServerTooOld" => Ok(EndReason::ServerTooOld),
        "InvalidRecord" => Ok(EndReason::InvalidRecord),
        "RoomFull" => Ok(EndReason::RoomFull),
        "Slow" => Ok(EndReason::Slow),
        _ => Err(Fail::from("no reason")),
    }
}

// What a query found.
fn ids(alloc: Global, rest: &str) -> Result<PrintedLine, Fail> {
    let (client, names) = cut(rest);
    let client = number(client)?;
    let mut ids = Vec::new(alloc);
    for name in names.split(' ') {
        if !name.is_empty() {
            ids.push(Text::of(alloc, name)?)?;
        }
    }
    Ok(PrintedLine::Ids {
        client,
        ids: IdList::of(ids),
    })
}

// What a watch tells.
fn watch_line(alloc: Global, rest: &str) -> Result<PrintedLine, Fail> {
    let (client, rest) = cut(rest);
    let (watch, told) = cut(rest);
    let client = number(client)?;
    let watch = watch.parse::<u32>()?;
    let told = value(alloc, told)?;
    Ok(PrintedLine::Told {
        client,
        told,
        watch,
    })
}

#[test]
fn prints_each_line(rt: HostRuntime) -> Result<(), Fail> {
    plays(&rt, rt.alloc(), Reading::Printed, &[LINES])
}
