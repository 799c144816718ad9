//! The texts of tables: lines of scripts, what passes over a link, and what is written.
//!
//! A cell has items, parted by `; `. `-` is none, `x**n` are n items x, and `#` in an item is its place in the cell, from 0. An item
//! is a text, or a short name with words behind it. In its text `<x*n>` is n times x, and `$` begins the name of a board's record.
use room_link::passing::Arrival;
use std::alloc::Global;
use std::collections::VecDeque;
use std::test::Fail;
use test_with_boards::board_text;

/// The text of a short name, in which `@` stands for a word behind the name; empty where the name is none.
fn text_by(name: &str) -> &'static str {
    match name {
        // Lines of a script.
        "H" => r#"{"recording":1,"version":3}"#,
        "HEADER" => r#"{"recording":1,"version":@}"#,
        "EDIT" => r#"{"client":0,"diff":@,"do":"edit"}"#,
        "PUT" => r#"{"client":0,"diff":{"page:p":["put",$P]},"do":"edit"}"#,
        "BOARD" =>
            r#"{"client":0,"diff":{"page:p":["put",$P],"shape:a":["put",$G(a,a0,0)]},"do":"edit"}"#,
        "X" => r#"{"client":0,"diff":{"shape:a":["patch",{"x":["put",@]}]},"do":"edit"}"#,
        "PRESENCE" => r#"{"client":0,"do":"presence","record":@}"#,
        "MARK" => r#"{"client":0,"do":"mark","name":"@"}"#,
        "UNDO" => r#"{"client":0,"do":"undo"}"#,
        "REDO" => r#"{"client":0,"do":"redo"}"#,
        "BAIL" => r#"{"client":0,"do":"bail","name":"@"}"#,
        "WATCH" => r#"{"client":0,"do":"watch","view":@}"#,
        "QUERY" => r#"{"client":0,"do":"query","type":"@","where":@}"#,
        "SHOW" => r#"{"client":0,"do":"show"}"#,
        "DELIVER" => r#"{"client":0,"do":"deliver"}"#,
        "END" => r#"{"do":"end"}"#,
        "BLANK" => " \t\r",
        // What a room says.
        "ANSWER" =>
            r#"{"connectRequestId":"0","diff":@,"hydrationType":"wipe_all","isReadonly":false,"protocolVersion":2,"schema":{"schemaVersion":2,"sequences":{"rooms.base":1,"rooms.binding":1,"rooms.shape":2}},"serverClock":@,"type":"connect"}"#,
        "PATCH" => r#"{"data":[{"diff":@,"serverClock":@,"type":"patch"}],"type":"data"}"#,
        "RESULT" =>
            r#"{"data":[{"action":@,"clientClock":@,"serverClock":@,"type":"push_result"}],"type":"data"}"#,
        "PONG" => r#"{"type":"pong"}"#,
        // What a client says.
        "JOIN" => r#"{"readonly":false,"room":0,"type":"join"}"#,
        "ASK" =>
            r#"{"connectRequestId":"0","lastServerClock":-1,"protocolVersion":2,"schema":{"schemaVersion":2,"sequences":{"rooms.base":1,"rooms.binding":1,"rooms.shape":2}},"type":"connect"}"#,
        "ASKS" =>
            r#"{"connectRequestId":"0","lastServerClock":-1,"protocolVersion":2,"schema":{"schemaVersion":2,"sequences":@},"type":"connect"}"#,
        "PUSH" => r#"{"clientClock":@,"diff":@,"type":"push"}"#,
        "PRESENT" => r#"{"clientClock":@,"presence":["put",@],"type":"push"}"#,
        // What is written.
        "SHOWN" => r#"{"clock":@,"doc":@,"others":@,"owed":@,"show":0}"#,
        "UNDONE" => r#"{"client":0,"undo":@}"#,
        "REDONE" => r#"{"client":0,"redo":@}"#,
        "IDS" => r#"{"client":0,"ids":@,"query":true}"#,
        "TOLD" => r#"{"client":0,"told":@,"watch":@}"#,
        "LOST" => r#"{"client":0,"lost":true}"#,
        "IDLE" => r#"{"client":0,"idle":true}"#,
        "ENDED" => r#"{"clock":@,"end":true,"owed":@}"#,
        "FAULT" => r#"{"at":@,"fault":"@"}"#,
        _ => "",
    }
}

/// A text with the given words in the places of its `@`, in order.
fn with_words(alloc: Global, text: &str, given: &str) -> Result<String, Fail> {
    let mut words = given.split(' ');
    let mut parts = text.split('@');
    let mut out = String::from_str(alloc, parts.next().unwrap_or(""))?;
    for part in parts {
        if let Some(word) = words.next() {
            out.push_str(word)?;
        }
        out.push_str(part)?;
    }
    Ok(out)
}

/// A text in which what is to be repeated is written out.
fn with_repeats(alloc: Global, text: &str) -> Result<String, Fail> {
    let mut parts = text.split('<');
    let mut out = String::from_str(alloc, parts.next().unwrap_or(""))?;
    for part in parts {
        let (times, rest) = part.split_once('>').unwrap_or((part, ""));
        let (unit, count) = times.split_once('*').unwrap_or((times, "1"));
        out.push_str(unit.repeat(alloc, count.parse::<usize>()?)?.as_str())?;
        out.push_str(rest)?;
    }
    Ok(out)
}

/// The text of an item.
fn text_of(alloc: Global, item: &str) -> Result<String, Fail> {
    let (name, given) = item.split_once(' ').unwrap_or((item, ""));
    let named = text_by(name);
    let text = if named.is_empty() {
        String::from_str(alloc, item)?
    } else {
        with_words(alloc, named, given)?
    };
    let text = with_repeats(alloc, text.as_str())?;
    board_text(alloc, text.as_str())
}

/// The items of a cell.
pub(crate) fn items(alloc: Global, cell: &str) -> Result<Vec<&str>, Fail> {
    let mut items = Vec::new(alloc);
    for item in cell.split("; ") {
        let (item, count) = item.split_once("**").unwrap_or((item, "1"));
        if item != "-" {
            for _ in 0..count.parse::<u32>()? {
                items.push(item)?;
            }
        }
    }
    Ok(items)
}

/// The items of a cell as lines. `~` takes away the newline before it.
pub(crate) fn lines_of(alloc: Global, cell: &str) -> Result<String, Fail> {
    let mut lines = String::new(alloc);
    for (place, item) in items(alloc, cell)?.iter().enumerate() {
        if *item == "~" {
            let _ = lines.pop();
        } else {
            let place = format!(in alloc; "{place}")?;
            let item = item.replace(alloc, "#", place.as_str())?;
            lines.push_str(text_of(alloc, item.as_str())?.as_str())?;
            lines.push('\n')?;
        }
    }
    Ok(lines)
}

/// The items of a cell as what comes over a link: `.` is an Idle, `*` a text that is no UTF-8, and `!` the link's end.
pub(crate) fn arrivals_of(alloc: Global, cell: &str) -> Result<VecDeque<Arrival>, Fail> {
    let mut arrivals = VecDeque::new(alloc);
    for item in &items(alloc, cell)? {
        match *item {
            "." => arrivals.push_back(Arrival::Idle)?,
            "*" => arrivals.push_back(Arrival::Text(vec![in alloc; 255u8; 1]?))?,
            "!" => {}
            item => {
                let text = text_of(alloc, item)?;
                let bytes = text.as_str().as_bytes().to_vec(alloc)?;
                arrivals.push_back(Arrival::Text(bytes))?;
            }
        }
    }
    Ok(arrivals)
}
