//! A script of which each call on its source, its sink and its link fails in turn.
use crate::calls::{Kind, outcome, play_script};
use crate::texts::{items, lines_of};
use std::alloc::Global;
use std::process::Abort;
use std::test::Fail;
use test_with_cases::{cells, rows};

/// How many bytes are read and written at once.
const PART: usize = 16;

/// How many calls of a kind are tried at most.
const MOST_CALLS: u64 = 1_000;

/// A script line by line: the line, what it takes from the link, what is written for it, and what goes out.
const SCRIPT: &str = r#"
H | - | - | JOIN; ASK
WATCH {"count":"page:p"} | - | TOLD 0 0 | -
BOARD | - | TOLD 1 0 | -
PRESENCE $R(me,Ann) | - | - | -
DELIVER | .; 1_{"connectRequestId":"0","diff":{},"hydrationType":"wipe_all","isReadonly":false,; .; 0_"protocolVersion":2,"schema":{"schemaVersion":2,"sequences":{}},"serverClock":0,"type":"connect"} | - | PUSH 1 {"page:p":["put",$P],"shape:a":["put",$G(a,a0,0)]}; PRESENT 2 $R(me,Ann)
MARK m | - | - | -
X 1 | - | - | PUSH 3 {"shape:a":["patch",{"x":["put",1]}]}
BLANK | - | - | -
UNDO | - | UNDONE true | PUSH 4 {"shape:a":["patch",{"x":["put",0]}]}
DELIVER | {"data":[{"action":"commit","clientClock":1,"serverClock":1,"type":"push_result"},{"diff":{"shape:b":["put",$G(b,a1,0)]},"serverClock":2,"type":"patch"}],"type":"data"} | TOLD 2 0 | -
EDIT {"shape:b":["remove"]} | - | TOLD 1 0 | PUSH 5 {"shape:b":["remove"]}
SHOW | - | SHOWN 2 {"page:p":$P,"shape:a":$G(a,a0,0)} {} 4 | -
DELIVER | ! | LOST | -
EDIT {"shape:a":["remove"]} | - | TOLD 0 0 | -
END | - | ENDED 2 4 | -
"#;

/// A call: its kind, and what it adds to what goes out or to what is written.
type Call = (Kind, String);

/// Adds a call for each part of a text that is written.
fn add_writes(alloc: Global, calls: &mut Vec<Call>, text: &str) -> Result<(), Fail> {
    for part in text.as_bytes().chunks(PART) {
        calls.push((Kind::Write, String::from_utf8(part.to_vec(alloc)?)?))?;
    }
    Ok(())
}

/// The calls of a script, as if each byte were read by a call of its own.
fn calls_of(alloc: Global, rows: &[&str]) -> Result<Vec<Call>, Fail> {
    let mut calls = Vec::new(alloc);
    for row in rows {
        let [line, comes, written, sent] = cells(row);
        for _ in lines_of(alloc, line)?.as_str().as_bytes() {
            calls.push((Kind::Read, String::new(alloc)))?;
        }
        for _ in &items(alloc, comes)? {
            calls.push((Kind::Link, String::new(alloc)))?;
        }
        for item in &items(alloc, sent)? {
            calls.push((Kind::Link, lines_of(alloc, item)?))?;
        }
        add_writes(alloc, &mut calls, lines_of(alloc, written)?.as_str())?;
    }
    Ok(calls)
}

/// The outcome where the call of this kind and number fails, and whether there is one.
fn cut_off(alloc: Global, calls: &[Call], kind: Kind, number: u64) -> Result<(String, bool), Fail> {
    let mut sent = String::new(alloc);
    let mut written = String::new(alloc);
    let mut before = 0u64;
    for (of, adds) in calls {
        if *of == kind {
            if before == number {
                let end = format!(in alloc; "{kind:?}")?;
                let all = outcome(alloc, end.as_str(), sent.as_str(), written.as_str())?;
                return Ok((all, true));
            }
            before = before.saturating_add(1);
        }
        match of {
            Kind::Read => {}
            Kind::Write => written.push_str(adds.as_str())?,
            Kind::Link => sent.push_str(adds.as_str())?,
        }
    }
    let all = outcome(alloc, "Done", sent.as_str(), written.as_str())?;
    Ok((all, false))
}

/// The first or the second cells of rows, as one cell.
fn column(alloc: Global, rows: &[&str], is_second: bool) -> Result<String, Fail> {
    let mut column = String::from_str(alloc, "-")?;
    for row in rows {
        let [first, second, ..] = cells(row);
        column.push_str("; ")?;
        column.push_str(if is_second { second } else { first })?;
    }
    Ok(column)
}

/// Asserts that the script has the outcome wanted, where the calls of a kind fail in turn.
fn fails_in_turn(rt: &impl Abort, alloc: Global, kind: Kind) -> Result<(), Fail> {
    let rows = rows(alloc, SCRIPT)?;
    let calls = calls_of(alloc, &rows)?;
    let script = lines_of(alloc, column(alloc, &rows, false)?.as_str())?;
    let comes = column(alloc, &rows, true)?;
    let bytes = if kind == Kind::Read { PART as u64 } else { 1 };
    for number in 0..MOST_CALLS {
        let (wanted, fails) = cut_off(alloc, &calls, kind, number.saturating_mul(bytes))?;
        let failing = Some((kind, number));
        let found = play_script(alloc, 0, script.as_str(), comes.as_str(), PART, failing)?;
        assert_eq!(rt;
            found.as_str(),
            wanted.as_str(),
            "where call {number} fails"
        );
        if !fails {
            return Ok(());
        }
    }
    Err(Fail::from("there are more calls than were tried"))
}

#[test]
fn ends_at_a_read_that_fails(rt: HostRuntime) -> Result<(), Fail> {
    fails_in_turn(&rt, rt.alloc(), Kind::Read)
}

#[test]
fn ends_at_a_write_that_fails_behind_what_goes_out(rt: HostRuntime) -> Result<(), Fail> {
    fails_in_turn(&rt, rt.alloc(), Kind::Write)
}

#[test]
fn ends_at_a_call_of_its_link_that_fails(rt: HostRuntime) -> Result<(), Fail> {
    fails_in_turn(&rt, rt.alloc(), Kind::Link)
}
