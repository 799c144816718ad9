//! The texts of words.
use std::alloc::Global;
use std::test::Fail;
use test_with_boards::board_text;

// The most bytes of a text that is written out.
const LONGEST_SHOWN: usize = 1_000;

// The text of a short name, or the word itself.
fn named_text(word: &str) -> &str {
    match word {
        "join" => r#"{"readonly":false,"room":0,"type":"join"}"#,
        "connect" => {
            r#"{"connectRequestId":"0","lastServerClock":-1,"protocolVersion":2,"schema":{"schemaVersion":2,"sequences":{"rooms.base":1,"rooms.binding":1,"rooms.shape":2}},"type":"connect"}"#
        }
        "newer" => {
            r#"{"connectRequestId":"0","lastServerClock":-1,"protocolVersion":3,"schema":{"schemaVersion":2,"sequences":{"rooms.base":1,"rooms.binding":1,"rooms.shape":2}},"type":"connect"}"#
        }
        "older" => {
            r#"{"connectRequestId":"0","lastServerClock":-1,"protocolVersion":1,"schema":{"schemaVersion":2,"sequences":{"rooms.base":1,"rooms.binding":1,"rooms.shape":2}},"type":"connect"}"#
        }
        "push" => {
            r#"{"clientClock":1,"diff":{"page:p":["put",$P],"shape:a":["put",$G(a,a0,0)]},"type":"push"}"#
        }
        "ping" => r#"{"type":"ping"}"#,
        _ => named_reply(word),
    }
}

// The same of what a room gives: answers to a connect at clock 0, to one who only reads, and at clock 1; the result of the push, and
// what others are told of it.
fn named_reply(word: &str) -> &str {
    match word {
        "answer" => {
            r#"{"connectRequestId":"0","diff":{},"hydrationType":"wipe_all","isReadonly":false,"protocolVersion":2,"schema":{"schemaVersion":2,"sequences":{"rooms.base":1,"rooms.binding":1,"rooms.shape":2}},"serverClock":0,"type":"connect"}"#
        }
        "answer-readonly" => {
            r#"{"connectRequestId":"0","diff":{},"hydrationType":"wipe_all","isReadonly":true,"protocolVersion":2,"schema":{"schemaVersion":2,"sequences":{"rooms.base":1,"rooms.binding":1,"rooms.shape":2}},"serverClock":0,"type":"connect"}"#
        }
        "later" => {
            r#"{"connectRequestId":"0","diff":{"page:p":["put",$P],"shape:a":["put",$G(a,a0,0)]},"hydrationType":"wipe_all","isReadonly":false,"protocolVersion":2,"schema":{"schemaVersion":2,"sequences":{"rooms.base":1,"rooms.binding":1,"rooms.shape":2}},"serverClock":1,"type":"connect"}"#
        }
        "commit" => {
            r#"{"data":[{"action":"commit","clientClock":1,"serverClock":1,"type":"push_result"}],"type":"data"}"#
        }
        "patch" => {
            r#"{"data":[{"diff":{"page:p":["put",$P],"shape:a":["put",$G(a,a0,0)]},"serverClock":1,"type":"patch"}],"type":"data"}"#
        }
        "pong" => r#"{"type":"pong"}"#,
        _ => word,
    }
}

// The text that a word stands for.
pub(crate) fn text_of(alloc: Global, word: &str) -> Result<String, Fail> {
    let text = board_text(alloc, named_text(word))?;
    let text = with_parts(alloc, text.as_str())?;
    with_blanks(alloc, text.as_str())
}

// A text in which `^n^part^` is n parts.
fn with_parts(alloc: Global, text: &str) -> Result<String, Fail> {
    let (front, rest) = text.split_once('^').unwrap_or((text, ""));
    let (count, rest) = rest.split_once('^').unwrap_or(("0", rest));
    let (part, rest) = rest.split_once('^').unwrap_or(("", rest));
    let mut out = String::from_str(alloc, front)?;
    for place in 0..count.parse::<u64>()? {
        if 0 < place {
            out.push_str(",")?;
        }
        let place = format!(in alloc; "{place}")?;
        add_at(&mut out, part, place.as_str())?;
    }
    out.push_str(rest)?;
    Ok(out)
}

// Adds a part, with a number for each `@`.
fn add_at(out: &mut String, part: &str, place: &str) -> Result<(), Fail> {
    let mut texts = part.split('@');
    out.push_str(texts.next().unwrap_or(""))?;
    for text in texts {
        out.push_str(place)?;
        out.push_str(text)?;
    }
    Ok(())
}

// A text in which `~n~` is n blanks.
fn with_blanks(alloc: Global, text: &str) -> Result<String, Fail> {
    let mut out = String::new(alloc);
    let mut is_count = false;
    for part in text.split('~') {
        if is_count {
            add_blanks(&mut out, part.parse::<u64>()?)?;
        } else {
            out.push_str(part)?;
        }
        is_count = !is_count;
    }
    Ok(out)
}

// Adds so many blanks.
fn add_blanks(out: &mut String, count: u64) -> Result<(), Fail> {
    for _ in 0..count / 16 {
        out.push_str("                ")?;
    }
    for _ in 0..count % 16 {
        out.push(' ')?;
    }
    Ok(())
}

// The bytes of the text that a word stands for, in which `*` is a byte that no text in UTF-8 has.
pub(crate) fn bytes_of(alloc: Global, word: &str) -> Result<Vec<u8>, Fail> {
    match word.split_once('*') {
        None => Ok(text_of(alloc, word)?.into_bytes()),
        Some((front, rest)) => {
            let mut bytes = text_of(alloc, front)?.into_bytes();
            bytes.push(255)?;
            bytes.extend_from_slice(text_of(alloc, rest)?.as_str().as_bytes())?;
            Ok(bytes)
        }
    }
}

// Adds a text behind a blank.
pub(crate) fn add(words: &mut String, text: &str) -> Result<(), Fail> {
    if !words.is_empty() {
        words.push(' ')?;
    }
    words.push_str(text)?;
    Ok(())
}

// Adds a text behind a blank, or its length if it is long.
pub(crate) fn add_shown(alloc: Global, words: &mut String, text: &str) -> Result<(), Fail> {
    if text.len() <= LONGEST_SHOWN {
        return add(words, text);
    }
    let length = format!(in alloc; "({})", text.len())?;
    add(words, length.as_str())
}

/// What is wanted, with its short names written out.
///
/// # Errors
/// A name that is none, and where memory is refused.
pub fn spell_out(alloc: Global, wanted: &str) -> Result<String, Fail> {
    let mut words = String::new(alloc);
    for word in wanted.split_whitespace() {
        match word.strip_prefix("enters=") {
            Some(count) => add_enters(alloc, &mut words, count.parse::<u64>()?)?,
            None => add(&mut words, text_of(alloc, word)?.as_str())?,
        }
    }
    Ok(words)
}

// Adds that the first so many sessions enter.
fn add_enters(alloc: Global, words: &mut String, count: u64) -> Result<(), Fail> {
    for number in 0..count {
        let text = format!(in alloc; "enter {number}")?;
        add(words, text.as_str())?;
    }
    Ok(())
}
