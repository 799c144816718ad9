//! What a client's wait for a message takes from a link, by a table, and what goes out for what the client says.
//!
//! A row has four cells: what comes, how many waits there are over one assembler, how they end, and how many arrivals are left. What
//! comes is texts and `.`, an Idle, or `.*n` for n of them; `PONG` is a whole message, and `*` stands for a byte that no text has.
use client_link::{Heard, LONGEST_REPLY, Saying, send_all, wait_for_message};
use link_texts::Join;
use room_link::memory_link::SteadyLink;
use room_link::passing::{Arrival, Outgoing};
use std::alloc::Global;
use std::collections::VecDeque;
use std::process::Abort;
use std::test::Fail;
use sync_msgs::ClientMessage;
use test_with_cases::{cells, rows};
use wire_msgs::{Message, read_client};
use wire_text::{Assembler, LONGEST_PART};

const WAITS: &str = r#"
PONG | 1 | {"type":"pong"} | 0
PONG PONG | 1 | {"type":"pong"} | 1
.*1199 PONG | 1 | {"type":"pong"} | 0
.*1200 PONG | 1 | IDLE | 1
.*1200 PONG | 2 | IDLE {"type":"pong"} | 0
.*1199 PONG .*1199 PONG | 2 | {"type":"pong"} {"type":"pong"} | 0
- | 2 | LOST LOST | 0
.*3 | 1 | LOST | 0
1_{"type": 0_"pong"} | 1 | {"type":"pong"} | 0
2_{"ty . 1_pe": . 0_"pong"} | 1 | {"type":"pong"} | 0
1_{"type": .*1200 0_"pong"} PONG | 2 | IDLE {"type":"pong"} | 1
1_{"type": .*600 0_"pong"} .*1199 PONG | 2 | {"type":"pong"} {"type":"pong"} | 0
1_{"type": | 1 | LOST | 0
1_{"type": PONG | 1 | Piece(OutOfTurn(0,-1)) | 0
2_{"type": 0_"pong"} PONG | 1 | Piece(OutOfTurn(1,0)) | 1
x PONG | 1 | Piece(BadPiece) | 1
* PONG | 1 | Piece(BadPiece) | 1
{"type":"ping"} | 1 | Message(UnknownType) | 0
{"type":"pong" | 1 | Message(Val(BadJson)) | 0
{"data":[]} | 1 | Message(UnknownType) | 0
{"type":"data"} | 1 | Message(MissingField) | 0
"#;

// What a word is that comes.
fn arrival_of(alloc: Global, word: &str) -> Result<Arrival, Fail> {
    Ok(match word {
        "." => Arrival::Idle,
        "*" => {
            let mut bytes = Vec::new(alloc);
            bytes.push(255u8)?;
            Arrival::Text(bytes)
        }
        "PONG" => Arrival::Text(r#"{"type":"pong"}"#.as_bytes().to_vec(alloc)?),
        _ => Arrival::Text(word.as_bytes().to_vec(alloc)?),
    })
}

// A link on which words come.
fn link_of(alloc: Global, words: &str) -> Result<SteadyLink, Fail> {
    let mut arrivals = VecDeque::new(alloc);
    for word in words.split_whitespace() {
        let (word, count) = word.split_once(".*").unwrap_or((word, "1"));
        let word = if word.is_empty() { "." } else { word };
        if word != "-" {
            add_arrivals(alloc, &mut arrivals, word, count.parse::<u64>()?)?;
        }
    }
    Ok(SteadyLink::new(alloc, arrivals))
}

// Adds so many of what a word says.
fn add_arrivals(
    alloc: Global,
    arrivals: &mut VecDeque<Arrival>,
    word: &str,
    count: u64,
) -> Result<(), Fail> {
    for _ in 0..count {
        arrivals.push_back(arrival_of(alloc, word)?)?;
    }
    Ok(())
}

// How a wait ended.
fn end_text(alloc: Global, heard: &Heard) -> Result<String, Fail> {
    Ok(match heard {
        Heard::Message(message) => String::from_utf8(message.print(alloc)?)?,
        Heard::Refused(fault) => {
            let text = format!(in alloc; "{fault:?}")?;
            text.as_str().replace(alloc, " ", "")?
        }
        Heard::Lost => String::from_str(alloc, "LOST")?,
        Heard::Idle => String::from_str(alloc, "IDLE")?,
    })
}

// What a row's waits come to, if that isn't what the row has.
fn difference(alloc: Global, row: &str) -> Result<Option<String>, Fail> {
    let [words, waits, wanted, left] = cells(row);
    let mut link = link_of(alloc, words)?;
    let mut assembler = Assembler::new(LONGEST_REPLY);
    let mut ends = String::new(alloc);
    for _ in 0..waits.parse::<u64>()? {
        let heard = wait_for_message(alloc, &mut link, &mut assembler)?;
        if !ends.is_empty() {
            ends.push_str(" ")?;
        }
        ends.push_str(end_text(alloc, &heard)?.as_str())?;
    }
    let rest = format!(in alloc; "{}", link.arrivals.len())?;
    if ends.as_str() == wanted && rest.as_str() == left {
        return Ok(None);
    }
    Ok(Some(format!(in alloc; "{ends} | {rest}")?))
}

#[test]
fn waits_for_messages(rt: HostRuntime) -> Result<(), Fail> {
    let alloc = rt.alloc();
    for row in rows(alloc, WAITS)? {
        let came = difference(alloc, row)?;
        assert!(&rt; came.is_none(), "{row}: {came:?}");
    }
    Ok(())
}

// A push whose presence has a text of so many bytes.
fn push_of(alloc: Global, bytes: usize) -> Result<ClientMessage, Fail> {
    let mut text = String::from_str(alloc, r#"{"clientClock":1,"presence":["put",{"name":""#)?;
    for _ in 0..bytes {
        text.push('a')?;
    }
    text.push_str(r#""}],"type":"push"}"#)?;
    Ok(read_client(alloc, text.as_str().as_bytes())?)
}

// Asserts that a text went out at a place, which begins so and has so many bytes.
fn went_out<R: Abort>(rt: &R, sent: &[Outgoing], place: usize, begin: &str, bytes: usize) {
    assert!(rt; place < sent.len());
    match &sent[place] {
        Outgoing::Text(text) => {
            assert!(rt; text.as_str().starts_with(begin));
            assert_eq!(rt; text.as_str().len(), bytes);
        }
        Outgoing::Close(_) => assert!(rt; false),
    }
}

#[test]
fn says_in_pieces(rt: HostRuntime) -> Result<(), Fail> {
    let alloc = rt.alloc();
    let mut link = SteadyLink::new(alloc, VecDeque::new(alloc));
    let join = Join {
        readonly: true,
        room: 3,
    };
    let mut sayings = Vec::new(alloc);
    sayings.push(Saying::Join(join))?;
    sayings.push(Saying::Message(ClientMessage::Ping))?;
    sayings.push(Saying::Message(push_of(alloc, LONGEST_PART)?))?;
    send_all(alloc, &mut link, sayings.as_slice())?;
    assert_eq!(&rt; link.sent.len(), 4);
    went_out(
        &rt,
        link.sent.as_slice(),
        0,
        r#"{"readonly":true,"room":3,"type":"join"}"#,
        40,
    );
    went_out(&rt, link.sent.as_slice(), 1, r#"{"type":"ping"}"#, 15);
    went_out(
        &rt,
        link.sent.as_slice(),
        2,
        r#"1_{"clientClock":1,"#,
        LONGEST_PART + 2,
    );
    went_out(&rt, link.sent.as_slice(), 3, "0_a", 64);
    Ok(())
}
