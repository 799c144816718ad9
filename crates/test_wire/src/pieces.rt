//! Long texts cut into pieces, and pieces put together.
use crate::tables::{Reading, plays};
use rooms_val::{Mem, Text};
use std::alloc::Global;
use std::test::Fail;
use wire_text::{Assembler, PieceFault, pieces};

// Pieces that are fed one after another within 20 bytes, behind what each gives: `-` for none, a text after `=`.
const FEEDS: &str = r#"
- ={"type":"ping"} | 1_{"type": 0_"ping"}
={"type":"ping"} ={} | {"type":"ping"} {}
- - =ab =c | 2_a 1_b 0_ 0_c
# What is no piece.
BadPiece | x
BadPiece | _a
BadPiece | 1
BadPiece | +1_a
BadPiece | -1_a
BadPiece | 01_a
BadPiece | 00_a
BadPiece | 1000000_a
- | 999999_a
=a_b | 0_a_b
# Counts out of turn, after which nothing is left.
- OutOfTurn(0, 3) =c | 1_a 3_b 0_c
- OutOfTurn(0, 1) | 1_a 1_b
- OutOfTurn(4, 3) | 5_a 3_b
- OutOfTurn(0, -1) ={} | 1_a {} {}
- BadPiece =b | 1_a x 0_b
# Texts at the limit, and one byte above.
={2345678901234567890 | {2345678901234567890
TooLong | {23456789012345678901
- =01234567890123456789 | 1_0123456789 0_0123456789
- TooLong =a | 1_0123456789 0_01234567890 0_a
TooLong =a | 1_012345678901234567890 0_a
# The first of two faults.
- BadPiece | 1_a 03_b
- OutOfTurn(1, 5) | 2_a 5_012345678901234567890
"#;

// How many `{` a text has and its end, behind the lengths of its pieces.
const CUTS: &str = r#"
2 | 1 }
262144 | 262144
262146 3 | 262145
262145 4 | 262143 é
262144 5 | 262142 €
262143 6 | 262141 😀
262144 | 262142 é
262146 262146 3 | 524289
"#;

// What a piece gives, as the table writes it.
fn answer_text(alloc: Global, answer: &Result<Option<Text>, PieceFault>) -> Result<String, Fail> {
    Ok(match answer {
        Ok(None) => String::from_str(alloc, "-")?,
        Ok(Some(text)) => format!(in alloc; "={}", text.as_str())?,
        Err(fault) => format!(in alloc; "{fault:?}")?,
    })
}

// Adds a text behind a blank.
fn add(all: &mut String, text: &str) -> Mem<()> {
    if !all.is_empty() {
        all.push_str(" ")?;
    }
    Ok(all.push_str(text)?)
}

// What the pieces of a row give, one after another.
pub(crate) fn all_given(alloc: Global, fed: &str) -> Result<String, Fail> {
    let mut assembler = Assembler::new(20);
    let mut all = String::new(alloc);
    for piece in fed.split(" ") {
        let answer = assembler.feed(alloc, piece);
        add(&mut all, answer_text(alloc, &answer)?.as_str())?;
    }
    Ok(all)
}

// The lengths of the pieces of a text. They are put together to the text again, and are too long for one byte fewer.
pub(crate) fn cut_lengths(alloc: Global, row: &str) -> Result<String, Fail> {
    let (count, end) = row.split_once(' ').unwrap_or((row, ""));
    let text = text_of(alloc, count.parse::<u32>()?, end)?;
    let cut = pieces(alloc, text.as_str())?;
    let whole = format!(in alloc; "={text}")?;
    gives(alloc, text.len(), &cut, whole.as_str())?;
    gives(alloc, text.len().saturating_sub(1), &cut, "TooLong")?;
    lengths(alloc, &cut)
}

// A text of so many `{` and this end.
fn text_of(alloc: Global, count: u32, end: &str) -> Result<String, Fail> {
    let mut text = String::new(alloc);
    for _ in 0..count {
        text.push_str("{")?;
    }
    text.push_str(end)?;
    Ok(text)
}

// The lengths of pieces.
fn lengths(alloc: Global, pieces: &[Text]) -> Result<String, Fail> {
    let mut all = String::new(alloc);
    for piece in pieces {
        let length = format!(in alloc; "{}", piece.as_str().len())?;
        add(&mut all, length.as_str())?;
    }
    Ok(all)
}

// Refuses other than this for the last of the pieces.
fn gives(alloc: Global, limit: usize, pieces: &[Text], wanted: &str) -> Result<(), Fail> {
    let last = put_together(alloc, limit, pieces)?;
    if last.as_str() != wanted {
        return Err(Fail::from("the pieces give another text"));
    }
    Ok(())
}

// What an assembler gives for the last of the pieces.
fn put_together(alloc: Global, limit: usize, pieces: &[Text]) -> Result<String, Fail> {
    let mut assembler = Assembler::new(limit);
    let mut last = String::new(alloc);
    for piece in pieces {
        let answer = assembler.feed(alloc, piece.as_str());
        last = answer_text(alloc, &answer)?;
    }
    Ok(last)
}

#[test]
fn gives_texts_of_pieces_in_turn(rt: HostRuntime) -> Result<(), Fail> {
    plays(&rt, rt.alloc(), Reading::Fed, &[FEEDS])
}

#[test]
fn cuts_long_texts_between_characters(rt: HostRuntime) -> Result<(), Fail> {
    plays(&rt, rt.alloc(), Reading::Cut, &[CUTS])
}
