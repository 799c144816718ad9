//! Tables of texts, each row with what is made of its text.
use crate::clients::client_text;
use crate::joins::join_text;
use crate::pieces::{all_given, cut_lengths};
use crate::refusals::nested_fault;
use crate::rooms::room_text;
use std::alloc::Global;
use std::process::Abort;
use std::test::Fail;
use test_with_cases::{cells, rows};

// What the texts of a table are read as.
#[derive(Clone, Copy)]
pub(crate) enum Reading {
    // Messages of clients.
    Client,
    // Messages of rooms.
    Room,
    // Joins.
    Join,
    // Depths of messages.
    Nested,
    // Pieces, parted by blanks.
    Fed,
    // Texts that are cut into pieces.
    Cut,
}

// What is made of a text.
fn answer(alloc: Global, reading: Reading, text: &str) -> Result<String, Fail> {
    match reading {
        Reading::Client => client_text(alloc, text),
        Reading::Room => room_text(alloc, text),
        Reading::Join => join_text(alloc, text),
        Reading::Nested => nested_fault(alloc, text),
        Reading::Fed => all_given(alloc, text),
        Reading::Cut => cut_lengths(alloc, text),
    }
}

// How what is made of a row's text differs from what stands before it. A row of one cell is made of itself.
fn difference(alloc: Global, reading: Reading, row: &str) -> Result<Option<String>, Fail> {
    let [wanted, written, ..] = cells(row);
    let text = if written.is_empty() { wanted } else { written };
    let found = answer(alloc, reading, text)?;
    if found.as_str() == wanted {
        return Ok(None);
    }
    Ok(Some(format!(in alloc; "at {text}: {found}, and not {wanted}")?))
}

// The first difference in a table.
fn difference_in(alloc: Global, reading: Reading, table: &str) -> Result<Option<String>, Fail> {
    for row in &rows(alloc, table)? {
        if let Some(found) = difference(alloc, reading, row)? {
            return Ok(Some(found));
        }
    }
    Ok(None)
}

// Asserts that each row of tables has what is made of its text.
pub(crate) fn plays(
    rt: &impl Abort,
    alloc: Global,
    reading: Reading,
    tables: &[&str],
) -> Result<(), Fail> {
    for table in tables {
        if let Some(found) = difference_in(alloc, reading, table)? {
            assert_eq!(rt; found.as_str(), "");
        }
    }
    Ok(())
}
