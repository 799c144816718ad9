//! Tables of texts, each row with what is made of its text.
use crate::messages::{client_copy, out_copy};
use crate::printed::line_text;
use crate::recordings::{event_text, header_text, sized_text};
use crate::views::{query_text, view_text};
use std::alloc::Global;
use std::process::Abort;
use std::test::Fail;
use test_with_cases::{cells, rows};

// What the texts of a table are read as.
#[derive(Clone, Copy)]
pub(crate) enum Reading {
    // Lines of events.
    Event,
    // Lines of headers.
    Header,
    // Sizes of lines.
    Sized,
    // What printed lines say.
    Printed,
    // Values of views.
    View,
    // Values of queries.
    Query,
    // Messages of clients that are copied.
    ClientCopy,
    // What rooms send, copied.
    OutCopy,
}

// What is made of a text.
fn answer(alloc: Global, reading: Reading, text: &str) -> Result<String, Fail> {
    match reading {
        Reading::Event => event_text(alloc, text),
        Reading::Header => header_text(alloc, text),
        Reading::Sized => sized_text(alloc, text),
        Reading::Printed => line_text(alloc, text),
        Reading::View => view_text(alloc, text),
        Reading::Query => query_text(alloc, text),
        Reading::ClientCopy => client_copy(alloc, text),
        Reading::OutCopy => out_copy(alloc, text),
    }
}

// How what is made of a row's text differs from what stands before it. A row of one cell is made of itself.
fn difference(alloc: Global, reading: Reading, row: &str) -> Result<Option<String>, Fail> {
    let [wanted, written, ..] = cells(row);
    let text = if written.is_empty() { wanted } else { written };
    let found = answer(alloc, reading, text)?;
    if found.as_str() == wanted {
        return Ok(None);
    }
    Ok(Some(format!(in alloc; "at {text}: {found}, and not {wanted}")?))
}

// The first difference in a table.
fn difference_in(alloc: Global, reading: Reading, table: &str) -> Result<Option<String>, Fail> {
    for row in &rows(alloc, table)? {
        if let Some(found) = difference(alloc, reading, row)? {
            return Ok(Some(found));
        }
    }
    Ok(None)
}

// Asserts that each row of tables has what is made of its text.
pub(crate) fn plays(
    rt: &impl Abort,
    alloc: Global,
    reading: Reading,
    tables: &[&str],
) -> Result<(), Fail> {
    for table in tables {
        if let Some(found) = difference_in(alloc, reading, table)? {
            assert_eq!(rt; found.as_str(), "");
        }
    }
    Ok(())
}
