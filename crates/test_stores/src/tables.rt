//! Tables of texts, each row with what is made of its text.
use crate::clips::{counts_text, paste_text};
use crate::edits::{edit_text, removes_text};
use crate::shapes::{joined_text, levels_text, met_text, moved_text, own_text, tree_text};
use crate::stores::{aborted_text, applied_text, nested_text};
use std::alloc::Global;
use std::process::Abort;
use std::test::Fail;
use test_with_cases::{cells, rows};

// What the texts of a table are read as.
#[derive(Clone, Copy)]
pub(crate) enum Reading {
    // Diffs that are applied to two shapes.
    Applied,
    // Diffs that are applied in a transaction that is aborted.
    Aborted,
    // Counts of transactions.
    Nested,
    // Edits of two assets.
    Edit,
    // Counts of removes.
    Removes,
    // Shapes, of which the boxes are wanted.
    Own,
    // Two boxes.
    Joined,
    // A box and a record that moves it.
    Moved,
    // A parent and records.
    Tree,
    // Counts of levels.
    Levels,
    // Records, of which each meets a query or not.
    Met,
    // Documents, what is copied of one, and where it is pasted.
    Paste,
    // Counts of shapes that are copied.
    Counts,
}

// What is made of a text.
fn answer(alloc: Global, reading: Reading, text: &str) -> Result<String, Fail> {
    match reading {
        Reading::Applied => applied_text(alloc, text),
        Reading::Aborted => aborted_text(alloc, text),
        Reading::Nested => nested_text(alloc, text),
        Reading::Edit => edit_text(alloc, text),
        Reading::Removes => removes_text(alloc, text),
        Reading::Own => own_text(alloc, text),
        Reading::Joined => joined_text(alloc, text),
        Reading::Moved => moved_text(alloc, text),
        Reading::Tree => tree_text(alloc, text),
        Reading::Levels => levels_text(alloc, text),
        Reading::Met => met_text(alloc, text),
        Reading::Paste => paste_text(alloc, text),
        Reading::Counts => counts_text(alloc, text),
    }
}

// How what is made of a row's text differs from what stands behind it.
fn difference(alloc: Global, reading: Reading, row: &str) -> Result<Option<String>, Fail> {
    let [text, wanted, ..] = cells(row);
    let found = answer(alloc, reading, text)?;
    if found.as_str() == wanted {
        return Ok(None);
    }
    Ok(Some(format!(in alloc; "at {text}: {found}, and not {wanted}")?))
}

// The first difference in a table.
fn first_difference(alloc: Global, reading: Reading, table: &str) -> Result<Option<String>, Fail> {
    for row in &rows(alloc, table)? {
        if let Some(found) = difference(alloc, reading, row)? {
            return Ok(Some(found));
        }
    }
    Ok(None)
}

// Asserts that each row of a table has what is made of its text.
pub(crate) fn plays(
    rt: &impl Abort,
    alloc: Global,
    reading: Reading,
    table: &str,
) -> Result<(), Fail> {
    if let Some(difference) = first_difference(alloc, reading, table)? {
        assert_eq!(rt; difference.as_str(), "");
    }
    Ok(())
}
