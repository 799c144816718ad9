//! Tables of lines, each row with what is made of its line.
use crate::ids::told_text;
use crate::limits::{cut_text, deep_text};
use crate::lines::line_text;
use crate::raises::raised_text;
use std::alloc::Global;
use std::process::Abort;
use std::test::Fail;
use test_with_cases::{cells, rows};

// What is made of the line of a row.
#[derive(Clone, Copy)]
pub(crate) enum Call {
    // It is read and printed again.
    Line,
    // So many levels are put into it, and it is read.
    Deep,
    // So many of its last bytes are cut off, and it is read.
    Cut,
    // Its first record at fault is told.
    BadId,
    // It is brought to the schema of a version.
    Raise,
}

// What is made of a row's line. The first cell is what is wanted, the second the line or a number.
fn answer(alloc: Global, call: Call, row: &[&str; 4]) -> Result<String, Fail> {
    let written = if row[1].is_empty() { row[0] } else { row[1] };
    match call {
        Call::Line => line_text(alloc, written),
        Call::Deep => deep_text(alloc, written.parse()?),
        Call::Cut => cut_text(alloc, written.parse()?),
        Call::BadId => told_text(alloc, written),
        Call::Raise => raised_text(alloc, row[2].parse()?, written),
    }
}

// The first difference in a table.
fn difference_in(alloc: Global, call: Call, table: &str) -> Result<Option<String>, Fail> {
    for row in &rows(alloc, table)? {
        let row = cells(row);
        let found = answer(alloc, call, &row)?;
        if found.as_str() != row[0] {
            let wanted = row[0];
            let written = row[1];
            return Ok(Some(format!(in alloc; "at {written}: {found}, and not {wanted}")?));
        }
    }
    Ok(None)
}

// Asserts that each row of a table has what is made of its line.
pub(crate) fn plays(rt: &impl Abort, alloc: Global, call: Call, table: &str) -> Result<(), Fail> {
    if let Some(found) = difference_in(alloc, call, table)? {
        assert_eq!(rt; found.as_str(), "");
    }
    Ok(())
}
