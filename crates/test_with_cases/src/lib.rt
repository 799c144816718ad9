//! Tables of cases as text, for the crates of tests: their rows, the cells of a row, and values by their texts.
//!
//! A table is one text, so that a test which goes over it is proved as fast as one of a single case. The crate stands on
//! `rooms_val` for values, and says nothing in contracts: what it answers is looked at where the tests are run.
#![tactic(auto)]

use rooms_val::Val;
use std::alloc::Global;
use std::test::Fail;

/// The rows of a table: its lines, but for the empty ones and those that begin with `#`.
///
/// # Errors
/// Where memory is refused.
pub fn rows(alloc: Global, table: &str) -> Result<Vec<&str>, Fail> {
    let mut rows = Vec::new(alloc);
    for line in table.lines() {
        if !line.is_empty() && !line.starts_with('#') {
            rows.push(line)?;
        }
    }
    Ok(rows)
}

/// The four cells of a row, which are parted by ` | `. Those that it doesn't have are empty.
pub fn cells(row: &str) -> [&str; 4] {
    let mut found = [""; 4];
    let mut rest = row.split(" | ");
    for place in 0..4usize {
        if let Some(text) = rest.next() {
            found[place] = text;
        }
    }
    found
}

/// The value of a text that is one.
///
/// # Errors
/// The fault of a text that is none, and where memory is refused.
pub fn value(alloc: Global, text: &str) -> Result<Val, Fail> {
    Ok(Val::read(alloc, text.as_bytes())?)
}

/// The compact text of a value.
///
/// # Errors
/// Where memory is refused.
pub fn val_text(alloc: Global, val: &Val) -> Result<String, Fail> {
    Ok(String::from_utf8(val.print(alloc)?)?)
}
