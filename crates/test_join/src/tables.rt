//! Tables of scripts.
//!
//! A row has four cells: the script, what comes over its link, what is written, and how the script ends, with what goes out behind `: `.
//! The room has the number 0, or N where the script begins with `@N; `.
use crate::calls::{outcome, play_script};
use crate::texts::lines_of;
use std::alloc::Global;
use std::process::Abort;
use std::test::Fail;
use test_with_cases::{cells, rows};

/// How many bytes are read and written at once.
const PART: usize = 7;

/// The number of a script's room, and the script.
fn in_room(script: &str) -> (&str, &str) {
    match script.strip_prefix('@') {
        Some(rest) => rest.split_once("; ").unwrap_or((rest, "-")),
        None => ("0", script),
    }
}

/// The outcome of a row's script, and the one that the row has.
fn outcomes(alloc: Global, row: &str) -> Result<(String, String), Fail> {
    let [script, comes, written, ended] = cells(row);
    let (room, script) = in_room(script);
    let room = room.parse::<u32>()?;
    let script = lines_of(alloc, script)?;
    let found = play_script(alloc, room, script.as_str(), comes, PART, None)?;
    let (end, sent) = ended.split_once(": ").unwrap_or((ended, "-"));
    let sent = lines_of(alloc, sent)?;
    let written = lines_of(alloc, written)?;
    let wanted = outcome(alloc, end, sent.as_str(), written.as_str())?;
    Ok((found, wanted))
}

/// Asserts that each script of a table has its row's outcome.
pub(crate) fn plays(rt: &impl Abort, alloc: Global, table: &str) -> Result<(), Fail> {
    for row in &rows(alloc, table)? {
        let (found, wanted) = outcomes(alloc, row)?;
        assert_eq!(rt; found.as_str(), wanted.as_str(), "{row}");
    }
    Ok(())
}
