//! The playing of tables.
use crate::checks::fault_after;
use crate::operations::{both, change_text, many_text, read_text};
use crate::schemas::{doubled_name, id_text, patched_text, records_difference, weight_text};
use crate::versions::{board_raised, lower_and_raise, migrate_row, newest, since};
use std::alloc::Global;
use std::process::Abort;
use std::test::Fail;
use test_with_cases::rows;

/// What the rows of a table call.
#[derive(Clone, Copy)]
pub(crate) enum Call {
    /// An operation changes a record.
    Change,
    /// Two operations are done in turn.
    Both,
    /// A value is read as an operation.
    Operation,
    /// Many operations are read and printed.
    Many,
    /// A value is checked.
    Fit,
    /// The records of the table of records are admitted.
    Admit,
    /// A patched record is admitted.
    Patch,
    /// A record is looked at under an id.
    Id,
    /// A record of a weight is admitted.
    Weight,
    /// A schema of some types is built.
    Types,
    /// The newest versions of sequences.
    Newest,
    /// A record is raised and lowered.
    Migrate,
    /// A record is lowered and raised again.
    Round,
    /// Records are raised together.
    Board,
    /// What is held is planned for.
    Since,
}

/// Asserts that each row of a table gives what its last cell says.
pub(crate) fn plays(rt: &impl Abort, alloc: Global, call: Call, table: &str) -> Result<(), Fail> {
    if let Some(difference) = difference_in(alloc, call, table)? {
        assert_eq!(rt; difference.as_str(), "");
    }
    Ok(())
}

/// The first row of a table that gives something else, with what it gives.
fn difference_in(alloc: Global, call: Call, table: &str) -> Result<Option<String>, Fail> {
    for row in &rows(alloc, table)? {
        let (given, wanted) = row.rsplit_once(" | ").unwrap_or((row, ""));
        let found = answer(alloc, call, given)?;
        if found.as_str() != wanted {
            return Ok(Some(format!(in alloc; "{found} at {row}")?));
        }
    }
    Ok(None)
}

/// What a call gives.
fn answer(alloc: Global, call: Call, given: &str) -> Result<String, Fail> {
    match call {
        Call::Change => change_text(alloc, given),
        Call::Both => both(alloc, given),
        Call::Operation => read_text(alloc, given),
        Call::Many => many_text(alloc, given),
        Call::Fit => fault_after(alloc, given),
        Call::Admit => records_difference(alloc, given),
        Call::Patch => patched_text(alloc, given),
        Call::Id => id_text(alloc, given),
        Call::Weight => weight_text(alloc, given),
        Call::Types => doubled_name(alloc, given),
        Call::Newest => newest(alloc, given),
        Call::Migrate => migrate_row(alloc, given),
        Call::Round => lower_and_raise(alloc, given),
        Call::Board => board_raised(alloc, given),
        Call::Since => since(alloc, given),
    }
}
