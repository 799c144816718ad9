//! The playing of tables.
use crate::calls::{keep_text, weigh_copy};
use crate::keys::{beside_heads, check_key, one_between, order_of_keys, several_between};
use crate::scripts::script_difference;
use crate::values::{read_repeated, read_text};
use std::alloc::Global;
use std::process::Abort;
use std::test::Fail;
use test_with_cases::rows;

/// What the rows of a table call.
#[derive(Clone, Copy)]
pub(crate) enum Call {
    /// A text is checked as a key.
    Check,
    /// The key between two ends.
    Between,
    /// Several keys between two ends.
    Several,
    /// The keys beside those of a row.
    Heads,
    /// Keys that are put one after the other.
    Places,
    /// A text is read.
    Read,
    /// A text of parts is read.
    ReadRepeated,
    /// A value is copied.
    Copy,
    /// A text of parts is kept.
    Keep,
    /// The rows are the steps of one script.
    Script,
}

/// Asserts that each row of a table gives what its last cell says.
pub(crate) fn plays(rt: &impl Abort, alloc: Global, call: Call, table: &str) -> Result<(), Fail> {
    if let Some(difference) = difference_in(alloc, call, table)? {
        assert_eq!(rt; difference.as_str(), "");
    }
    Ok(())
}

// The first row of a table that gives something else, with what it gives.
fn difference_in(alloc: Global, call: Call, table: &str) -> Result<Option<String>, Fail> {
    if let Call::Script = call {
        return script_difference(alloc, table);
    }
    for row in &rows(alloc, table)? {
        let (given, wanted) = row.rsplit_once(" | ").unwrap_or((row, ""));
        let found = answer(alloc, call, given)?;
        if let Some(difference) = differs(alloc, row, found.as_str(), wanted)? {
            return Ok(Some(difference));
        }
    }
    Ok(None)
}

/// How what a row gives differs from what is wanted.
pub(crate) fn differs(
    alloc: Global,
    row: &str,
    found: &str,
    wanted: &str,
) -> Result<Option<String>, Fail> {
    if found == wanted {
        return Ok(None);
    }
    Ok(Some(format!(in alloc; "{found} at {row}")?))
}

// What a call gives.
fn answer(alloc: Global, call: Call, given: &str) -> Result<String, Fail> {
    match call {
        Call::Check => check_key(alloc, given),
        Call::Between => one_between(alloc, given),
        Call::Several => several_between(alloc, given),
        Call::Heads => beside_heads(alloc, given),
        Call::Places => order_of_keys(alloc, given),
        Call::Read => read_text(alloc, given.as_bytes()),
        Call::ReadRepeated => read_repeated(alloc, given),
        Call::Copy => weigh_copy(alloc, given),
        Call::Keep => keep_text(alloc, given),
        Call::Script => Err(Fail::from("a script was not wanted")),
    }
}

/// The text of parts that blanks part, where `n*` stands before a part that is there n times.
pub(crate) fn text_of_parts(alloc: Global, parts: &str) -> Result<String, Fail> {
    let mut text = String::new(alloc);
    for part in parts.split(' ') {
        add_repeated(&mut text, part)?;
    }
    Ok(text)
}

// Adds a part as often as it says.
fn add_repeated(text: &mut String, part: &str) -> Result<(), Fail> {
    let (count, part) = part.split_once('*').unwrap_or(("1", part));
    for _ in 0..count.parse::<u32>()? {
        text.push_str(part)?;
    }
    Ok(())
}
