//! Scripts that a room answers as they say.
use std::alloc::Global;
use std::process::Abort;
use std::test::Fail;
use test_with_rooms::first_difference;

// A script that is played in a room of its own.
pub(crate) struct Script<'a> {
    // What it shows.
    pub(crate) shows: &'a str,
    // The clock from which on the room refuses pushes.
    pub(crate) last: i64,
    // Its parts, one after the other.
    pub(crate) parts: &'a [&'a str],
}

// Asserts that a new room answers each script as it says.
pub(crate) fn plays<'a>(
    rt: &impl Abort,
    alloc: Global,
    scripts: &'a [Script<'a>],
) -> Result<(), Fail> {
    for script in scripts {
        if let Some(difference) = first_difference(alloc, script.last, script.parts)? {
            assert_eq!(rt; difference.as_str(), "", "{}", script.shows);
        }
    }
    Ok(())
}
