//! Scripts that a world answers as they say.
use std::alloc::Global;
use std::process::Abort;
use std::test::Fail;
use test_with_worlds::first_difference;

// The header of a recording of version 3.
pub(crate) const HEADER: &str = r#"{"recording":1,"version":3}"#;

// Two clients that are connected, and have a page and a shape.
pub(crate) const BASE: &str = r#"
client 3
client 3
open 0 0
open 1 1
edit 0 {"page:p":["put",$P],"shape:a":["put",$G(a,a0,0)]}
sync 0 0
get 1 1
"#;

// A script that is played in a world of its own.
#[derive(Drop)]
pub(crate) struct Script<'a> {
    // What it shows.
    pub(crate) shows: &'a str,
    // The header of the recording.
    pub(crate) header: &'a str,
    // Its parts, one after the other.
    pub(crate) parts: &'a [&'a str],
}

// Asserts that a new world answers each script as it says.
pub(crate) fn plays<'a>(
    rt: &impl Abort,
    alloc: Global,
    scripts: &'a [Script<'a>],
) -> Result<(), Fail> {
    for script in scripts {
        if let Some(difference) = first_difference(alloc, script.header, script.parts)? {
            assert_eq!(rt; difference.as_str(), "", "{}", script.shows);
        }
    }
    Ok(())
}
