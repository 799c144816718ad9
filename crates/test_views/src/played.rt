//! Scripts that a store answers as they say.
use std::alloc::Global;
use std::process::Abort;
use std::test::Fail;
use test_with_stores::first_difference;

// A page and 100 shapes: on the page the frames `f0` to `f9` of 100 by 50, each 100 below the one before, and in the frame `f1` the
// geo shapes `s11` to `s19` of 10 by 10, the first at 100, 10 and each 100 to the right of the one before; so in each other frame.
pub(crate) const GRID: &str = r#"
page p
frame f0 a0 page:p 0 0
each 1 9 frame f@ a@ page:p 0 @00
each 1 9 geo s0@ a@ shape:f0 @00 10
each 1 9 geo s1@ a@ shape:f1 @00 10
each 1 9 geo s2@ a@ shape:f2 @00 10
each 1 9 geo s3@ a@ shape:f3 @00 10
each 1 9 geo s4@ a@ shape:f4 @00 10
each 1 9 geo s5@ a@ shape:f5 @00 10
each 1 9 geo s6@ a@ shape:f6 @00 10
each 1 9 geo s7@ a@ shape:f7 @00 10
each 1 9 geo s8@ a@ shape:f8 @00 10
each 1 9 geo s9@ a@ shape:f9 @00 10
"#;

// A script that is played in a store of its own.
pub(crate) struct Script<'a> {
    // What it shows.
    pub(crate) shows: &'a str,
    // Its parts, one after the other.
    pub(crate) parts: &'a [&'a str],
}

// Asserts that a new store answers each script as it says.
pub(crate) fn plays<'a>(
    rt: &impl Abort,
    alloc: Global,
    scripts: &'a [Script<'a>],
) -> Result<(), Fail> {
    for script in scripts {
        if let Some(difference) = first_difference(alloc, script.parts)? {
            assert_eq!(rt; difference.as_str(), "", "{}", script.shows);
        }
    }
    Ok(())
}
