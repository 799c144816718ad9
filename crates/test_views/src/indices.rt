//! Queries with an index of the shapes' x beside the same without.
//!
//! What the steps of scripts are, `test_with_stores` tells.
use crate::played::{GRID, Script, plays};
use std::test::Fail;

// A grid of which the index has all values.
const REFRESHED: &str = r#"
since | never
refresh
since | 0
"#;

// Queries that the index answers alone, in part, and not at all.
const ANSWERS: &str = r#"
find shape x=500 | s05 s15 s25 s35 s45 s55 s65 s75 s85 s95
find shape x>800 | s09 s19 s29 s39 s49 s59 s69 s79 s89 s99
find shape x=0 | f0 f1 f2 f3 f4 f5 f6 f7 f8 f9
find shape x=5
find shape x>900
find shape parentId="shape:f3" x>600 and:2 | s37 s38 s39
find shape x=500 y!10 and:2
find shape x=100 parentId="shape:f3" or:2 | s01 s11 s21 s31 s32 s33 s34 s35 s36 s37 s38 s39 s41 s51 s61 s71 s81 s91
find shape x!100 not:1 | s01 s11 s21 s31 s41 s51 s61 s71 s81 s91
find shape type="frame" | f0 f1 f2 f3 f4 f5 f6 f7 f8 f9
find page typeName="page" | page:p
find page x=500
"#;

// Three writes are told the index one by one.
const DIFFERENCES: &str = r#"
set shape:s01 x 500
set shape:s02 x 7
set shape:s05 x -1
since | 3
refresh
since | 0
find shape x=500 | s01 s15 s25 s35 s45 s55 s65 s75 s85 s95
query shape x=500 | s01 s15 s25 s35 s45 s55 s65 s75 s85 s95
find shape x=7 | s02
query shape x=7 | s02
find shape x>0 not:1 | f0 f1 f2 f3 f4 f5 f6 f7 f8 f9 s05
query shape x>0 not:1 | f0 f1 f2 f3 f4 f5 f6 f7 f8 f9 s05
# One that changes nothing isn't told; one that takes a shape away is told with the list of its frame.
set shape:s02 x 7
since | 0
take shape:s15
since | 2
refresh
find shape x=500 | s01 s25 s35 s45 s55 s65 s75 s85 s95
query shape x=500 | s01 s25 s35 s45 s55 s65 s75 s85 s95
geo s15 a5 shape:f1 7 7
refresh
find shape x=7 | s02 s15
query shape x=7 | s02 s15
"#;

// 256 writes are told one by one, and of 257 it isn't known what they were.
const RESET: &str = r#"
each 1 256 set shape:s02 x @
since | 256
refresh
find shape x=256 | s02
query shape x=256 | s02
each 1 257 set shape:s02 x @
since | reset
refresh
since | 0
find shape x=257 | s02
query shape x=257 | s02
find shape x=256
find shape x=500 | s05 s15 s25 s35 s45 s55 s65 s75 s85 s95
"#;

// Writes of a transaction are told once it is committed, and those of an aborted one never.
const COMMITTED: &str = r#"
begin
set shape:s01 x 7
since | 0
refresh | one is open
abort
since | 0
begin
set shape:s01 x 8
set shape:s02 x 8
commit
since | 2
refresh
find shape x=8 | s01 s02
query shape x=8 | s01 s02
find shape x=7
"#;

// What indices answer.
const INDICES: [Script; 4] = [
    Script {
        shows: "an index answers what a walk does",
        parts: &[GRID, REFRESHED, ANSWERS],
    },
    Script {
        shows: "an index is brought up by differences",
        parts: &[GRID, REFRESHED, DIFFERENCES],
    },
    Script {
        shows: "an index is made anew after 257 writes",
        parts: &[GRID, REFRESHED, RESET],
    },
    Script {
        shows: "an index is told of committed writes",
        parts: &[GRID, REFRESHED, COMMITTED],
    },
];

#[test]
fn an_index_answers_what_a_walk_does(rt: HostRuntime) -> Result<(), Fail> {
    plays(&rt, rt.alloc(), &INDICES)
}
