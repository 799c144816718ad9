//! Which of 100 shapes meet a query.
//!
//! What the steps of scripts are, `test_with_stores` tells.
use crate::played::{GRID, Script, plays};
use std::test::Fail;

// One condition.
const CONDITIONS: &str = r#"
query shape x=500 | s05 s15 s25 s35 s45 s55 s65 s75 s85 s95
query shape type="frame" | f0 f1 f2 f3 f4 f5 f6 f7 f8 f9
query shape type!"geo" | f0 f1 f2 f3 f4 f5 f6 f7 f8 f9
query shape y!10 | f0 f1 f2 f3 f4 f5 f6 f7 f8 f9
query shape x>800 | s09 s19 s29 s39 s49 s59 s69 s79 s89 s99
query shape x>899 | s09 s19 s29 s39 s49 s59 s69 s79 s89 s99
query shape x>900
# A field that isn't there is no value, no other value and no number; a text is no number.
query shape w=10
query shape w!10
query shape w>0
query shape index>0
query shape x="500"
# Only records of the type.
query page typeName="page" | page:p
query binding x=500
"#;

// Several conditions.
const JOINED: &str = r#"
query shape x=500 parentId="shape:f3" and:2 | s35
query shape parentId="shape:f3" x>600 y=10 and:3 | s37 s38 s39
query shape x=500 y!10 and:2
query shape x=100 parentId="shape:f3" or:2 | s01 s11 s21 s31 s32 s33 s34 s35 s36 s37 s38 s39 s41 s51 s61 s71 s81 s91
query shape x>100 not:1 | f0 f1 f2 f3 f4 f5 f6 f7 f8 f9 s01 s11 s21 s31 s41 s51 s61 s71 s81 s91
query shape w=10 not:1 | 100: f0 .. s99
query shape x>100 not:1 type="geo" and:2 y=10 and:2 | s01 s11 s21 s31 s41 s51 s61 s71 s81 s91
query shape x=200 x=300 or:2 parentId="shape:f7" and:2 | s72 s73
# All meet each of none, and none meets one of none.
query shape and:0 | 100: f0 .. s99
query page and:0 | page:p
query shape or:0
query shape or:0 not:1 | 100: f0 .. s99
"#;

// What conditions pick.
const QUERIES: [Script; 2] = [
    Script {
        shows: "a condition picks a column or a row",
        parts: &[GRID, CONDITIONS],
    },
    Script {
        shows: "conditions are joined and denied",
        parts: &[GRID, JOINED],
    },
];

#[test]
fn conditions_pick_what_meets_them(rt: HostRuntime) -> Result<(), Fail> {
    plays(&rt, rt.alloc(), &QUERIES)
}
