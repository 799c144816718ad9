//! Trees and boxes of more than 32 levels.
//!
//! What the steps of scripts are, `test_with_stores` tells.
use crate::played::{Script, plays};
use std::test::Fail;

// A page and forty geo shapes of 10 by 10, each in the one before and at 1, 1 of it, so that the k-th stands at k, k.
const CHAIN: &str = r#"
page c
geo c1 a1 page:c 1 1
each 2 40 geo c@ a1 shape:c# 1 1
"#;

// A tree goes down to the 32nd level below its page, and a box to the 32nd below its shape.
const DEEP: &str = r#"
ask count page:c | 32
ask tree page:c | 32: c1 .. c32
ask box shape:c1 | 1 1 42 42
ask box shape:c8 | 1 1 42 42
ask box shape:c9 | 1 1 41 41
ask box shape:c40 | 1 1 10 10
"#;

// What is deeper changes nothing.
const CHANGED: &str = r#"
watch box shape:c1 | 0
watch count page:c | 1
told | 0:{"h":42,"w":42,"x":1,"y":1} 1:32
set shape:c34 x 500
take shape:c40
told
set shape:c33 x 500
told | 0:{"h":42,"w":541,"x":1,"y":1}
take shape:c2
told | 0:{"h":10,"w":10,"x":1,"y":1} 1:1
"#;

// What is deep.
const LEVELS: [Script; 2] = [
    Script {
        shows: "trees and boxes go 32 levels down",
        parts: &[CHAIN, DEEP],
    },
    Script {
        shows: "what is below 32 levels is not told",
        parts: &[CHAIN, CHANGED],
    },
];

#[test]
fn views_go_32_levels_down(rt: HostRuntime) -> Result<(), Fail> {
    plays(&rt, rt.alloc(), &LEVELS)
}
