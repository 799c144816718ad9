//! What is asked of a board of 100 shapes, and what views tell of it.
//!
//! What the steps of scripts are, `test_with_stores` tells.
use crate::played::{GRID, Script, plays};
use std::test::Fail;

// Trees, counts and children.
const TREES: &str = r#"
ask count page:p | 100
ask tree page:p | 100: f0 .. s99
ask children page:p | f0 f1 f2 f3 f4 f5 f6 f7 f8 f9
ask tree shape:f3 | s31 s32 s33 s34 s35 s36 s37 s38 s39
ask children shape:f3 | s31 s32 s33 s34 s35 s36 s37 s38 s39
ask count shape:s99 | 0
ask record page:p | {"id":"page:p","typeName":"page"}
ask record page:q | none
# Of one index the lesser id comes first.
set shape:s39 parentId "shape:f4"
ask children shape:f3 | s31 s32 s33 s34 s35 s36 s37 s38
ask children shape:f4 | s41 s42 s43 s44 s45 s46 s47 s48 s39 s49
ask count page:p | 100
set shape:s39 index "a0"
ask children shape:f4 | s39 s41 s42 s43 s44 s45 s46 s47 s48 s49
# With a frame that goes its ten shapes aren't below the page any more.
take shape:f4
ask count page:p | 89
ask tree page:p | 89: f0 .. s99
ask children shape:f4 | s39 s41 s42 s43 s44 s45 s46 s47 s48 s49
take shape:s99
ask tree page:p | 88: f0 .. s98
"#;

// Boxes of shapes and of frames with what hangs under them.
const BOXES: &str = r#"
ask box shape:s35 | 500 10 10 10
ask box shape:f3 | 0 300 910 50
ask box page:p | none
ask box shape:z | none
set shape:s39 x 2000
ask box shape:f3 | 0 300 2010 50
set shape:s35 y -20
ask box shape:f3 | 0 280 2010 70
set shape:s39 parentId "shape:f4"
ask box shape:f3 | 0 280 810 70
ask box shape:f4 | 0 400 2010 50
# A group has no box of its own.
group g a0 page:p 7 7
ask box shape:g | none
set shape:f4 parentId "shape:g"
ask box shape:g | 7 407 2010 50
set shape:g x -7
ask box shape:g | -7 407 2010 50
take shape:f4
ask box shape:f4 | none
ask box shape:g | none
"#;

// Bindings of shapes.
const BINDINGS: &str = r#"
bind 1 s11 s22
bind 2 s22 s33
bind 3 s11 s33
ask bound shape:s11 | binding:1 binding:3
ask bound shape:s22 | binding:1 binding:2
ask bound shape:s99
ask from shape:s22 | binding:2
ask to shape:s33 | binding:2 binding:3
# A binding with both ends at one shape is one of its bindings.
bind 4 s33 s33
ask bound shape:s33 | binding:2 binding:3 binding:4
set binding:3 toId "shape:s99"
ask bound shape:s33 | binding:2 binding:4
ask bound shape:s99 | binding:3
take binding:1
ask bound shape:s11 | binding:3
# It stays where its shape goes.
take shape:s11
ask bound shape:s11 | binding:3
"#;

// What views tell.
const VIEWS: &str = r#"
bind 1 s11 s22
view count page:p | 100
view count page:q | 0
view box shape:f3 | {"h":50,"w":910,"x":0,"y":300}
view box page:p | null
view bound shape:s11 | ["binding:1"]
view bound shape:s99 | []
view tree shape:f1 | ["shape:s11","shape:s12","shape:s13","shape:s14","shape:s15","shape:s16","shape:s17","shape:s18","shape:s19"]
view tree shape:s11 | []
"#;

// What is asked of the grid.
const VIEWED: [Script; 4] = [
    Script {
        shows: "trees and counts of a grid",
        parts: &[GRID, TREES],
    },
    Script {
        shows: "boxes of a grid",
        parts: &[GRID, BOXES],
    },
    Script {
        shows: "bindings of a grid",
        parts: &[GRID, BINDINGS],
    },
    Script {
        shows: "views tell of a grid",
        parts: &[GRID, VIEWS],
    },
];

#[test]
fn views_tell_of_a_grid(rt: HostRuntime) -> Result<(), Fail> {
    plays(&rt, rt.alloc(), &VIEWED)
}
