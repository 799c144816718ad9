//! What watches have to tell.
//!
//! What the steps of scripts are, `test_with_stores` tells.
use crate::played::{GRID, Script, plays};
use std::test::Fail;

// A new watch is told once, and then what changes.
const TOLD: &str = r#"
told
watch count page:p | 0
watch box shape:f3 | 1
watch bound shape:s11 | 2
told | 0:100 1:{"h":50,"w":910,"x":0,"y":300} 2:[]
told
# Nothing that is watched hangs on this.
set shape:s45 x 3000
told
set shape:s39 x 2000
told | 1:{"h":50,"w":2010,"x":0,"y":300}
bind 1 s11 s22
told | 2:["binding:1"]
take shape:s99
told | 0:99
# What was told is there again.
set shape:s39 x 4000
set shape:s39 x 2000
told
# The box of a frame that goes, with its nine shapes.
take shape:f3
told | 0:89 1:null
told
take binding:1
geo n a0 page:p 0 0
told | 0:90 2:[]
"#;

// A number whose watch ends is the next one's, which is told in its turn.
const ENDED: &str = r#"
unwatch 0 | not watched
watch count page:p | 0
watch box shape:s11 | 1
told | 0:100 1:{"h":10,"w":10,"x":100,"y":10}
unwatch 0
unwatch 0 | not watched
take shape:s11
watch box shape:f1 | 0
told | 0:{"h":50,"w":910,"x":0,"y":100} 1:null
told
"#;

// The 65th watch is refused, and what was told stays told.
const FULL: &str = r#"
watch count page:p | 0
told | 0:100
each 1 63 watch box shape:f3 | 63
watch count page:q | full
unwatch 5
watch count page:p | 5
watch count page:p | full
unwatch 1
each 1 2 watch count page:p | full
"#;

// The store's own call tells the same, with answers of its own.
const DUE: &str = r#"
watch count page:p | 0
watch box shape:f3 | 1
due | 0:100 1:0 300 910 50
told
set shape:s39 x 2000
due | 1:0 300 2010 50
due
take shape:f3
told | 0:90 1:null
due
"#;

// What is fresh is looked up, asked or told. The box hangs on 4,000 shapes, so that a store which ran its rules each time
// wouldn't end in a test's time.
const FRESH: &str = r#"
page p
frame f a0 page:p 0 0
begin
each 1000 4999 geo s@ a1 shape:f @ 0
commit
ask box shape:f | 0 0 5009 50
each 1 100000 ask box shape:f | 0 0 5009 50
watch box shape:f | 0
told | 0:{"h":50,"w":5009,"x":0,"y":0}
each 1 100000 told
geo s a1 page:p 7 7
each 1 100000 told
"#;

// What watches tell.
const WATCHES: [Script; 5] = [
    Script {
        shows: "a watch is told once and where it changed",
        parts: &[GRID, TOLD],
    },
    Script {
        shows: "a watch that ends is told no more",
        parts: &[GRID, ENDED],
    },
    Script {
        shows: "the 65th watch is full",
        parts: &[GRID, FULL],
    },
    Script {
        shows: "due tells what told would",
        parts: &[GRID, DUE],
    },
    Script {
        shows: "what is fresh is looked up",
        parts: &[FRESH],
    },
];

#[test]
fn a_watch_is_told_where_it_changed(rt: HostRuntime) -> Result<(), Fail> {
    plays(&rt, rt.alloc(), &WATCHES)
}
