//! What is asked after transactions that are aborted, and after calls that are refused.
//!
//! What the steps of scripts are, `test_with_stores` tells.
use crate::played::{GRID, Script, plays};
use std::test::Fail;

// A grid, of which a box and the count are watched and were told.
const WATCHED: &str = r#"
watch box shape:f3 | 0
watch count page:p | 1
told | 0:{"h":50,"w":910,"x":0,"y":300} 1:100
"#;

// What is asked and told of that grid.
const UNCHANGED: &str = r#"
ask box shape:f3 | 0 300 910 50
ask count page:p | 100
ask children page:p | f0 f1 f2 f3 f4 f5 f6 f7 f8 f9
ask bound shape:s39
query shape x=900 | s09 s19 s29 s39 s49 s59 s69 s79 s89 s99
told
"#;

// A transaction that is aborted; what is asked in it is asked of what was written in it.
const ABORTED: &str = r#"
commit | none is open
abort | none is open
begin
set shape:s39 x 5000
take shape:f5
bind 1 s39 s11
ask box shape:f3 | 0 300 5010 50
ask count page:p | 90
ask bound shape:s39 | binding:1
query shape x>900 | s39
told | one is open
abort
"#;

// What was committed into a transaction is aborted with it.
const NESTED: &str = r#"
begin
geo n a0 page:p 0 0
begin
take shape:n
take shape:f0
set shape:s39 parentId "shape:f1"
commit
ask count page:p | 90
ask box shape:f3 | 0 300 810 50
abort
"#;

// The 17th transaction is refused. A write takes none of these.
const REFUSED: &str = r#"
each 1 16 begin
begin | too nested
ask box shape:f3 | 0 300 910 50
ask count page:p | 100
geo n a0 page:p 0 0
ask count page:p | 101
abort
ask count page:p | 100
each 1 15 commit
abort | none is open
"#;

// What is left as it was.
const TRANSACTIONS: [Script; 3] = [
    Script {
        shows: "an aborted write leaves what is asked",
        parts: &[GRID, WATCHED, ABORTED, UNCHANGED],
    },
    Script {
        shows: "what an aborted transaction committed goes",
        parts: &[GRID, WATCHED, NESTED, UNCHANGED],
    },
    Script {
        shows: "a refused transaction leaves what is asked",
        parts: &[GRID, WATCHED, REFUSED, UNCHANGED],
    },
];

#[test]
fn a_transaction_that_goes_leaves_what_is_asked(rt: HostRuntime) -> Result<(), Fail> {
    plays(&rt, rt.alloc(), &TRANSACTIONS)
}
