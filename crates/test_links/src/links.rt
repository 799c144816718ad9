//! Links in memory, and what accepts them.
use crate::link_calls::{accept_difference, link_difference};
use std::process::Abort;
use std::test::Fail;
use test_with_cases::rows;

/// What arrives, which calls fail, the calls, what they answer = what went out.
const LINKS: &str = r#"
- | - | ? ? | END END = 
a | - | ? ? | a END = 
a . b | - | ? ? ? ? | a . b END = 
. . | - | ? ? ? | . . END = 
a b | - | x ? y ! ? z | ok a ok ok b ok = x y ROOM_FULL z
a b | 0 | ? ? ? ? | FAILED a b END = 
a b | 1 2 | ? ? ? ? ? | a FAILED FAILED b END = 
- | 0 | x x | FAILED ok = x
- | 1 | x x x | ok FAILED ok = x x
- | 0 | ! ! | FAILED ok = ROOM_FULL
a | 3 | ? ? x y | a END ok FAILED = x
a | 9 | ? ? x y | a END ok ok = x y
"#;

/// How many links there are, which calls of `next` fail, the calls, what they answer = the links given back.
const ACCEPTS: &str = r#"
0 | - | ? ? | NONE NONE =
2 | - | ? ? ? | 0 1 NONE =
2 | - | ? < ? < ? | 0 1 NONE = 0 1
3 | - | ? ? < ? < < | 0 1 2 = 1 2 0
2 | 0 | ? ? < ? < | FAILED 0 1 = 0 1
2 | 1 2 | ? ? ? ? < < | 0 FAILED FAILED 1 = 1 0
"#;

#[test]
fn links_give_and_keep(rt: HostRuntime) -> Result<(), Fail> {
    let alloc = rt.alloc();
    for row in rows(alloc, LINKS)? {
        let came = link_difference(alloc, row)?;
        assert!(&rt; came.is_none(), "{row}: {came:?}");
    }
    Ok(())
}

#[test]
fn workers_hand_out_and_keep(rt: HostRuntime) -> Result<(), Fail> {
    let alloc = rt.alloc();
    for row in rows(alloc, ACCEPTS)? {
        let came = accept_difference(alloc, row)?;
        assert!(&rt; came.is_none(), "{row}: {came:?}");
    }
    Ok(())
}
