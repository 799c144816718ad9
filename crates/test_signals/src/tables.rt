//! What calls give, one after the other.
use crate::calls::play;
use std::alloc::Global;
use std::process::Abort;
use std::test::Fail;

// A choice reads what its first answer says.
// 1.0 asks atom 0.0, and then 0.1 where that is 0, else 0.2.
const CHOICE: &str = "
set 0.0 0 | false
set 0.1 7 | true
set 0.2 9 | true
get 1.0 | 7 after 3
set 0.2 1 | true
get 1.0 | 7 after 0
set 0.0 1 | true
get 1.0 | 1 after 3
set 0.1 8 | true
get 1.0 | 1 after 0
set 0.2 5 | true
get 1.0 | 5 after 3
";

// A diamond runs each key once.
// 2.0 is the sum of 1.1 and 1.2, which are atom 0.0.
const DIAMOND: &str = "
set 0.0 3 | true
get 2.0 | 6 after 7
get 1.1 | 3 after 0
set 0.0 4 | true
get 1.2 | 4 after 2
get 2.0 | 8 after 5
set 0.0 4 | false
get 2.0 | 8 after 0
";

// A chain through two hundred ranks runs anew.
// Each key of the chain is the one of the rank below, and the last is atom 0.0.
const CHAIN: &str = "
set 0.0 5 | true
get 200.1 | 5 after 400
set 0.1 1 | true
get 200.1 | 5 after 0
set 0.0 6 | true
get 100.1 | 6 after 200
get 200.1 | 6 after 200
";

// Ten thousand keys hang on one atom.
const MANY: &str = "
set 0.0 1 | true
get_each 10000 | 10000 after 20000
set 0.1 1 | true
get_each 10000 | 10000 after 0
set 0.0 2 | true
get_each 10000 | 20000 after 20000
";

// The 65th watch is full.
const FULL: &str = "
watch_often 0.0 64 | 63
watch 0.0 | full
unwatch 5 | done
unwatch 5 | not watched
unwatch 9 | done
watch 1.0 | 5
watch 1.0 | 9
watch 1.0 | full
";

// Due tells what differs from what was told.
const DUE: &str = "
watch 1.0 | 0
watch 2.0 | 1
due | 0:0 1:0 after 10
due | after 0
set 0.1 7 | true
due | 0:7 after 3
set 0.0 1 | true
due | 0:0 1:2 after 10
set 0.0 1 | false
due | after 0
set 0.0 2 | true
get 2.0 | 4 after 7
due | 1:4 after 3
unwatch 0 | done
watch 1.1 | 0
due | 0:2 after 0
";

// A changed epoch stays where a run comes to the same.
const CHANGED: &str = "
set 0.0 1 | true
changed 1.0 | none
get 1.0 | 0 after 3
changed 1.0 | 1
changed 0.1 | none
changed 0.2 | none
set 0.0 2 | true
get 1.0 | 0 after 3
changed 1.0 | 1
set 0.2 9 | true
get 1.0 | 9 after 3
changed 1.0 | 3
changed 0.2 | 3
set 0.1 0 | false
changed 0.1 | 0
";

// News stay due until they are told.
const NEWS: &str = "
watch 1.0 | 0
news | 0:0 after 3
news | 0:0 after 0
tell | 0:0 after 0
news | after 0
set 0.1 7 | true
news | 0:7 after 3
due | 0:7 after 0
due | after 0
";

// Asserts that each call of a table gives what it says.
fn plays(rt: &impl Abort, alloc: Global, table: &str) -> Result<(), Fail> {
    assert_eq!(rt; play(alloc, table)?.as_str(), "");
    Ok(())
}

#[test]
fn graphs_give_what_their_tables_say(rt: HostRuntime) -> Result<(), Fail> {
    plays(&rt, rt.alloc(), CHOICE)?;
    plays(&rt, rt.alloc(), DIAMOND)?;
    plays(&rt, rt.alloc(), CHAIN)?;
    plays(&rt, rt.alloc(), MANY)?;
    plays(&rt, rt.alloc(), FULL)?;
    plays(&rt, rt.alloc(), DUE)?;
    plays(&rt, rt.alloc(), CHANGED)?;
    plays(&rt, rt.alloc(), NEWS)
}
