//! What calls of a graph with transactions give, one after the other.
use crate::transactions::play_nested;
use std::alloc::Global;
use std::process::Abort;
use std::test::Fail;

// Two sets are told and 257 are not.
// The first write falls out at the 257th, and then what was written after epoch 0 isn't known.
const RING: &str = "
set 0 5 | true
set 0 5 | false
set 1 7 | true
since 0 | 2 0:5 1:7
since 1 | 1 1:7
since 2 | 0
since 3 | reset
set_each 2 254 | done
count_since 0 | 256
set 0 6 | true
count_since 0 | reset
count_since 1 | 256
epoch | 257
";

// The 18th transaction is too nested.
const DEEP: &str = "
commit | none is open
abort | none is open
begin_often 17 | open
begin | too nested
abort | done
begin | open
begin | too nested
";

// Inner aborts take their own writes back.
// The choice asks atom 0, and then atom 1 where that is 0, else atom 2.
const LEVELS: &str = "
set 1 1 | true
begin | open
set 1 2 | true
begin | open
set 1 3 | true
set 2 3 | true
begin | open
set 1 4 | true
commit | done
get 1.0 | 4 after 3
abort | done
get 1.0 | 2 after 3
set 2 9 | true
get 1.0 | 2 after 0
since 1 | 0
begin | open
set 3 8 | true
commit | done
commit | done
since 1 | 3 1:2 2:9 3:8
begin | open
set 1 6 | true
abort | done
get 1.0 | 2 after 3
since 1 | 3 1:2 2:9 3:8
begin | open
set 3 1 | true
abort | done
get 1.0 | 2 after 0
";

// A transaction tells its last 256 writes.
const LONG: &str = "
set 1 9 | true
begin | open
begin | open
set_each 0 257 | done
commit | done
count_since 0 | 1
commit | done
count_since 0 | reset
count_since 1 | reset
count_since 2 | 256
since 257 | 1 0:257
";

// An abort changes its atoms at one epoch.
// Atom 3 has its value of before already when it is put back.
const ABORTED: &str = "
set 1 1 | true
set 2 2 | true
set 3 3 | true
begin | open
set 1 5 | true
set 2 6 | true
set 3 9 | true
set 3 3 | true
epoch | 7
abort | done
epoch | 8
changed 1 | 8
changed 2 | 8
changed 3 | 7
begin | open
set 1 1 | false
abort | done
epoch | 8
changed 1 | 8
changed 0 | none
";

// What is fresh asks the rules nothing, in a transaction and after it.
// 2.0 is the sum of 1.1 and 1.2, which are atom 0; 1.0 reads atom 0, and then atom 1 where that is 0, else atom 2.
const COUNTED: &str = "
set 0 3 | true
get 2.0 | 6 after 7
copied 2.0 | 6 after 0
begin | open
get 2.0 | 6 after 0
set 1 5 | true
copied 2.0 | 6 after 0
set 0 4 | true
copied 2.0 | 8 after 7
get 2.0 | 8 after 0
due | one is open
abort | done
get 1.1 | 3 after 2
get 2.0 | 6 after 5
watch 2.0 | 0
watch 1.0 | 1
due | 0:6 1:0 after 3
due | after 0
begin | open
set 2 9 | true
commit | done
tell | 1:9 after 3
tell | after 0
due | after 0
begin | open
set 0 0 | true
set 0 3 | true
commit | done
due | after 10
";

// Asserts that each call of a table gives what it says.
fn plays(rt: &impl Abort, alloc: Global, table: &str) -> Result<(), Fail> {
    assert_eq!(rt; play_nested(alloc, table)?.as_str(), "");
    Ok(())
}

#[test]
fn transactions_give_what_their_tables_say(rt: HostRuntime) -> Result<(), Fail> {
    plays(&rt, rt.alloc(), RING)?;
    plays(&rt, rt.alloc(), DEEP)?;
    plays(&rt, rt.alloc(), LEVELS)?;
    plays(&rt, rt.alloc(), LONG)?;
    plays(&rt, rt.alloc(), ABORTED)?;
    plays(&rt, rt.alloc(), COUNTED)
}
