//! The limits of a room, at both sides.
//!
//! What the steps of scripts are, `test_with_rooms` tells.
use crate::played::{Script, plays};
use std::test::Fail;

// A session.
const ONE: &str = r#"
enter | 0
connect 0 3 -1 | entered
drain 0 | wipe_all 0 {}
"#;

// Three sessions, of which two stay at clock 0.
const THREE: &str = r#"
enter | 0
connect 0 3 -1 | entered
drain 0 | wipe_all 0 {}
enter | 1
connect 1 3 -1 | entered
drain 1 | wipe_all 0 {}
enter | 2
connect 2 3 -1 | entered
drain 2 | wipe_all 0 {}
"#;

// The document has at most 16,384 records.
const NUMBER: &str = r#"
bulk 0 1 10000 16383 "page:@":["put",$E(@)] | taken
drain 0 | 1 push 1 commit
push 0 2 {"page:a":["put",$E(a)]} | taken
drain 0 | 2 push 2 commit
push 0 3 {"page:b":["put",$E(b)]} | taken
drain 0 | 3 push 3 discard
# The ids are taken in order: a makes place for b.
push 0 4 {"page:a":["remove"],"page:b":["put",$E(b)],"page:c":["put",$E(c)]} | taken
drain 0 | 4 push 4 rebase {"page:a":["remove"],"page:b":["put",$E(b)]}
# c stands before its place is made.
push 0 5 {"page:a":["put",$E(a)],"page:b":["remove"]} | taken
drain 0 | 5 push 5 rebase {"page:b":["remove"]}
push 0 6 {"page:c":["put",$E(c)]} | taken
drain 0 | 6 push 6 commit
# What is there is put again, and presence doesn't count.
push 0 7 {"page:c":["put",$E(c,x)]} | taken
drain 0 | 7 push 7 commit
presence 0 8 ["put",$R(0,ann)] | taken
drain 0 | 8 push 8 commit
"#;

// The records of the document weigh at most 2,097,152 together: 64 of the greatest weight, 32,768.
const WEIGHT: &str = r#"
bulk 0 1 10 64 "page:@":["put",$E(@,~32724~)] | taken
drain 0 | 1 push 1 commit
push 0 2 {"page:a":["put",$E(a)]} | taken
drain 0 | 2 push 2 discard
# Once a heavy page is gone, 32,768 are left: 43 for the page a, and 32,725.
push 0 3 {"page:10":["remove"],"page:a":["put",$E(a)]} | taken
drain 0 | 3 push 3 commit
bulk 0 4 10 1 "page:@":["put",$E(@,~32682~)] | taken
count 0 | 1 events: 0 operations, 0 removes
record page:10 | none
bulk 0 5 10 1 "page:@":["put",$E(@,~32681~)] | taken
drain 0 | 5 push 5 commit
push 0 6 {"page:a":["patch",{"meta":["patch",{"m":["put","x"]}]}]} | taken
drain 0 | 6 push 6 discard
push 0 7 {"page:a":["patch",{"meta":["put",{}]}]} | taken
drain 0 | 7 push 7 commit
push 0 8 {"page:a":["patch",{"name":["put","ab"]}]} | taken
drain 0 | 8 push 8 commit
push 0 9 {"page:a":["patch",{"name":["put","abc"]}]} | taken
drain 0 | 9 push 9 discard
"#;

// 3,000 removals are remembered, and of 3,001 the 301 oldest are forgotten, which were at clock 2.
const PRUNED: &str = r#"
bulk 0 1 10000 3001 "page:@":["put",$E(@)] | taken
bulk 0 2 10000 301 "page:@":["remove"] | taken
bulk 0 3 10301 2699 "page:@":["remove"] | taken
start | 0
enter | 3
connect 3 3 1 | entered
count 3 | wipe_presence 3: 3000 operations, 3000 removes
push 0 4 {"page:13000":["remove"]} | taken
start | 2
clock | 4
document | {}
# A client below the start lacks everything, and one at the start is told the removals after it.
enter | 4
connect 4 3 1 | entered
count 4 | wipe_all 4: 0 operations, 0 removes
enter | 5
connect 5 3 2 | entered
count 5 | wipe_presence 4: 2700 operations, 2700 removes
# A session below the start goes on while its entries are kept.
count 1 | 4 events: 6002 operations, 3001 removes
"#;

// Below the start a session that is exactly 32 entries behind goes on, and one that is 33 behind is ended; at the start it
// goes on, and is told what changed.
const SLOW: &str = r#"
bulk 0 1 10000 3001 "page:@":["put",$E(@)] | taken
count 2 | 1 events: 3001 operations, 0 removes
bulk 0 2 10000 301 "page:@":["remove"] | taken
enter | 3
connect 3 3 2 | entered
drain 3 | wipe_presence 2 {}
each 0 3 28 "page:13000":["patch",{"meta":["patch",{"m":["put","@"]}]}] | taken
count 0 | 30 events: 0 operations, 0 removes
bulk 0 31 10301 2699 "page:@":["remove"] | taken
start | 0
push 0 32 {"page:13000":["remove"]} | taken
start | 2
clock | 32
# Session 1 was sent nothing, session 2 the first entry, session 3 the second too.
ping 1 | pong
push 0 33 - | taken
ping 1 | SLOW
drain 1 | end SLOW
drain 1 | nothing
count 2 | 32 events: 3029 operations, 3001 removes
push 0 34 - | taken
push 0 35 - | taken
count 3 | 1 events: 2700 operations, 2700 removes
clock | 35
"#;

// One push ends two sessions: the second has a presence, whose removal is the entry by which the first is too far behind.
const TWO_SLOW: &str = r#"
bulk 0 1 10000 3001 "page:@":["put",$E(@)] | taken
presence 2 1 ["put",$R(x,bob)] | taken
count 2 | 2 events: 3001 operations, 0 removes
push 0 2 - | taken
count 1 | 3 events: 3002 operations, 0 removes
bulk 0 3 10000 301 "page:@":["remove"] | taken
bulk 0 4 10301 2700 "page:@":["remove"] | taken
start | 4
count 0 | 5 events: 1 operations, 0 removes
each 0 5 29 "page:q":["put",$E(q,@)] | taken
count 0 | 29 events: 0 operations, 0 removes
clock | 34
push 0 34 - | taken
clock | 36
drain 1 | end SLOW
drain 2 | end SLOW
drain 0 | 35 push 34 commit, 36 {"instance_presence:2":["remove"]}
presences | {}
"#;

// One push makes two sessions too slow, both with a presence: the one with the lesser number is ended first.
const TWO_SLOW_IN_ORDER: &str = r#"
presence 2 1 ["put",$R(2,bob)] | taken
presence 1 1 ["put",$R(1,ann)] | taken
drain 1 | 1 {"instance_presence:2":["put",$R(2,bob)]}, 2 push 1 commit
drain 2 | 1 push 1 commit, 2 {"instance_presence:1":["put",$R(1,ann)]}
bulk 0 1 10000 3001 "page:@":["put",$E(@)] | taken
bulk 0 2 10000 301 "page:@":["remove"] | taken
bulk 0 3 10301 2700 "page:@":["remove"] | taken
start | 4
count 0 | 5 events: 2 operations, 0 removes
each 0 4 29 "page:q":["put",$E(q,@)] | taken
count 0 | 29 events: 0 operations, 0 removes
push 0 33 - | taken
clock | 37
drain 0 | 35 push 33 commit, 36 {"instance_presence:1":["remove"]}, 37 {"instance_presence:2":["remove"]}
drain 1 | end SLOW
drain 2 | end SLOW
"#;

// How many records are kept.
const RECORDS: [Script; 1] = [Script {
    shows: "keeps 16384 records and no more",
    last: 1_000,
    parts: &[ONE, NUMBER],
}];

#[test]
fn keeps_16384_records_and_no_more(rt: HostRuntime) -> Result<(), Fail> {
    plays(&rt, rt.alloc(), &RECORDS)
}

// How heavy they may be.
const WEIGHTS: [Script; 1] = [Script {
    shows: "keeps a weight of 2097152 and no more",
    last: 1_000,
    parts: &[ONE, WEIGHT],
}];

#[test]
fn keeps_a_weight_of_2097152_and_no_more(rt: HostRuntime) -> Result<(), Fail> {
    plays(&rt, rt.alloc(), &WEIGHTS)
}

// How many removals are remembered.
const REMOVALS: [Script; 1] = [Script {
    shows: "forgets the oldest of 3001 removals",
    last: 1_000,
    parts: &[THREE, PRUNED],
}];

#[test]
fn forgets_the_oldest_of_3001_removals(rt: HostRuntime) -> Result<(), Fail> {
    plays(&rt, rt.alloc(), &REMOVALS)
}

// Who is too far behind.
const BEHINDS: [Script; 1] = [Script {
    shows: "ends who is 33 behind below the start",
    last: 1_000,
    parts: &[THREE, SLOW],
}];

#[test]
fn ends_who_is_33_behind_below_the_start(rt: HostRuntime) -> Result<(), Fail> {
    plays(&rt, rt.alloc(), &BEHINDS)
}

// Two who are too far behind at once.
const ENDED: [Script; 2] = [
    Script {
        shows: "ends two sessions by one push",
        last: 1_000,
        parts: &[THREE, TWO_SLOW],
    },
    Script {
        shows: "ends the session of the lesser number first",
        last: 1_000,
        parts: &[THREE, TWO_SLOW_IN_ORDER],
    },
];

#[test]
fn ends_two_sessions_by_one_push(rt: HostRuntime) -> Result<(), Fail> {
    plays(&rt, rt.alloc(), &ENDED)
}
