//! The tables, and how they are played.
use crate::plans::{missing, refusal_of};
use crate::sequences::newest_or_fault;
use crate::steps::{let_through, up_and_down};
use std::alloc::Global;
use std::process::Abort;
use std::test::Fail;
use test_with_cases::rows;

/// Sequences, and their newest versions or the fault. A `<` stands before what a migration depends on.
const SEQUENCES: &str = r#"
a a/1 a/2; b b/1 | {"schemaVersion":2,"sequences":{"a":2,"b":1}}
# Versions that aren't their places.
a a/1 a/3 | Gap a/3
a a/1 a/1 | Gap a/1
a a/18446744073709551617 | Gap a/18446744073709551617
# Ids that aren't of their form.
a a/0 | BadId a/0
a a/01 | BadId a/01
a a/ | BadId a/
a a | BadId a
a b/1 | BadId b/1
a a/1x | BadId a/1x
a/b a/b/3 | BadId a/b
# A gap comes first, wherever it stands.
a x; b b/2 | Gap b/2
a; a | Doubled a
a a/1<b/2; b b/1 | Unknown b/2
# Those that can't be put in order, and what follows them.
a a/1<a/1 | Cycle a/1
a a/1<a/2 a/2; b b/1 | Cycle a/1 a/2
b b/1<a/1; a a/1<b/1 a/2 | Cycle a/1 a/2 b/1
"#;

/// Sequences, the versions that are held, the missing migrations in order, and whether they may be run down.
const PLANS: &str = r#"
a a/1; b b/1<c/2; c c/1 c/2 | {"a":1} | c/1 c/2 b/1 | true
a a/1; b b/1<c/2; c c/1 c/2 | {"a":1,"c":1} | c/2 b/1 | true
a a/1; b b/1<c/2; c c/1 c/2 | {"a":1,"b":1} | c/1 c/2 | true
a a/1; b b/1<c/2; c c/1 c/2 | {"a":1,"b":1,"c":2} |  | true
a a/1; b b/1<c/2; c c/1 c/2 | {} | a/1 c/1 c/2 b/1 | false
# By id, and not by the list; the least free one at each place.
c c/1; b b/1 b/2 | {} | b/1 b/2 c/1 | true
b b/1<c/1; c c/1 c/2 | {} | c/1 b/1 c/2 | true
b b/1<e/1 b/2; c c/1; e e/1 | {} | c/1 e/1 b/1 b/2 | true
# A sequence that isn't retroactive is missed only where it is named.
d d/1 d/2 | {} |  | true
d d/1 d/2 | {"d":1} | d/2 | true
# One follows another only by way of what isn't missing.
b b/1<c/1; c c/1<e/1; e e/1 | {"c":1} | b/1 e/1 | true
"#;

/// Versions that are held of `a` at 1, and the fault: of several names at fault the first is named.
const FAULTS: &str = r#"
{"a":2} | TooNew a
{"zzz":0} | UnknownSequence zzz
{"0":1,"a":9} | UnknownSequence 0
{"a":9,"zzz":1} | TooNew a
"#;

/// A step in the map under `p`, a record, and what it is after the step up and down.
const STEPS: &str = r#"
add 1 | {"p":{}} | {"p":{"k":1}} and {"p":{}}
add 1 | {"p":{"k":2}} | {"p":{"k":2}} and {"p":{}}
add 1 | {} | {} and {}
add 1 | {"p":7} | {"p":7} and {"p":7}
remove 1 | {"p":{"k":2}} | {"p":{}} and {"p":{"k":2}}
remove 1 | {"p":{}} | {"p":{}} and {"p":{"k":1}}
rename | {"p":{"a":1}} | {"p":{"b":1}} and {"p":{"a":1}}
rename | {"p":{"a":1,"b":2}} | {"p":{"b":1}} and {"p":{"a":2}}
rename | {"p":[]} | {"p":[]} and {"p":[]}
# The first pair that has the text stands.
map | {"p":{"k":"x"}} | {"p":{"k":"y"}} and {"p":{"k":"x"}}
map | {"p":{"k":"y"}} | {"p":{"k":"y"}} and {"p":{"k":"x"}}
map | {"p":{"k":5}} | {"p":{"k":5}} and {"p":{"k":5}}
# A quotient is rounded down, also below 0, and a product is held within the bounds of whole numbers.
scale 10 | {"p":{"k":57}} | {"p":{"k":570}} and {"p":{"k":5}}
scale 10 | {"p":{"k":-57}} | {"p":{"k":-570}} and {"p":{"k":-6}}
scale 10 | {"p":{"k":9007199254740991}} | {"p":{"k":9007199254740991}} and {"p":{"k":900719925474099}}
scale 10 | {"p":{"k":-9007199254740991}} | {"p":{"k":-9007199254740991}} and {"p":{"k":-900719925474100}}
scale 10 | {"p":{"k":"5"}} | {"p":{"k":"5"}} and {"p":{"k":"5"}}
# Of the keys `a` and `n` into `n`. Out of it, its other keys are dropped, and one named like it survives.
nest | {"p":{"a":1,"c":3}} | {"p":{"c":3,"n":{"a":1}}} and {"p":{"a":1,"c":3}}
nest | {"p":{"c":3}} | {"p":{"c":3}} and {"p":{"c":3}}
nest | {"p":{"a":1,"n":5}} | {"p":{"n":{"a":1,"n":5}}} and {"p":{"a":1,"n":5}}
nest | {"p":{"n":{"a":1,"z":9}}} | {"p":{"n":{"n":{"a":1,"z":9}}}} and {"p":{"a":1}}
nest | {"p":{"n":{"n":1,"z":2}}} | {"p":{"n":{"n":{"n":1,"z":2}}}} and {"p":{"n":1}}
unnest | {"p":{"c":3,"n":{"a":1}}} | {"p":{"a":1,"c":3}} and {"p":{"c":3,"n":{"n":{"a":1}}}}
unnest | {"p":{"a":1}} | {"p":{"a":1}} and {"p":{"n":{"a":1}}}
"#;

/// Records before and after a step of all, one of those with a `typeName`, and one of those with a `type` too.
const FILTERED: &str = r#"
{"p":{"a":1},"type":"geo","typeName":"shape"} | {"p":{"b":1,"k":10},"type":"geo","typeName":"shape"}
{"p":{"a":1},"type":"note","typeName":"shape"} | {"p":{"b":1,"k":1},"type":"note","typeName":"shape"}
{"p":{"a":1},"type":"geo","typeName":"page"} | {"p":{"b":1},"type":"geo","typeName":"page"}
null | null
"#;

/// What the rows of a table call.
#[derive(Clone, Copy)]
enum Call {
    /// Sequences are built.
    Build,
    /// What is missing is planned.
    Plan,
    /// What is held is refused.
    Refuse,
    /// A step is taken up and down.
    Step,
    /// Steps with filters are taken up, and down again.
    Filter,
}

/// The first row of a table that gives something else than its last cell, with what it gives.
fn first_difference(alloc: Global, call: Call, table: &str) -> Result<Option<String>, Fail> {
    for row in &rows(alloc, table)? {
        let (given, wanted) = row.rsplit_once(" | ").unwrap_or((row, ""));
        let found = answer(alloc, call, given)?;
        if found.as_str() != wanted {
            return Ok(Some(format!(in alloc; "{found} at {row}")?));
        }
    }
    Ok(None)
}

/// What a call gives.
fn answer(alloc: Global, call: Call, given: &str) -> Result<String, Fail> {
    match call {
        Call::Build => newest_or_fault(alloc, given),
        Call::Plan => missing(alloc, given),
        Call::Refuse => refusal_of(alloc, given),
        Call::Step => up_and_down(alloc, given),
        Call::Filter => let_through(alloc, given),
    }
}

/// Asserts that each row of a table gives what it says.
fn plays(rt: &impl Abort, alloc: Global, call: Call, table: &str) -> Result<(), Fail> {
    if let Some(difference) = first_difference(alloc, call, table)? {
        assert_eq!(rt; difference.as_str(), "");
    }
    Ok(())
}

#[test]
fn builds_sequences_and_plans_what_is_missing(rt: HostRuntime) -> Result<(), Fail> {
    plays(&rt, rt.alloc(), Call::Build, SEQUENCES)?;
    plays(&rt, rt.alloc(), Call::Plan, PLANS)?;
    plays(&rt, rt.alloc(), Call::Refuse, FAULTS)
}

#[test]
fn migrates_records_up_and_down(rt: HostRuntime) -> Result<(), Fail> {
    plays(&rt, rt.alloc(), Call::Step, STEPS)?;
    plays(&rt, rt.alloc(), Call::Filter, FILTERED)
}
