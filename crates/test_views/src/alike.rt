//! The store on signals beside the plain one.
use crate::drawn::draw_script;
use std::alloc::Global;
use std::process::Abort;
use std::test::Fail;
use test_with_stores::first_unlike;

// Asserts that the stores are alike wherever a script looks at them.
fn alike(rt: &impl Abort, alloc: Global, script: &str) -> Result<(), Fail> {
    if let Some(difference) = first_unlike(alloc, script)? {
        assert_eq!(rt; difference.as_str(), "");
    }
    Ok(())
}

// Calls that are drawn by a small rule.
struct Drawing {
    // The number that the draws begin with.
    first: u16,
    // How many calls there are.
    count: u16,
    // After how many of them the stores are looked at.
    looks: u16,
}

const DRAWINGS: [Drawing; 2] = [
    Drawing {
        first: 1,
        count: 300,
        looks: 1,
    },
    Drawing {
        first: 2,
        count: 300,
        looks: 20,
    },
];

// Asserts that the stores are alike after calls that are drawn.
fn alike_by(rt: &impl Abort, alloc: Global, table: &[Drawing]) -> Result<(), Fail> {
    for row in table {
        let script = draw_script(alloc, row.first, row.count, row.looks)?;
        alike(rt, alloc, script.as_str())?;
    }
    Ok(())
}

#[test]
fn three_hundred_calls_leave_what_a_plain_store_has(rt: HostRuntime) -> Result<(), Fail> {
    alike_by(&rt, rt.alloc(), &DRAWINGS)
}

// Three calls in two transactions, of which the inner one is aborted and the outer one committed; then two under a page
// that goes and comes again.
const NESTED: &str = r#"
page p
begin
geo s0 a0 page:p 1 1
begin
geo s1 a0 shape:s0 1 1
set shape:s0 parentId "page:q"
look
abort
look
commit
look
take page:p
look
page p
look
commit
abort
"#;

#[test]
fn an_inner_transaction_is_aborted_in_both(rt: HostRuntime) -> Result<(), Fail> {
    alike(&rt, rt.alloc(), NESTED)
}

// How long lists are: none, one, as many as stand together, one more, and some hundreds.
const LENGTHS: [u32; 5] = [0, 1, 128, 129, 260];

// Puts so many shapes on a page, far from the order of their ids, two by one index. Then the first
// goes behind the last, the second before the first, both to another page and one back, and each
// third goes.
fn list_script(alloc: Global, count: u32) -> Result<String, Fail> {
    let mut script = String::from_str(alloc, "page p\npage q\nlook\n")?;
    for number in 0..count {
        let place = number.wrapping_mul(179) % 400;
        script.push_str(format!(in alloc;
            "geo s{number} a{} page:p {place} 1\n",
            1000 + place / 2
        )?.as_str())?;
    }
    let moves = r#"look
set shape:s0 index "b"
look
set shape:s1 index "a"
look
set shape:s0 parentId "page:q"
set shape:s1 parentId "page:q"
look
set shape:s0 parentId "page:p"
look
begin
set shape:s2 parentId "page:q"
set shape:s2 index "b"
look
abort
look
"#;
    script.push_str(moves)?;
    for number in 0..count / 3 {
        script.push_str(format!(in alloc; "take shape:s{}\n", number * 3)?.as_str())?;
    }
    script.push_str("look\n")?;
    Ok(script)
}

#[test]
fn lists_of_any_length_are_those_of_a_plain_store(rt: HostRuntime) -> Result<(), Fail> {
    let alloc = rt.alloc();
    for count in LENGTHS {
        let script = list_script(alloc, count)?;
        alike(&rt, alloc, script.as_str())?;
    }
    Ok(())
}
