//! The records of a small board by short names, for the crates of tests: a table writes `$P` or `$G(a,a0,7)` in place of a
//! record's text.
//!
//! The crate stands on `test_with_cases` for values by their texts and on `field_ops` for diffs, and says nothing in contracts:
//! what it answers is looked at where the tests are run.
#![tactic(auto)]

use field_ops::{Diff, read_diff};
use rooms_val::Val;
use std::alloc::Global;
use std::test::Fail;
use test_with_cases::value;

// The page on which everything stands.
const PAGE: &str = r#"{"id":"page:p","index":"a0","meta":{},"name":"P","typeName":"page"}"#;

// A further page, of which `@` stands for its name and for a text that makes it as heavy as is wanted.
const OTHER_PAGE: &str =
    r#"{"id":"page:@","index":"a0","meta":{"m":"@"},"name":"","typeName":"page"}"#;

// A geo shape, of which `@` stands for its name, its index, its opacity and its x.
const GEO: &str =
    r#"{"id":"shape:@","index":"@","isLocked":false,"meta":{},"opacity":@,"parentId":"page:p","props":{"color":"black","dash":"draw","fill":"none","geo":"rectangle","h":10,"size":"m","text":"","w":10},"rotation":0,"type":"geo","typeName":"shape","x":@,"y":0}"#;

// The same as version 2 has it.
const GEO_2: &str =
    r#"{"id":"shape:@","index":"@","isLocked":false,"meta":{},"opacity":@,"parentId":"page:p","props":{"color":"black","fill":"none","geo":"rectangle","h":10,"size":"m","text":"","w":10},"rotation":0,"type":"geo","typeName":"shape","x":@,"y":0}"#;

// The same as version 1 has it: of which `@` stands for its alpha, its name, its index and its x.
const GEO_1: &str =
    r#"{"alpha":@,"id":"shape:@","index":"@","isLocked":false,"meta":{},"parentId":"page:p","props":{"color":"black","fill":"none","geo":"rectangle","h":10,"size":"m","text":"","w":10},"rotation":0,"type":"geo","typeName":"shape","x":@,"y":0}"#;

// A drawing of one point, of which `@` stands for its name and its index.
const DRAWING: &str =
    r#"{"id":"shape:@","index":"@","isLocked":false,"meta":{},"opacity":100,"parentId":"page:p","props":{"color":"black","isClosed":false,"points":[{"x":0,"y":0}],"size":"m"},"rotation":0,"type":"draw","typeName":"shape","x":0,"y":0}"#;

// A text shape, of which `@` stands for its name, its index and its text.
const TEXT: &str =
    r#"{"id":"shape:@","index":"@","isLocked":false,"meta":{},"opacity":100,"parentId":"page:p","props":{"autoSize":true,"color":"black","h":10,"size":"m","text":"@","w":10},"rotation":0,"type":"text","typeName":"shape","x":0,"y":0}"#;

// The same as version 1 has it.
const TEXT_1: &str =
    r#"{"alpha":10,"id":"shape:@","index":"@","isLocked":false,"meta":{},"parentId":"page:p","props":{"autoSize":true,"color":"black","h":10,"size":"m","text":"@","w":10},"rotation":0,"type":"text","typeName":"shape","x":0,"y":0}"#;

// The presence of a session, of which `@` stands for its number and its user's name.
const PRESENCE: &str =
    r#"{"color":"red","currentPageId":"page:p","cursor":null,"id":"instance_presence:@","meta":{},"selectedShapeIds":[],"typeName":"instance_presence","userName":"@"}"#;

/// A text with each short name of a record written out as the record's text:
/// - `$P` is the page `page:p`;
/// - `$E(n,t)` is the page `page:n` with the text t in its `meta`, which weighs 42 and the bytes of n and t;
/// - `$G(n,i,x)` is the geo shape `shape:n` on it at index i with this x, and `$G(n,i,x,o)` that with opacity o in
///   place of 100;
/// - `$G2(n,i,x)`, `$G2(n,i,x,o)` are the same as version 2 has them, and `$G1(n,i,x)`, `$G1(n,i,x,a)` as version 1 does,
///   with alpha a in place of 10;
/// - `$D(n,i)` is the drawing `shape:n` of the one point 0, 0;
/// - `$T(n,i,t)` is the text shape `shape:n` with the text t, and `$T1(n,i,t)` the same as version 1 has it;
/// - `$R(n,u)` is the presence `instance_presence:n` of a user u on the page.
///
/// # Errors
/// A name that is none of these, and where memory is refused.
pub fn board_text(alloc: Global, text: &str) -> Result<String, Fail> {
    let mut out = String::new(alloc);
    let (front, named) = text.split_once('$').unwrap_or((text, ""));
    out.push_str(front)?;
    if !named.is_empty() {
        for part in named.split('$') {
            expand(&mut out, part)?;
        }
    }
    Ok(out)
}

// Adds a text that begins with a short name.
fn expand(out: &mut String, part: &str) -> Result<(), Fail> {
    if let Some(rest) = part.strip_prefix('P') {
        out.push_str(PAGE)?;
        out.push_str(rest)?;
        return Ok(());
    }
    let (call, rest) = part.split_once(')').unwrap_or((part, ""));
    let (name, given) = call.split_once('(').unwrap_or((call, ""));
    add_record(out, name, arguments(given))?;
    out.push_str(rest)?;
    Ok(())
}

// What stands between the commas of a text. What isn't there is empty.
fn arguments(given: &str) -> [&str; 4] {
    let mut found = [""; 4];
    let mut rest = given.split(',');
    for place in 0..4usize {
        if let Some(text) = rest.next() {
            found[place] = text;
        }
    }
    found
}

// Adds the text of the record of a short name.
fn add_record(out: &mut String, name: &str, given: [&str; 4]) -> Result<(), Fail> {
    let [first, index, x, seen] = given;
    match name {
        "E" => fill(out, OTHER_PAGE, [first, index, "", ""]),
        "G" => fill(out, GEO, [first, index, or(seen, "100"), x]),
        "G2" => fill(out, GEO_2, [first, index, or(seen, "100"), x]),
        "G1" => fill(out, GEO_1, [or(seen, "10"), first, index, x]),
        "D" => fill(out, DRAWING, [first, index, "", ""]),
        "T" => fill(out, TEXT, [first, index, x, ""]),
        "T1" => fill(out, TEXT_1, [first, index, x, ""]),
        "R" => fill(out, PRESENCE, [first, index, "", ""]),
        _ => Err(Fail::from("no short name of a record")),
    }
}

// A text, or another where it is empty.
fn or<'a>(text: &'a str, other: &'a str) -> &'a str {
    if text.is_empty() { other } else { text }
}

// Adds a text, with the given ones in the places of its `@`, in order.
fn fill(out: &mut String, text: &str, given: [&str; 4]) -> Result<(), Fail> {
    let mut parts = text.split('@');
    out.push_str(parts.next().unwrap_or(""))?;
    for (part, place) in parts.zip(given.iter()) {
        out.push_str(place)?;
        out.push_str(part)?;
    }
    Ok(())
}

/// The value of a text with short names of records.
///
/// # Errors
/// The fault of a text that is no value, a name that is none, and where memory is refused.
pub fn board_value(alloc: Global, text: &str) -> Result<Val, Fail> {
    value(alloc, board_text(alloc, text)?.as_str())
}

/// The diff of a text with short names of records.
///
/// # Errors
/// The fault of a text that is no diff, a name that is none, and where memory is refused.
pub fn board_diff(alloc: Global, text: &str) -> Result<Diff, Fail> {
    Ok(read_diff(alloc, &board_value(alloc, text)?)?)
}
