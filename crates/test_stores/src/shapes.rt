//! Children, trees and boxes of any records, and queries of one record.
ghost use Rattle.std.specs.Prelude.{◌^◌, IfOk, IfSome};
ghost use Rattle.shape_tree.specs.Boxes.{IsWithin, AreWithin};

use crate::tables::{Reading, plays};
use rooms_val::{Text, Val, Vals};
use shape_tree::{Query, Rect, children, join_box, move_box, own_box, tree};
use std::alloc::Global;
use std::test::Fail;
use test_with_cases::value;
use view_vals::read_query;

// A shape, and its box by itself.
const BOXES: &str = r#"
{"type":"geo","props":{"w":10,"h":20}} | 0 0 10 20
{"type":"text","props":{"w":1,"h":2}} | 0 0 1 2
{"type":"frame","props":{"w":9007199254740991,"h":0}} | 0 0 9007199254740991 0
{"type":"image","props":{"w":3,"h":4}} | 0 0 3 4
{"type":"note","props":{"w":7,"h":7}} | 0 0 200 200
{"type":"draw","props":{"points":[{"x":3,"y":-4},{"x":-1,"y":9},{"x":2,"y":0}]}} | -1 -4 4 13
{"type":"draw","props":{"points":[{"x":3,"y":-4}]}} | 3 -4 0 0
{"type":"draw","props":{"points":[]}} | none
{"type":"arrow","props":{"start":{"x":5,"y":1},"end":{"x":-2,"y":8}}} | -2 1 7 7
{"type":"group","props":{"w":1,"h":2}} | none
{"type":"star","props":{"w":1,"h":2}} | none
# A place and a rotation aren't looked at.
{"rotation":785,"type":"geo","props":{"w":10,"h":20},"x":5,"y":6} | 0 0 10 20
# Fields of wrong kinds.
{"type":"geo"} | 0 0 0 0
{"type":"geo","props":[10,20]} | 0 0 0 0
{"type":"geo","props":{"w":-1,"h":"20"}} | 0 0 0 0
{"type":"draw"} | none
{"type":"draw","props":{"points":{"x":1,"y":2}}} | none
{"type":"draw","props":{"points":[{"x":4},7]}} | 0 0 4 0
{"type":"arrow","props":{"start":{"x":true,"y":3},"end":null}} | 0 0 0 3
{"type":["geo"],"props":{"w":1,"h":2}} | none
{"props":{"w":1,"h":2}} | none
"geo" | none
"#;

// Two boxes, each as its numbers or `none`, and the one around both.
const JOINED: &str = r#"
-5,0,10,3 2,1,1,9 | -5 0 10 10
none 2,1,1,9 | 2 1 1 9
-5,0,10,3 none | -5 0 10 3
none none | none
"#;

// A box, a record, and the box where the record moves it.
const MOVED: &str = r#"
-5,0,10,3 {"x":100,"y":"-7"} | 95 0 10 3
"#;

// A parent and records, and its children and its tree; `-` is the empty id.
const TREES: &str = r#"
page:1 [] | .; .
page:1 [{"id":"shape:a","index":"a2","parentId":"page:1"},{"id":"shape:b","index":"a1","parentId":"page:1"},{"id":"shape:c","index":"a1","parentId":"shape:b"}] | shape:b shape:a; shape:b shape:c shape:a
# One index: by id. Capitals come before small letters.
page:1 [{"id":"shape:b","index":"a1","parentId":"page:1"},{"id":"shape:a","index":"a1","parentId":"page:1"},{"id":"shape:c","index":"Zz","parentId":"page:1"}] | shape:c shape:a shape:b; shape:c shape:a shape:b
# A parent that is gone, and a cycle.
page:1 [{"id":"shape:a","parentId":"shape:x"},{"id":"shape:b","parentId":"shape:a"},{"id":"shape:c","parentId":"page:1"}] | shape:c; shape:c
shape:x [{"id":"shape:a","parentId":"shape:x"},{"id":"shape:b","parentId":"shape:a"},{"id":"shape:c","parentId":"page:1"}] | shape:a; shape:a shape:b
page:1 [{"id":"shape:a","parentId":"shape:b"},{"id":"shape:b","parentId":"shape:a"}] | .; .
# Records that are no shapes, and fields of wrong kinds.
page:1 [{"id":"page:2","parentId":"page:1"},{"id":"shape:","parentId":"page:1"},{"id":7,"parentId":"page:1"},"shape:a",null,[1]] | .; .
page:1 [{"id":"shape:a","index":7,"parentId":"page:1"},{"id":"shape:b","index":"","parentId":"page:1"},{"id":"shape:c","index":"a0","parentId":["page:1"]}] | shape:a shape:b; shape:a shape:b
- [{"id":"shape:a","index":7,"parentId":"page:1"},{"id":"shape:c","parentId":["page:1"]},{"id":"shape:b"}] | shape:b shape:c; shape:b shape:c
# Two records with one id.
page:1 [{"id":"shape:a","parentId":"page:1"},{"id":"shape:b","parentId":"page:1"},{"id":"shape:a","parentId":"page:2"}] | shape:b; shape:b
"#;

// Shapes, each the parent of the next one, so many levels below a page, or two that are each the parent of the other; and how
// many a tree has.
const LEVELS: &str = r#"
31 | 31
32 | 32
33 | 32
circle | 32
"#;

// A record, and whether it meets the query; `and` and `or` are queries of none, of which nothing is asked.
const MET: &str = r#"
{"kind":"geo"} | true
{"kind":"geo","x":5} | true
{"kind":"geo","x":4} | false
{"kind":"geo","x":"5"} | false
{"kind":"note","x":5} | false
{"x":5} | false
7 | false
and | true
or | false
"#;

// A box as its numbers.
fn rect_text(alloc: Global, found: Option<Rect>) -> Result<String, Fail> {
    Ok(match found {
        Some(rect) => {
            let Rect { x, y, w, h } = rect;
            format!(in alloc; "{x} {y} {w} {h}")?
        }
        None => String::from_str(alloc, "none")?,
    })
}

// Ids, parted by blanks, or `.` for none.
fn ids_text(alloc: Global, ids: &[Text]) -> Result<String, Fail> {
    let mut text = String::new(alloc);
    for id in ids {
        if !text.is_empty() {
            text.push_str(" ")?;
        }
        text.push_str(id.as_str())?;
    }
    if text.is_empty() {
        text.push_str(".")?;
    }
    Ok(text)
}

// The values of a list.
fn vals(alloc: Global, text: &str) -> Result<Vals, Fail> {
    match value(alloc, text)? {
        Val::List(vals) => Ok(vals),
        _ => Ok(Vals::new(alloc)),
    }
}

// Shapes, each the parent of the next one, so many levels below `page:1`.
fn chain(alloc: Global, levels: u32) -> Result<Vals, Fail> {
    let mut vals = Vals::new(alloc);
    let mut parent = String::from_str(alloc, "page:1")?;
    for level in 0..levels {
        let id = format!(in alloc; "shape:{level}")?;
        let text = format!(in alloc; "{{\"id\":\"{id}\",\"parentId\":\"{parent}\"}}")?;
        vals.push(value(alloc, text.as_str())?)?;
        parent = id;
    }
    Ok(vals)
}

// A query: the field `kind` is `geo`, and `x` is neither another value than 5 nor greater than 5.
const QUERY: &str = r#"["and",[["eq","kind","geo"],["not",["or",[["neq","x",5],["gt","x",5]]]]]]"#;

// The box of a shape by itself.
pub(crate) fn own_text(alloc: Global, shape: &str) -> Result<String, Fail> {
    rect_text(alloc, own_box(&value(alloc, shape)?))
}

// The two parts of a text.
fn halves(text: &str) -> (&str, &str) {
    text.split_once(' ').unwrap_or((text, ""))
}

// A number of a box, which is taken to be within 1,000,000 on either side of 0.
fn number(text: Option<&str>) -> Result<i64, Fail>
    ensures { IfOk result (λ number. IsWithin (2 ^ 60) number) }
{
    let number = text.unwrap_or("").parse::<i64>()?;
    Ok(number.clamp(-1_000_000, 1_000_000))
}

// A box by its four numbers.
fn rect_of(text: &str) -> Result<Rect, Fail>
    ensures { IfOk result (λ rect. AreWithin (2 ^ 60) rect) }
{
    let mut parts = text.split(',');
    let x = number(parts.next())?;
    let y = number(parts.next())?;
    let w = number(parts.next())?;
    let h = number(parts.next())?;
    Ok(Rect { x, y, w, h })
}

// A box by its text, or `none`.
fn some_rect(text: &str) -> Result<Option<Rect>, Fail>
    ensures { IfOk result (λ rect. IfSome rect (AreWithin (2 ^ 60))) }
{
    if text == "none" {
        return Ok(None);
    }
    Ok(Some(rect_of(text)?))
}

// The box around two.
pub(crate) fn joined_text(alloc: Global, boxes: &str) -> Result<String, Fail> {
    let (first, second) = halves(boxes);
    let first = some_rect(first)?;
    let second = some_rect(second)?;
    rect_text(alloc, join_box(first, second))
}

// Where a record moves a box.
pub(crate) fn moved_text(alloc: Global, text: &str) -> Result<String, Fail> {
    let (inner, record) = halves(text);
    let record = value(alloc, record)?;
    let inner = rect_of(inner)?;
    rect_text(alloc, Some(move_box(&record, inner)))
}

// The children of a parent and its tree.
pub(crate) fn tree_text(alloc: Global, text: &str) -> Result<String, Fail> {
    let (parent, records) = halves(text);
    let parent = if parent == "-" { "" } else { parent };
    let records = vals(alloc, records)?;
    let ids = ids_text(alloc, &children(alloc, records.as_slice(), parent)?)?;
    let below = ids_text(alloc, &tree(alloc, records.as_slice(), parent)?)?;
    Ok(format!(in alloc; "{ids}; {below}")?)
}

// Two shapes, each the parent of the other.
const CIRCLE: &str =
    r#"[{"id":"shape:a","parentId":"shape:b"},{"id":"shape:b","parentId":"shape:a"}]"#;

// How many shapes are in a tree of so many levels, or of a circle.
pub(crate) fn levels_text(alloc: Global, levels: &str) -> Result<String, Fail> {
    if levels == "circle" {
        return tree_length(alloc, &vals(alloc, CIRCLE)?, "shape:a");
    }
    tree_length(alloc, &chain(alloc, levels.parse::<u32>()?)?, "page:1")
}

// How many shapes are in the tree of a parent.
fn tree_length(alloc: Global, records: &Vals, parent: &str) -> Result<String, Fail> {
    let ids = tree(alloc, records.as_slice(), parent)?;
    Ok(format!(in alloc; "{}", ids.len())?)
}

// Whether a record meets the query.
fn is_met(alloc: Global, record: &str) -> Result<bool, Fail> {
    let query = read_query(alloc, &value(alloc, QUERY)?)?;
    let record = value(alloc, record)?;
    Ok(query.is_met(&record))
}

// Whether a record meets the query, or nothing one of none.
pub(crate) fn met_text(alloc: Global, record: &str) -> Result<String, Fail> {
    let met = match record {
        "and" => Query::And(Vec::new(alloc)).is_met(&Val::Null),
        "or" => Query::Or(Vec::new(alloc)).is_met(&Val::Null),
        _ => is_met(alloc, record)?,
    };
    Ok(format!(in alloc; "{met}")?)
}

#[test]
fn finds_the_boxes_of_shapes(rt: HostRuntime) -> Result<(), Fail> {
    plays(&rt, rt.alloc(), Reading::Own, BOXES)?;
    plays(&rt, rt.alloc(), Reading::Joined, JOINED)?;
    plays(&rt, rt.alloc(), Reading::Moved, MOVED)
}

#[test]
fn finds_children_and_trees_of_any_records(rt: HostRuntime) -> Result<(), Fail> {
    plays(&rt, rt.alloc(), Reading::Tree, TREES)?;
    plays(&rt, rt.alloc(), Reading::Levels, LEVELS)
}

#[test]
fn tells_which_records_meet_a_query(rt: HostRuntime) -> Result<(), Fail> {
    plays(&rt, rt.alloc(), Reading::Met, MET)
}
