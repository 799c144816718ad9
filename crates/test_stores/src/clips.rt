//! Copies of shapes and their pastes.
ghost use Rattle.std.specs.Prelude.{◌^◌, IfOk, ◌≤ℤ◌, pos, neg_ℤ};
ghost use Rattle.shape_tree.specs.Boxes.{IsWithin};
ghost use Rattle.rooms_val.specs.Json.{greatest_whole};

use crate::tables::{Reading, plays};
use clip_content::{Clip, ClipFault, PasteFault};
use field_ops::diff_val;
use rooms_val::{Fields, Text, Val};
use std::alloc::Global;
use std::test::Fail;
use test_with_cases::{val_text, value};

// A document, the ids that are copied, the document of the paste (the first one where it is null), the prefix, the parent,
// and how far the tops are moved; and the diff, or the fault.
const PASTES: &str = r#"
# One shape: a new id, an index behind the others, and another place.
{"of":{"page:p":{"id":"page:p"},"shape:a":{"id":"shape:a","index":"a0","parentId":"page:p","x":0,"y":0}},"ids":["shape:a"],"to":null,"prefix":"q","parent":"page:p","dx":10,"dy":10} | {"shape:q0000":["put",{"id":"shape:q0000","index":"a1","parentId":"page:p","x":10,"y":10}]}
# A frame with a shape and an arrow from it, beside a shape that isn't copied.
{"of":{"binding:1":{"fromId":"shape:w","id":"binding:1","toId":"shape:a"},"binding:2":{"fromId":"shape:w","id":"binding:2","toId":"shape:c"},"shape:a":{"id":"shape:a","index":"a0","parentId":"shape:f","x":1,"y":1},"shape:c":{"id":"shape:c","index":"a1","parentId":"page:p"},"shape:f":{"id":"shape:f","index":"a0","parentId":"page:p","x":0,"y":0},"shape:w":{"id":"shape:w","index":"a2","parentId":"page:p","x":0,"y":0}},"ids":["shape:f","shape:w"],"to":null,"prefix":"q","parent":"page:p","dx":0,"dy":0} | {"binding:q0000":["put",{"fromId":"shape:q0002","id":"binding:q0000","toId":"shape:q0000"}],"shape:q0000":["put",{"id":"shape:q0000","index":"a0","parentId":"shape:q0001","x":1,"y":1}],"shape:q0001":["put",{"id":"shape:q0001","index":"a3","parentId":"page:p","x":0,"y":0}],"shape:q0002":["put",{"id":"shape:q0002","index":"a4","parentId":"page:p","x":0,"y":0}]}
# A frame in a frame and an arrow bound to both, into another document: only the outer frame is moved.
{"of":{"binding:1":{"fromId":"shape:w","id":"binding:1","toId":"shape:f"},"binding:2":{"fromId":"shape:w","id":"binding:2","toId":"shape:g"},"shape:f":{"id":"shape:f","index":"a0","parentId":"page:p","x":5,"y":5},"shape:g":{"id":"shape:g","index":"a1","parentId":"shape:f","x":1,"y":1},"shape:w":{"id":"shape:w","index":"a0","parentId":"shape:g","x":2,"y":2}},"ids":["shape:f"],"to":{"page:1":{"id":"page:1"}},"prefix":"q_","parent":"page:1","dx":-7,"dy":2} | {"binding:q_0000":["put",{"fromId":"shape:q_0002","id":"binding:q_0000","toId":"shape:q_0000"}],"binding:q_0001":["put",{"fromId":"shape:q_0002","id":"binding:q_0001","toId":"shape:q_0001"}],"shape:q_0000":["put",{"id":"shape:q_0000","index":"a0","parentId":"page:1","x":-2,"y":7}],"shape:q_0001":["put",{"id":"shape:q_0001","index":"a1","parentId":"shape:q_0000","x":1,"y":1}],"shape:q_0002":["put",{"id":"shape:q_0002","index":"a0","parentId":"shape:q_0001","x":2,"y":2}]}
# A child and its parent: one top. Onto the parent of what was copied, and tops by index, not by id.
{"of":{"shape:a":{"id":"shape:a","index":"a2","parentId":"shape:f","x":0,"y":0},"shape:b":{"id":"shape:b","index":"a1","parentId":"shape:f","x":0,"y":0},"shape:c":{"id":"shape:c","index":"a0","parentId":"shape:b"},"shape:f":{"id":"shape:f","index":"a0","parentId":"page:p"}},"ids":["shape:c","shape:a","shape:b"],"to":null,"prefix":"q","parent":"shape:f","dx":1,"dy":1} | {"shape:q0000":["put",{"id":"shape:q0000","index":"a4","parentId":"shape:f","x":1,"y":1}],"shape:q0001":["put",{"id":"shape:q0001","index":"a3","parentId":"shape:f","x":1,"y":1}],"shape:q0002":["put",{"id":"shape:q0002","index":"a0","parentId":"shape:q0001"}]}
# Fields of wrong kinds, and what is no map.
{"of":{"shape:a":{"id":"shape:a","index":7,"parentId":["page:p"],"x":"1"},"shape:b":null},"ids":["shape:a","shape:b"],"to":null,"prefix":"q","parent":"page:p","dx":3,"dy":4} | {"shape:q0000":["put",{"id":"shape:q0000","index":"a0","parentId":"page:p","x":3,"y":4}],"shape:q0001":["put",null]}
# Nothing.
{"of":{},"ids":[],"to":null,"prefix":"q","parent":"page:p","dx":0,"dy":0} | {}
# Refusals, by the first cause.
{"of":{"shape:a":{}},"ids":["shape:a","shape:a","shape:z","shape:y"],"to":null,"prefix":"q","parent":"page:p","dx":0,"dy":0} | NoShape shape:z
{"of":{"page:p":{}},"ids":["page:p"],"to":null,"prefix":"q","parent":"page:p","dx":0,"dy":0} | NoShape page:p
{"of":{"shape:a":{},"shape:b":{}},"ids":["shape:a","shape:b","shape:b","shape:a"],"to":null,"prefix":"q","parent":"page:p","dx":0,"dy":0} | Doubled shape:b
{"of":{"binding:1":{"fromId":"shape:a","toId":"shape:a"},"shape:a":{}},"ids":["shape:a"],"to":{"binding:q0000":{},"shape:q0000":{}},"prefix":"q","parent":"page:p","dx":0,"dy":0} | Taken binding:q0000
{"of":{"shape:a":{},"shape:b":{}},"ids":["shape:a","shape:b"],"to":{"shape:c":{"index":"?","parentId":"page:p"},"shape:q0001":{}},"prefix":"q","parent":"page:p","dx":0,"dy":0} | Taken shape:q0001
{"of":{"shape:a":{}},"ids":["shape:a"],"to":{"shape:c":{"index":"?","parentId":"page:p"}},"prefix":"q","parent":"page:p","dx":0,"dy":0} | NoKey NotKey
"#;

// So many shapes under one, and how many puts their paste has.
const COUNTS: &str = r#"
4095 | 4096
4096 | TooMany
"#;

// What a paste makes of a copy.
pub(crate) fn paste_text(alloc: Global, text: &str) -> Result<String, Fail> {
    let case = value(alloc, text)?;
    let of = map_under(alloc, &case, "of")?;
    let ids = ids_under(alloc, &case, "ids")?;
    match Clip::take(alloc, &of, &ids) {
        Ok(clip) => paste_clip(alloc, &clip, &case, &of),
        Err(ClipFault::NoShape(id)) => Ok(format!(in alloc; "NoShape {}", id.as_str())?),
        Err(ClipFault::Doubled(id)) => Ok(format!(in alloc; "Doubled {}", id.as_str())?),
        Err(fault) => Ok(format!(in alloc; "{fault:?}")?),
    }
}

// What a clip is pasted to.
fn paste_clip(alloc: Global, clip: &Clip, case: &Val, of: &Fields) -> Result<String, Fail> {
    let other = map_under(alloc, case, "to")?;
    let to = if case.get("to").and_then(|to| to.as_map()).is_some() {
        &other
    } else {
        of
    };
    let prefix = text_under(case, "prefix");
    let parent = text_under(case, "parent");
    let found = clip.paste(
        alloc,
        to,
        prefix,
        parent,
        step(case, "dx"),
        step(case, "dy"),
    );
    match found {
        Ok(diff) => val_text(alloc, &diff_val(alloc, &diff)?),
        Err(PasteFault::Taken(id)) => Ok(format!(in alloc; "Taken {}", id.as_str())?),
        Err(PasteFault::NoKey(fault)) => Ok(format!(in alloc; "NoKey {fault:?}")?),
        Err(fault) => Ok(format!(in alloc; "{fault:?}")?),
    }
}

// The map under a key, and the empty one if there is none.
fn map_under(alloc: Global, val: &Val, key: &str) -> Result<Fields, Fail> {
    match val.get(key).and_then(|found| found.as_map()) {
        Some(fields) => Ok(fields.copy(alloc)?),
        None => Ok(Fields::new(alloc)),
    }
}

// The text under a key, and the empty one if there is none.
fn text_under<'a>(val: &'a Val, key: &str) -> &'a str {
    val.get(key).and_then(|found| found.as_text()).unwrap_or("")
}

// The ids under a key.
fn ids_under(alloc: Global, val: &Val, key: &str) -> Result<Vec<Text>, Fail> {
    let mut ids = Vec::new(alloc);
    if let Some(Val::List(items)) = val.get(key) {
        for item in items.as_slice() {
            ids.push(Text::of(alloc, item.as_text().unwrap_or(""))?)?;
        }
    }
    Ok(ids)
}

// The number under a key, which is taken to be within 1,000,000 on either side of 0.
fn step(val: &Val, key: &str) -> i64
    ensures { IsWithin greatest_whole result }
{
    let number = val.get(key).and_then(|found| found.as_int()).unwrap_or(0);
    number.clamp(-1_000_000, 1_000_000)
}

// How many operations the paste of so many shapes under one has.
pub(crate) fn counts_text(alloc: Global, count: &str) -> Result<String, Fail> {
    let mut of = Fields::new(alloc);
    for place in 0..count.parse::<u32>()? {
        let id = format!(in alloc; "shape:{place:04}")?;
        drop(of.put(
            Text::of(alloc, id.as_str())?,
            value(alloc, r#"{"parentId":"shape:top"}"#)?,
        )?);
    }
    drop(of.put(Text::of(alloc, "shape:top")?, Val::Null)?);
    let ids = [Text::of(alloc, "shape:top")?];
    match Clip::take(alloc, &of, &ids) {
        Ok(clip) => {
            let diff = clip.paste(alloc, &of, "q", "page:p", 0, 0);
            match diff {
                Ok(diff) => Ok(format!(in alloc; "{}", diff.len())?),
                Err(fault) => Ok(format!(in alloc; "{fault:?}")?),
            }
        }
        Err(ClipFault::TooMany) => Ok(String::from_str(alloc, "TooMany")?),
        Err(fault) => Ok(format!(in alloc; "{fault:?}")?),
    }
}

#[test]
fn pastes_what_was_copied(rt: HostRuntime) -> Result<(), Fail> {
    plays(&rt, rt.alloc(), Reading::Paste, PASTES)?;
    plays(&rt, rt.alloc(), Reading::Counts, COUNTS)
}
