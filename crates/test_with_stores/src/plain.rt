//! What plain queries say of records, by walks of their own.
use crate::asked::box_text;
use crate::calls::text_at;
use crate::texts::{cut, names, text};
use doc_store::DocStore;
use rooms_val::{Mem, Text, Val};
use shape_tree::limits::MOST_LEVELS;
use shape_tree::{Rect, children, own_box, tree};
use std::alloc::Global;
use std::test::Fail;

// The records of a store, by their ids.
pub(crate) fn records<D: DocStore>(alloc: Global, store: &D) -> Mem<Vec<Val>> {
    let mut found = Vec::new(alloc);
    for id in &store.ids(alloc)? {
        if let Some(record) = store.get(id.as_str()) {
            found.push(record.copy(alloc)?)?;
        }
    }
    Ok(found)
}

// What the plain query of a text says of records.
pub(crate) fn plain_answer(alloc: Global, records: &[Val], query: &str) -> Result<String, Fail> {
    let (kind, id) = cut(query);
    match kind {
        "tree" => names(alloc, &tree(alloc, records, id)?),
        "count" => Ok(format!(in alloc; "{}", tree(alloc, records, id)?.len())?),
        "children" => names(alloc, &children(alloc, records, id)?),
        "bound" => names(alloc, &bindings_at(alloc, records, id)?),
        "box" => box_text(alloc, box_of(records, id)),
        _ => text(alloc, "no plain query"),
    }
}

// The bindings with an end at an id.
fn bindings_at(alloc: Global, records: &[Val], id: &str) -> Mem<Vec<Text>> {
    let mut found = Vec::new(alloc);
    for record in records {
        let is_bound = text_at(record, "fromId") == id || text_at(record, "toId") == id;
        if is_bound && text_at(record, "typeName") == "binding" {
            found.push(Text::of(alloc, text_at(record, "id"))?)?;
        }
    }
    Ok(found)
}

// The box of a shape with what hangs under it: around each shape from which at most 32 steps up lead to it.
fn box_of(records: &[Val], id: &str) -> Option<Rect> {
    let mut found = None;
    for record in records {
        found = with_steps_up(records, record, id, found);
    }
    found
}

// A box, with that of a shape at each step up that comes to the shape of an id. Each step moves it to the place of the shape
// to which it leads.
fn with_steps_up(records: &[Val], record: &Val, id: &str, mut found: Option<Rect>) -> Option<Rect> {
    let Some(mut inner) = own_box(record) else {
        return found;
    };
    let mut at = record;
    for _ in 0..=MOST_LEVELS {
        inner.x = inner.x.saturating_add(number_at(at, "x"));
        inner.y = inner.y.saturating_add(number_at(at, "y"));
        if text_at(at, "id") == id {
            found = Some(box_around(found, inner));
        }
        match record_of(records, text_at(at, "parentId")) {
            Some(parent) => at = parent,
            None => return found,
        }
    }
    found
}

// The whole number under a key of a record, and 0 where there is none.
fn number_at(record: &Val, key: &str) -> i64 {
    match record.get(key) {
        Some(found) => found.as_int().unwrap_or(0),
        None => 0,
    }
}

// The record with an id, if there is one.
fn record_of<'a>(records: &'a [Val], id: &str) -> Option<&'a Val> {
    for record in records {
        if text_at(record, "id") == id {
            return Some(record);
        }
    }
    None
}

// The least box around one, if there is one, and another.
fn box_around(one: Option<Rect>, other: Rect) -> Rect {
    let Some(one) = one else {
        return other;
    };
    let x = one.x.min(other.x);
    let y = one.y.min(other.y);
    let right = one
        .x
        .saturating_add(one.w)
        .max(other.x.saturating_add(other.w));
    let bottom = one
        .y
        .saturating_add(one.h)
        .max(other.y.saturating_add(other.h));
    Rect {
        x,
        y,
        w: right.saturating_sub(x),
        h: bottom.saturating_sub(y),
    }
}
