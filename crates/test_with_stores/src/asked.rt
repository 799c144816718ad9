//! What is asked of a store, watched and told, as texts.
ghost use Rattle.std.specs.Prelude.{◌≡◌, ◌<◌, []};
ghost use Rattle.record_store.specs.Seen.{begun};

use crate::texts::{cut, names, text};
use live_views::{WatchFault, WatchId, told, view, watch};
use record_store::RecordStore;
use rooms_val::{Mem, Steps, Text, Val};
use shape_tree::limits::MOST_LEVELS;
use shape_tree::{Rect, View};
use std::alloc::Global;
use std::marker::Brand;
use std::sync::ledger::{Blank, Ledger};
use std::test::Fail;
use test_with_cases::val_text;
use tl_rules::{Level, Part, TlKey, TlValue};

// The key of a text.
fn key(alloc: Global, asked: &str) -> Result<TlKey, Fail> {
    let (kind, id) = cut(asked);
    let id = Text::of(alloc, id)?;
    match kind {
        "record" => Ok(TlKey::Rec(id)),
        "children" => Ok(TlKey::ByParent(id)),
        "from" => Ok(TlKey::BoundFrom(id)),
        "to" => Ok(TlKey::BoundTo(id)),
        "bound" => Ok(TlKey::Bound(id)),
        "tree" => Ok(TlKey::Tree(id)),
        "count" => Ok(TlKey::Count(id)),
        "box" => Ok(TlKey::Box(id, Level::of(MOST_LEVELS))),
        _ => Err(Fail::from("no kind of a key")),
    }
}

// A record, if there is one.
pub(crate) fn maybe_text(alloc: Global, record: Option<&Val>) -> Result<String, Fail> {
    match record {
        Some(val) => val_text(alloc, val),
        None => text(alloc, "none"),
    }
}

// A box by its x, its y, its width and its height, if there is one.
pub(crate) fn box_text(alloc: Global, found: Option<Rect>) -> Result<String, Fail> {
    match found {
        Some(rect) => {
            let Rect { x, y, w, h } = rect;
            Ok(format!(in alloc; "{x} {y} {w} {h}")?)
        }
        None => text(alloc, "none"),
    }
}

// What a key came to.
fn value_text(alloc: Global, value: &TlValue) -> Result<String, Fail> {
    match value {
        TlValue::Rec(record) => maybe_text(alloc, record.as_ref()),
        TlValue::Ids(ids) => names(alloc, &copy_ids(alloc, ids.parts())?),
        TlValue::Number(number) => Ok(format!(in alloc; "{number}")?),
        TlValue::Rect(rect) => box_text(alloc, *rect),
    }
}

// Copies of the ids of some parts.
fn copy_ids(alloc: Global, parts: &[Part]) -> Mem<Vec<Text>> {
    let mut ids = Vec::new(alloc);
    for part in parts {
        for id in part.as_slice() {
            ids.push(id.copy(alloc)?)?;
        }
    }
    Ok(ids)
}

fn ask_in<L: Ledger>(
    blank: Blank,
    alloc: Global,
    store: &mut RecordStore,
    key: &TlKey,
) -> Result<String, Fail>
    requires name { blank.name ≡ L.name }
    requires parts { blank.parts ≡ L.parts }
    requires some { 0 < blank.parts }
{
    let mut steps = Steps::<L>::new(blank);
    value_text(alloc, store.ask(alloc, key, &mut steps)?)
}

// What the key of a text comes to. The steps are counted for nobody.
pub(crate) fn ask(alloc: Global, store: &mut RecordStore, asked: &str) -> Result<String, Fail> {
    let key = key(alloc, asked)?;
    ask_in::<Brand>(Blank::new(1), alloc, store, &key)
}

// The view of a text.
fn view_of(alloc: Global, asked: &str) -> Result<View, Fail> {
    let (kind, id) = cut(asked);
    let id = Text::of(alloc, id)?;
    match kind {
        "box" => Ok(View::Box(id)),
        "tree" => Ok(View::Tree(id)),
        "bound" => Ok(View::Bound(id)),
        "count" => Ok(View::Count(id)),
        _ => Err(Fail::from("no kind of a view")),
    }
}

fn view_in<L: Ledger>(
    blank: Blank,
    alloc: Global,
    store: &mut RecordStore,
    asked: &View,
) -> Result<String, Fail>
    requires name { blank.name ≡ L.name }
    requires parts { blank.parts ≡ L.parts }
    requires some { 0 < blank.parts }
{
    let mut steps = Steps::<L>::new(blank);
    val_text(alloc, &view(alloc, store, asked, &mut steps)?)
}

// What the view of a text tells. The steps are counted for nobody.
pub(crate) fn view_text(
    alloc: Global,
    store: &mut RecordStore,
    asked: &str,
) -> Result<String, Fail> {
    let asked = view_of(alloc, asked)?;
    view_in::<Brand>(Blank::new(1), alloc, store, &asked)
}

// Watches the view of a text, and tells the number.
pub(crate) fn watch_text(
    alloc: Global,
    store: &mut RecordStore,
    asked: &str,
) -> Result<String, Fail> {
    match watch(alloc, store, &view_of(alloc, asked)?) {
        Ok(id) => Ok(format!(in alloc; "{}", id.number)?),
        Err(WatchFault::Full) => text(alloc, "full"),
        Err(WatchFault::OutOfMemory) => Err(Fail::from("out of memory")),
    }
}

// Ends the watch of a number, if there is one.
pub(crate) fn unwatch(alloc: Global, store: &mut RecordStore, number: u32) -> Result<String, Fail> {
    let id = WatchId { number };
    if !store.is_watched(id) {
        return text(alloc, "not watched");
    }
    store.unwatch(id);
    text(alloc, "")
}

fn told_in<L: Ledger>(blank: Blank, alloc: Global, store: &mut RecordStore) -> Result<String, Fail>
    requires name { blank.name ≡ L.name }
    requires parts { blank.parts ≡ L.parts }
    requires some { 0 < blank.parts }
    requires closed { begun store.old ≡ [] }
{
    let mut steps = Steps::<L>::new(blank);
    let mut out = String::new(alloc);
    for (id, val) in &told(alloc, store, &mut steps)? {
        let part = val_text(alloc, val)?;
        add(alloc, &mut out, *id, part.as_str())?;
    }
    Ok(out)
}

// What the watches have to tell, where no transaction is open. The steps are counted for nobody.
pub(crate) fn told_text(alloc: Global, store: &mut RecordStore) -> Result<String, Fail> {
    if store.depth() > 0 {
        return text(alloc, "one is open");
    }
    told_in::<Brand>(Blank::new(1), alloc, store)
}

fn due_in<L: Ledger>(blank: Blank, alloc: Global, store: &mut RecordStore) -> Result<String, Fail>
    requires name { blank.name ≡ L.name }
    requires parts { blank.parts ≡ L.parts }
    requires some { 0 < blank.parts }
    requires closed { begun store.old ≡ [] }
{
    let mut steps = Steps::<L>::new(blank);
    let mut out = String::new(alloc);
    for (id, value) in &store.due(alloc, &mut steps)? {
        let part = value_text(alloc, value)?;
        add(alloc, &mut out, *id, part.as_str())?;
    }
    Ok(out)
}

// The same by the store's own call.
pub(crate) fn due_text(alloc: Global, store: &mut RecordStore) -> Result<String, Fail> {
    if store.depth() > 0 {
        return text(alloc, "one is open");
    }
    due_in::<Brand>(Blank::new(1), alloc, store)
}

// Adds what a watch has to tell.
fn add(alloc: Global, out: &mut String, id: WatchId, told: &str) -> Result<(), Fail> {
    let blank = if out.is_empty() { "" } else { " " };
    let part = format!(in alloc; "{blank}{}:{told}", id.number)?;
    out.push_str(part.as_str())?;
    Ok(())
}
