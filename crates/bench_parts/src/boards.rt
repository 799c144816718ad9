//! Boards whose views are told, whose shapes are put in one transaction, and which are queried.
ghost use Rattle.std.specs.Prelude.{◌≡◌, []};
ghost use Rattle.record_store.specs.Seen.{begun};

use crate::made::{patch, record_of};
use crate::touching::Calls;
use doc_store::DocStore;
use field_index::FieldIndex;
use field_ops::apply_record;
use live_views::{told, watch};
use record_store::RecordStore;
use rooms_val::{Mem, OutOfMemory, Steps, Text, Val};
use shape_tree::{Query, View};
use std::alloc::Global;
use std::sync::ledger::Ledger;
use store_query::refresh;

/// The page on which everything stands.
const PAGE: &str = "page:p";

/// The frame whose box is watched.
const FIRST_FRAME: &str = "shape:frame0";

/// A shape of 10 by 10 without id and parent.
const SHAPE: &str =
    r#"{"index":"a0","props":{"h":10,"w":10},"type":"geo","typeName":"shape","x":0,"y":0}"#;

/// How many shapes hang under a frame.
const OF_A_FRAME: u32 = 40;

/// How many shapes have one x.
const OF_AN_X: u32 = 10;

/// What is done with a new store.
#[derive(Clone, Copy)]
pub(crate) enum Work {
    /// A board is put, and watched while its shapes are moved.
    View,
    /// The shapes are put on one page, in one transaction.
    Put,
    /// A board is put, and queried with an index.
    Seek,
    /// The same without an index.
    Walk,
}

/// Does the work with a new store and the shapes of these ids. It returns what the work comes to.
pub(crate) fn do_work<L: Ledger>(
    work: Work,
    alloc: Global,
    ids: &[Text],
    calls: Calls,
    steps: &mut Steps<L>,
) -> Mem<i64> {
    let mut store = RecordStore::new(alloc)?;
    match work {
        Work::View => move_and_tell(alloc, &mut store, ids, calls, steps),
        Work::Put => put(alloc, &mut store, ids, steps),
        Work::Seek => seek_times(alloc, &mut store, ids, calls, steps),
        Work::Walk => walk_times(alloc, &mut store, ids, calls, steps),
    }
}

/// Puts the shapes into a new store at each call. It returns how many records the stores have.
pub(crate) fn put_times<L: Ledger>(
    alloc: Global,
    ids: &[Text],
    calls: Calls,
    steps: &mut Steps<L>,
) -> Mem<i64> {
    let mut sum = 0i64;
    for _ in 0..calls.count {
        sum = sum.saturating_add(do_work(Work::Put, alloc, ids, calls, steps)?);
    }
    Ok(sum)
}

/// Moves one of the shapes of a board at each call, and has the watches of a count and of a frame's box tell what changed. It
/// returns how much they told.
fn move_and_tell<L: Ledger>(
    alloc: Global,
    store: &mut RecordStore,
    ids: &[Text],
    calls: Calls,
    steps: &mut Steps<L>,
) -> Mem<i64> {
    put_board(alloc, store, ids, steps)?;
    watch_view(alloc, store, &View::Count(Text::of(alloc, PAGE)?))?;
    watch_view(alloc, store, &View::Box(Text::of(alloc, FIRST_FRAME)?))?;
    let mut sum = told_now(alloc, store, steps)?;
    for call in 0..calls.count {
        if let Some(id) = calls.id(ids, call) {
            move_to(alloc, store, id, i64::from(call), steps)?;
            sum = sum.saturating_add(told_now(alloc, store, steps)?);
        }
    }
    Ok(sum)
}

/// Puts the shapes on one page, in one transaction. It returns how many records the store has.
fn put<L: Ledger>(
    alloc: Global,
    store: &mut RecordStore,
    ids: &[Text],
    steps: &mut Steps<L>,
) -> Mem<i64> {
    begin(store)?;
    for id in ids {
        put_shape(alloc, store, id, PAGE, steps)?;
    }
    if store.depth() > 0 {
        store.commit();
    }
    Ok(count_of(&store.ids(alloc)?))
}

/// Asks a board at each call for the shapes with one x, with an index. It returns how many there were.
fn seek_times<L: Ledger>(
    alloc: Global,
    store: &mut RecordStore,
    ids: &[Text],
    calls: Calls,
    steps: &mut Steps<L>,
) -> Mem<i64> {
    put_board(alloc, store, ids, steps)?;
    let mut index = FieldIndex::new(alloc, Text::of(alloc, "shape")?, Text::of(alloc, "x")?);
    if store.depth() == 0 {
        refresh(&mut index, alloc, store)?;
    }
    count_of_x(alloc, store, ids, calls, Some(&index))
}

/// The same without an index.
fn walk_times<L: Ledger>(
    alloc: Global,
    store: &mut RecordStore,
    ids: &[Text],
    calls: Calls,
    steps: &mut Steps<L>,
) -> Mem<i64> {
    put_board(alloc, store, ids, steps)?;
    count_of_x(alloc, store, ids, calls, None)
}

/// How many shapes have the x of each call.
fn count_of_x(
    alloc: Global,
    store: &RecordStore,
    ids: &[Text],
    calls: Calls,
    index: Option<&FieldIndex>,
) -> Mem<i64> {
    let count = u32::try_from(ids.len()).unwrap_or(u32::MAX);
    let mut sum = 0i64;
    for call in 0..calls.count {
        let x = calls.number(count, call) / OF_AN_X;
        let query = Query::Eq(Text::of(alloc, "x")?, Val::Int(i64::from(x)));
        let found = store_query::ids(alloc, &query, store, "shape", index)?;
        sum = sum.saturating_add(count_of(&found));
    }
    Ok(sum)
}

/// How many ids there are.
fn count_of(ids: &[Text]) -> i64 {
    i64::try_from(ids.len()).unwrap_or(i64::MAX)
}

/// Puts frames on a page, and in each frame forty of the shapes of these ids, ten at each x.
fn put_board<L: Ledger>(
    alloc: Global,
    store: &mut RecordStore,
    ids: &[Text],
    steps: &mut Steps<L>,
) -> Mem<()> {
    let mut number = 0u32;
    for id in ids {
        let frame = format!(in alloc; "shape:frame{}", number / OF_A_FRAME)?;
        let frame = Text::of(alloc, frame.as_str())?;
        if number % OF_A_FRAME == 0 {
            put_shape(alloc, store, &frame, PAGE, steps)?;
        }
        put_shape(alloc, store, id, frame.as_str(), steps)?;
        move_to(alloc, store, id, i64::from(number / OF_AN_X), steps)?;
        number = number.saturating_add(1);
    }
    Ok(())
}

/// Puts a shape under an id and a parent.
fn put_shape<L: Ledger>(
    alloc: Global,
    store: &mut RecordStore,
    id: &Text,
    parent: &str,
    steps: &mut Steps<L>,
) -> Mem<()> {
    let rows = [("id", id.as_str()), ("parentId", parent)];
    write(alloc, store, id, record_of(alloc, SHAPE, &rows)?, steps)
}

/// Moves the shape of an id by a patch.
fn move_to<L: Ledger>(
    alloc: Global,
    store: &mut RecordStore,
    id: &Text,
    x: i64,
    steps: &mut Steps<L>,
) -> Mem<()> {
    let op = patch(alloc, "x", Val::Int(x))?;
    match apply_record(alloc, store.get(id.as_str()), &op)? {
        Some(moved) => write(alloc, store, id, moved, steps),
        None => Ok(()),
    }
}

/// Sets the record of an id.
fn write<L: Ledger>(
    alloc: Global,
    store: &mut RecordStore,
    id: &Text,
    written: Val,
    steps: &mut Steps<L>,
) -> Mem<()> {
    drop(store.replace(alloc, id.as_str(), Some(written), steps)?);
    Ok(())
}

/// Opens a transaction; that there are too many can't be.
fn begin(store: &mut RecordStore) -> Mem<()> {
    match store.begin() {
        Ok(()) => Ok(()),
        Err(_) => Err(OutOfMemory),
    }
}

/// Watches a view; that there are too many can't be.
fn watch_view(alloc: Global, store: &mut RecordStore, view: &View) -> Mem<()> {
    match watch(alloc, store, view) {
        Ok(_) => Ok(()),
        Err(_) => Err(OutOfMemory),
    }
}

/// How much the watches have to tell, where no transaction is open.
fn told_now<L: Ledger>(alloc: Global, store: &mut RecordStore, steps: &mut Steps<L>) -> Mem<i64> {
    if store.depth() > 0 {
        return Ok(0);
    }
    let told = told(alloc, store, steps)?;
    Ok(i64::try_from(told.len()).unwrap_or(i64::MAX))
}
