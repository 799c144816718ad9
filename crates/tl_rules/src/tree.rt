//! What the tree of a page asks for.
//!
//! A tree asks for the children of the page, then for those of each child of the page in a row, and then for those of each
//! deeper shape that it lists, in that order. So it asks for little more than it lists, however many shapes there are below
//! the page; and in the row the next need is found at once. Where the row would be long it is left out.
ghost use Rattle.std.specs.Prelude.{◌≡◌, ◌-◌, IfOk, length};
ghost use Rattle.shape_tree.specs.Trees.{most_levels};
ghost use Rattle.tl_rules.specs.Answers.{ids_in};
ghost use Rattle.tl_rules.specs.Ids.{flat};
ghost use Rattle.tl_rules.specs.Plans.{asked, place_after};
ghost use Rattle.tl_rules.specs.Trees.{each, below, below_known, row_plan, page_plan, tree_plan};
ghost use Rattle.tl_rules.specs.Walks.{ids_view, id_view, room, HasWalked};

use crate::ids::{Ids, Part, id_at};
use crate::key::TlKey;
use crate::value::TlValue;
use rooms_val::{Mem, Text};
use shape_tree::limits::{MOST_LEVELS, MOST_SHAPES};
use signal_rules::Ask;
use std::alloc::Global;

// How many children of a page are asked in a row. Some of them may not be listed; so many more asks are allowed for.
const MOST_AT_ONCE: usize = 32_768;

// A walk through the answers of a tree's run, in the order in which they were asked for.
#[derive(Drop)]
struct Walk<'a> {
    // The answers that are left.
    rest: &'a [TlValue],
    // The shapes listed so far.
    ids: Vec<&'a Text>,
}

// What the tree of a page asks for.
pub(crate) fn ask_tree(alloc: Global, page: &Text, got: &[TlValue]) -> Mem<Ask<TlKey, TlValue>>
    ensures { IfOk result (λ a. a ≡ asked (tree_plan page.now) got.now) }
{
    let mut walk = Walk {
        rest: got,
        ids: Vec::new(alloc),
    };
    match list_page(&mut walk, page)? {
        Some(parent) => Ok(Ask::Need(TlKey::ByParent(parent.copy(alloc)?))),
        None => Ok(Ask::Done(TlValue::Ids(copies_of(alloc, &walk.ids)?))),
    }
}

// Lists the shapes below a page, or finds the one whose children are needed for that.
fn list_page<'a>(walk: &mut Walk<'a>, page: &'a Text) -> Mem<Option<&'a Text>>
    ensures { IfOk result (λ need. HasWalked (place_after
        (page_plan (most_levels - 2) (room (ids_view walk.old.ids.items)) page.now)
        walk.old.rest.now)
        (ids_view walk.old.ids.items) (ids_view walk.new.ids.items) walk.new.rest.now
        (id_view need)) }
{
    let Some((first, rest)) = walk.rest.split_first() else {
        return Ok(Some(page));
    };
    walk.rest = rest;
    list_row(walk, first)
}

// Lists the children of a page and the shapes below them, or finds the one whose children are needed for that.
fn list_row<'a>(walk: &mut Walk<'a>, row: &'a TlValue) -> Mem<Option<&'a Text>>
    ensures { IfOk result (λ need. HasWalked (place_after
        (row_plan (most_levels - 2) (room (ids_view walk.old.ids.items)) (ids_in row.now))
        walk.old.rest.now)
        (ids_view walk.old.ids.items) (ids_view walk.new.ids.items) walk.new.rest.now
        (id_view need)) }
{
    let children = row.parts();
    if row.count() > MOST_AT_ONCE {
        let need = list_each(walk, children, MOST_LEVELS - 1)?;
        return Ok(need);
    }
    if walk.rest.len() < row.count() {
        return Ok(id_at(children, walk.rest.len()));
    }
    let (known, rest) = walk.rest.split_at(row.count());
    walk.rest = rest;
    let need = list_known(walk, children, known, MOST_LEVELS - 2)?;
    Ok(need)
}

// Lists each child and the shapes so many levels below its children, which are known.
fn list_known<'a>(
    walk: &mut Walk<'a>,
    parts: &'a [Part],
    known: &'a [TlValue],
    levels: u8,
) -> Mem<Option<&'a Text>>
    requires { length known.now ≡ length (flat parts.now) }
    ensures { IfOk result (λ need. HasWalked (place_after
        (below_known levels (room (ids_view walk.old.ids.items)) (flat parts.now) known.now)
        walk.old.rest.now)
        (ids_view walk.old.ids.items) (ids_view walk.new.ids.items) walk.new.rest.now
        (id_view need)) }
{
    let mut left = known;
    'parts: for part in parts {
        'children: for child in part.as_slice() {
            let Some((row, others)) = left.split_first() else {
                unreachable!();
            };
            left = others;
            if walk.ids.len() >= MOST_SHAPES {
                return Ok(None);
            }
            walk.ids.push(child)?;
            if let Some(need) = list_each(walk, row.parts(), levels)? {
                return Ok(Some(need));
            }
        }
    }
    Ok(None)
}

// Lists the shapes so many levels below a parent, or finds the one whose children are needed for that.
#[cycle(walk)]
fn list_below<'a>(walk: &mut Walk<'a>, parent: &'a Text, levels: u8) -> Mem<Option<&'a Text>>
    ensures { IfOk result (λ need. HasWalked (place_after
        (below levels (room (ids_view walk.old.ids.items)) parent.now) walk.old.rest.now)
        (ids_view walk.old.ids.items) (ids_view walk.new.ids.items) walk.new.rest.now
        (id_view need)) }
{
    if levels == 0 {
        return Ok(None);
    }
    let Some((first, rest)) = walk.rest.split_first() else {
        return Ok(Some(parent));
    };
    walk.rest = rest;
    let need = list_each(walk, first.parts(), levels - 1)?;
    Ok(need)
}

// Lists each child and the shapes so many levels below it, or finds the one whose children are needed for that.
#[cycle(walk)]
fn list_each<'a>(walk: &mut Walk<'a>, parts: &'a [Part], levels: u8) -> Mem<Option<&'a Text>>
    ensures { IfOk result (λ need. HasWalked (place_after
        (each (λ id. id) (below levels) (room (ids_view walk.old.ids.items)) (flat parts.now))
        walk.old.rest.now)
        (ids_view walk.old.ids.items) (ids_view walk.new.ids.items) walk.new.rest.now
        (id_view need)) }
{
    'parts: for part in parts {
        'children: for child in part.as_slice() {
            if walk.ids.len() >= MOST_SHAPES {
                return Ok(None);
            }
            walk.ids.push(child)?;
            if let Some(need) = list_below(walk, child, levels)? {
                return Ok(Some(need));
            }
        }
    }
    Ok(None)
}

// Copies of the ids.
fn copies_of(alloc: Global, ids: &[&Text]) -> Mem<Ids>
    ensures { IfOk result (λ copies. copies ≡ ids_view ids.now) }
{
    let mut copies = Vec::with_capacity(alloc, ids.len())?;
    'ids: for id in ids {
        copies.push(id.copy(alloc)?)?;
    }
    Ids::of(alloc, copies)
}
