//! The children of a page or shape, and its tree.
ghost use Rattle.std.specs.Prelude.{◌≡◌, ◌≤◌, IfOk, OnOk, map, vec_len};
ghost use Rattle.rooms_val.specs.View.{items_view};
ghost use Rattle.shape_tree.specs.Records.{by_id};
ghost use Rattle.shape_tree.specs.Trees.{children, tree, most_shapes};
ghost use Rattle.shape_tree.specs.Index.{places_view, place_order, Rises, AreListed};

use crate::index::{index_of, siblings};
use crate::limits::{MOST_LEVELS, MOST_SHAPES};
use crate::place::Place;
use rooms_val::{Mem, Text, Val};
use std::alloc::Global;

/// The shapes whose `parentId` is the parent, by index and then by id.
///
/// The records are any list: each counts under its `id`, where that is a text, and of two with one id the later one.
/// It costs the sorting of the records.
pub fn children(alloc: Global, records: &[Val], parent: &str) -> Mem<Vec<Text>>
    ensures { IfOk result
        (λ ids. ids.items ≡ children (by_id (items_view records.now)) parent.now) }
{
    let index = index_of(alloc, records)?;
    ids_of(alloc, siblings(&index, parent))
}

/// The shapes below a page: each child in order, and after it its own children in the same way, down to 32 levels; the
/// first 1,000,000 of them.
///
/// The records are any list, as for [`children`]. It costs the sorting of the records, and a logarithm for each shape
/// that it lists.
pub fn tree(alloc: Global, records: &[Val], page: &str) -> Mem<Vec<Text>>
    ensures { IfOk result (λ ids. ids.items ≡ tree (by_id (items_view records.now)) page.now) }
{
    let index = index_of(alloc, records)?;
    let mut ids = Vec::new(alloc);
    list_below(alloc, &index, page, MOST_LEVELS, &mut ids)?;
    Ok(ids)
}

// The shapes at some places.
fn ids_of(alloc: Global, places: &[Place]) -> Mem<Vec<Text>>
    ensures { IfOk result (λ ids. ids.items ≡ map (λ p. p.id) (places_view places.now)) }
{
    let mut ids = Vec::new(alloc);
    'places: for place in places {
        ids.push(Text::of(alloc, place.id)?)?;
    }
    Ok(ids)
}

// Adds the shapes so many levels below a parent, until there are as many as a tree lists.
fn list_below(
    alloc: Global,
    index: &[Place],
    parent: &str,
    levels: u8,
    ids: &mut Vec<Text>,
) -> Mem<()>
    requires rising { Rises place_order (places_view index.now) }
    requires room { vec_len ids.old ≤ most_shapes }
    ensures room { OnOk result (vec_len ids.new ≤ most_shapes) }
    ensures listed { OnOk result
        (AreListed levels (places_view index.now) parent.now ids.old.items ids.new.items) }
{
    if levels == 0 {
        return Ok(());
    }
    'children: for place in siblings(index, parent) {
        if ids.len() >= MOST_SHAPES {
            return Ok(());
        }
        ids.push(Text::of(alloc, place.id)?)?;
        list_below(alloc, index, place.id, levels - 1, ids)?;
    }
    Ok(())
}
