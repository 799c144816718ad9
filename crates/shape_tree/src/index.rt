//! The places of all shapes, sorted once, so that the children of a parent are a part of them.
ghost use Rattle.std.specs.Prelude.{◌≡◌, IfOk};
ghost use Rattle.rooms_val.specs.View.{items_view};
ghost use Rattle.shape_tree.specs.Records.{by_id};
ghost use Rattle.shape_tree.specs.View.{pairs_view};
ghost use Rattle.shape_tree.specs.Index.{places, places_view, place_order, under, Rises, IsIndex};

use crate::place::Place;
use crate::records::{Records, by_id, is_shape, text_or_empty};
use rooms_val::{Mem, Val};
use std::alloc::Global;

// The places of the shapes among the records, sorted. It costs what sorting them costs.
pub(crate) fn index_of<'a>(alloc: Global, vals: &'a [Val]) -> Mem<Vec<Place<'a>>>
    ensures { IfOk result
        (λ index. IsIndex (by_id (items_view vals.now)) (places_view index.items)) }
{
    let records = by_id(alloc, vals)?;
    let mut index = places_of(alloc, &records)?;
    index.sort_unstable();
    Ok(index)
}

// The places of the shapes among the records, by their ids.
fn places_of<'a>(alloc: Global, records: &Records<'a>) -> Mem<Vec<Place<'a>>>
    ensures { IfOk result
        (λ found. places_view found.items ≡ places (pairs_view records.now.entries)) }
{
    let mut found = Vec::new(alloc);
    'records: for (id, val) in records {
        if is_shape(id) {
            found.push(Place {
                parent: text_or_empty(val, "parentId"),
                index: text_or_empty(val, "index"),
                id,
            })?;
        }
    }
    Ok(found)
}

// The places under a parent. It costs a logarithm.
pub(crate) fn siblings<'v, 'a>(index: &'v [Place<'a>], parent: &str) -> &'v [Place<'a>]
    requires { Rises place_order (places_view index.now) }
    ensures { places_view result.now ≡ under parent.now (places_view index.now) }
{
    let start = index.partition_point(|place| place.parent < parent);
    let rest = &index[start..];
    let end = rest.partition_point(|place| place.parent <= parent);
    &rest[..end]
}
