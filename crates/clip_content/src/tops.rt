//! The shapes of a clip whose parents weren't copied, in order, and their indices.
ghost use Rattle.std.specs.Prelude.{◌≡◌, ◌∷◌, IfOk, OnOk};
ghost use Rattle.index_keys.specs.Answers.{texts};
ghost use Rattle.rooms_val.specs.Data.{Pairs};
ghost use Rattle.rooms_val.specs.Maps.{AreRising};
ghost use Rattle.rooms_val.specs.View.{data_of};
ghost use Rattle.shape_tree.specs.Sorting.{in_order};
ghost use Rattle.shape_tree.specs.Trees.{sibling_order};
ghost use Rattle.clip_content.specs.Pasted.{is_top, tops, tops_among, top_siblings, indices_of};
ghost use Rattle.clip_content.specs.View.{clip_tree, spots_view};

use crate::clip::Clip;
use crate::records::{has, text_or_empty};
use rooms_val::{Fields, Mem, Text, Val};
use std::alloc::Global;
use std::collections::BTreeSet;

// Where a top stands among the tops. The order is by index, then by id.
#[derive(Clone, Copy, PartialEq, Eq, PartialOrd, Ord)]
pub(crate) struct Spot<'a> {
    // The index by which it came before or after others.
    index: &'a str,
    // Its id.
    id: &'a str,
}

// Whether the parent of a shape isn't copied.
pub(crate) fn is_top(clip: &Clip, val: &Val) -> bool
    ensures { result ≡ is_top (clip_tree clip.now) (data_of val.now) }
{
    !has(&clip.shapes, text_or_empty(val, "parentId"))
}

// The shapes whose parents weren't copied, by index and then by id.
pub(crate) fn tops(alloc: Global, clip: &Clip) -> Mem<Vec<Text>>
    ensures { IfOk result (λ ids. ids.items ≡ tops (clip_tree clip.now)) }
{
    let spots = spots_of(alloc, clip)?;
    let mut ids = Vec::new(alloc);
    'spots: for spot in &spots {
        ids.push(Text::of(alloc, spot.id)?)?;
    }
    Ok(ids)
}

// Where these stand.
fn spots_of<'a>(alloc: Global, clip: &'a Clip) -> Mem<BTreeSet<Spot<'a>>>
    ensures { IfOk result (λ spots. spots_view spots.keys
        ≡ in_order sibling_order (top_siblings (clip_tree clip.now))) }
{
    let mut spots = BTreeSet::new(alloc);
    let shapes = clip.shapes.as_slice();
    let mut left = shapes.len();
    'shapes: while left > 0 {
        left -= 1;
        let (id, val) = &shapes[left];
        add_top(&mut spots, clip, id.as_str(), val)?;
    }
    Ok(spots)
}

// Adds where a shape stands that comes before those that were looked at, if its parent isn't copied.
fn add_top<'a>(spots: &mut BTreeSet<Spot<'a>>, clip: &Clip, id: &'a str, val: &'a Val) -> Mem<()>
    ensures { OnOk result ((done : Pairs) → AreRising ((id.now, data_of val.now) ∷ done)
        → spots_view spots.old.keys ≡ in_order sibling_order (tops_among (clip_tree clip.now) done)
        → spots_view spots.new.keys ≡ in_order sibling_order
        (tops_among (clip_tree clip.now) ((id.now, data_of val.now) ∷ done))) }
{
    if is_top(clip, val) {
        let index = text_or_empty(val, "index");
        spots.insert(Spot { index, id })?;
    }
    Ok(())
}

// The key that stands where an id does, for each id.
pub(crate) fn indices_of(alloc: Global, ids: &[Text], keys: &[String]) -> Mem<Fields>
    ensures { IfOk result (λ indices. indices ≡ indices_of ids.now (texts keys.now)) }
{
    let mut indices = Fields::new(alloc);
    let mut place = 0;
    'ids: for id in ids {
        let Some(key) = keys.get(place) else {
            return Ok(indices);
        };
        indices.put(id.copy(alloc)?, Val::Text(Text::of(alloc, key.as_str())?))?;
        place += 1;
    }
    Ok(indices)
}
