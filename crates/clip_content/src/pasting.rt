//! The records of a clip as they are pasted.
ghost use Rattle.std.specs.Prelude.{◌≡◌, ◌++◌, ◌+ℤ◌, codes, Some, IfOk, OnOk};
ghost use Rattle.rooms_val.specs.Data.{whole};
ghost use Rattle.rooms_val.specs.Json.{greatest_whole};
ghost use Rattle.rooms_val.specs.View.{data_of};
ghost use Rattle.shape_tree.specs.Boxes.{coordinate, IsWithin};
ghost use Rattle.clip_content.specs.Pasted.{with_field, moved_by, pasted_inner, pasted_top, pasted_shape, pasted_binding, pasted_shapes, pasted_bindings, put_each, puts};
ghost use Rattle.clip_content.specs.View.{clip_tree, target_tree};

use crate::clip::Clip;
use crate::new_ids::{new_binding, new_shape};
use crate::records::{coordinate, text_or_empty, with_field};
use crate::target::Target;
use crate::tops::is_top;
use field_ops::{Diff, RecordOp};
use rooms_val::{Fields, Mem, Text, Val};
use std::alloc::Global;

// The diff that puts the records of a clip as they are pasted.
pub(crate) fn puts(alloc: Global, clip: &Clip, target: &Target, indices: &Fields) -> Mem<Diff>
    requires dx { IsWithin greatest_whole target.now.dx }
    requires dy { IsWithin greatest_whole target.now.dy }
    ensures { IfOk result (λ diff. diff
        ≡ puts (pasted_bindings (clip_tree clip.now) (target_tree target.now)
        ++ pasted_shapes (clip_tree clip.now) (target_tree target.now) indices.now)) }
{
    let mut diff = Diff::new(alloc);
    put_bindings(alloc, clip, target, &mut diff)?;
    put_shapes(alloc, clip, target, indices, &mut diff)?;
    Ok(diff)
}

// Adds the puts of the bindings.
fn put_bindings(alloc: Global, clip: &Clip, target: &Target, diff: &mut Diff) -> Mem<()>
    ensures { OnOk result (diff.new
        ≡ put_each diff.old (pasted_bindings (clip_tree clip.now) (target_tree target.now))) }
{
    'bindings: for (id, val) in clip.bindings.as_slice() {
        let new = new_binding(alloc, clip, target, id.as_str())?;
        let pasted = pasted_binding(alloc, clip, target, id.as_str(), val)?;
        diff.put(new, RecordOp::Put(pasted))?;
    }
    Ok(())
}

// Adds the puts of the shapes.
fn put_shapes(
    alloc: Global,
    clip: &Clip,
    target: &Target,
    indices: &Fields,
    diff: &mut Diff,
) -> Mem<()>
    requires dx { IsWithin greatest_whole target.now.dx }
    requires dy { IsWithin greatest_whole target.now.dy }
    ensures { OnOk result (diff.new
        ≡ put_each diff.old
        (pasted_shapes (clip_tree clip.now) (target_tree target.now) indices.now)) }
{
    'shapes: for (id, val) in clip.shapes.as_slice() {
        let new = new_shape(alloc, clip, target, id.as_str())?;
        let pasted = pasted_shape(alloc, clip, target, indices, id.as_str(), val)?;
        diff.put(new, RecordOp::Put(pasted))?;
    }
    Ok(())
}

// A shape as it is pasted, with the indices of the tops.
fn pasted_shape(
    alloc: Global,
    clip: &Clip,
    target: &Target,
    indices: &Fields,
    id: &str,
    val: &Val,
) -> Mem<Val>
    requires dx { IsWithin greatest_whole target.now.dx }
    requires dy { IsWithin greatest_whole target.now.dy }
    ensures { IfOk result (λ pasted. data_of pasted
        ≡ pasted_shape (clip_tree clip.now) (target_tree target.now) indices.now
        (id.now, data_of val.now)) }
{
    if is_top(clip, val) {
        let index = indices.text_at(id).unwrap_or("");
        pasted_top(alloc, clip, target, index, id, val)
    } else {
        pasted_inner(alloc, clip, target, id, val)
    }
}

// A shape with its new id, under the new id of its parent.
fn pasted_inner(alloc: Global, clip: &Clip, target: &Target, id: &str, val: &Val) -> Mem<Val>
    ensures { IfOk result (λ pasted. data_of pasted
        ≡ pasted_inner (clip_tree clip.now) (target_tree target.now) id.now (data_of val.now)) }
{
    let new = new_shape(alloc, clip, target, id)?;
    let parent = new_shape(alloc, clip, target, text_or_empty(val, "parentId"))?;
    with_place(alloc, Val::Text(new), Val::Text(parent), val.copy(alloc)?)
}

// A shape with its new id, under the parent of the paste, moved, and with an index.
fn pasted_top(
    alloc: Global,
    clip: &Clip,
    target: &Target,
    index: &str,
    id: &str,
    val: &Val,
) -> Mem<Val>
    requires dx { IsWithin greatest_whole target.now.dx }
    requires dy { IsWithin greatest_whole target.now.dy }
    ensures { IfOk result (λ pasted. data_of pasted
        ≡ pasted_top (clip_tree clip.now) (target_tree target.now) index.now id.now
        (data_of val.now)) }
{
    let new = new_shape(alloc, clip, target, id)?;
    let parent = Text::of(alloc, target.parent)?;
    let moved = moved_by(alloc, target, val)?;
    let placed = with_place(alloc, Val::Text(new), Val::Text(parent), moved)?;
    let index = Text::of(alloc, index)?;
    with_field(alloc, "index", Val::Text(index), placed)
}

// The shape with an id and a parent.
fn with_place(alloc: Global, id: Val, parent: Val, val: Val) -> Mem<Val>
    ensures { IfOk result (λ placed. data_of placed
        ≡ with_field (codes "parentId") (data_of parent)
        (with_field (codes "id") (data_of id) (data_of val))) }
{
    let named = with_field(alloc, "id", id, val)?;
    with_field(alloc, "parentId", parent, named)
}

// The shape moved as far as a paste moves the tops.
fn moved_by(alloc: Global, target: &Target, val: &Val) -> Mem<Val>
    requires dx { IsWithin greatest_whole target.now.dx }
    requires dy { IsWithin greatest_whole target.now.dy }
    ensures { IfOk result (λ moved. data_of moved
        ≡ moved_by target.now.dx target.now.dy (data_of val.now)) }
{
    let moved = with_field(alloc, "x", moved_x(target, val), val.copy(alloc)?)?;
    with_field(alloc, "y", moved_y(target, val), moved)
}

// The first coordinate, moved so.
fn moved_x(target: &Target, val: &Val) -> Val
    requires { IsWithin greatest_whole target.now.dx }
    ensures { data_of result
        ≡ whole (coordinate (Some (data_of val.now)) (codes "x") +ℤ target.now.dx) }
{
    Val::Int(coordinate(val, "x") + target.dx)
}

// The second coordinate, moved so.
fn moved_y(target: &Target, val: &Val) -> Val
    requires { IsWithin greatest_whole target.now.dy }
    ensures { data_of result
        ≡ whole (coordinate (Some (data_of val.now)) (codes "y") +ℤ target.now.dy) }
{
    Val::Int(coordinate(val, "y") + target.dy)
}

// A binding with its new id, between the new ids of its ends.
fn pasted_binding(alloc: Global, clip: &Clip, target: &Target, id: &str, val: &Val) -> Mem<Val>
    ensures { IfOk result (λ pasted. data_of pasted
        ≡ pasted_binding (clip_tree clip.now) (target_tree target.now) (id.now, data_of val.now)) }
{
    let new = new_binding(alloc, clip, target, id)?;
    let from = new_shape(alloc, clip, target, text_or_empty(val, "fromId"))?;
    let to = new_shape(alloc, clip, target, text_or_empty(val, "toId"))?;
    let named = with_field(alloc, "id", Val::Text(new), val.copy(alloc)?)?;
    let begun = with_field(alloc, "fromId", Val::Text(from), named)?;
    with_field(alloc, "toId", Val::Text(to), begun)
}
