//! What the box of a shape asks for.
ghost use Rattle.std.specs.Prelude.{◌≡◌, ◌^◌, ◌≤◌, length, map, take, option_map, IfOk, IfSome};
ghost use Rattle.rooms_val.specs.View.{data_of};
ghost use Rattle.shape_tree.specs.Boxes.{moved, all_joined, AreWithin, HasSidesWithin};
ghost use Rattle.shape_tree.specs.Records.{is_shape};
ghost use Rattle.shape_tree.specs.Trees.{most_shapes};
ghost use Rattle.shape_tree.specs.View.{maybe_data};
ghost use Rattle.tl_rules.specs.Plans.{asked};
ghost use Rattle.tl_rules.specs.Answers.{box_in};
ghost use Rattle.tl_rules.specs.Boxes.{shape_in, box_plan, joined_boxes};

use crate::ids::id_at;
use crate::key::TlKey;
use crate::level::Level;
use crate::value::TlValue;
use record_valid::id_type;
use rooms_val::{Mem, Text, Val};
use shape_tree::limits::MOST_SHAPES;
use shape_tree::{Rect, join_box, move_box, own_box};
use signal_rules::Ask;
use std::alloc::Global;

// What the box of a shape with what is so many levels below it asks for: the record, and if that is a shape the children
// and the box of each.
pub(crate) fn ask_box(
    alloc: Global,
    id: &Text,
    level: Level,
    got: &[TlValue],
) -> Mem<Ask<TlKey, TlValue>>
    ensures { IfOk result (λ a. a ≡ asked (box_plan id.now level) got.now) }
{
    let Some((record, rest)) = got.split_first() else {
        return Ok(Ask::Need(TlKey::Rec(id.copy(alloc)?)));
    };
    let Some(shape) = shape_in(id, record) else {
        return Ok(Ask::Done(TlValue::Rect(None)));
    };
    if level.number() == 0 {
        return Ok(Ask::Done(boxes_joined(shape, &[])));
    }
    let Some((below, boxes)) = rest.split_first() else {
        return Ok(Ask::Need(TlKey::ByParent(id.copy(alloc)?)));
    };
    let children = below.count().min(MOST_SHAPES);
    if boxes.len() < children {
        let Some(child) = id_at(below.parts(), boxes.len()) else {
            unreachable!();
        };
        let child = child.copy(alloc)?;
        return Ok(Ask::Need(TlKey::Box(child, Level::of(level.number() - 1))));
    }
    Ok(Ask::Done(boxes_joined(shape, &boxes[..children])))
}

// The shape that the answer is, under the id.
fn shape_in<'a>(id: &Text, answer: &'a TlValue) -> Option<&'a Val>
    ensures { maybe_data result ≡ shape_in id.now answer.now }
{
    if is_shape(id.as_str()) {
        answer.record()
    } else {
        None
    }
}

// Whether the id is one of a shape.
fn is_shape(id: &str) -> bool
    ensures { result ≡ is_shape id.now }
{
    match id_type(id) {
        Some(name) => name == "shape",
        None => false,
    }
}

// The box of the shape by itself and these, at the place of the shape.
fn boxes_joined(shape: &Val, boxes: &[TlValue]) -> TlValue
    ensures { result ≡ joined_boxes (data_of shape.now) boxes.now }
{
    match join_all(own_box(shape), boxes) {
        Some(inner) => TlValue::Rect(Some(move_box(shape, inner))),
        None => TlValue::Rect(None),
    }
}

// The least rectangle around the first and the others that are boxes.
fn join_all(own: Option<Rect>, boxes: &[TlValue]) -> Option<Rect>
    requires { IfSome own (HasSidesWithin (2 ^ 59)) }
    ensures value { result ≡ all_joined own (map box_in boxes.now) }
    ensures small { IfSome result (AreWithin (2 ^ 60)) }
{
    let mut found = own;
    'boxes: for answer in boxes {
        found = join_box(found, answer.rect());
    }
    found
}
