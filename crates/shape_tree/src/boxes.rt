//! The boxes of shapes by themselves, and where they are.
ghost use Rattle.std.specs.Prelude.{◌≡◌, ◌^◌, ◌≤ℤ◌, pos, option_and_then, IfSome};
ghost use Rattle.rooms_val.specs.Kinds.{as_whole};
ghost use Rattle.rooms_val.specs.Json.{greatest_whole};
ghost use Rattle.rooms_val.specs.View.{data_of, items_view};
ghost use Rattle.shape_tree.specs.View.{maybe_data};
ghost use Rattle.shape_tree.specs.Boxes.{under, number_from, coordinate, size, point, points, box_of_size, box_of_points, box_of_ends, own_box, moved, IsWithin, AreWithin, HasSidesWithin};

use crate::records::text_or_empty;
use crate::rect::{Rect, around, join_box};
use rooms_val::Val;
use rooms_val::limits::GREATEST_WHOLE;

/// The box of a shape by itself, as seen from its own place: by its size, around its points, or around its ends. `None`
/// exactly for a group, a drawing without points, and a shape of an unknown type.
///
/// The shape is any value: where it has no number in range, that counts as 0. It costs the points of a drawing.
pub fn own_box(shape: &Val) -> Option<Rect>
    ensures value { result ≡ own_box (data_of shape.now) }
    ensures small { IfSome result (HasSidesWithin greatest_whole) }
{
    let props = shape.get("props");
    match text_or_empty(shape, "type") {
        "geo" | "text" | "frame" | "image" => Some(box_of_size(props)),
        "note" => Some(Rect {
            x: 0,
            y: 0,
            w: 200,
            h: 200,
        }),
        "draw" => box_of_points(points(props)),
        "arrow" => Some(box_of_ends(props)),
        _ => None,
    }
}

/// A box that is seen from the place of a shape, as it is seen from the parent's. Its numbers must lie within 2^60 on
/// either side of 0.
pub fn move_box(shape: &Val, inner: Rect) -> Rect
    requires { AreWithin (2 ^ 60) inner }
    ensures { result ≡ moved (data_of shape.now) inner }
{
    let Rect { x, y, w, h } = inner;
    Rect {
        x: x + coordinate(Some(shape), "x"),
        y: y + coordinate(Some(shape), "y"),
        w,
        h,
    }
}

// The box of a shape that has a width and a height.
fn box_of_size(props: Option<&Val>) -> Rect
    ensures value { result ≡ box_of_size (maybe_data props.entry) }
    ensures small { HasSidesWithin greatest_whole result }
{
    Rect {
        x: 0,
        y: 0,
        w: size(props, "w"),
        h: size(props, "h"),
    }
}

// The least rectangle around some points.
fn box_of_points(points: &[Val]) -> Option<Rect>
    ensures value { result ≡ box_of_points (items_view points.now) }
    ensures small { IfSome result (HasSidesWithin greatest_whole) }
{
    let mut found = None;
    'points: for val in points {
        found = join_box(found, Some(point(Some(val))));
    }
    found
}

// The items of the list under `points`.
fn points<'a>(props: Option<&'a Val>) -> &'a [Val]
    ensures { items_view result.now ≡ points (maybe_data props.entry) }
{
    match under(props, "points") {
        Some(Val::List(items)) => items.as_slice(),
        _ => &[],
    }
}

// The least rectangle around the ends of an arrow.
fn box_of_ends(props: Option<&Val>) -> Rect
    ensures value { result ≡ box_of_ends (maybe_data props.entry) }
    ensures small { HasSidesWithin greatest_whole result }
{
    around(point(under(props, "start")), point(under(props, "end")))
}

// The rectangle of one point.
fn point(val: Option<&Val>) -> Rect
    ensures value { result ≡ point (maybe_data val.entry) }
    ensures small { HasSidesWithin greatest_whole result }
{
    Rect {
        x: coordinate(val, "x"),
        y: coordinate(val, "y"),
        w: 0,
        h: 0,
    }
}

// The coordinate under a key.
fn coordinate(holder: Option<&Val>, key: &str) -> i64
    ensures value { result ≡ coordinate (maybe_data holder.entry) key.now }
    ensures small { IsWithin greatest_whole result }
{
    number_from(-GREATEST_WHOLE, number_under(holder, key))
}

// The size under a key.
fn size(holder: Option<&Val>, key: &str) -> i64
    ensures value { result ≡ size (maybe_data holder.entry) key.now }
    ensures small { (pos 0 ≤ℤ result) × (result ≤ℤ pos greatest_whole) }
{
    number_from(0, number_under(holder, key))
}

// The number if it lies from the least one to the greatest whole number, else 0.
fn number_from(least: i64, number: Option<i64>) -> i64
    requires { least ≤ℤ pos 0 }
    ensures value { result ≡ number_from least number }
    ensures least { least ≤ℤ result }
    ensures most { result ≤ℤ pos greatest_whole }
{
    match number {
        Some(number) => {
            if least <= number && number <= GREATEST_WHOLE {
                number
            } else {
                0
            }
        }
        None => 0,
    }
}

// The whole number under a key, in any range.
fn number_under(holder: Option<&Val>, key: &str) -> Option<i64>
    ensures { result ≡ option_and_then as_whole (under (maybe_data holder.entry) key.now) }
{
    under(holder, key)?.as_int()
}

// What stands under a key of a map.
fn under<'a>(holder: Option<&'a Val>, key: &str) -> Option<&'a Val>
    ensures { maybe_data result ≡ under (maybe_data holder.entry) key.now }
{
    holder?.get(key)
}
