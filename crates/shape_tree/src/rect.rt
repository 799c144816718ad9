//! Rectangles.
ghost use Rattle.std.specs.Prelude.{◌≡◌, ◌^◌, ◌+ℤ◌, ◌-ℤ◌, IfSome};
ghost use Rattle.std.specs.Int.{int_min, int_max};
ghost use Rattle.shape_tree.specs.Boxes.{IsWithin, AreWithin, around, joined};

/// A rectangle, by its upper left corner, its width and its height.
#[derive(Clone, Copy, Debug, PartialEq, Eq)]
pub struct Rect {
    pub x: i64,
    pub y: i64,
    pub w: i64,
    pub h: i64,
}

/// The least rectangle around both, or around the one that is there. `None` exactly if both are. Their numbers must lie
/// within 2^60 on either side of 0.
pub fn join_box(a: Option<Rect>, b: Option<Rect>) -> Option<Rect>
    requires a_small { IfSome a (AreWithin (2 ^ 60)) }
    requires b_small { IfSome b (AreWithin (2 ^ 60)) }
    ensures { result ≡ joined a b }
{
    match a {
        Some(first) => match b {
            Some(second) => Some(around(first, second)),
            None => Some(first),
        },
        None => b,
    }
}

// The least rectangle around two.
pub(crate) fn around(a: Rect, b: Rect) -> Rect
    requires a_small { AreWithin (2 ^ 60) a }
    requires b_small { AreWithin (2 ^ 60) b }
    ensures { result ≡ around a b }
{
    let (x, w) = span(a.x, a.w, b.x, b.w);
    let (y, h) = span(a.y, a.h, b.y, b.h);
    Rect { x, y, w, h }
}

// Where two stretches begin together, and how long they are. Each is told by its beginning and its length.
fn span(a: i64, a_size: i64, b: i64, b_size: i64) -> (i64, i64)
    requires a_small { IsWithin (2 ^ 60) a }
    requires a_size_small { IsWithin (2 ^ 60) a_size }
    requires b_small { IsWithin (2 ^ 60) b }
    requires b_size_small { IsWithin (2 ^ 60) b_size }
    ensures start { result.0 ≡ int_min a b }
    ensures size { result.1 ≡ int_max (a +ℤ a_size) (b +ℤ b_size) -ℤ int_min a b }
{
    let start = a.min(b);
    let end = (a + a_size).max(b + b_size);
    (start, end - start)
}
