//! How deep a value nests.
ghost use Rattle.std.specs.Prelude.{◌≡◌, nat_le};
ghost use Rattle.rooms_val.specs.Data.{depth, items_depth, members_depth, items_of, members_of};
ghost use Rattle.rooms_val.specs.View.{data_of, items_view, pairs_view};

use rooms_val::{Text, Val};

/// Whether a value is at most so many levels deep. It looks at no more levels than these.
#[cycle(depth)]
pub(crate) fn is_within(val: &Val, levels: usize) -> bool
    ensures { result ≡ nat_le (depth (data_of val.now)) levels }
{
    match val {
        Val::List(items) => levels > 0 && items_are_within(items.as_slice(), levels - 1),
        Val::Map(fields) => levels > 0 && fields_are_within(fields.as_slice(), levels - 1),
        _ => true,
    }
}

// Whether each item is at most so many levels deep.
#[cycle(depth)]
fn items_are_within(items: &[Val], levels: usize) -> bool
    ensures { result ≡ nat_le (items_depth (items_of (items_view items.now))) levels }
{
    for item in items {
        if !is_within(item, levels) {
            return false;
        }
    }
    true
}

// Whether the value of each field is at most so many levels deep.
#[cycle(depth)]
fn fields_are_within(entries: &[(Text, Val)], levels: usize) -> bool
    ensures { result ≡ nat_le (members_depth (members_of (pairs_view entries.now))) levels }
{
    for entry in entries {
        if !is_within(&entry.1, levels) {
            return false;
        }
    }
    true
}
