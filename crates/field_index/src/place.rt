//! Where an id stands in an index.

use rooms_val::{Mem, Text, Val};
use std::alloc::Global;

/// An id with its value. The order is by value, then by id.
#[derive(PartialEq, Eq, PartialOrd, Ord, Drop)]
pub(crate) struct Place {
    // The value of the field.
    pub(crate) value: Val,
    // The id of the record.
    pub(crate) id: Text,
}

impl Place {
    ghost use Rattle.std.specs.Prelude.{◌≡◌, IfOk};
    ghost use Rattle.field_index.specs.Places.{place_at};

    // The place of an id with a value.
    pub(crate) fn of(alloc: Global, value: &Val, id: &str) -> Mem<Place>
        ensures { IfOk result (λ p. p ≡ place_at value.now id.now) }
    {
        Ok(Place {
            value: value.copy(alloc)?,
            id: Text::of(alloc, id)?,
        })
    }
}
