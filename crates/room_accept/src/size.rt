//! How large a document is.
ghost use Rattle.std.specs.Prelude.{◌≡◌, ◌^◌, ◌-◌, min};
ghost use Rattle.std.specs.Option.{option_copied};
ghost use Rattle.field_ops.specs.View.{maybe_data};
ghost use Rattle.room_accept.specs.Measures.{count_of, weight_of};

use room_model::limits::{MOST_RECORDS, MOST_WEIGHT};
use rooms_val::Val;

/// How large a document is.
#[derive(Clone, Copy, Debug, PartialEq, Eq)]
pub struct DocumentSize {
    /// How many records it has.
    pub count: u64,
    /// What they weigh together.
    pub weight: u64,
}

impl DocumentSize {
    ghost use Rattle.room_accept.specs.Sizes.{size_after, is_within};

    // The size after one of the records, or the lack of one, becomes another; each number is
    // 2^64 - 1 where it is more.
    pub(crate) fn after(self, before: Option<&Val>, after: &Option<Val>) -> DocumentSize
        ensures count { result.count ≡ min (size_after self
            (maybe_data (option_copied before.entry)) (maybe_data after.now)).count (2 ^ 64 - 1) }
        ensures weight { result.weight ≡ min (size_after self
            (maybe_data (option_copied before.entry)) (maybe_data after.now)).weight (2 ^ 64 - 1) }
    {
        let after = after.as_ref();
        DocumentSize {
            count: self
                .count
                .saturating_sub(count_of(before))
                .saturating_add(count_of(after)),
            weight: self
                .weight
                .saturating_sub(weight(before))
                .saturating_add(weight(after)),
        }
    }

    // Whether it is within the limits of a document.
    pub(crate) fn is_within(self) -> bool
        ensures { result ≡ is_within self }
    {
        self.count <= MOST_RECORDS && self.weight <= MOST_WEIGHT
    }
}

// How many records there are where one may be.
fn count_of(found: Option<&Val>) -> u64
    ensures { result ≡ count_of (maybe_data (option_copied found.entry)) }
{
    match found {
        Some(_) => 1,
        None => 0,
    }
}

// What the record weighs that may be there, 2^64 - 1 where that is more.
fn weight(found: Option<&Val>) -> u64
    ensures { result ≡ min (weight_of (maybe_data (option_copied found.entry))) (2 ^ 64 - 1) }
{
    match found {
        Some(val) => val.weight(),
        None => 0,
    }
}
