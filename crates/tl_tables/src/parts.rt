//! Checks that several tables name.
ghost use Rattle.std.specs.Prelude.{◌≡◌, IfOk};
ghost use Rattle.record_valid.specs.View.{tree_of};
ghost use Rattle.tl_tables.specs.Parts as parts;

use crate::fields::{Field, Fields};
use crate::rules::Rule;
use record_valid::Check;
use rooms_val::Mem;
use rooms_val::limits::GREATEST_WHOLE;
use std::alloc::Global;

/// How many bytes a long text may have.
const LONGEST_TEXT: u64 = 8_192;

/// How many bytes a name may have.
const LONGEST_NAME: u64 = 256;

/// Any whole number that JSON holds exactly.
#[tactic(auto, unfolding(crate::specs::Parts::coordinate))]
pub(crate) fn coordinate() -> Check
    ensures { tree_of result ≡ parts.coordinate }
{
    Check::Whole(-GREATEST_WHOLE, GREATEST_WHOLE)
}

/// Any such number from 0.
#[tactic(auto, unfolding(crate::specs::Parts::extent))]
pub(crate) fn extent() -> Check
    ensures { tree_of result ≡ parts.extent }
{
    Check::Whole(0, GREATEST_WHOLE)
}

#[tactic(auto, unfolding(crate::specs::Parts::point))]
pub(crate) fn point(alloc: Global, version: u32) -> Mem<Check>
    ensures { IfOk result (λ c. tree_of c ≡ parts.point version) }
{
    let fields = Fields::none(alloc, version).with_each(&[
        Field::Always("x", Rule::Coordinate),
        Field::Always("y", Rule::Coordinate),
    ])?;
    Ok(fields.object())
}

#[tactic(auto, unfolding(crate::specs::Parts::color))]
pub(crate) fn color(alloc: Global) -> Mem<Check>
    ensures { IfOk result (λ c. tree_of c ≡ parts.color) }
{
    Check::one_of(
        alloc,
        &[
            "black",
            "grey",
            "light-violet",
            "violet",
            "blue",
            "light-blue",
            "yellow",
            "orange",
            "green",
            "light-green",
            "light-red",
            "red",
            "white",
        ],
    )
}

#[tactic(auto, unfolding(crate::specs::Parts::dash))]
pub(crate) fn dash(alloc: Global) -> Mem<Check>
    ensures { IfOk result (λ c. tree_of c ≡ parts.dash) }
{
    Check::one_of(alloc, &["draw", "solid", "dashed", "dotted"])
}

#[tactic(auto, unfolding(crate::specs::Parts::fill))]
pub(crate) fn fill(alloc: Global) -> Mem<Check>
    ensures { IfOk result (λ c. tree_of c ≡ parts.fill) }
{
    Check::one_of(alloc, &["none", "semi", "solid", "pattern"])
}

#[tactic(auto, unfolding(crate::specs::Parts::size))]
pub(crate) fn size(alloc: Global) -> Mem<Check>
    ensures { IfOk result (λ c. tree_of c ≡ parts.size) }
{
    Check::one_of(alloc, &["s", "m", "l", "xl"])
}

/// What somebody wrote, or where an image comes from.
#[tactic(auto, unfolding(crate::specs::Parts::long_text))]
pub(crate) fn long_text() -> Check
    ensures { tree_of result ≡ parts.long_text }
{
    Check::Text(LONGEST_TEXT)
}

/// A name.
#[tactic(auto, unfolding(crate::specs::Parts::short_text))]
pub(crate) fn short_text() -> Check
    ensures { tree_of result ≡ parts.short_text }
{
    Check::Text(LONGEST_NAME)
}
