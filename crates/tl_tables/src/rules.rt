//! Names of checks, so that a table is a slice of constants.
ghost use Rattle.std.specs.Prelude.{◌≡◌, IfOk};
ghost use Rattle.record_valid.specs.View.{tree_of};
ghost use Rattle.tl_tables.specs.View.{rule_tree};

use crate::parts::{color, coordinate, dash, extent, fill, long_text, short_text, size};
use record_valid::Check;
use rooms_val::Mem;
use std::alloc::Global;

/// What a value must be.
pub(crate) enum Rule {
    /// Any whole number that JSON holds exactly.
    Coordinate,
    /// Any such number from 0.
    Extent,
    /// A name.
    ShortText,
    /// What somebody wrote.
    LongText,
    /// A whole number from the first bound to the second.
    Whole(i64, i64),
    /// An index key.
    Key,
    /// `true` or `false`.
    Bool,
    /// The name of a colour.
    Color,
    /// How an outline is drawn.
    Dash,
    /// How a surface is filled.
    Fill,
    /// How large a shape's text is.
    Size,
}

impl Rule {
    /// The check that the rule names.
    pub(crate) fn check(&self, alloc: Global) -> Mem<Check>
        ensures { IfOk result (λ c. tree_of c ≡ rule_tree self.now) }
    {
        match self {
            Rule::Coordinate => Ok(coordinate()),
            Rule::Extent => Ok(extent()),
            Rule::ShortText => Ok(short_text()),
            Rule::LongText => Ok(long_text()),
            Rule::Whole(least, most) => Ok(Check::Whole(*least, *most)),
            Rule::Key => Ok(Check::Key),
            Rule::Bool => Ok(Check::Bool),
            Rule::Color => color(alloc),
            Rule::Dash => dash(alloc),
            Rule::Fill => fill(alloc),
            Rule::Size => size(alloc),
        }
    }
}
