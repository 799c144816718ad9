//! Numbers as they are printed.
ghost use Rattle.std.specs.Prelude.{◌≡◌, pos};
ghost use Rattle.rooms_val.specs.Data.{whole};
ghost use Rattle.rooms_val.specs.View.{data_of};
ghost use Rattle.rec_format.specs.Outs.{number_val};
ghost use Rattle.rec_format.specs.Printing.{Fits};

use rooms_val::Val;

/// The greatest number that is printed, 2^63 - 1.
pub const MOST_PRINTED: u64 = 9_223_372_036_854_775_807;

/// The value that a number is printed as: its own, or that of [`MOST_PRINTED`] where that is less.
pub fn number(number: u64) -> Val
    ensures printed { data_of result ≡ number_val number }
    ensures fits { Fits number → data_of result ≡ whole (pos number) }
{
    if number <= MOST_PRINTED {
        Val::Int(number as i64)
    } else {
        Val::Int(MOST_PRINTED as i64)
    }
}
