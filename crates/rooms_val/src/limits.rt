//! The limits of values.

/// The greatest whole number that every reader of JSON takes exactly, 2^53 - 1. The least is this one negated.
pub const GREATEST_WHOLE: i64 = (1 << 53) - 1;
