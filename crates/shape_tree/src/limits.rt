//! The limits of queries.

/// How many levels below a page its tree goes, and how many below a shape its box looks.
pub const MOST_LEVELS: u8 = 32;

/// How many shapes a tree lists, and how many children of a shape its box looks at.
pub const MOST_SHAPES: usize = 1_000_000;
