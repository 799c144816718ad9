//! Where a paste goes.

/// Where a paste goes.
#[derive(Clone, Copy)]
pub struct Target<'a> {
    /// What new ids have before their numbers.
    pub prefix: &'a str,
    /// The parent of the tops.
    pub parent: &'a str,
    /// How far the tops are moved to the right, within 2^53 - 1 on either side of 0.
    pub dx: i64,
    /// How far they are moved down, within the same.
    pub dy: i64,
}
