//! Where a shape stands.

/// Where a shape stands. The order is by parent, then by index, then by id.
#[derive(Clone, Copy, PartialEq, Eq, PartialOrd, Ord)]
pub(crate) struct Place<'a> {
    // The parent that the shape names.
    pub(crate) parent: &'a str,
    // The index by which it comes before or after others there.
    pub(crate) index: &'a str,
    // The id of the shape.
    pub(crate) id: &'a str,
}
