//! What can be watched.

use rooms_val::Text;

/// A view of a document, which is told to its client whenever it changes.
#[derive(Drop)]
pub enum View {
    /// The box of a shape, with what hangs under it.
    Box(Text),
    /// The shapes below a page.
    Tree(Text),
    /// The bindings with an end at a shape.
    Bound(Text),
    /// How many shapes are below a page.
    Count(Text),
}
