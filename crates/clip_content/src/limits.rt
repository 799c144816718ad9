//! The limits of copies.

/// How many shapes a clip may have, and how many bindings.
pub const MOST_COPIED: usize = 4_096;
