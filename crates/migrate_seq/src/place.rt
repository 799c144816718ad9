//! Where a migration stands.

/// The place of a migration among sequences that stand in the order of their ids: the place of its sequence, and its
/// own in that sequence, both counted from 0. So its version is one more.
#[derive(Clone, Copy, Debug, PartialEq, Eq)]
pub struct Place {
    pub sequence: usize,
    pub migration: usize,
}
