//! Writes of atoms.

/// A write that changed an atom.
#[derive(Drop)]
pub struct Write<K, V> {
    pub(crate) key: K,
    // The value from then on.
    pub(crate) value: V,
    // The epoch after it.
    pub(crate) epoch: u64,
}
