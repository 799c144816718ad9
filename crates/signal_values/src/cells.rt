//! Rows by key.
use crate::edges::Edges;
use std::collections::BTreeMap;

/// A key with its last value.
#[derive(Drop)]
pub struct Row<K, V> {
    pub(crate) key: K,
    pub(crate) value: V,
    // The epoch after the call that last changed the value: 0 where it was only set to `blank`,
    // none for an atom that was only read.
    pub(crate) changed: Option<u64>,
}

/// Rows, which of them are fresh, where each key has its row, and the edges between rows.
#[derive(Drop)]
pub struct Cells<K: Ord, V> {
    pub(crate) rows: Vec<Row<K, V>>,
    pub(crate) fresh: Vec<bool>,
    pub(crate) places: BTreeMap<K, usize>,
    // From a row to the fresh rows whose runs read it.
    pub(crate) edges: Edges,
}
