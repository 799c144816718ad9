//! A store that counts.
ghost use Rattle.std.specs.Prelude.{◌≡◌, []};

use doc_store::{DocStore, MapDoc, TxnFault};
use rooms_val::{Mem, Steps, Text, Val};
use std::alloc::Global;
use std::sync::ledger::Ledger;

/// A store that holds records as `MapDoc` does, at its costs, and counts the writes. Contracts see its records, those at
/// which its open transactions began, and no rest.
#[derive(Drop)]
pub struct CountingStore {
    // The records.
    inner: MapDoc,
    // How many writes were made, those that failed or were undone too.
    writes: u64,
}

impl CountingStore {
    /// The store without a record, without an open transaction, and without a write.
    pub fn new(alloc: Global) -> CountingStore
        ensures inner { result.inner ≡ ([], []) }
        ensures writes { result.writes ≡ 0 }
    {
        CountingStore {
            inner: MapDoc::new(alloc),
            writes: 0,
        }
    }

    /// How many writes were made, those that failed or were undone too.
    pub fn writes(&self) -> u64
        ensures { result ≡ self.now.writes }
    {
        self.writes
    }
}

impl DocStore for CountingStore {
    ghost records = { λ s. s.inner.0 };

    ghost begun = { λ s. s.inner.1 };

    ghost Rest = { Unit {0} };

    ghost rest = { λ s. tt };

    fn get(&self, id: &str) -> Option<&Val> {
        self.inner.get(id)
    }

    fn ids(&self, alloc: Global) -> Mem<Vec<Text>> {
        self.inner.ids(alloc)
    }

    fn write<L: Ledger>(
        &mut self,
        alloc: Global,
        id: &str,
        stored: Option<Val>,
        steps: &mut Steps<L>,
    ) -> Mem<Option<Val>> {
        self.writes = self.writes.saturating_add(1);
        self.inner.write(alloc, id, stored, steps)
    }

    fn begin(&mut self) -> Result<(), TxnFault> {
        self.inner.begin()
    }

    fn commit(&mut self) {
        self.inner.commit();
    }

    fn abort(&mut self) {
        self.inner.abort();
    }
}
