//! The last of some writes.
ghost use Rattle.std.specs.Prelude.{◌≡◌, [], ◌∷◌, IfOk};
ghost use Rattle.signal_txn.specs.LastWrites.{followed, no_writes, one_write};

use crate::write::Write;
use circular_buffer::HeapCircularBuffer;
use rooms_val::Mem;
use std::alloc::Global;
use std::marker::Model;

/// How many writes are kept.
pub(crate) const MOST_WRITES: usize = 256;

/// The last 256 of some writes.
#[derive(Drop)]
pub struct LastWrites<K, V> {
    // The oldest first.
    writes: HeapCircularBuffer<Write<K, V>>,
    // The epoch of the last write that fell out, 0 where none did.
    dropped: u64,
}

impl<K, V> Model for LastWrites<K, V> {
    ghost use Rattle.signal_txn.specs.LastWrites.{LastWrites as Last, IsRing};

    ghost Value = { Last K V };

    ghost view = { λ s. record { writes = s.writes.items; dropped = s.dropped } };

    ghost invariant = { λ s. IsRing s.writes };
}

impl<K: Drop, V: Drop> LastWrites<K, V> {
    // No writes.
    //
    // # Errors
    //
    // Memory was refused.
    pub(crate) fn new(alloc: Global) -> Mem<LastWrites<K, V>>
        ensures { IfOk result (λ w. w ≡ no_writes) }
    {
        let writes = HeapCircularBuffer::with_capacity(alloc, MOST_WRITES)?;
        Ok(LastWrites { writes, dropped: 0 })
    }

    // The epoch of the last write that fell out, 0 where none did.
    pub(crate) fn dropped_epoch(&self) -> u64
        ensures { result ≡ self.now.dropped }
    {
        self.dropped
    }

    // The writes, the oldest first.
    pub(crate) fn writes(&self) -> &HeapCircularBuffer<Write<K, V>>
        ensures { result.now.items ≡ self.now.writes }
    {
        &self.writes
    }

    // A write joins. Where there are 256, the oldest falls out.
    pub(crate) fn join(&mut self, write: Write<K, V>)
        ensures { self.new ≡ followed self.old (one_write write) }
    {
        if let Some(oldest) = self.writes.push_back(write) {
            self.dropped = oldest.epoch;
        }
    }

    // Later writes join, in their order. It takes no memory.
    pub(crate) fn append(&mut self, later: LastWrites<K, V>)
        ensures { self.new ≡ followed self.old later }
    {
        let LastWrites { writes, dropped } = later;
        self.join_all(writes);
        self.dropped = self.dropped.max(dropped);
    }

    // Later writes join, in their order.
    fn join_all(&mut self, writes: HeapCircularBuffer<Write<K, V>>)
        ensures { self.new ≡ followed self.old (record { writes = writes.items; dropped = 0 }) }
    {
        // There are at most 256.
        let _ = &self.writes;
        let mut rest = writes;
        'writes: while let Some(write) = rest.pop_front() {
            self.join(write);
        }
    }
}
