//! What an open transaction keeps.
ghost use Rattle.std.specs.Prelude.{◌≡◌, None, IfOk, OnOk, OnErr, is_some};
ghost use Rattle.std.specs.Map.{remove_entry};
ghost use Rattle.std.specs.BTreeMap.{is_at};
ghost use Rattle.signal_txn.specs.LastWrites.{followed, one_write};
ghost use Rattle.signal_txn.specs.Level.{value_before, unwritten, noted};

use crate::last_writes::LastWrites;
use crate::write::Write;
use rooms_val::{Mem, OutOfMemory};
use std::alloc::Global;
use std::collections::BTreeMap;
use std::marker::Model;

/// What an open transaction keeps: by key the value before the first write since it began, and the
/// last of the writes.
#[derive(Drop)]
pub struct Level<K: Ord, V> {
    before: BTreeMap<K, V>,
    last: LastWrites<K, V>,
}

impl<K: Ord, V> Model for Level<K, V> {
    ghost use Rattle.signal_txn.specs.Level.{Level as LevelTree};

    ghost Value = { LevelTree K V };

    ghost view = { λ s. record { before = s.before.entries; last = s.last } };
}

impl<K: Ord + Drop, V: Drop> Level<K, V> {
    // A transaction that begins.
    //
    // # Errors
    //
    // Memory was refused.
    pub(crate) fn new(alloc: Global) -> Mem<Level<K, V>>
        ensures { IfOk result (λ level. level ≡ unwritten) }
    {
        Ok(Level {
            before: BTreeMap::new(alloc),
            last: LastWrites::new(alloc)?,
        })
    }

    // Whether a key was written since it began.
    pub(crate) fn has(&self, key: &K) -> bool
        ensures { result ≡ is_some (value_before K.cmp self.now key.now) }
    {
        self.before.contains_key(key)
    }

    // Notes the value before of a key that wasn't written yet.
    //
    // # Errors
    //
    // Memory was refused, and nothing was noted.
    pub(crate) fn note(&mut self, key: K, value: V) -> Mem<()>
        requires { value_before K.cmp self.old key ≡ None }
        ensures ok { OnOk result (self.new ≡ noted K.cmp key value self.old) }
        ensures err { OnErr result (self.new ≡ self.old) }
    {
        match self.before.insert(key, value) {
            Ok(_) => Ok(()),
            Err(_) => Err(OutOfMemory),
        }
    }

    // Forgets what was noted of a key.
    pub(crate) fn forget(&mut self, key: &K)
        ensures { self.new ≡ record self.old
            { before = remove_entry (is_at (K.cmp key.now)) self.old.before } }
    {
        let _ = self.before.remove(key);
    }

    // A write joins.
    pub(crate) fn join(&mut self, write: Write<K, V>)
        ensures { self.new ≡ record self.old { last = followed self.old.last (one_write write) } }
    {
        self.last.join(write);
    }

    // Later writes join.
    pub(crate) fn append(&mut self, later: LastWrites<K, V>)
        ensures { self.new ≡ record self.old { last = followed self.old.last later } }
    {
        self.last.append(later);
    }

    // The values before, and the writes.
    pub(crate) fn into_parts(self) -> (BTreeMap<K, V>, LastWrites<K, V>)
        ensures before { result.0.entries ≡ self.before }
        ensures last { result.1 ≡ self.last }
    {
        let Level { before, last } = self;
        (before, last)
    }
}
