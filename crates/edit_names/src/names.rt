//! The ids that edits name, with their counts.
ghost use Rattle.std.specs.Prelude.{◌≡◌, ◌+◌, ◌-◌, ◌<◌, ◌↔◌, [], ℕ, List, nat_lt, if◌then◌else◌, is_some, IsTrue, OnOk, OnErr};
ghost use Rattle.rooms_val.specs.Maps.{AreRising, value_at, with_key, without_key, ties};
ghost use Rattle.edit_names.specs.Names.{count_at, once};

use field_ops::{Diff, RecordOp};
use rooms_val::{Mem, OutOfMemory, Text};
use std::alloc::Global;
use std::collections::BTreeMap;
use std::marker::Model;

/// How many pending edits name each id. An id that no edit names isn't held, so that no count of 0 is kept. Contracts see
/// the ids that are named, which rise, each with its count.
#[derive(Drop)]
pub struct EditNames {
    tree: BTreeMap<String, u64>,
}

impl Model for EditNames {
    ghost use Rattle.edit_names.specs.Names.{Names, AreNames, coded_names, names_view};

    ghost Value = { Names };

    ghost coded = { coded_names };

    ghost view = { λ n. names_view n.tree.entries };

    ghost invariant = { λ n. AreNames (names_view n.tree.entries) };
}

impl EditNames {
    /// No edit names an id.
    pub fn new(alloc: Global) -> EditNames
        ensures { result ≡ [] }
    {
        EditNames {
            tree: BTreeMap::new(alloc),
        }
    }

    /// Whether an edit names an id. It costs a logarithm of the ids that are held.
    pub fn has(&self, id: &str) -> bool
        ensures held { result ≡ is_some (value_at self.now id.now) }
        ensures counted { IsTrue result ↔ (0 < count_at self.now id.now) }
    {
        self.count(id) > 0
    }

    // How many edits name an id.
    fn count(&self, id: &str) -> u64
        ensures count { result ≡ count_at self.now id.now }
        ensures held { is_some (value_at self.now id.now) ≡ nat_lt 0 result }
    {
        match self.tree.get(id) {
            Some(count) => *count,
            None => 0,
        }
    }

    // Sets the count of an id to 1. Where memory is refused nothing changes.
    fn begin(&mut self, alloc: Global, id: &str) -> Mem<()>
        ensures ok { OnOk result (self.new ≡ with_key self.old id.now 1) }
        ensures err { OnErr result (self.new ≡ self.old) }
    {
        let key = String::from_str(alloc, id)?;
        let _ = self.tree.insert(key, 1)?;
        Ok(())
    }

    // Sets the count of an id that some edit names, in place. It takes no memory.
    fn put(&mut self, id: &str, count: u64)
        requires some { 0 < count }
        requires held { 0 < count_at self.old id.now }
        ensures { self.new ≡ with_key self.old id.now count }
    {
        match self.tree.get_mut(id) {
            Some(place) => *place = count,
            None => return,
        }
    }

    // Holds an id no more.
    fn forget(&mut self, id: &str)
        ensures { self.new ≡ without_key self.old id.now }
    {
        let _ = self.tree.remove(id);
    }

    // Counts an id once more. Where memory is refused, or the count is the greatest, nothing changes.
    fn add_one(&mut self, alloc: Global, id: &str) -> Mem<()>
        ensures ok { OnOk result ((q : List ℕ)
            → count_at self.new q ≡ count_at self.old q + (if ties q id.now then 1 else 0)) }
        ensures err { OnErr result (self.new ≡ self.old) }
    {
        let count = self.count(id);
        if count == 0 {
            return self.begin(alloc, id);
        }
        if count == u64::MAX {
            return Err(OutOfMemory);
        }
        self.put(id, count + 1);
        Ok(())
    }

    // Counts an id once less. It takes no memory.
    fn remove_one(&mut self, id: &str)
        ensures { (q : List ℕ)
            → count_at self.new q ≡ count_at self.old q - (if ties q id.now then 1 else 0) }
    {
        let count = self.count(id);
        if count > 1 {
            self.put(id, count - 1);
        } else {
            self.forget(id);
        }
    }

    /// Counts each id that a diff names once more. An id that isn't held takes memory. Any other count rises in place. Each
    /// id of the diff costs a logarithm of the ids that are held. Where memory is refused, or a count would pass the
    /// greatest number of 64 bits, each count is as before.
    pub fn add(&mut self, alloc: Global, diff: &Diff) -> Mem<()>
        ensures ok { OnOk result ((id : List ℕ)
            → count_at self.new id ≡ count_at self.old id + once diff.now id) }
        ensures err { OnErr result ((id : List ℕ)
            → count_at self.new id ≡ count_at self.old id) }
    {
        let ids = diff.as_slice();
        let mut counted = 0;
        'ids: for (id, _) in ids {
            match self.add_one(alloc, id.as_str()) {
                Ok(()) => counted += 1,
                Err(_) => {
                    self.remove_each(&ids[..counted]);
                    return Err(OutOfMemory);
                }
            }
        }
        Ok(())
    }

    /// Counts each id that a diff names once less. A count above 1 falls in place. An id whose count is 1 is held no more.
    /// An id whose count is 0 already isn't held, and stays so. `remove` takes no memory. Each id of the diff costs a
    /// logarithm of the ids that are held.
    pub fn remove(&mut self, diff: &Diff)
        ensures { (id : List ℕ)
            → count_at self.new id ≡ count_at self.old id - once diff.now id }
    {
        self.remove_each(diff.as_slice());
    }

    // The same for ids with their operations.
    fn remove_each(&mut self, ids: &[(Text, RecordOp)])
        ensures { AreRising ids.now → (id : List ℕ)
            → count_at self.new id ≡ count_at self.old id - once ids.now id }
    {
        'ids: for (id, _) in ids {
            self.remove_one(id.as_str());
        }
    }
}
