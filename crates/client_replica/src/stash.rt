//! The stash: what stood in a document under the ids that edits name.
ghost use Rattle.std.specs.Prelude.{◌≡◌, ◌≤◌, ◌+◌, ◌||◌, [], ◌∷◌, None, Some, true, ℕ, List, length, map, drop, if◌then◌else◌, IfOk, IfSome, IfNone, OnOk, OnErr, is_some, string_bytes};
ghost use Rattle.std.specs.Option.{option_copied};
ghost use Rattle.rooms_val.specs.Maps.{AreRising, value_at, with_key, without_key};
ghost use Rattle.field_ops.specs.View.{maybe_data};
ghost use Rattle.field_ops.specs.ViewRecordOps.{change_of};
ghost use Rattle.schema_core.specs.Admits.{is_admitted};
ghost use Rattle.schema_core.specs.SchemaOf.{schema_tree};
ghost use Rattle.doc_model.specs.Inverses.{record_after};
ghost use Rattle.doc_store.specs.Slots.{slot_record};
ghost use Rattle.doc_model.specs.Documents.{replay};
ghost use Rattle.rooms_val.specs.Data.{Pairs};
ghost use Rattle.client_replica.specs.NewBases.{laid, IsOf, NamesWithin};
ghost use Rattle.client_replica.specs.Works.{work_of, diffs_in};
ghost use Rattle.client_replica.specs.Stashes.{under, written_over, kept, without_all};

use crate::replay::replay_at;
use crate::stepping::record_left;
use crate::work::Work;
use doc_store::DocStore;
use field_ops::{Diff, RecordOp};
use rooms_val::{Mem, OutOfMemory, Steps, Text, Val};
use schema_core::Schema;
use std::alloc::Global;
use std::collections::{BTreeMap, VecDeque};
use std::marker::Model;
use std::sync::ledger::Ledger;

/// Records by id, or that there was none. A look-up and a change cost a logarithm of their number. Contracts see the ids,
/// which rise, each with its record or none.
#[derive(Drop)]
pub(crate) struct Stash {
    tree: BTreeMap<String, Option<Val>>,
}

impl Model for Stash {
    ghost use Rattle.rooms_val.specs.Maps.{AreRising};
    ghost use Rattle.doc_store.specs.Slots.{Slots, coded_slots};
    ghost use Rattle.doc_store.specs.Tree.{slots_view};

    ghost Value = { Slots };

    ghost coded = { coded_slots };

    ghost view = { λ s. slots_view s.tree.entries };

    ghost invariant = { λ s. AreRising (slots_view s.tree.entries) };
}

impl Stash {
    /// The stash that holds no id.
    pub(crate) fn new(alloc: Global) -> Stash
        ensures { result ≡ [] }
    {
        Stash {
            tree: BTreeMap::new(alloc),
        }
    }

    /// Does nothing: that the ids rise is told by the type.
    pub(crate) fn tell_rising(&self)
        ensures { AreRising self.now }
    {
        let _ = self.tree.len();
    }

    /// Whether it holds an id.
    pub(crate) fn has(&self, id: &str) -> bool
        ensures { result ≡ is_some (value_at self.now id.now) }
    {
        match self.tree.get(id) {
            Some(_) => true,
            None => false,
        }
    }

    // Holds a copy of what stands under an id that it doesn't hold. Where memory is refused nothing changes.
    fn insert(&mut self, alloc: Global, id: &str, stored: Option<&Val>) -> Mem<()>
        ensures ok { OnOk result (self.new
            ≡ with_key self.old id.now (maybe_data (option_copied stored.entry))) }
        ensures err { OnErr result (self.new ≡ self.old) }
    {
        let key = String::from_str(alloc, id)?;
        let slot = Val::copy_of(alloc, stored)?;
        match self.tree.insert(key, slot) {
            Ok(old) => {
                drop(old);
                Ok(())
            }
            Err(_) => Err(OutOfMemory),
        }
    }

    // The record that it holds under an id. `None` exactly where there is none, or it doesn't hold the id.
    fn get(&self, id: &str) -> Option<&Val>
        ensures { maybe_data (option_copied result) ≡ slot_record (value_at self.now id.now) }
    {
        match self.tree.get(id) {
            Some(slot) => slot.as_ref(),
            None => None,
        }
    }

    // Holds a record, or that there is none, under an id. Memory is refused only where it didn't hold the id, and then
    // nothing changes.
    fn put(&mut self, id: String, slot: Option<Val>) -> Mem<()>
        ensures ok { OnOk result (self.new
            ≡ with_key self.old (string_bytes id) (maybe_data slot)) }
        ensures full { OnErr result (value_at self.old (string_bytes id) ≡ None) }
        ensures err { OnErr result (self.new ≡ self.old) }
    {
        match self.tree.insert(id, slot) {
            Ok(old) => {
                drop(old);
                Ok(())
            }
            Err(_) => Err(OutOfMemory),
        }
    }

    /// Holds a record, or that there is none, under an id that it holds. It takes no memory.
    pub(crate) fn replace(&mut self, id: String, slot: Option<Val>)
        ensures { is_some (value_at self.old (string_bytes id)) ≡ true
            → self.new ≡ with_key self.old (string_bytes id) (maybe_data slot) }
    {
        match self.put(id, slot) {
            Ok(()) => {}
            Err(_) => {}
        }
    }

    /// Takes what it holds under its first id.
    pub(crate) fn take_first(&mut self) -> Option<(String, Option<Val>)>
        ensures some { IfSome result (λ p. self.old
            ≡ (string_bytes p.0, maybe_data p.1) ∷ self.new) }
        ensures none { IfNone result (self.old ≡ []) }
    {
        self.tree.pop_first()
    }

    /// The record under an id as it changed, which this holds, else as the stash has it, else as the store has it.
    pub(crate) fn base_at<'a, D: DocStore>(
        &'a self,
        stash: &'a Stash,
        store: &'a D,
        id: &str,
    ) -> Option<&'a Val>
        ensures { maybe_data (option_copied result)
            ≡ laid self.now stash.now (D.records store.now) id.now }
    {
        if self.has(id) {
            self.get(id)
        } else if stash.has(id) {
            stash.get(id)
        } else {
            store.get(id)
        }
    }

    /// Holds under an id what an operation makes of the record that `base_at` gives.
    pub(crate) fn step<D: DocStore>(
        &mut self,
        alloc: Global,
        schema: &Schema,
        store: &D,
        stash: &Stash,
        id: &Text,
        op: &RecordOp,
    ) -> Mem<()>
        ensures { OnOk result (self.new ≡ with_key self.old id.now
            (record_after (is_admitted (schema_tree schema.now)) id.now (Some (change_of op.now))
            (laid self.old stash.now (D.records store.now) id.now))) }
    {
        let before = self.base_at(stash, store, id.as_str());
        let slot = record_left(alloc, schema, id.as_str(), before, op)?;
        let key = String::from_str(alloc, id.as_str())?;
        self.put(key, slot)
    }

    /// Holds the record that `base_at` gives under an id, where it doesn't hold the id yet.
    pub(crate) fn touch<D: DocStore>(
        &mut self,
        alloc: Global,
        store: &D,
        stash: &Stash,
        id: &Text,
    ) -> Mem<()>
        ensures { OnOk result (self.new
            ≡ kept self.old id.now (laid self.old stash.now (D.records store.now) id.now)) }
    {
        if self.has(id.as_str()) {
            return Ok(());
        }
        let slot = Val::copy_of(alloc, self.base_at(stash, store, id.as_str()))?;
        let key = String::from_str(alloc, id.as_str())?;
        self.put(key, slot)
    }

    // What the edits among the works from a place on make of the record under an id, if this stash holds the ids that they
    // name.
    fn replayed_at(
        &self,
        alloc: Global,
        schema: &Schema,
        works: &VecDeque<Work>,
        from: usize,
        id: &str,
        slot: &Option<Val>,
    ) -> Mem<Option<Val>>
        ensures { IfOk result (λ after. (base : Pairs) → value_at base id.now ≡ maybe_data slot.now
            → NamesWithin (diffs_in (map work_of (drop from works.now.items))) self.now
            → value_at (replay (is_admitted (schema_tree schema.now)) base (diffs_in
            (map work_of (drop from works.now.items)))) id.now ≡ maybe_data after) }
    {
        if self.has(id) {
            replay_at(alloc, schema, works, from, id, slot)
        } else {
            Val::copy_slot(alloc, slot)
        }
    }

    /// What the edits among the works from a place on make of each record that it holds. The works are walked for an id of
    /// the stash alone, since they name no other.
    pub(crate) fn with_edits(
        &self,
        alloc: Global,
        schema: &Schema,
        stash: &Stash,
        works: &VecDeque<Work>,
        from: usize,
    ) -> Mem<Stash>
        ensures at { IfOk result (λ shown. (base : Pairs)
            → IsOf base self.now
            → NamesWithin (diffs_in (map work_of (drop from works.now.items))) stash.now
            → (id : List ℕ) → value_at shown id ≡ (if is_some (value_at self.now id)
            then Some (value_at (replay (is_admitted (schema_tree schema.now)) base
            (diffs_in (map work_of (drop from works.now.items)))) id) else None)) }
        ensures few { IfOk result (λ shown. length shown ≤ length self.now) }
    {
        self.tell_rising();
        let mut shown = Stash::new(alloc);
        for (id, slot) in &self.tree {
            shown.tell_rising();
            let stored = stash.replayed_at(alloc, schema, works, from, id.as_str(), slot)?;
            shown.put(String::from_str(alloc, id.as_str())?, stored)?;
        }
        Ok(shown)
    }

    /// Holds an id no more.
    pub(crate) fn remove(&mut self, id: &str)
        ensures { self.new ≡ without_key self.old id.now }
    {
        drop(self.tree.remove(id));
    }

    /// Holds what a store has under an id, where it doesn't hold the id yet. Where memory is refused nothing changes.
    pub(crate) fn keep<D: DocStore>(&mut self, alloc: Global, store: &D, id: &str) -> Mem<()>
        ensures ok { OnOk result (self.new
            ≡ kept self.old id.now (value_at (D.records store.now) id.now)) }
        ensures err { OnErr result (self.new ≡ self.old) }
    {
        if self.has(id) {
            return Ok(());
        }
        self.insert(alloc, id, store.get(id))
    }

    /// Holds what a store has under the ids that a diff names, where it doesn't hold them yet, and returns the ids that it
    /// holds now and didn't before. Where memory is refused nothing changes.
    pub(crate) fn keep_all<D: DocStore>(
        &mut self,
        alloc: Global,
        store: &D,
        diff: &Diff,
    ) -> Mem<Vec<Text>>
        ensures base { OnOk result ((id : List ℕ)
            → under self.new (D.records store.now) id ≡ under self.old (D.records store.now) id) }
        ensures exact { OnOk result ((id : List ℕ)
            → is_some (value_at self.new id)
            ≡ is_some (value_at self.old id) || is_some (value_at diff.now id)) }
        ensures few { OnOk result (length self.new ≤ length self.old + length diff.now) }
        ensures rising { OnOk result (AreRising self.new) }
        ensures fresh { IfOk result (λ fresh. without_all self.new fresh.items ≡ self.old) }
        ensures err { OnErr result (self.new ≡ self.old) }
    {
        let mut fresh = Vec::new(alloc);
        match self.keep_each(alloc, store, diff, &mut fresh) {
            Ok(()) => Ok(fresh),
            Err(_) => {
                self.forget(&fresh);
                Err(OutOfMemory)
            }
        }
    }

    // The same, where the ids join a list that says which to forget again.
    fn keep_each<D: DocStore>(
        &mut self,
        alloc: Global,
        store: &D,
        diff: &Diff,
        fresh: &mut Vec<Text>,
    ) -> Mem<()>
        ensures base { OnOk result ((id : List ℕ)
            → under self.new (D.records store.now) id ≡ under self.old (D.records store.now) id) }
        ensures exact { OnOk result ((id : List ℕ)
            → is_some (value_at self.new id)
            ≡ is_some (value_at self.old id) || is_some (value_at diff.now id)) }
        ensures few { OnOk result (length self.new ≤ length self.old + length diff.now) }
        ensures rising { OnOk result (AreRising self.new) }
        ensures fresh { without_all self.new fresh.new.items
            ≡ without_all self.old fresh.old.items }
    {
        self.tell_rising();
        'ids: for (id, _) in diff.as_slice() {
            self.keep_fresh(alloc, store, id, fresh)?;
        }
        Ok(())
    }

    // Holds what a store has under one id, and adds the id to the list, where it doesn't hold the id yet.
    fn keep_fresh<D: DocStore>(
        &mut self,
        alloc: Global,
        store: &D,
        id: &Text,
        fresh: &mut Vec<Text>,
    ) -> Mem<()>
        ensures ok { OnOk result (self.new
            ≡ kept self.old id.now (value_at (D.records store.now) id.now)) }
        ensures fresh { without_all self.new fresh.new.items
            ≡ without_all self.old fresh.old.items }
    {
        self.tell_rising();
        if self.has(id.as_str()) {
            return Ok(());
        }
        fresh.push(id.copy(alloc)?)?;
        self.insert(alloc, id.as_str(), store.get(id.as_str()))
    }

    /// Holds these ids no more. It takes no memory.
    pub(crate) fn forget(&mut self, ids: &[Text])
        ensures { self.new ≡ without_all self.old ids.now }
    {
        let mut left = ids.len();
        'ids: while left > 0 {
            left -= 1;
            self.remove(ids[left].as_str());
        }
    }

    /// Writes what it holds over the records of a store.
    pub(crate) fn write_back<D: DocStore, L: Ledger>(
        &self,
        alloc: Global,
        store: &mut D,
        steps: &mut Steps<L>,
    ) -> Mem<()>
        ensures ok { OnOk result (D.records store.new
            ≡ written_over self.now (D.records store.old)) }
        ensures begun { D.begun store.new ≡ D.begun store.old }
        ensures rest { D.rest store.new ≡ D.rest store.old }
        ensures ticks { steps.new ≤ steps.old + length self.now }
    {
        for (id, slot) in &self.tree {
            drop(store.write(alloc, id.as_str(), Val::copy_slot(alloc, slot)?, steps)?);
        }
        Ok(())
    }
}
