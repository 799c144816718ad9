//! The slots that hold a store's records.
ghost use Rattle.std.specs.Prelude.{◌≡◌, [], IfOk, OnOk, OnErr, option_map, string_bytes, map};
ghost use Rattle.rooms_val.specs.Data.{members_of, IsSound, map as map_data, IsSoundRecord};
ghost use Rattle.rooms_val.specs.View.{data_of};
ghost use Rattle.rooms_val.specs.Maps.{AreRising, value_at, with_key, without_key};
ghost use Rattle.field_ops.specs.View.{maybe_data};

use rooms_val::{Mem, OutOfMemory, Text, Val};
use std::alloc::Global;
use std::collections::BTreeMap;
use std::marker::Model;

/// A record, or none where it was taken away while a transaction is open: so that it can come back without memory.
pub(crate) type Slot = Option<Val>;

/// Slots by id. A look-up and a change cost a logarithm of their number.
#[derive(Drop)]
pub(crate) struct Slots {
    tree: BTreeMap<String, Slot>,
}

impl Model for Slots {
    ghost use Rattle.doc_store.specs.Slots.{Slots as SlotPairs, AreSound, coded_slots};

    ghost Value = { SlotPairs };

    ghost coded = { coded_slots };

    ghost use Rattle.doc_store.specs.Tree.{slots_view};

    ghost view = { λ s. slots_view s.tree.entries };

    ghost invariant = { λ s. AreSound (slots_view s.tree.entries) };
}

impl Slots {
    ghost use Rattle.doc_store.specs.Slots.{slot_record, present, AreSound};

    /// No slot.
    pub(crate) fn new(alloc: Global) -> Slots
        ensures { result ≡ [] }
    {
        Slots {
            tree: BTreeMap::new(alloc),
        }
    }

    /// The record in the slot of an id. `None` exactly where there is none.
    pub(crate) fn get(&self, id: &str) -> Option<&Val>
        ensures found { option_map (λ v. data_of v.now) result
            ≡ slot_record (value_at self.now id.now) }
        ensures sound { AreSound self.now }
    {
        match self.tree.get(id) {
            Some(slot) => slot.as_ref(),
            None => None,
        }
    }

    /// A copy of the slot of an id, if there is one.
    pub(crate) fn slot(&self, alloc: Global, id: &str) -> Mem<Option<Slot>>
        ensures found { IfOk result (λ s. option_map maybe_data s ≡ value_at self.now id.now) }
        ensures sound { AreSound self.now }
    {
        match self.tree.get(id) {
            Some(slot) => Ok(Some(Val::copy_slot(alloc, slot)?)),
            None => Ok(None),
        }
    }

    /// The ids of the records, in order.
    pub(crate) fn ids(&self, alloc: Global) -> Mem<Vec<Text>>
        ensures { IfOk result (λ ids. ids.items ≡ map (λ p. p.0) (present self.now)) }
    {
        let mut ids = Vec::new(alloc);
        for (id, slot) in &self.tree {
            if slot.is_some() {
                ids.push(Text::of(alloc, id.as_str())?)?;
            }
        }
        Ok(ids)
    }

    /// Sets the slot of an id, and returns the one before. Memory is refused only where there was none, and then nothing
    /// changes.
    pub(crate) fn put(&mut self, id: String, slot: Slot) -> Mem<Option<Slot>>
        ensures old { IfOk result (λ s. option_map maybe_data s
            ≡ value_at self.old (string_bytes id)) }
        ensures ok { OnOk result
            (self.new ≡ with_key self.old (string_bytes id) (maybe_data slot)) }
        ensures full { OnErr result (value_at self.old (string_bytes id) ≡ None) }
        ensures err { OnErr result (self.new ≡ self.old) }
    {
        tell_sound(&slot);
        match self.tree.insert(id, slot) {
            Ok(old) => Ok(old),
            Err(_) => Err(OutOfMemory),
        }
    }

    /// Takes the slot of an id away, and returns it.
    pub(crate) fn take(&mut self, id: &str) -> Option<Slot>
        ensures old { option_map maybe_data result ≡ value_at self.old id.now }
        ensures rest { self.new ≡ without_key self.old id.now }
    {
        self.tree.remove(id)
    }
}

// That a record is sound is told by its kind.
fn tell_sound(slot: &Slot)
    ensures { IsSoundRecord (maybe_data slot.now) }
{
    if let Some(val) = slot {
        let _ = val.kind();
    }
}
