//! The plain store.
ghost use Rattle.std.specs.Prelude.{◌≡◌, []};
ghost use Rattle.rooms_val.specs.Maps.{value_at, without_key};
ghost use Rattle.field_ops.specs.View.{maybe_data};

use crate::journal;
use crate::journal::Entry;
use crate::slots::Slots;
use crate::store::{DocStore, MOST_OPEN};
use rooms_val::{Mem, Steps, Text, TxnFault, Val};
use std::alloc::Global;
use std::marker::Model;
use std::sync::ledger::Ledger;

/// A store that holds records and nothing else. A look-up and a write cost a logarithm of the number of records, a write in
/// a transaction also a copy of the record that stood there, and an abort what was written. Contracts see its records and
/// those at which the open transactions began, newest first.
#[derive(Drop)]
pub struct MapDoc {
    slots: Slots,
    journal: Vec<Entry>,
    depth: usize,
}

impl Model for MapDoc {
    ghost use Rattle.std.specs.Prelude.{List};
    ghost use Rattle.std.specs.Coded.{coded×, coded_list};
    ghost use Rattle.rooms_val.specs.Data.{Pairs};
    ghost use Rattle.rooms_val.specs.Code.{coded_pairs};

    ghost Value = { Pairs × List Pairs };

    ghost coded = { coded× coded_pairs (coded_list coded_pairs) };

    ghost use Rattle.doc_store.specs.Slots.{present};
    ghost use Rattle.doc_store.specs.Journal.{begun, notes_of};
    ghost use Rattle.doc_store.specs.Kept.{IsKept};

    ghost view = { λ d. (present d.slots, begun (notes_of d.journal.items) d.slots) };

    ghost invariant = { λ d. IsKept d.slots d.journal.items d.depth };
}

impl MapDoc {
    /// The store without a record, and without an open transaction.
    pub fn new(alloc: Global) -> MapDoc
        ensures { result ≡ ([], []) }
    {
        MapDoc {
            slots: Slots::new(alloc),
            journal: Vec::new(alloc),
            depth: 0,
        }
    }

    /// Takes a record away where no transaction is open, and returns it. `None` exactly where there
    /// is none. It takes no memory, and costs a logarithm of the number of records.
    pub fn take(&mut self, id: &str) -> Option<Val>
        requires { self.old.1 ≡ [] }
        ensures old { maybe_data result ≡ value_at self.old.0 id.now }
        ensures rest { self.new ≡ (without_key self.old.0 id.now, []) }
    {
        journal::take_plain(&mut self.slots, id)
    }
}

impl DocStore for MapDoc {
    ghost records = { λ d. d.0 };

    ghost begun = { λ d. d.1 };

    ghost Rest = { Unit {0} };

    ghost rest = { λ d. tt };

    fn get(&self, id: &str) -> Option<&Val> {
        self.slots.get(id)
    }

    fn ids(&self, alloc: Global) -> Mem<Vec<Text>> {
        self.slots.ids(alloc)
    }

    fn write<L: Ledger>(
        &mut self,
        alloc: Global,
        id: &str,
        stored: Option<Val>,
        steps: &mut Steps<L>,
    ) -> Mem<Option<Val>> {
        steps.tick();
        if self.depth == 0 {
            return journal::write_plain(&mut self.slots, alloc, id, stored);
        }
        journal::write(&mut self.journal, &mut self.slots, alloc, id, stored)
    }

    fn begin(&mut self) -> Result<(), TxnFault> {
        if self.depth >= MOST_OPEN {
            return Err(TxnFault::TooNested);
        }
        journal::begin(&mut self.journal)?;
        self.depth += 1;
        Ok(())
    }

    fn commit(&mut self) {
        journal::forget_begin(&mut self.journal);
        self.depth -= 1;
        journal::tidy(self.depth, &mut self.journal, &mut self.slots);
    }

    fn abort(&mut self) {
        journal::undo(&mut self.journal, &mut self.slots);
        self.depth -= 1;
        journal::tidy(self.depth, &mut self.journal, &mut self.slots);
    }
}
