//! The keys of records by id.
ghost use Rattle.std.specs.Prelude.{◌≡◌, [], IfOk, OnOk, OnErr, option_map, map};
ghost use Rattle.rooms_val.specs.Maps.{value_at, with_key};
ghost use Rattle.tl_rules.specs.declared.key.TlKey.TheVariants as key_of;
ghost use Rattle.record_store.specs.Lists.{records_of};

use crate::lists::record_of;
use rooms_val::{Mem, Text};
use signal_txn::Txn;
use std::alloc::Global;
use std::collections::BTreeMap;
use std::marker::Model;
use tl_rules::{TlKey, TlRules};

/// The ids that were ever written, each with the key of its record, so that a record is found without memory. A look-up
/// costs a logarithm of their number.
#[derive(Drop)]
pub(crate) struct Keys {
    tree: BTreeMap<String, TlKey>,
}

impl Model for Keys {
    ghost use Rattle.record_store.specs.Seen.{Keys as KeyPairs, AreKeys};
    ghost use Rattle.record_store.specs.Tree.{keys_view};

    ghost Value = { KeyPairs };

    ghost view = { λ k. keys_view k.tree.entries };

    ghost invariant = { λ k. AreKeys (keys_view k.tree.entries) };
}

impl Keys {
    ghost use Rattle.record_store.specs.Seen.{AreKeys};

    /// No key.
    pub(crate) fn new(alloc: Global) -> Keys
        ensures { result ≡ [] }
    {
        Keys {
            tree: BTreeMap::new(alloc),
        }
    }

    /// Does nothing: that each key is that of its record is told by the type.
    pub(crate) fn tell(&self)
        ensures { AreKeys self.now }
    {
        let _ = self.tree.len();
    }

    /// The key of the record of an id that was written.
    pub(crate) fn get(&self, id: &str) -> Option<&TlKey>
        ensures found { option_map (λ k. k.now) result ≡ value_at self.now id.now }
        ensures keys { AreKeys self.now }
    {
        self.tree.get(id)
    }

    /// Adds an id, unless it is there. Where memory is refused nothing changes.
    pub(crate) fn add(&mut self, alloc: Global, id: &str) -> Mem<()>
        ensures ok { OnOk result (self.new ≡ with_key self.old id.now (key_of.Rec id.now)) }
        ensures err { OnErr result (self.new ≡ self.old) }
    {
        if self.get(id).is_some() {
            return Ok(());
        }
        let key = TlKey::Rec(Text::of(alloc, id)?);
        let _ = self.tree.insert(String::from_str(alloc, id)?, key)?;
        Ok(())
    }

    /// The ids whose atoms have records, in order.
    pub(crate) fn ids_of_records(&self, alloc: Global, graph: &Txn<TlRules>) -> Mem<Vec<Text>>
        ensures { IfOk result (λ ids. ids.items ≡ map (λ p. p.0) (records_of self.now graph.now)) }
    {
        let mut ids = Vec::new(alloc);
        for (id, key) in &self.tree {
            if record_of(graph, key).is_some() {
                ids.push(Text::of(alloc, id.as_str())?)?;
            }
        }
        Ok(ids)
    }
}
