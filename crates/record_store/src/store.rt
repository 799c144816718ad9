//! The store on signals.
ghost use Rattle.std.specs.Prelude.{◌≡◌, ◌<◌, ◌≢◌, ◌+◌, ◌≤◌, ◌↔◌, [], ◌∷◌, length, IsTrue, IfOk, OnOk, OnErr, Err};
ghost use Rattle.rooms_val.specs.Maps.{value_at, set_at};
ghost use Rattle.field_ops.specs.View.{maybe_data};
ghost use Rattle.doc_store.specs.declared.store.TheConstants.{MOST_OPEN};
ghost use Rattle.signal_core.specs.Watches.{IsLeastFree, IsWatched, IsFull, AddsWatch, DropsWatch};
ghost use Rattle.signal_core.specs.Due.{AreFreshKeys, AreFreshIn};
ghost use Rattle.signal_core.specs.declared.watch.WatchFault.TheVariants as watch_fault;
ghost use Rattle.signal_txn.specs.LastWrites.{no_writes};
ghost use Rattle.signal_txn.specs.Level.{unwritten};
ghost use Rattle.signal_txn.specs.Since.{IsSince};
ghost use Rattle.signal_values.specs.Seen.{IsFreshIn, top};
ghost use Rattle.record_store.specs.Kept.{IsLevelled};
ghost use Rattle.record_store.specs.Lists.{begun_of, atoms_of, IsWritten};
ghost use Rattle.record_store.specs.Seen.{records, begun, watches, epoch, ring};
ghost use Rattle.record_store.specs.Tells.{JoinsOnly, TellsFrom, TellsOn};
ghost use Rattle.record_store.specs.Calls.{AreDue, AreNews, ArePlainNews, AreTold, AreAsked, KeepsApart, KeepsBoard};

use crate::keys::Keys;
use crate::lists::{record_at, write_all};
use doc_store::{DocStore, MOST_OPEN};
use rooms_val::{Mem, OutOfMemory, Steps, Text, TxnFault, Val};
use signal_core::{News, WatchFault, WatchId};
use signal_txn::{Since, Txn};
use std::alloc::Global;
use std::marker::Model;
use std::sync::ledger::Ledger;
use tl_rules::{TlKey, TlRules, TlValue};

/// A store of which views are asked and watched.
#[derive(Drop)]
pub struct RecordStore {
    // Where transactions and copies are made.
    alloc: Global,
    // The keys of the records that were ever written.
    keys: Keys,
    // The records and their lists as atoms, and what hangs on them. At most 16 transactions are open between calls.
    graph: Txn<TlRules>,
}

impl Model for RecordStore {
    ghost use Rattle.record_store.specs.Seen.{Seen};
    ghost use Rattle.record_store.specs.Kept.{IsStore};
    ghost use Rattle.std.specs.Coded.{codes};
    ghost use Rattle.rooms_val.specs.Code.{coded_data};

    ghost Value = { Seen };

    ghost coded = { Prim.hlevel (codes, coded_data) };

    ghost view = { λ s. record { keys = s.keys; txn = s.graph } };

    ghost invariant = { λ s. IsStore (record { keys = s.keys; txn = s.graph }) };
}

impl RecordStore {
    /// The store without a record, a watch or an open transaction.
    ///
    /// # Errors
    ///
    /// Memory was refused.
    pub fn new(alloc: Global) -> Mem<RecordStore>
        ensures records { IfOk result (λ s. records s ≡ []) }
        ensures begun { IfOk result (λ s. begun s ≡ []) }
        ensures watches { IfOk result (λ s. watches s ≡ []) }
        ensures epoch { IfOk result (λ s. epoch s ≡ 0) }
        ensures ring { IfOk result (λ s. ring s ≡ no_writes) }
    {
        Ok(RecordStore {
            alloc,
            keys: Keys::new(alloc),
            graph: Txn::new(alloc, TlRules)?,
        })
    }

    /// Sets the record of an id, or takes it away, and gives the one before. It counts one step. Where no transaction is
    /// open the write counts as committed.
    ///
    /// It costs a look-up and a copy of the record, what becomes stale, and in each list that the id leaves or joins two
    /// look-ups and a copy of one part; where the list's hints don't lead to the place, a look-up for each halving. The list
    /// before, for an undoing, and that for `diffs_since` share the others.
    ///
    /// # Errors
    ///
    /// Memory was refused; records, transactions, watches and the committed writes are as they were.
    pub fn replace<L: Ledger>(
        &mut self,
        alloc: Global,
        id: &str,
        stored: Option<Val>,
        steps: &mut Steps<L>,
    ) -> Mem<Option<Val>>
        ensures old { IfOk result (λ r. maybe_data r ≡ value_at (records self.old) id.now) }
        ensures ok { OnOk result
            (records self.new ≡ set_at (records self.old) id.now (maybe_data stored)) }
        ensures err { OnErr result (records self.new ≡ records self.old) }
        ensures ring { OnErr result (ring self.new ≡ ring self.old) }
        ensures inner { begun self.old ≢ [] → ring self.new ≡ ring self.old }
        ensures begun { begun self.new ≡ begun self.old }
        ensures watches { watches self.new ≡ watches self.old }
        ensures epoch { epoch self.old ≤ epoch self.new }
        ensures apart { OnOk result (KeepsApart
            (IsWritten id.now (value_at (records self.old) id.now) (maybe_data stored))
            self.old self.new) }
        ensures joins { OnOk result (JoinsOnly
            (IsWritten id.now (value_at (records self.old) id.now) (maybe_data stored))
            self.old self.new) }
        ensures told { begun self.old ≡ [] → OnOk result (TellsOn self.old self.new) }
        ensures ticked { steps.new ≡ steps.old + 1 }
    {
        steps.tick();
        self.keys.add(alloc, id)?;
        open(alloc, &mut self.graph)?;
        match write_all(alloc, &mut self.graph, &self.keys, id, stored) {
            Ok(before) => {
                self.graph.commit();
                tell_epoch(&self.graph);
                Ok(before)
            }
            Err(refused) => {
                self.graph.abort();
                Err(refused)
            }
        }
    }

    /// How many calls changed an atom, at most 2^64 - 1. Where no transaction is open, nothing was written since.
    pub fn epoch(&self) -> u64
        ensures epoch { result ≡ epoch self.now }
        ensures told { begun self.now ≡ [] → epoch self.now < top
            → TellsFrom self.now (epoch self.now) (records self.now) }
    {
        self.graph.epoch()
    }

    /// How many transactions are open, at most 16.
    pub fn depth(&self) -> usize
        ensures { result ≡ length (begun self.now) }
    {
        self.graph.depth()
    }

    /// The atoms that were written after an epoch, each with its value from then on, as far as that was committed and is
    /// among the last 256 writes.
    ///
    /// # Errors
    ///
    /// Memory was refused.
    pub fn diffs_since(&self, alloc: Global, epoch: u64) -> Mem<Since<TlKey, TlValue>>
        ensures { IfOk result (IsSince self.now.txn epoch) }
    {
        self.graph.diffs_since(alloc, epoch)
    }

    /// Watches a key by the least number that isn't watched. It is due until its value is told.
    ///
    /// # Errors
    ///
    /// `Full` exactly where 64 are watched, or `OutOfMemory`; then nothing changed.
    pub fn watch(&mut self, key: TlKey) -> Result<WatchId, WatchFault>
        ensures number { IfOk result (λ id. IsLeastFree (watches self.old) id.number) }
        ensures ok { IfOk result (λ id.
            AddsWatch (watches self.old) (watches self.new) key id.number) }
        ensures board { KeepsBoard self.old self.new }
        ensures full { (result ≡ Err watch_fault.Full) ↔ IsFull (watches self.old) }
        ensures err { OnErr result (self.new ≡ self.old) }
    {
        tell_level(&key);
        self.graph.watch(key)
    }

    /// Whether a number is watched.
    pub fn is_watched(&self, id: WatchId) -> bool
        ensures { IsTrue result ↔ IsWatched (watches self.now) id.number }
    {
        self.graph.is_watched(id)
    }

    /// Watches a number no more, which is watched.
    pub fn unwatch(&mut self, id: WatchId)
        requires { IsWatched (watches self.old) id.number }
        ensures watches { DropsWatch (watches self.old) (watches self.new) id.number }
        ensures board { KeepsBoard self.old self.new }
    {
        self.graph.unwatch(id);
    }

    /// What is to be told: which watches are due, each with its value. Nothing counts as told yet. No transaction is open.
    ///
    /// It costs an `ask` of each key that is watched.
    ///
    /// # Errors
    ///
    /// Memory was refused.
    pub fn news<L: Ledger>(&mut self, alloc: Global, steps: &mut Steps<L>) -> Mem<News<TlValue>>
        requires { begun self.old ≡ [] }
        ensures news { IfOk result (AreNews self.new) }
        ensures due { IfOk result (λ news. AreDue self.old news.due.items) }
        ensures plain { IfOk result (λ news. ArePlainNews self.old news.told.items) }
        ensures watches { watches self.new ≡ watches self.old }
        ensures asked { AreAsked self.old self.new }
        ensures fresh { OnOk result (AreFreshKeys (watches self.old) self.new.txn.graph.values) }
        ensures free { AreFreshIn (watches self.old) self.old.txn.graph.values
            → steps.new ≡ steps.old }
    {
        self.graph.news(alloc, steps)
    }

    /// Tells the news of this store as it is, and gives which watches were due, each with its value, by rising number. From
    /// then on these values count as told. No transaction is open.
    ///
    /// It takes no memory. It costs a look at each watch.
    pub fn tell(&mut self, news: News<TlValue>) -> Vec<(WatchId, TlValue)>
        requires closed { begun self.old ≡ [] }
        requires news { AreNews self.old news }
        ensures due { result.items ≡ news.due.items }
        ensures told { AreTold self.old (watches self.new) }
        ensures board { KeepsBoard self.old self.new }
    {
        self.graph.tell(news)
    }

    /// The watches whose value differs from what was last told, a new watch always, each with its value, by rising number.
    /// From then on these values count as told. No transaction is open.
    ///
    /// It costs an `ask` of each key that is watched.
    ///
    /// # Errors
    ///
    /// Memory was refused. Nothing of this call counts as told; records and the epoch are as they were, and fresh keys stay
    /// so.
    pub fn due<L: Ledger>(
        &mut self,
        alloc: Global,
        steps: &mut Steps<L>,
    ) -> Mem<Vec<(WatchId, TlValue)>>
        requires { begun self.old ≡ [] }
        ensures due { IfOk result (λ due. AreDue self.old due.items) }
        ensures told { OnOk result (AreTold self.old (watches self.new)) }
        ensures err { OnErr result (watches self.new ≡ watches self.old) }
        ensures asked { AreAsked self.old self.new }
        ensures fresh { OnOk result (AreFreshKeys (watches self.old) self.new.txn.graph.values) }
        ensures free { AreFreshIn (watches self.old) self.old.txn.graph.values
            → steps.new ≡ steps.old }
    {
        self.graph.due(alloc, steps)
    }
}

impl RecordStore {
    ghost use Rattle.std.specs.Borrow.{sem, follows_so};
    ghost use Rattle.std.specs.Prelude.{⊤};
    ghost use mathlib.Core.Option.{none};
    ghost use Rattle.record_store.specs.contracts.store.RecordStore.{the_row};
    ghost use Rattle.record_store.specs.Plain.{plain};
    ghost use Rattle.record_store.specs.Calls.{IsAsked, IsFresh};

    /// What a key comes to, computed anew only where it may differ: what the plain query of the key says of the records.
    ///
    /// It costs a look-up where the key is fresh, and else the runs of the stale keys that it asks for, each once.
    ///
    /// # Errors
    ///
    /// Memory was refused; records, transactions, watches and the epoch are as they were, and fresh keys stay so.
    pub fn ask<L: Ledger>(
        &mut self,
        alloc: Global,
        key: &TlKey,
        steps: &mut Steps<L>,
    ) -> Mem<&TlValue>
        ensures* left { sem 𝓛 (follows_so the_row the_row self.entry.ghost_name none (λ _ _. ⊤)
            (λ s. IsAsked self.old s × IfOk result (λ _. IsFresh s key.now))) }
        ensures value { IfOk result (λ v. v.now ≡ plain (records self.old) key.now) }
        ensures free { IsFreshIn self.old.txn.graph.values key.now → steps.new ≡ steps.old }
    {
        tell_level(key);
        self.graph.get(alloc, key, steps)
    }
}

impl DocStore for RecordStore {
    ghost use Rattle.std.specs.Prelude.{List, Option};
    ghost use Rattle.signal_core.specs.declared.watch.Watch.{Watch};
    ghost use Rattle.tl_rules.specs.declared.key.TlKey.{TlKey as Key};
    ghost use Rattle.tl_rules.specs.declared.value.TlValue.{TlValue as Value};
    ghost use Rattle.tl_rules.specs.Exact.{key_cmp};
    ghost use Rattle.tl_rules.specs.Meaning.{tl_meaning};
    ghost use Rattle.doc_store.specs.Begun.{outer};
    ghost use Rattle.signal_txn.specs.Seen.{IsCommitted, IsAborted};

    ghost records = { records };

    ghost begun = { begun };

    ghost Rest = { List (Option (Watch Key Value)) };

    ghost rest = { watches };

    fn get(&self, id: &str) -> Option<&Val> {
        record_at(&self.graph, &self.keys, id)
    }

    fn ids(&self, alloc: Global) -> Mem<Vec<Text>> {
        self.keys.ids_of_records(alloc, &self.graph)
    }

    /// As `replace`, with what it promises.
    fn write<L: Ledger>(
        &mut self,
        alloc: Global,
        id: &str,
        stored: Option<Val>,
        steps: &mut Steps<L>,
    ) -> Mem<Option<Val>>
        ensures old { IfOk result (λ r. maybe_data r ≡ value_at (records self.old) id.now) }
        ensures ok { OnOk result
            (records self.new ≡ set_at (records self.old) id.now (maybe_data stored)) }
        ensures ticked { OnOk result (steps.new ≡ steps.old + 1) }
        ensures untold { OnErr result (steps.new ≤ steps.old + 1) }
        ensures begun { begun self.new ≡ begun self.old }
        ensures rest { watches self.new ≡ watches self.old }
        ensures err { OnErr result (records self.new ≡ records self.old) }
        ensures ring { OnErr result (ring self.new ≡ ring self.old) }
        ensures inner { begun self.old ≢ [] → ring self.new ≡ ring self.old }
        ensures epoch { epoch self.old ≤ epoch self.new }
        ensures apart { OnOk result (KeepsApart
            (IsWritten id.now (value_at (records self.old) id.now) (maybe_data stored))
            self.old self.new) }
        ensures joins { OnOk result (JoinsOnly
            (IsWritten id.now (value_at (records self.old) id.now) (maybe_data stored))
            self.old self.new) }
        ensures told { begun self.old ≡ [] → OnOk result (TellsOn self.old self.new) }
        ensures counted { steps.new ≡ steps.old + 1 }
    {
        self.replace(alloc, id, stored, steps)
    }

    /// Opens a transaction. `TooNested` exactly where 16 are open, or `OutOfMemory`; then none more is open. It copies no
    /// record, and what is fresh stays so.
    fn begin(&mut self) -> Result<(), TxnFault>
        ensures ok { OnOk result (begun self.new ≡ records self.old ∷ begun self.old) }
        ensures nested { (result ≡ Err TxnFault.TooNested) ↔ (MOST_OPEN ≤ length (begun self.old)) }
        ensures err { OnErr result (begun self.new ≡ begun self.old) }
        ensures records { records self.new ≡ records self.old }
        ensures rest { watches self.new ≡ watches self.old }
        ensures graph { self.new.txn.graph ≡ self.old.txn.graph }
        ensures journal { OnOk result (self.new.txn.journal
            ≡ record self.old.txn.journal { levels = unwritten ∷ self.old.txn.journal.levels }) }
        ensures same { OnErr result (self.new ≡ self.old) }
    {
        if self.graph.depth() >= MOST_OPEN {
            return Err(TxnFault::TooNested);
        }
        open(self.alloc, &mut self.graph)?;
        Ok(())
    }

    /// Closes the newest transaction, of which there is one, and keeps what was written in it. What is fresh stays so.
    fn commit(&mut self)
        requires { begun self.old ≢ [] }
        ensures begun { begun self.new ≡ outer (begun self.old) }
        ensures records { records self.new ≡ records self.old }
        ensures rest { watches self.new ≡ watches self.old }
        ensures committed { IsCommitted tl_meaning key_cmp self.old.txn self.new.txn }
    {
        self.graph.commit();
    }

    /// Closes the newest transaction, of which there is one, and brings back the records with which it began. A fresh key
    /// whose run meets none of the atoms written since stays fresh.
    fn abort(&mut self)
        requires { begun self.old ≢ [] }
        ensures restored { begun self.old ≡ records self.new ∷ begun self.new }
        ensures rest { watches self.new ≡ watches self.old }
        ensures aborted { IsAborted tl_meaning key_cmp self.old.txn self.new.txn }
    {
        self.graph.abort();
    }
}

// Opens a transaction, where at most 16 are open.
fn open(alloc: Global, graph: &mut Txn<TlRules>) -> Mem<()>
    requires { length graph.old.journal.levels ≤ MOST_OPEN }
    ensures begun { OnOk result (begun_of graph.new ≡ atoms_of graph.old ∷ begun_of graph.old) }
    ensures journal { OnOk result (graph.new.journal
        ≡ record graph.old.journal { levels = unwritten ∷ graph.old.journal.levels }) }
    ensures graph { graph.new.graph ≡ graph.old.graph }
    ensures err { OnErr result (graph.new ≡ graph.old) }
{
    match graph.begin(alloc) {
        Ok(()) => Ok(()),
        Err(_) => Err(OutOfMemory),
    }
}

// The epoch is at most 2^64 - 1, as a number of the code.
fn tell_epoch(graph: &Txn<TlRules>)
    ensures { graph.now.graph.values.epoch ≤ top }
{
    let _ = graph.epoch();
}

// That a box looks at most so many levels down is told by its level.
fn tell_level(key: &TlKey)
    ensures { IsLevelled key.now }
{
    if let TlKey::Box(_, level) = key {
        let _ = level.number();
    }
}
