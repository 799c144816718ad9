//! Transactions over a graph.
ghost use Rattle.std.specs.Prelude.{◌≡◌, ◌≢◌, ◌≤◌, ◌↔◌, [], ◌∷◌, length, IsTrue, IfOk, IfSome, IfNone, OnOk, OnErr};
ghost use Rattle.signal_values.specs.Seen.{value_in, IsFreshIn, changed_in};
ghost use Rattle.signal_values.specs.Kept.{IsFreshKey};
ghost use Rattle.signal_core.specs.Due.{AreDue, AreTold, AreFreshKeys, AreFreshIn};
ghost use Rattle.signal_core.specs.Gots.{AreGot};
ghost use Rattle.signal_core.specs.News.{AreNewsOf};
ghost use Rattle.signal_core.specs.Watches.{IsLeastFree, IsWatched, IsFull, AddsWatch, DropsWatch};
ghost use Rattle.signal_core.specs.declared.watch.WatchFault.{WatchFault as watch_fault};
ghost use Rattle.signal_txn.specs.LastWrites.{no_writes};
ghost use Rattle.signal_txn.specs.Histories.{History, Keeps};
ghost use Rattle.signal_txn.specs.Level.{unwritten};
ghost use Rattle.signal_txn.specs.Seen.{atoms_in, begun, KeepsOn, IsGotIn, IsSetIn, IsCommitted, IsAborted};
ghost use Rattle.signal_txn.specs.Since.{IsSince, AreAllSince};
ghost use Rattle.signal_txn.specs.declared.txn.TheConstants.{MOST_OPEN};

use crate::journal::{begin, commit, join};
use crate::last_writes::LastWrites;
use crate::level::Level;
use crate::noting::{put_back_all, set_noted};
use crate::since::{Since, copies_after};
use crate::write::Write;
use rooms_val::{Mem, Steps, TxnFault};
use signal_core::{Graph, News, Rules, WatchFault, WatchId};
use std::alloc::Global;
use std::marker::Model;
use std::sync::ledger::Ledger;

/// How many transactions of one [`Txn`] may be open, each within the one before. That is one more than
/// the 16 of a store in `doc_store`: a store over a `Txn` does each write in a transaction of its own.
pub const MOST_OPEN: usize = 17;

/// A graph whose atoms are set in transactions, which nest.
#[derive(Drop)]
pub struct Txn<R: Rules + Drop> {
    graph: Graph<R>,
    // The committed writes.
    ring: LastWrites<R::Key, R::Value>,
    // The open transactions, at most 17, the newest last.
    levels: Vec<Level<R::Key, R::Value>>,
}

impl<R: Rules + Drop> Model for Txn<R> {
    ghost use Rattle.std.specs.Prelude.{reverse};
    ghost use Rattle.signal_txn.specs.Journal.{journal_of};
    ghost use Rattle.signal_txn.specs.Seen.{Seen};
    ghost use Rattle.signal_txn.specs.Undo.{AreUndoable};

    ghost Value = { Seen R R.Key R.Value };

    ghost view = { λ s. record { graph = s.graph; journal = journal_of s.levels.items s.ring } };

    ghost invariant = { λ s. AreUndoable (R.meaning s.graph.values.rules) R.Key.cmp s.graph.values
        (reverse s.levels.items) };
}

impl<R: Rules + Drop> Txn<R> {
    /// A graph of which no atom was set, without watches and open transactions.
    ///
    /// # Errors
    ///
    /// Memory was refused.
    pub fn new(alloc: Global, rules: R) -> Mem<Txn<R>>
        ensures values { IfOk result
            (λ t. (t.graph.values.rules ≡ rules) × (t.graph.values.rows ≡ [])
            × (t.graph.values.epoch ≡ 0)) }
        ensures watches { IfOk result (λ t. t.graph.watches ≡ []) }
        ensures journal { IfOk result (λ t. t.journal ≡ record { levels = []; ring = no_writes }) }
        ensures writes { IfOk result (λ t. Keeps ([] ∷ []) t.journal t.graph.values.epoch) }
    {
        Ok(Txn {
            graph: Graph::new(alloc, rules)?,
            ring: LastWrites::new(alloc)?,
            levels: Vec::new(alloc),
        })
    }

    /// How often an atom changed, at most 2^64 - 1.
    pub fn epoch(&self) -> u64
        ensures { result ≡ self.now.graph.values.epoch }
    {
        self.graph.epoch()
    }

    /// The value of an atom: none only where that is `blank`. It changes nothing.
    pub fn atom(&self, key: &R::Key) -> Option<&R::Value>
        requires { (R.meaning self.now.graph.values.rules).rank key.now ≡ 0 }
        ensures found { IfSome result
            (λ v. v.now ≡ atoms_in (R.meaning self.now.graph.values.rules) R.Key.cmp self.now
            key.now) }
        ensures absent { IfNone result
            (atoms_in (R.meaning self.now.graph.values.rules) R.Key.cmp self.now key.now
            ≡ (R.meaning self.now.graph.values.rules).blank key.now) }
    {
        self.graph.atom(key)
    }

    /// The epoch after the call that last changed the value of a key: none exactly where the key was
    /// neither set nor computed.
    pub fn changed_at(&self, key: &R::Key) -> Option<u64>
        ensures { result ≡ changed_in R.Key.cmp self.now.graph.values key.now }
    {
        self.graph.changed_at(key)
    }

    /// A copy of the value of a key, computed anew only where it may differ.
    ///
    /// # Errors
    ///
    /// Memory was refused; atoms, the epoch and transactions are as they were, and fresh keys stay so.
    pub fn copied<L: Ledger>(
        &mut self,
        alloc: Global,
        key: &R::Key,
        steps: &mut Steps<L>,
    ) -> Mem<R::Value>
        ensures got { IsGotIn (R.meaning self.old.graph.values.rules) R.Key.cmp self.old self.new }
        ensures value { IfOk result
            (λ v. v ≡ value_in (R.meaning self.old.graph.values.rules) R.Key.cmp
            self.old.graph.values key.now) }
        ensures fresh { OnOk result
            (IsFreshKey self.new.graph.values.rows self.new.graph.values.fresh key.now) }
        ensures free { IsFreshIn self.old.graph.values key.now → steps.new ≡ steps.old }
    {
        self.graph.copied(alloc, key, steps)
    }

    /// Watches a key. The number is the least that isn't watched, and nothing counts as told of it.
    ///
    /// # Errors
    ///
    /// `Full` exactly where 64 are watched, or `OutOfMemory`; then nothing changed.
    pub fn watch(&mut self, key: R::Key) -> Result<WatchId, WatchFault>
        ensures number { IfOk result (λ id. IsLeastFree self.old.graph.watches id.number) }
        ensures ok { IfOk result
            (λ id. AddsWatch self.old.graph.watches self.new.graph.watches key id.number) }
        ensures values { self.new.graph.values ≡ self.old.graph.values }
        ensures journal { self.new.journal ≡ self.old.journal }
        ensures full { (result ≡ Err watch_fault.Full) ↔ IsFull self.old.graph.watches }
        ensures err { OnErr result (self.new ≡ self.old) }
    {
        self.graph.watch(key)
    }

    /// Whether a number is watched.
    pub fn is_watched(&self, id: WatchId) -> bool
        ensures { IsTrue result ↔ IsWatched self.now.graph.watches id.number }
    {
        self.graph.is_watched(id)
    }

    /// Watches a number no more, which is watched.
    pub fn unwatch(&mut self, id: WatchId)
        requires { IsWatched self.old.graph.watches id.number }
        ensures watches { DropsWatch self.old.graph.watches self.new.graph.watches id.number }
        ensures values { self.new.graph.values ≡ self.old.graph.values }
        ensures journal { self.new.journal ≡ self.old.journal }
    {
        self.graph.unwatch(id)
    }

    /// What the watches have to tell: which of them are due, those whose value differs from what was
    /// last told, a new watch always. Nothing counts as told until [`Txn::tell`]. No transaction is
    /// open.
    ///
    /// It costs a `get` of each key that is watched, and two copies of each value that is due.
    ///
    /// # Errors
    ///
    /// Memory was refused; atoms and the epoch are as they were, and fresh keys stay so.
    pub fn news<L: Ledger>(&mut self, alloc: Global, steps: &mut Steps<L>) -> Mem<News<R::Value>>
        requires { self.old.journal.levels ≡ [] }
        ensures news { IfOk result (λ news.
            AreNewsOf (R.meaning self.new.graph.values.rules) R.Key.cmp self.new.graph news) }
        ensures due { IfOk result (λ news.
            AreDue (R.meaning self.old.graph.values.rules) R.Key.cmp self.old.graph
            news.due.items) }
        ensures watches { self.new.graph.watches ≡ self.old.graph.watches }
        ensures got { AreGot (R.meaning self.old.graph.values.rules) R.Key.cmp self.old.graph.values
            self.new.graph.values }
        ensures journal { self.new.journal ≡ self.old.journal }
        ensures fresh { OnOk result (AreFreshKeys self.old.graph.watches self.new.graph.values) }
        ensures free { AreFreshIn self.old.graph.watches self.old.graph.values
            → steps.new ≡ steps.old }
    {
        self.graph.news(alloc, steps)
    }

    /// Tells the news of this graph as it is, and gives which watches were due, each with its value,
    /// by rising number. From then on these values count as told. No transaction is open.
    ///
    /// It takes no memory. It costs a look at each watch.
    pub fn tell(&mut self, news: News<R::Value>) -> Vec<(WatchId, R::Value)>
        requires closed { self.old.journal.levels ≡ [] }
        requires news { AreNewsOf (R.meaning self.old.graph.values.rules) R.Key.cmp self.old.graph
            news }
        ensures due { result.items ≡ news.due.items }
        ensures told { AreTold (R.meaning self.old.graph.values.rules) R.Key.cmp self.old.graph
            self.new.graph.watches }
        ensures values { self.new.graph.values ≡ self.old.graph.values }
        ensures journal { self.new.journal ≡ self.old.journal }
    {
        self.graph.tell(news)
    }

    /// The watches whose value differs from what was last told, a new watch always, each with its
    /// value, by rising number. From then on these values count as told. No transaction is open.
    ///
    /// It costs a `get` of each key that is watched, and two copies of each value that is due.
    ///
    /// # Errors
    ///
    /// Memory was refused. Nothing of this call counts as told; atoms and the epoch are as they
    /// were, and fresh keys stay so.
    pub fn due<L: Ledger>(
        &mut self,
        alloc: Global,
        steps: &mut Steps<L>,
    ) -> Mem<Vec<(WatchId, R::Value)>>
        requires { self.old.journal.levels ≡ [] }
        ensures due { IfOk result
            (λ due. AreDue (R.meaning self.old.graph.values.rules) R.Key.cmp self.old.graph
            due.items) }
        ensures told { OnOk result
            (AreTold (R.meaning self.old.graph.values.rules) R.Key.cmp self.old.graph
            self.new.graph.watches) }
        ensures err { OnErr result (self.new.graph.watches ≡ self.old.graph.watches) }
        ensures got { AreGot (R.meaning self.old.graph.values.rules) R.Key.cmp self.old.graph.values
            self.new.graph.values }
        ensures journal { self.new.journal ≡ self.old.journal }
        ensures fresh { OnOk result (AreFreshKeys self.old.graph.watches self.new.graph.values) }
        ensures free { AreFreshIn self.old.graph.watches self.old.graph.values
            → steps.new ≡ steps.old }
    {
        self.graph.due(alloc, steps)
    }

    /// Sets an atom: true exactly where the value differs from the old one. Only then the epoch
    /// rises, up to 2^64 - 1, and what hangs on the atom becomes stale.
    ///
    /// It costs a look-up, what becomes stale, and a copy of the key and of the value. Each open
    /// transaction costs a look-up more. One that hadn't written the key costs a copy of the key and of
    /// the value before, too.
    ///
    /// # Errors
    ///
    /// Memory was refused, and nothing changed.
    pub fn set(&mut self, alloc: Global, key: R::Key, value: R::Value) -> Mem<bool>
        requires { (R.meaning self.old.graph.values.rules).rank key ≡ 0 }
        ensures ok { IfOk result
            (IsSetIn (R.meaning self.old.graph.values.rules) R.Key.cmp self.old self.new key
            value) }
        ensures err { OnErr result (self.new ≡ self.old) }
    {
        let after = self.graph.rules().copy_value(alloc, &value)?;
        if !set_noted(alloc, &mut self.graph, &mut self.levels, 0, &key, value)? {
            return Ok(false);
        }
        let epoch = self.graph.epoch();
        let write = Write {
            key,
            value: after,
            epoch,
        };
        join(&mut self.ring, &mut self.levels, write);
        Ok(true)
    }

    /// How many transactions are open, at most 17.
    pub fn depth(&self) -> usize
        ensures { result ≡ length self.now.journal.levels }
    {
        self.levels.len()
    }

    /// Opens a transaction. It copies no atom.
    ///
    /// # Errors
    ///
    /// `TooNested` exactly where 17 are open, or `OutOfMemory`; then none more is open.
    pub fn begin(&mut self, alloc: Global) -> Result<(), TxnFault>
        ensures journal { OnOk result
            (self.new.journal ≡ record self.old.journal
            { levels = unwritten ∷ self.old.journal.levels }) }
        ensures begun { OnOk result
            (begun (R.meaning self.old.graph.values.rules) R.Key.cmp self.new
            ≡ atoms_in (R.meaning self.old.graph.values.rules) R.Key.cmp self.old
            ∷ begun (R.meaning self.old.graph.values.rules) R.Key.cmp self.old) }
        ensures writes { OnOk result (KeepsOn (λ history. [] ∷ history) self.old self.new) }
        ensures graph { self.new.graph ≡ self.old.graph }
        ensures nested { (result ≡ Err TxnFault.TooNested)
            ↔ (MOST_OPEN ≤ length self.old.journal.levels) }
        ensures err { OnErr result (self.new ≡ self.old) }
    {
        if self.levels.len() >= MOST_OPEN {
            return Err(TxnFault::TooNested);
        }
        begin(alloc, &mut self.levels)?;
        Ok(())
    }

    /// Closes the newest transaction, of which there is one, and keeps what was written in it. It
    /// takes no memory, and costs the last 256 of its writes, and its keys.
    pub fn commit(&mut self)
        requires { self.old.journal.levels ≢ [] }
        ensures { IsCommitted (R.meaning self.old.graph.values.rules) R.Key.cmp self.old self.new }
    {
        commit(&mut self.ring, &mut self.levels);
    }

    /// Closes the newest transaction, of which there is one, and puts the atoms back at which it
    /// began. The epoch rises once where one of them differs, and those that differ changed then. It
    /// takes no memory, and costs its keys and what becomes stale.
    pub fn abort(&mut self)
        requires { self.old.journal.levels ≢ [] }
        ensures { IsAborted (R.meaning self.old.graph.values.rules) R.Key.cmp self.old self.new }
    {
        let Some(level) = self.levels.pop() else {
            unreachable!();
        };
        let (before, _) = level.into_parts();
        put_back_all(&mut self.graph, before);
    }

    /// The committed writes after an epoch in their order, as far as they are among the last 256.
    /// `Reset` exactly where later ones fell out, the epoch is above this graph's, or this graph's is
    /// 2^64 - 1. It costs the writes that it gives, and a look at each of the last 256.
    ///
    /// # Errors
    ///
    /// Memory was refused.
    pub fn diffs_since(&self, alloc: Global, epoch: u64) -> Mem<Since<R::Key, R::Value>>
        ensures known { IfOk result (IsSince self.now epoch) }
        ensures all { (history : History R.Key R.Value)
            → Keeps history self.now.journal self.now.graph.values.epoch
            → IfOk result (AreAllSince history epoch) }
    {
        let now = self.graph.epoch();
        if epoch < self.ring.dropped_epoch() || now < epoch || now == u64::MAX {
            return Ok(Since::Reset);
        }
        Ok(Since::Diffs(copies_after(alloc, self.graph.rules(), &self.ring, epoch)?))
    }
}

impl<R: Rules + Drop> Txn<R> {
    ghost use Rattle.std.specs.Borrow.{sem, follows_so};
    ghost use Rattle.std.specs.Prelude.{⊤};
    ghost use mathlib.Core.Option.{none};
    ghost use Rattle.signal_txn.specs.contracts.txn.Txn.{the_row};

    /// The value of a key, computed anew only where it may differ.
    ///
    /// It costs a look-up where the key is fresh, and else the runs of the stale keys that it asks
    /// for, each once.
    ///
    /// # Errors
    ///
    /// Memory was refused; atoms, the epoch and transactions are as they were, and fresh keys stay so.
    pub fn get<L: Ledger>(
        &mut self,
        alloc: Global,
        key: &R::Key,
        steps: &mut Steps<L>,
    ) -> Mem<&R::Value>
        ensures* left { sem 𝓛
            (follows_so (the_row R.row R.Key.row R.Value.row R.Rules R.Key.Ord.own R.Key.PartialEq
            R.Key.PartialOrd.own R.Value.PartialEq)
            (the_row R.row R.Key.row R.Value.row R.Rules R.Key.Ord.own R.Key.PartialEq
            R.Key.PartialOrd.own R.Value.PartialEq) self.entry.ghost_name none (λ _ _. ⊤)
            (λ s. IsGotIn (R.meaning self.old.graph.values.rules) R.Key.cmp self.old s
            × IfOk result (λ _. IsFreshKey s.graph.values.rows s.graph.values.fresh key.now))) }
        ensures value { IfOk result
            (λ v. v.now ≡ value_in (R.meaning self.old.graph.values.rules) R.Key.cmp
            self.old.graph.values key.now) }
        ensures free { IsFreshIn self.old.graph.values key.now → steps.new ≡ steps.old }
    {
        self.graph.get(alloc, key, steps)
    }
}
