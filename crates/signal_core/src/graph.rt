//! Values with watches.
ghost use Rattle.std.specs.Prelude.{◌≡◌, ◌↔◌, [], Err, IsTrue, IsOk, IfOk, IfSome, IfNone, OnOk, OnErr};
ghost use Rattle.signal_values.specs.Seen.{value_in, IsFreshIn, IsGot, IsSet, IsListed, IsPutBack, IsNowOrNext, changed_in, risen};
ghost use Rattle.signal_values.specs.Cells.{atoms_of};
ghost use Rattle.signal_values.specs.Kept.{IsFreshKey};
ghost use Rattle.signal_core.specs.declared.watch.WatchFault.TheVariants as watch_fault;
ghost use Rattle.signal_core.specs.Watches.{IsWatched, IsFull, IsLeastFree, AddsWatch, DropsWatch};
ghost use Rattle.signal_core.specs.Gots.{AreGot};
ghost use Rattle.signal_core.specs.Due.{AreDue, AreTold, AreFreshKeys, AreFreshIn};
ghost use Rattle.signal_core.specs.News.{AreNewsOf};

use crate::news::{News, find_news, tell_all};
use crate::slots::{add_watch, least_free};
use crate::watch::{MOST_WATCHES, Watch, WatchFault, WatchId};
use rooms_val::{Mem, Steps};
use signal_values::{Rules, Values};
use std::alloc::Global;
use std::marker::Model;
use std::sync::ledger::Ledger;

/// Atoms and computed keys, which are computed anew only where they may differ, and watches that
/// tell which of them changed.
#[derive(Drop)]
pub struct Graph<R: Rules + Drop> {
    values: Values<R>,
    // By number, at most 64: none where the number isn't watched.
    watches: Vec<Option<Watch<R::Key, R::Value>>>,
}

impl<R: Rules + Drop> Model for Graph<R> {
    ghost use Rattle.std.specs.Prelude.{◌≤◌, length};
    ghost use Rattle.signal_core.specs.Watches.{most_watches};
    ghost use Rattle.signal_core.specs.Seen.{Seen};

    ghost Value = { Seen R R.Key R.Value };

    ghost view = { λ s. record { values = s.values; watches = s.watches.items } };

    ghost invariant = { λ s. length s.watches.items ≤ most_watches };
}

impl<R: Rules + Drop> Graph<R> {
    /// A graph of which no atom was set, without watches.
    ///
    /// # Errors
    ///
    /// Memory was refused.
    pub fn new(alloc: Global, rules: R) -> Mem<Graph<R>>
        ensures values { IfOk result
            (λ g. (g.values.rules ≡ rules) × (g.values.rows ≡ []) × (g.values.epoch ≡ 0)) }
        ensures watches { IfOk result (λ g. g.watches ≡ []) }
    {
        Ok(Graph {
            values: Values::new(alloc, rules)?,
            watches: Vec::new(alloc),
        })
    }

    /// The rules.
    pub fn rules(&self) -> &R
        ensures { result.now ≡ self.now.values.rules }
    {
        self.values.rules()
    }

    /// How often an atom changed, at most 2^64 - 1.
    pub fn epoch(&self) -> u64
        ensures { result ≡ self.now.values.epoch }
    {
        self.values.epoch()
    }

    /// The epoch after the next change: at 2^64 - 1 the same.
    pub fn next_epoch(&self) -> u64
        ensures { result ≡ risen self.now.values.epoch }
    {
        self.values.next_epoch()
    }

    /// The value of an atom: none only where that is `blank`. It changes nothing.
    pub fn atom(&self, key: &R::Key) -> Option<&R::Value>
        requires { (R.meaning self.now.values.rules).rank key.now ≡ 0 }
        ensures found { IfSome result
            (λ v. v.now ≡ atoms_of (R.meaning self.now.values.rules) R.Key.cmp self.now.values.rows
            key.now) }
        ensures absent { IfNone result
            (atoms_of (R.meaning self.now.values.rules) R.Key.cmp self.now.values.rows key.now
            ≡ (R.meaning self.now.values.rules).blank key.now) }
    {
        self.values.atom(key)
    }

    /// The epoch after the call that last changed the value of a key: none exactly where the key
    /// was neither set nor computed.
    pub fn changed_at(&self, key: &R::Key) -> Option<u64>
        ensures { result ≡ changed_in R.Key.cmp self.now.values key.now }
    {
        self.values.changed_at(key)
    }

    /// Sets an atom: true exactly where the value differs from the old one. Only then the epoch
    /// rises, up to 2^64 - 1, and what hangs on the atom becomes stale.
    ///
    /// It takes no memory for a key that was set before. It costs a look-up and what becomes stale.
    ///
    /// # Errors
    ///
    /// Memory was refused, which can't be where the key has a row, and nothing changed.
    pub fn set(&mut self, alloc: Global, key: R::Key, value: R::Value) -> Mem<bool>
        requires { (R.meaning self.old.values.rules).rank key ≡ 0 }
        ensures ok { IfOk result
            (IsSet (R.meaning self.old.values.rules) R.Key.cmp self.old.values self.new.values key
            value) }
        ensures watches { self.new.watches ≡ self.old.watches }
        ensures err { OnErr result (self.new ≡ self.old) }
        ensures sure { IsListed self.old.values key → IsOk result }
    {
        self.values.set(alloc, key, value)
    }

    /// Puts a value back at an atom that has a row, and gives the old one, without memory. Where they
    /// differ the atom changes at the epoch that is told, which is this one or the next, and else
    /// nothing does. It costs a look-up and what becomes stale.
    pub fn put_back(&mut self, key: &R::Key, value: R::Value, epoch: u64) -> R::Value
        requires rank { (R.meaning self.old.values.rules).rank key.now ≡ 0 }
        requires listed { IsListed self.old.values key.now }
        requires epoch { IsNowOrNext self.old.values.epoch epoch }
        ensures before { result
            ≡ atoms_of (R.meaning self.old.values.rules) R.Key.cmp self.old.values.rows key.now }
        ensures set { IsPutBack (R.meaning self.old.values.rules) R.Key.cmp self.old.values
            self.new.values key.now value epoch }
        ensures watches { self.new.watches ≡ self.old.watches }
    {
        self.values.put_back(key, value, epoch)
    }

    /// A copy of the value of a key, computed anew only where it may differ.
    ///
    /// # Errors
    ///
    /// Memory was refused; atoms and the epoch are as they were, and fresh keys stay so.
    pub fn copied<L: Ledger>(
        &mut self,
        alloc: Global,
        key: &R::Key,
        steps: &mut Steps<L>,
    ) -> Mem<R::Value>
        ensures got { IsGot (R.meaning self.old.values.rules) R.Key.cmp self.old.values
            self.new.values }
        ensures watches { self.new.watches ≡ self.old.watches }
        ensures value { IfOk result
            (λ v. v ≡ value_in (R.meaning self.old.values.rules) R.Key.cmp self.old.values
            key.now) }
        ensures fresh { OnOk result
            (IsFreshKey self.new.values.rows self.new.values.fresh key.now) }
        ensures free { IsFreshIn self.old.values key.now → steps.new ≡ steps.old }
    {
        self.values.copied(alloc, key, steps)
    }

    /// Watches a key by the least number that isn't watched. It is due until its value is told.
    ///
    /// It takes a look at each watch.
    ///
    /// # Errors
    ///
    /// There are [`MOST_WATCHES`] watches, or memory was refused. Nothing changed.
    pub fn watch(&mut self, key: R::Key) -> Result<WatchId, WatchFault>
        ensures number { IfOk result (λ id. IsLeastFree self.old.watches id.number) }
        ensures ok { IfOk result (λ id. AddsWatch self.old.watches self.new.watches key id.number) }
        ensures values { self.new.values ≡ self.old.values }
        ensures full { (result ≡ Err watch_fault.Full) ↔ IsFull self.old.watches }
        ensures err { OnErr result (self.new ≡ self.old) }
    {
        let number = least_free(&self.watches);
        if number >= MOST_WATCHES {
            return Err(WatchFault::Full);
        }
        add_watch(&mut self.watches, number, key)?;
        Ok(WatchId {
            number: number as u32,
        })
    }

    /// Whether a number is watched.
    pub fn is_watched(&self, id: WatchId) -> bool
        ensures { IsTrue result ↔ IsWatched self.now.watches id.number }
    {
        let number = id.number as usize;
        number < self.watches.len() && self.watches[number].is_some()
    }

    /// Watches a key no more, and drops what was told of it. Its number is free again.
    pub fn unwatch(&mut self, id: WatchId)
        requires { IsWatched self.old.watches id.number }
        ensures watches { DropsWatch self.old.watches self.new.watches id.number }
        ensures values { self.new.values ≡ self.old.values }
    {
        self.watches[id.number as usize] = None;
    }

    /// What the watches have to tell: which of them are due, those whose value differs from what was
    /// last told, a new watch always. Nothing counts as told until [`Graph::tell`].
    ///
    /// It costs a `get` of each key that is watched, and two copies of each value that is due.
    ///
    /// # Errors
    ///
    /// Memory was refused; atoms and the epoch are as they were, and fresh keys stay so.
    pub fn news<L: Ledger>(&mut self, alloc: Global, steps: &mut Steps<L>) -> Mem<News<R::Value>>
        ensures news { IfOk result
            (λ news. AreNewsOf (R.meaning self.new.values.rules) R.Key.cmp self.new news) }
        ensures due { IfOk result
            (λ news. AreDue (R.meaning self.old.values.rules) R.Key.cmp self.old news.due.items) }
        ensures watches { self.new.watches ≡ self.old.watches }
        ensures got { AreGot (R.meaning self.old.values.rules) R.Key.cmp self.old.values
            self.new.values }
        ensures fresh { OnOk result (AreFreshKeys self.old.watches self.new.values) }
        ensures free { AreFreshIn self.old.watches self.old.values → steps.new ≡ steps.old }
    {
        find_news(alloc, &mut self.values, &self.watches, steps)
    }

    /// Tells the news of this graph as it is, and gives which watches were due, each with its value,
    /// by rising number. From then on these values count as told.
    ///
    /// It takes no memory. It costs a look at each watch.
    pub fn tell(&mut self, news: News<R::Value>) -> Vec<(WatchId, R::Value)>
        requires { AreNewsOf (R.meaning self.old.values.rules) R.Key.cmp self.old news }
        ensures due { result.items ≡ news.due.items }
        ensures told { AreTold (R.meaning self.old.values.rules) R.Key.cmp self.old
            self.new.watches }
        ensures values { self.new.values ≡ self.old.values }
    {
        let News { due, told } = news;
        tell_all(&mut self.watches, told);
        due
    }

    /// The watches whose value differs from what was last told, a new watch always, each with its
    /// value, by rising number. From then on these values count as told.
    ///
    /// It costs a `get` of each key that is watched, and two copies of each value that is due.
    ///
    /// # Errors
    ///
    /// Memory was refused. Nothing of this call counts as told; atoms and the epoch are as they
    /// were, and fresh keys stay so.
    pub fn due<L: Ledger>(
        &mut self,
        alloc: Global,
        steps: &mut Steps<L>,
    ) -> Mem<Vec<(WatchId, R::Value)>>
        ensures due { IfOk result
            (λ due. AreDue (R.meaning self.old.values.rules) R.Key.cmp self.old due.items) }
        ensures told { OnOk result
            (AreTold (R.meaning self.old.values.rules) R.Key.cmp self.old self.new.watches) }
        ensures err { OnErr result (self.new.watches ≡ self.old.watches) }
        ensures got { AreGot (R.meaning self.old.values.rules) R.Key.cmp self.old.values
            self.new.values }
        ensures fresh { OnOk result (AreFreshKeys self.old.watches self.new.values) }
        ensures free { AreFreshIn self.old.watches self.old.values → steps.new ≡ steps.old }
    {
        let news = self.news(alloc, steps)?;
        Ok(self.tell(news))
    }
}

impl<R: Rules + Drop> Graph<R> {
    ghost use Rattle.std.specs.Borrow.{sem, follows_so};
    ghost use Rattle.std.specs.Prelude.{⊤};
    ghost use mathlib.Core.Option.{none};
    ghost use Rattle.signal_core.specs.contracts.graph.Graph.{the_row};

    /// The value of a key, computed anew only where it may differ.
    ///
    /// It costs a look-up where the key is fresh, and else the runs of the stale keys that it asks
    /// for, each once.
    ///
    /// # Errors
    ///
    /// Memory was refused; atoms and the epoch are as they were, and fresh keys stay so.
    pub fn get<L: Ledger>(
        &mut self,
        alloc: Global,
        key: &R::Key,
        steps: &mut Steps<L>,
    ) -> Mem<&R::Value>
        ensures* left { sem 𝓛
            (follows_so (the_row R.row R.Key.row R.Value.row R.Rules R.Key.Ord.own R.Key.PartialEq
            R.Key.PartialOrd.own R.Value.PartialEq)
            (the_row R.row R.Key.row R.Value.row R.Rules R.Key.Ord.own R.Key.PartialEq
            R.Key.PartialOrd.own R.Value.PartialEq) self.entry.ghost_name none (λ _ _. ⊤)
            (λ s. IsGot (R.meaning self.old.values.rules) R.Key.cmp self.old.values s.values
            × (s.watches ≡ self.old.watches)
            × IfOk result (λ _. IsFreshKey s.values.rows s.values.fresh key.now))) }
        ensures value { IfOk result
            (λ v. v.now ≡ value_in (R.meaning self.old.values.rules) R.Key.cmp self.old.values
            key.now) }
        ensures free { IsFreshIn self.old.values key.now → steps.new ≡ steps.old }
    {
        self.values.get(alloc, key, steps)
    }
}
