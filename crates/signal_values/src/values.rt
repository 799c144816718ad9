//! Atoms and computed keys.
ghost use Rattle.std.specs.Prelude.{◌≡◌, ◌≢◌, ◌↔◌, ℕ, [], IsOk, IfOk, IfSome, IfNone, OnOk, OnErr, slice_get};
ghost use Rattle.signal_values.specs.Seen.{value_in, IsFreshIn, IsGot, IsValueAt, IsSet, IsListed, IsPutBack, IsNowOrNext, changed_in, risen};
ghost use Rattle.signal_values.specs.Cells.{row_of, atoms_of};
ghost use Rattle.signal_values.specs.Kept.{IsFreshKey};

use crate::cells::Cells;
use crate::edges::Edges;
use crate::rows::find;
use crate::run::{atom_row, refresh};
use crate::write::{change, write};
use rooms_val::{Mem, Steps};
use signal_rules::Rules;
use std::alloc::Global;
use std::collections::BTreeMap;
use std::marker::Model;
use std::sync::ledger::Ledger;

/// Atoms, whose values are set, and computed keys, which are computed anew only where they may
/// differ.
#[derive(Drop)]
pub struct Values<R: Rules + Drop> {
    rules: R,
    cells: Cells<R::Key, R::Value>,
    // How often an atom changed, at most 2^64 - 1.
    epoch: u64,
}

impl<R: Rules + Drop> Model for Values<R> {
    ghost use Rattle.signal_values.specs.Seen.{Seen};
    ghost use Rattle.signal_values.specs.Whole.{IsWhole};

    ghost Value = { Seen R R.Key R.Value };

    ghost view = { λ s. record { rules = s.rules; rows = s.cells.rows.items; fresh = s.cells.fresh.items; epoch = s.epoch } };

    ghost invariant = { λ s. IsWhole (R.meaning s.rules) R.Key.cmp s.cells };
}

// The epoch after a change. At its end it stays.
fn next_epoch(epoch: u64) -> u64
    ensures { result ≡ risen epoch }
{
    if epoch < u64::MAX { epoch + 1 } else { epoch }
}

impl<R: Rules + Drop> Values<R> {
    /// Values of which no atom was set.
    ///
    /// # Errors
    ///
    /// Memory was refused.
    pub fn new(alloc: Global, rules: R) -> Mem<Values<R>>
        ensures { IfOk result (λ v. (v.rules ≡ rules) × (v.rows ≡ []) × (v.epoch ≡ 0)) }
    {
        Ok(Values {
            rules,
            cells: Cells {
                rows: Vec::new(alloc),
                fresh: Vec::new(alloc),
                places: BTreeMap::new(alloc),
                edges: Edges::new(alloc)?,
            },
            epoch: 0,
        })
    }

    /// The rules.
    pub fn rules(&self) -> &R
        ensures { result.now ≡ self.now.rules }
    {
        &self.rules
    }

    /// How often an atom changed, at most 2^64 - 1.
    pub fn epoch(&self) -> u64
        ensures { result ≡ self.now.epoch }
    {
        self.epoch
    }

    /// The epoch after the next change: at 2^64 - 1 the same.
    pub fn next_epoch(&self) -> u64
        ensures { result ≡ risen self.now.epoch }
    {
        next_epoch(self.epoch)
    }

    // The row of a key, with its value.
    fn compute<L: Ledger>(
        &mut self,
        alloc: Global,
        key: &R::Key,
        steps: &mut Steps<L>,
    ) -> Mem<usize>
        ensures got { IsGot (R.meaning self.old.rules) R.Key.cmp self.old self.new }
        ensures value { IfOk result
            (IsValueAt (R.meaning self.old.rules) R.Key.cmp self.old self.new key.now) }
        ensures fresh { IfOk result (λ _. IsFreshKey self.new.rows self.new.fresh key.now) }
        ensures free { IsFreshKey self.old.rows self.old.fresh key.now → steps.new ≡ steps.old }
    {
        refresh(alloc, &self.rules, &mut self.cells, self.epoch, key, steps)
    }

    /// A copy of the value of a key, computed anew only where it may differ.
    ///
    /// # Errors
    ///
    /// Memory was refused; atoms and the epoch are as they were, and fresh keys stay so.
    pub fn copied<L: Ledger>(
        &mut self,
        alloc: Global,
        key: &R::Key,
        steps: &mut Steps<L>,
    ) -> Mem<R::Value>
        ensures got { IsGot (R.meaning self.old.rules) R.Key.cmp self.old self.new }
        ensures value { IfOk result
            (λ v. v ≡ value_in (R.meaning self.old.rules) R.Key.cmp self.old key.now) }
        ensures fresh { OnOk result (IsFreshKey self.new.rows self.new.fresh key.now) }
        ensures free { IsFreshIn self.old key.now → steps.new ≡ steps.old }
    {
        let i = self.compute(alloc, key, steps)?;
        self.rules.copy_value(alloc, &self.cells.rows[i].value)
    }

    /// The value of an atom: none only where that is `blank`. It changes nothing.
    pub fn atom(&self, key: &R::Key) -> Option<&R::Value>
        requires { (R.meaning self.now.rules).rank key.now ≡ 0 }
        ensures found { IfSome result
            (λ v. v.now ≡ atoms_of (R.meaning self.now.rules) R.Key.cmp self.now.rows key.now) }
        ensures absent { IfNone result
            (atoms_of (R.meaning self.now.rules) R.Key.cmp self.now.rows key.now
            ≡ (R.meaning self.now.rules).blank key.now) }
    {
        let i = find(&self.cells, key)?;
        Some(&self.cells.rows[i].value)
    }

    /// The epoch after the call that last changed the value of a key: none exactly where the key
    /// was neither set nor computed.
    pub fn changed_at(&self, key: &R::Key) -> Option<u64>
        ensures { result ≡ changed_in R.Key.cmp self.now key.now }
    {
        let i = find(&self.cells, key)?;
        self.cells.rows[i].changed
    }

    /// Sets an atom: true exactly where the value differs from the old one. Only then the epoch
    /// rises, up to 2^64 - 1, and what hangs on the atom becomes stale.
    ///
    /// It takes no memory for a key that was set before. It costs a look-up and what becomes stale.
    ///
    /// # Errors
    ///
    /// Memory was refused, which can't be where the key has a row, and nothing changed.
    pub fn set(&mut self, alloc: Global, key: R::Key, value: R::Value) -> Mem<bool>
        requires { (R.meaning self.old.rules).rank key ≡ 0 }
        ensures ok { IfOk result
            (IsSet (R.meaning self.old.rules) R.Key.cmp self.old self.new key value) }
        ensures err { OnErr result (self.new ≡ self.old) }
        ensures sure { IsListed self.old key → IsOk result }
    {
        let next = next_epoch(self.epoch);
        let i = atom_row(alloc, &self.rules, &mut self.cells, self.epoch, &key)?;
        let differs = write(&self.rules, &mut self.cells, next, i, value);
        if !differs {
            return Ok(false);
        }
        self.epoch = next;
        Ok(true)
    }

    /// Puts a value back at an atom that has a row, and gives the old one, without memory. Where they
    /// differ the atom changes at the epoch that is told, which is this one or the next, and else
    /// nothing does. It costs a look-up and what becomes stale.
    pub fn put_back(&mut self, key: &R::Key, value: R::Value, epoch: u64) -> R::Value
        requires rank { (R.meaning self.old.rules).rank key.now ≡ 0 }
        requires listed { IsListed self.old key.now }
        requires epoch { IsNowOrNext self.old.epoch epoch }
        ensures before { result
            ≡ atoms_of (R.meaning self.old.rules) R.Key.cmp self.old.rows key.now }
        ensures set { IsPutBack (R.meaning self.old.rules) R.Key.cmp self.old self.new key.now value
            epoch }
    {
        let Some(i) = find(&self.cells, key) else {
            unreachable!();
        };
        if self.cells.rows[i].value == value {
            return value;
        }
        let before = change(&self.rules, &mut self.cells, epoch, i, value);
        self.epoch = epoch;
        before
    }
}

impl<R: Rules + Drop> Values<R> {
    ghost use Rattle.std.specs.Borrow.{sem, follows_so};
    ghost use Rattle.std.specs.Prelude.{⊤};
    ghost use mathlib.Core.Option.{none};
    ghost use Rattle.signal_values.specs.contracts.values.Values.{the_row};

    /// The value of a key, computed anew only where it may differ.
    ///
    /// It costs a look-up where the key is fresh, and else the runs of the stale keys that it asks
    /// for, each once.
    ///
    /// # Errors
    ///
    /// Memory was refused; atoms and the epoch are as they were, and fresh keys stay so.
    pub fn get<L: Ledger>(
        &mut self,
        alloc: Global,
        key: &R::Key,
        steps: &mut Steps<L>,
    ) -> Mem<&R::Value>
        ensures* left { sem 𝓛
            (follows_so (the_row R.row R.Key.row R.Value.row R.Rules R.Key.Ord.own R.Key.PartialEq
            R.Key.PartialOrd.own R.Value.PartialEq)
            (the_row R.row R.Key.row R.Value.row R.Rules R.Key.Ord.own R.Key.PartialEq
            R.Key.PartialOrd.own R.Value.PartialEq) self.entry.ghost_name none (λ _ _. ⊤)
            (λ s. IsGot (R.meaning self.old.rules) R.Key.cmp self.old s
            × IfOk result (λ _. IsFreshKey s.rows s.fresh key.now))) }
        ensures value { IfOk result
            (λ v. v.now ≡ value_in (R.meaning self.old.rules) R.Key.cmp self.old key.now) }
        ensures free { IsFreshIn self.old key.now → steps.new ≡ steps.old }
    {
        let i = self.compute(alloc, key, steps)?;
        Ok(&self.cells.rows[i].value)
    }
}
