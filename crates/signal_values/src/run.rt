//! Computing a key where it may differ.
ghost use Rattle.std.specs.Prelude.{◌≡◌, ◌++◌, ◌∷◌, [], ◌<◌, ◌≤◌, ℕ, length, slice_get, slice_index, IsOk, IfOk, IfSome, OnOk, OnErr};
ghost use Rattle.signal_values.specs.Cells.{IsFresh};
ghost use Rattle.signal_values.specs.Kept.{IsLeft, IsFreshAt, IsFreshKey, IsRead, HasListed};
ghost use Rattle.signal_values.specs.Whole.{IsWhole, RunsTo};

use crate::cells::{Cells, Row};
use crate::parents::{Parents, note_parent};
use crate::rows::{add_row, connect, find, fresh_place, renew};
use rooms_val::{Mem, Steps};
use signal_rules::{Ask, Rules};
use std::alloc::Global;
use std::sync::ledger::Ledger;

// Gives a stale row the value of its run, and edges from its parents.
fn settle_known<R: Rules>(
    rules: &R,
    cells: &mut Cells<R::Key, R::Value>,
    epoch: u64,
    i: usize,
    value: R::Value,
    parents: &[usize],
)
    requires sound { IsWhole (R.meaning rules.now) R.Key.cmp cells.old }
    requires row { i < length cells.old.rows.items }
    requires stale { IsFresh cells.old.fresh.items i → ⊥ }
    requires run { IfSome (slice_get cells.old.rows.items i)
        (λ row. RunsTo (R.meaning rules.now) R.Key.cmp cells.old row.key value parents.now) }
    requires spare { length parents.now ≤ cells.old.edges.spare }
    ensures left { IsLeft (R.meaning rules.now) R.Key.cmp epoch cells.old cells.new }
    ensures ready { IsFresh cells.new.fresh.items i }
{
    let row = &mut cells.rows[i];
    renew(row, value, epoch);
    connect(&mut cells.edges, parents, i);
    cells.fresh[i] = true;
}

// Adds a fresh row with the value of its run, and edges from its parents.
fn settle_new<R: Rules>(
    alloc: Global,
    rules: &R,
    cells: &mut Cells<R::Key, R::Value>,
    epoch: u64,
    key: &R::Key,
    value: R::Value,
    parents: &[usize],
) -> Mem<usize>
    requires sound { IsWhole (R.meaning rules.now) R.Key.cmp cells.old }
    requires absent { (i : ℕ) → IfSome (slice_get cells.old.rows.items i)
        (λ row. row.key ≡ key.now → ⊥) }
    requires run { RunsTo (R.meaning rules.now) R.Key.cmp cells.old key.now value parents.now }
    requires spare { length parents.now ≤ cells.old.edges.spare }
    ensures left { IsLeft (R.meaning rules.now) R.Key.cmp epoch cells.old cells.new }
    ensures found { IfOk result (IsFreshAt cells.new key.now) }
{
    let place_key = rules.copy_key(alloc, key)?;
    let row = Row {
        key: rules.copy_key(alloc, key)?,
        value,
        changed: Some(epoch),
    };
    let i = add_row(cells, place_key, row, false)?;
    connect(&mut cells.edges, parents, i);
    cells.fresh[i] = true;
    Ok(i)
}

// Gives a key the value of its run, and edges from its parents.
fn settle<R: Rules>(
    alloc: Global,
    rules: &R,
    cells: &mut Cells<R::Key, R::Value>,
    epoch: u64,
    key: &R::Key,
    value: R::Value,
    parents: &[usize],
) -> Mem<usize>
    requires sound { IsWhole (R.meaning rules.now) R.Key.cmp cells.old }
    requires run { RunsTo (R.meaning rules.now) R.Key.cmp cells.old key.now value parents.now }
    ensures left { IsLeft (R.meaning rules.now) R.Key.cmp epoch cells.old cells.new }
    ensures found { IfOk result (IsFreshAt cells.new key.now) }
{
    cells.edges.reserve(parents.len())?;
    match find(cells, key) {
        Some(i) => {
            // A run reads lower ranks alone, so that its own row is stale.
            if !cells.fresh[i] {
                settle_known(rules, cells, epoch, i, value, parents);
            }
            Ok(i)
        }
        None => settle_new(alloc, rules, cells, epoch, key, value, parents),
    }
}

// Adds a row for an atom that was never set.
pub(crate) fn read_atom<R: Rules>(
    alloc: Global,
    rules: &R,
    cells: &mut Cells<R::Key, R::Value>,
    epoch: u64,
    key: &R::Key,
) -> Mem<usize>
    requires sound { IsWhole (R.meaning rules.now) R.Key.cmp cells.old }
    requires rank { (R.meaning rules.now).rank key.now ≡ 0 }
    requires absent { IsFreshKey cells.old.rows.items cells.old.fresh.items key.now → ⊥ }
    ensures left { IsLeft (R.meaning rules.now) R.Key.cmp epoch cells.old cells.new }
    ensures found { IfOk result (IsFreshAt cells.new key.now) }
    ensures read { IfOk result (IsRead cells.old cells.new) }
    ensures err { OnErr result ((cells.new.rows.items ≡ cells.old.rows.items)
        × (cells.new.fresh.items ≡ cells.old.fresh.items)) }
{
    let place_key = rules.copy_key(alloc, key)?;
    let row = Row {
        key: rules.copy_key(alloc, key)?,
        value: rules.blank(alloc, key)?,
        changed: None,
    };
    add_row(cells, place_key, row, true)
}

// The row of an atom, which is made where there is none.
pub(crate) fn atom_row<R: Rules>(
    alloc: Global,
    rules: &R,
    cells: &mut Cells<R::Key, R::Value>,
    epoch: u64,
    key: &R::Key,
) -> Mem<usize>
    requires sound { IsWhole (R.meaning rules.now) R.Key.cmp cells.old }
    requires rank { (R.meaning rules.now).rank key.now ≡ 0 }
    ensures left { IsLeft (R.meaning rules.now) R.Key.cmp epoch cells.old cells.new }
    ensures listed { IfOk result (HasListed R.Key.cmp cells.old cells.new key.now) }
    ensures err { OnErr result ((cells.new.rows.items ≡ cells.old.rows.items)
        × (cells.new.fresh.items ≡ cells.old.fresh.items)) }
    ensures sure { (i : ℕ) → IfSome (slice_get cells.old.rows.items i)
        (λ row. row.key ≡ key.now → IsOk result) }
{
    match find(cells, key) {
        Some(i) => Ok(i),
        None => read_atom(alloc, rules, cells, epoch, key),
    }
}

// Takes the value of a parent as an answer.
fn take_answer<R: Rules>(
    alloc: Global,
    rules: &R,
    cells: &Cells<R::Key, R::Value>,
    parent: usize,
    got: &mut Vec<R::Value>,
    parents: &mut Parents,
) -> Mem<()>
    requires { parent < length cells.now.rows.items }
    ensures got { OnOk result (IfSome (slice_get cells.now.rows.items parent)
        (λ row. got.new.items ≡ got.old.items ++ row.value ∷ [])) }
    ensures parents { OnOk result (parents.new.items ≡ parents.old.items ++ parent ∷ []) }
{
    let value = rules.copy_value(alloc, &cells.rows[parent].value)?;
    got.push(value)?;
    note_parent(parents, parent)
}

// The row of a key, computed unless it is fresh.
pub(crate) fn refresh<R: Rules, L: Ledger>(
    alloc: Global,
    rules: &R,
    cells: &mut Cells<R::Key, R::Value>,
    epoch: u64,
    key: &R::Key,
    steps: &mut Steps<L>,
) -> Mem<usize>
    requires { IsWhole (R.meaning rules.now) R.Key.cmp cells.old }
    ensures left { IsLeft (R.meaning rules.now) R.Key.cmp epoch cells.old cells.new }
    ensures found { IfOk result (IsFreshAt cells.new key.now) }
    ensures free { IsFreshKey cells.old.rows.items cells.old.fresh.items key.now
        → steps.new ≡ steps.old }
{
    if let Some(i) = fresh_place(cells, key) {
        return Ok(i);
    }
    if rules.rank(key) == 0 {
        return read_atom(alloc, rules, cells, epoch, key);
    }
    let mut got = Vec::new(alloc);
    let mut parents = Parents::new(alloc);
    'asks: loop {
        match rules.ask(alloc, key, &got, steps)? {
            Ask::Done(value) => {
                let parents = parents.as_slice();
                return settle(alloc, rules, cells, epoch, key, value, parents);
            }
            Ask::Need(next) => {
                let parent = refresh(alloc, rules, cells, epoch, &next, steps)?;
                take_answer(alloc, rules, cells, parent, &mut got, &mut parents)?;
            }
        }
    }
}
