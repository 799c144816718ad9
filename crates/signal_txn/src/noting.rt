//! Atoms that are set and put back in transactions.
ghost use Rattle.std.specs.Prelude.{◌≡◌, ◌≤◌, length, IfOk, OnOk, OnErr, None};
ghost use Rattle.signal_values.specs.Cells.{atoms_of};
ghost use Rattle.signal_values.specs.Seen.{IsSet, IsListed};
ghost use Rattle.signal_txn.specs.Level.{noted, value_before, map_from};
ghost use Rattle.signal_txn.specs.Undo.{HasEntry, ArePutBack};

use crate::level::Level;
use rooms_val::{Mem, OutOfMemory};
use signal_core::{Graph, Rules};
use std::alloc::Global;
use std::collections::BTreeMap;

// A copy of the value of an atom.
fn atom_copy<R: Rules + Drop>(alloc: Global, graph: &Graph<R>, key: &R::Key) -> Mem<R::Value>
    requires { (R.meaning graph.now.values.rules).rank key.now ≡ 0 }
    ensures { IfOk result
        (λ v. v ≡ atoms_of (R.meaning graph.now.values.rules) R.Key.cmp graph.now.values.rows
        key.now) }
{
    match graph.atom(key) {
        Some(value) => graph.rules().copy_value(alloc, value),
        None => graph.rules().blank(alloc, key),
    }
}

// Notes the value of an atom that wasn't written yet.
fn note<R: Rules + Drop>(
    alloc: Global,
    graph: &Graph<R>,
    level: &mut Level<R::Key, R::Value>,
    key: &R::Key,
) -> Mem<()>
    requires rank { (R.meaning graph.now.values.rules).rank key.now ≡ 0 }
    requires absent { value_before R.Key.cmp level.old key.now ≡ None }
    ensures ok { OnOk result (level.new ≡ noted R.Key.cmp key.now
        (atoms_of (R.meaning graph.now.values.rules) R.Key.cmp graph.now.values.rows key.now)
        level.old) }
    ensures err { OnErr result (level.new ≡ level.old) }
{
    let copy = graph.rules().copy_key(alloc, key)?;
    let before = atom_copy(alloc, graph, key)?;
    level.note(copy, before)
}

// Sets an atom, whose value before the levels from one on then know.
//
// # Errors
//
// Memory was refused, and nothing changed.
pub(crate) fn set_noted<R: Rules + Drop>(
    alloc: Global,
    graph: &mut Graph<R>,
    levels: &mut Vec<Level<R::Key, R::Value>>,
    from: usize,
    key: &R::Key,
    value: R::Value,
) -> Mem<bool>
    requires rank { (R.meaning graph.old.values.rules).rank key.now ≡ 0 }
    requires from { from ≤ length levels.old.items }
    ensures ok { IfOk result
        (IsSet (R.meaning graph.old.values.rules) R.Key.cmp graph.old.values graph.new.values
        key.now value) }
    ensures noted { OnOk result (levels.new.items ≡ map_from (noted R.Key.cmp key.now
        (atoms_of (R.meaning graph.old.values.rules) R.Key.cmp graph.old.values.rows key.now))
        from levels.old.items) }
    ensures watches { graph.new.watches ≡ graph.old.watches }
    ensures graph_err { OnErr result (graph.new ≡ graph.old) }
    ensures levels_err { OnErr result (levels.new.items ≡ levels.old.items) }
{
    if from == levels.len() {
        let copy = graph.rules().copy_key(alloc, key)?;
        return graph.set(alloc, copy, value);
    }
    if levels[from].has(key) {
        return set_noted(alloc, graph, levels, from + 1, key, value);
    }
    note(alloc, graph, &mut levels[from], key)?;
    match set_noted(alloc, graph, levels, from + 1, key, value) {
        Ok(changes) => Ok(changes),
        Err(_) => {
            levels[from].forget(key);
            Err(OutOfMemory)
        }
    }
}

// Puts values back at atoms that have rows, all at one epoch, without memory.
pub(crate) fn put_back_all<R: Rules + Drop>(
    graph: &mut Graph<R>,
    before: BTreeMap<R::Key, R::Value>,
)
    requires atoms { (key : R.Key) → HasEntry R.Key.cmp before.entries key
        → (R.meaning graph.old.values.rules).rank key ≡ 0 }
    requires listed { (key : R.Key) → HasEntry R.Key.cmp before.entries key
        → IsListed graph.old.values key }
    ensures back { ArePutBack (R.meaning graph.old.values.rules) R.Key.cmp graph.old.values
        graph.new.values before.entries }
    ensures watches { graph.new.watches ≡ graph.old.watches }
{
    let epoch = graph.next_epoch();
    let mut rest = before;
    'entries: while let Some((key, value)) = rest.pop_first() {
        let _ = graph.put_back(&key, value, epoch);
    }
}
