//! Sets of an atom with keys that hang on it.
use crate::touching::Calls;
use rooms_val::{Mem, Steps};
use signal_core::Graph;
use std::alloc::Global;
use std::cell::Cell;
use std::rc::Rc;
use std::sync::ledger::Ledger;
use test_signals::{KEYS_OF_ATOM, NumberRules, PLACES, rank};

/// The keys that are asked for at each call.
const KEYS: u64 = 10;

/// Sets each atom, and then at each call one of them, and asks for ten keys that hang on it. It returns their sum over all
/// calls.
pub(crate) fn compute_times<L: Ledger>(
    alloc: Global,
    atoms: u32,
    calls: Calls,
    steps: &mut Steps<L>,
) -> Mem<i64> {
    let asked = Rc::new(alloc, Cell::new(0))?;
    let mut graph = Graph::new(alloc, NumberRules { asked })?;
    sum_of_calls(alloc, &mut graph, atoms, calls, steps)
}

/// The same in a graph.
fn sum_of_calls<L: Ledger>(
    alloc: Global,
    graph: &mut Graph<NumberRules>,
    atoms: u32,
    calls: Calls,
    steps: &mut Steps<L>,
) -> Mem<i64> {
    for atom in 0..atoms {
        set(alloc, graph, u64::from(atom), 1)?;
    }
    let mut sum = 0i64;
    for call in 0..calls.count {
        let atom = calls.number(atoms, call);
        set(alloc, graph, u64::from(atom), u64::from(call))?;
        sum = sum.saturating_add(sum_on(alloc, graph, atom, steps)?);
    }
    Ok(sum)
}

/// A number is set as the value of an atom, where it is one.
fn set(alloc: Global, graph: &mut Graph<NumberRules>, atom: u64, value: u64) -> Mem<()> {
    if rank(atom) == 0 {
        graph.set(alloc, atom, value)?;
    }
    Ok(())
}

/// The sum of the keys that hang on an atom.
fn sum_on<L: Ledger>(
    alloc: Global,
    graph: &mut Graph<NumberRules>,
    atom: u32,
    steps: &mut Steps<L>,
) -> Mem<i64> {
    let mut sum = 0i64;
    for place in 0..KEYS {
        let key = PLACES + u64::from(atom) * KEYS_OF_ATOM + 1 + place;
        let value = *graph.get(alloc, &key, steps)?;
        sum = sum.saturating_add((value % 1_000_000) as i64);
    }
    Ok(sum)
}
