//! Rules over keys that are numbers: choices, copies, sums and chains.
ghost use Rattle.std.specs.Prelude.{◌≡◌, ◌<◌, nat_eq};
ghost use Rattle.test_signals.specs.Keys.{rank_of, place_of, key_of, first_of, second_of, next_of, capped, outcome_of, asked_of, number_rules};
ghost use Rattle.test_signals.specs.Lawful.{number_rules_lawful, same_keys as keys_same, same_values as values_same};

use rooms_val::{Mem, Steps};
use signal_core::{Ask, Rules};
use std::alloc::Global;
use std::cell::Cell;
use std::rc::Rc;
use std::sync::ledger::Ledger;

/// How many keys each rank has. Those of rank 0 are the atoms.
pub const PLACES: u64 = 72_057_594_037_927_936;

/// How many keys of rank 1 stand on each atom.
pub const KEYS_OF_ATOM: u64 = 1_048_576;

/// The rules, which count how often they are asked.
#[derive(Drop)]
pub struct NumberRules {
    /// How often they were asked.
    pub asked: Rc<Cell<u64>>,
}

/// The rank of a key: its first eight bits.
pub fn rank(key: u64) -> u8
    ensures { result ≡ rank_of key }
{
    (key / PLACES) as u8
}

// What a key above rank 0 asks for first.
fn first(key: u64) -> u64
    requires { 0 < rank_of key }
    ensures { result ≡ first_of key }
{
    let rank = key / PLACES;
    if rank <= 1 {
        return key % PLACES / KEYS_OF_ATOM;
    }
    (rank - 1) * PLACES + 1
}

// What it asks for then, or itself for nothing.
fn second(key: u64, answer: u64) -> u64
    requires { 0 < rank_of key }
    ensures { result ≡ second_of key answer }
{
    let rank = key / PLACES;
    if key % PLACES > 0 {
        return key;
    }
    if rank > 1 {
        return (rank - 1) * PLACES + 2;
    }
    if answer == 0 { 1 } else { 2 }
}

// A sum, up to 2^64 - 1.
fn sum(a: u64, b: u64) -> u64
    ensures { result ≡ capped a b }
{
    if a <= u64::MAX - b { a + b } else { u64::MAX }
}

// What a key comes to.
fn outcome(key: u64, got: &[u64]) -> u64
    ensures { result ≡ outcome_of key got.now }
{
    if got.is_empty() {
        return 0;
    }
    if got.len() < 2 {
        return got[0];
    }
    if rank(key) <= 1 {
        got[1]
    } else {
        sum(got[0], got[1])
    }
}

impl Rules for NumberRules {
    type Key = u64;

    type Value = u64;

    ghost meaning = { λ _. number_rules };

    fn rank(&self, key: &u64) -> u8 {
        rank(*key)
    }

    fn blank(&self, _alloc: Global, _key: &u64) -> Mem<u64> {
        Ok(0)
    }

    fn ask<L: Ledger>(
        &self,
        _alloc: Global,
        key: &u64,
        got: &[u64],
        steps: &mut Steps<L>,
    ) -> Mem<Ask<u64, u64>> {
        steps.tick();
        self.asked.set(self.asked.get().saturating_add(1));
        let next = if got.is_empty() {
            first(*key)
        } else {
            second(*key, got[0])
        };
        if got.len() < 2 && rank(next) < rank(*key) {
            return Ok(Ask::Need(next));
        }
        Ok(Ask::Done(outcome(*key, got)))
    }

    fn copy_key(&self, _alloc: Global, key: &u64) -> Mem<u64> {
        Ok(*key)
    }

    fn copy_value(&self, _alloc: Global, value: &u64) -> Mem<u64> {
        Ok(*value)
    }

    ghost lawful = { λ _. number_rules_lawful };

    ghost same_keys = { keys_same };

    ghost same_values = { values_same };
}
