//! Tests of values, watches and what becomes stale, as tables, over rules of the crate's own.
//!
//! A table is a text with a row for each call and what it is to give. `play` and `play_nested` go over it, and a test plays the
//! tables of a file. The rules count how often they are asked, which no clause can say of a run. They stand in the library,
//! for benchmarks over the same keys; all else is read for the tests alone.
#![tactic(auto)]

#[cfg(test)]
mod calls;
mod rules;
#[cfg(test)]
mod tables;
#[cfg(test)]
mod transaction_tables;
#[cfg(test)]
mod transactions;

pub use rules::{KEYS_OF_ATOM, NumberRules, PLACES, rank};
