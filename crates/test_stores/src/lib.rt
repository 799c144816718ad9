//! Tests of the calls of the store layer, as tables: diffs that are applied to a store, transactions, edits that are
//! completed or refused, marks, plain queries, and pastes. The crate has no code of its own.
#![tactic(auto)]

#[cfg(test)]
mod changes;
#[cfg(test)]
mod clips;
#[cfg(test)]
mod edits;
#[cfg(test)]
mod lists;
#[cfg(test)]
mod marks;
#[cfg(test)]
mod shapes;
#[cfg(test)]
mod stores;
#[cfg(test)]
mod tables;
