//! Tests of saved rooms as lines, as tables. The crate has no code of its own.
#![tactic(auto)]

#[cfg(test)]
mod ids;
#[cfg(test)]
mod limits;
#[cfg(test)]
mod lines;
#[cfg(test)]
mod raises;
#[cfg(test)]
mod tables;
