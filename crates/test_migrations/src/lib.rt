//! Tests of steps, sequences and plans of migrations, as tables. The crate has no code of its own.
#![tactic(auto)]

#[cfg(test)]
mod build;
#[cfg(test)]
mod plans;
#[cfg(test)]
mod sequences;
#[cfg(test)]
mod steps;
#[cfg(test)]
mod tables;
