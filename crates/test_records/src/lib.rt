//! Tests of the calls of the record layer, as tables: operations, checks, the schemas of a whiteboard, and what becomes of
//! its records between their versions. The crate has no code of its own.
#![tactic(auto)]

#[cfg(test)]
mod checks;
#[cfg(test)]
mod operations;
#[cfg(test)]
mod played;
#[cfg(test)]
mod records;
#[cfg(test)]
mod schemas;
#[cfg(test)]
mod versions;
