//! Tests of the calls of a running room: tables of calls of one thread, and sessions of several threads. The crate has no code of its
//! own.
#![tactic(auto)]

#[cfg(test)]
mod tables;
#[cfg(test)]
mod threads;
