//! Rules of computed values: what a key asks for, and what it comes to.
//!
//! A key of rank 0 is an atom, whose value is set. A key above it is computed: its rule is asked again and again, each
//! time with the values of the keys that it needed so far, until it has a value. Contracts see rules as three functions
//! (`specs/Meaning.antt`), and the value of a key as a function of these and of the atoms (`specs/Values.antt`).
#![tactic(auto)]

pub mod rules;

pub use rules::{Ask, Rules};
