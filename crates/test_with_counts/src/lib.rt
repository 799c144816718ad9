//! A second store of records, for tests of what is written over any `DocStore`.
//!
//! A `CountingStore` holds its records in a `MapDoc` and counts the writes, so that a test can look at how many a call made:
//! a counter of steps has no number when the program runs. The crate stands on `doc_store`.
#![tactic(auto)]

pub mod store;

pub use store::CountingStore;
