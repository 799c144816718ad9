//! The store of records on signals: what is asked of a board is computed anew only where it may have changed.
//!
//! `RecordStore` is a `DocStore`. Beside each record it keeps, as atoms of a graph, the children of each page and shape and
//! the bindings with an end at each shape; views hang on these atoms. Contracts see the store as the keys of the records
//! that were ever written and as its transactions over the graph (`specs/Seen.antt`): its records, those at which its open
//! transactions began, and its watches are read from these. What is asked comes to what the plain queries of `shape_tree`
//! say of the records (`specs/Plain.antt`). The crate stands on `signal_txn` for transactions and freshness, on `tl_rules`
//! for what each key asks for and for how lists change with a record.
#![tactic(auto)]

mod keys;
mod lists;
pub mod store;

pub use signal_core::{News, WatchFault, WatchId};
pub use signal_txn::Since;
pub use store::RecordStore;
