//! Transactions over a graph, which nest, and the last writes that were committed.
//!
//! `Txn` holds a `Graph` of `signal_core`. It undoes what was written since a transaction began, and it tells which atoms
//! were written after an epoch, as far as the last 256 writes go back. Contracts see a `Txn` as its graph and its journal
//! (`specs/Seen.antt`, `specs/Journal.antt`). The crate stands on `signal_core` for the graph.
#![tactic(auto)]

mod journal;
mod last_writes;
pub mod laws;
mod level;
mod noting;
pub mod since;
pub mod txn;
pub mod write;

pub use rooms_val::TxnFault;
pub use signal_core::{Ask, News, Rules, WatchFault, WatchId};
pub use since::Since;
pub use txn::{MOST_OPEN, Txn};
