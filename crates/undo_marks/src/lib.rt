//! What a client can take back and do again: marks, undo, redo and bail.
//!
//! [`Marks`] keeps a client's marks with the inverses of its edits, and what it took back. A change
//! has two halves: first it begins, which takes all the memory and returns the diff that is to be
//! done to the document; then it is done, with the inverse of what acted, which takes none.
//! Contracts say for which history and redo list of `doc_model`'s definitions a `Marks` stands
//! (`specs/Standing.antt`), and what is begun (`specs/Begun.antt`). Where the history has many
//! inverses between two marks, a `Marks` keeps at most two, which merge to the same diff. The crate
//! stands on `field_ops` and `doc_model`.
#![tactic(auto)]

pub mod fault;
mod join;
pub mod marks;
mod stretch;
mod walk;

pub use fault::BailFault;
pub use marks::Marks;
