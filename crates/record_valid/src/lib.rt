//! The checks that a record must pass: what they are, which values fit them, and the first fault of one that doesn't.
//!
//! Contracts see a `Check` as a tree, `CheckTree`, by `tree_of`, and a value as `Data`. `Fits` says which values fit a
//! check, and `first_fault` what is wrong with the others. The crate stands on `rooms_val` for values, on `field_ops` for
//! patches, and on `index_keys` for the keys among texts.
#![tactic(auto)]

pub mod check_table;
pub mod fits;
pub mod id;
pub mod inner;
mod keys;
pub mod patched;
mod plain;
pub mod reject;
pub mod texts;
pub mod tree;

pub use check_table::Checks;
pub use fits::check;
pub use id::id_type;
pub use inner::Inner;
pub use patched::still_fits;
pub use reject::{Reject, RejectKind};
pub use texts::Texts;
pub use tree::Check;
