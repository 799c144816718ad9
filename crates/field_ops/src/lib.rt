//! Operations on records and on the values in them: what they make of a record, what undoes them, and how they are sent.
//!
//! Contracts see an `ObjectDiff` as pairs of a key and an operation on the key's value (a `Patch`), and a `Diff` as pairs
//! of an id and an operation on a record (`RecordOps`); the keys and ids rise by bytes. A `ValueOp` stands for an operation
//! `ValueOpTree` by `edit_of`, a `RecordOp` for a `RecordOpTree` by `change_of`. The crate stands on `rooms_val`.
#![tactic(auto)]

pub mod apply;
pub mod compose;
pub mod diff;
pub mod inverses;
pub mod laws;
pub mod object_diff;
mod parts;
pub mod record_op;
pub mod value_op;
mod walk;
pub mod wire;

pub use apply::{apply_object, apply_record};
pub use compose::then;
pub use diff::Diff;
pub use inverses::inverse;
pub use object_diff::ObjectDiff;
pub use record_op::RecordOp;
pub use value_op::ValueOp;
pub use wire::{diff_val, has_append, op_val, read_diff, read_op};
