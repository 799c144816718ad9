//! JSON values whose numbers are whole: what they are, how they are read and printed, and what they weigh.
//!
//! Contracts see a `Text` as its bytes, a `Vals` as a list of values and a `Fields` as pairs of a key and a value that
//! rise by the key's bytes. A `Val` stands for a value `Data` by `data_of`. The crate stands on `serde_json`, whose
//! definition of JSON decides which texts are values, and on the writer of `json`.
#![tactic(auto)]

pub mod entries;
pub mod fault;
pub mod fields;
mod from_json;
mod json_text;
pub mod limits;
pub mod memory;
pub mod order;
pub mod steps;
mod survey;
pub mod text;
pub mod val;
pub mod vals;

pub use fault::{OpFault, TxnFault, ValFault};
pub use fields::Fields;
pub use memory::{Mem, OutOfMemory};
pub use steps::Steps;
pub use text::Text;
pub use val::{Kind, Val};
pub use vals::Vals;
