//! Long texts in pieces: how a text that is too long for one frame is cut, and put together again.
//!
//! A text within the limit of a piece goes as it is. A longer one goes in parts, each after the number
//! of parts that are still to come. Contracts see texts and pieces as bytes, and an [`Assembler`] as its
//! limit with what it has gathered. How a text is cut is `specs/Cutting.antt`; what a piece says, and
//! what an assembler makes of it, is `specs/Feeding.antt`; what holds of pieces one after another is
//! `specs/Streams.antt`. The crate stands on `rooms_val` for texts.
#![tactic(auto)]

mod assembler;
mod cut;
mod fault;
pub mod laws;
mod piece;

pub use assembler::Assembler;
pub use cut::{LONGEST_PART, numbered_part, parts_of, pieces};
pub use fault::PieceFault;
pub use piece::MOST_TO_COME;
