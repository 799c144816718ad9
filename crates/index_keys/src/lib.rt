//! The index keys by which the children of one parent are ordered: texts that sort by their bytes.
//!
//! A key is a head letter, the rest of an integer part, whose length the head tells, and a
//! fraction, all in the digits `0-9A-Za-z`: the keys of fractional indexing in base 62, as the
//! JavaScript library `fractional-indexing` writes them. Contracts see a key as its bytes. Its parts
//! are those of `specs/Keys.antt`. The key between two others is that of `specs/Between.antt`, by
//! the values of digits, and what is asked of it stands apart in `specs/Order.antt`, by the order of
//! bytes. The crate stands on std alone, with `thiserror` for the messages of its faults.
#![tactic(auto)]

mod digit;
mod fault;
mod fraction;
mod integer;
mod key;
mod series;
mod single;

pub use fault::{BetweenFault, KeyFault};
pub use key::check;
pub use series::several;
pub use single::{MAX_LENGTH, between};
