//! Scripts of calls of a store of which views are asked, for the crates of tests: a table of steps, each with its answer.
//!
//! A row of a script is a step and its answer, parted by ` | `; no answer is the empty one. The store begins without a record.
//! The steps that change records are:
//! - `page n`, `geo n i p x y`, `frame n i p x y`, `group n i p x y`, `bind n a b`: puts a record, by `calls.rt`.
//! - `set id field value`: sets a field of a record to a value, where there is a record.
//! - `take id`: takes a record away.
//! - `begin`, `commit`, `abort`: a transaction; the answer is `too nested` or `none is open` where it can't be done.
//!
//! The others are:
//! - `ask kind id`: what a key comes to: the kinds are `tree`, `count`, `children`, `bound`, `from`, `to`, `box` and `record`.
//! - `view kind id`: what a view tells: `tree`, `count`, `bound` or `box`.
//! - `watch kind id`: the number of a new watch of a view, or `full`; `unwatch n`: a watch ends, if there is one.
//! - `told`: the watches that have something to tell, each with that; `due` is the same by the store's own call.
//! - `query type text`: the ids of a type that meet a query, by `queries.rt`; `find type text`: the same with the index of x.
//! - `refresh`: the index of the shapes' x is brought up; `since`: how many writes the store then has to tell it.
//! - `each a b step`: a step for each number from a to b, in which `@` stands for the number and `#` for the one before;
//!   the answer is that of the last.
//!
//! The crate says nothing in contracts: what a store answers is looked at where the tests are run.
#![tactic(auto)]

mod alike;
mod asked;
mod calls;
mod plain;
mod queries;
mod steps;
mod stores;
mod texts;

pub use alike::first_unlike;
pub use steps::first_difference;
