//! The plain queries of a board as rules of computed values, and the lists that stand beside its records.
//!
//! Contracts see the rules as three functions (`specs/Meaning.antt`). What a key asks for is said by its run, step by step
//! (`specs/Plans.antt`). Over atoms that say what a map says (`specs/Atoms.antt`) the value of each key is what the plain
//! query of `shape_tree` says of the map, by the law [`values_are_plain_queries`].
//!
//! The lists are of one kind for each atom that lists ids: the children of a parent in order, the bindings that go from an
//! id, and those that go to it. Contracts see them as what is defined of a map (`specs/Listings.antt`): under which id an
//! entry is listed, and where it stands there. The laws are that a record that comes, goes or moves changes the list that
//! had it and the list that gets it, each at one place, and that a binary search finds the place.
#![tactic(auto)]

mod bound;
mod boxes;
mod edits;
mod ids;
mod key;
mod laws;
mod level;
mod list_laws;
mod listing;
mod rules;
mod tree;
mod value;

pub use edits::{with_id, without_id};
pub use ids::{Ids, Part};
pub use key::TlKey;
pub use laws::values_are_plain_queries;
pub use level::Level;
pub use list_laws::{
    a_new_record_is_put_in, a_record_is_taken_out, lists_are_parted, other_lists_stay,
    unmoved_records_stay,
};
pub use listing::Listing;
pub use rules::TlRules;
pub use value::TlValue;
