//! Plain queries of a board: the children of a page or shape, its tree, and the boxes of shapes.
//!
//! They are asked of any list of records, admitted or not, and of records by id. Contracts see a list as the map that
//! it stands for (`specs/Records.antt`), and say of each call that it returns what is defined of that map
//! (`specs/Trees.antt`, `specs/Boxes.antt`). The crate stands on `rooms_val` for values and on `record_valid` for what
//! an id is.
#![tactic(auto)]

mod boxes;
mod index;
mod laws;
pub mod limits;
mod listing;
mod place;
mod query;
mod records;
mod rect;
mod view;

pub use boxes::{move_box, own_box};
pub use laws::boxes_are_small;
pub use listing::{children, tree};
pub use query::Query;
pub use rect::{Rect, join_box};
pub use view::View;
