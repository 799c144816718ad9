//! Values that are computed anew only where they may differ.
//!
//! `Values` holds atoms, whose values are set, and computed keys, whose values come by the rules of `signal_rules`. A
//! computed key keeps its last value, and stays fresh while no atom changes that its run met. Contracts see `Values` as
//! their rows, which of them are fresh, and their epoch (`specs/Seen.antt`).
//!
//! Edges go from a row to each fresh row that read it. The contracts of `Edges` see them as the children of each row, in the
//! order in which they were linked, and as how many edges need no memory (`specs/Edges.antt`). They stand on `links_core`:
//! an edge is a node in two lists, that of its parent and that of its child, so that a child leaves all its parents in as
//! many steps as it has edges.
#![tactic(auto)]

mod cells;
mod edges;
mod mark;
mod parents;
mod rows;
mod run;
pub mod values;
mod write;

pub use signal_rules::{Ask, Rules};
pub use values::Values;
