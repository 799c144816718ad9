//! Copy and paste of shapes: what hangs under some shapes of a document, and its records under new ids.
//!
//! Contracts see a clip as the records that were copied, by the ids that they have in the document (a `ClipTree`), and say
//! of each call that it returns what is defined of that and of a document (`specs/Copied.antt`, `specs/Pasted.antt`). The
//! laws of these definitions are in `specs/Laws.antt`. The crate stands on `side_effects` for what hangs on what, on
//! `index_keys` for the indices of what is pasted, and on `field_ops` for diffs.
#![tactic(auto)]

mod behind;
pub mod clip;
mod copying;
pub mod laws;
pub mod limits;
mod new_ids;
mod pasting;
mod records;
pub mod target;
mod tops;

pub use clip::Clip;
pub use room_model::{ClipFault, PasteFault};
pub use target::Target;
