//! What a room accepts of a push, as a question about its records.
//!
//! A room has a `Schema`, which decides a record of functions (`decided`), and its records in a
//! store, of which it knows the size of the document. [`accept`] tells of a push which entry it
//! makes, and what the entry leaves; nothing changes. The definitions of what is accepted are those
//! of `room_model`. A [`SessionPlan`] is the plan from a client's schema.
#![tactic(auto)]

pub mod accepted;
pub mod accepting;
mod action;
mod admitted;
mod fit;
mod part;
pub mod plan;
pub mod presence;
pub mod push;
pub mod size;
mod tried;

pub use accepted::Accepted;
pub use accepting::accept;
pub use plan::SessionPlan;
pub use presence::presence_id;
pub use push::{Member, Push};
pub use size::DocumentSize;
