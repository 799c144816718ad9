//! A world whose clients watch views and query what they show.
//!
//! What a client watches stands beside the world of `room_model`, whose laws need not speak of it. Contracts see, of a
//! `ViewedWorld`, the world of the definitions for which it stands, and what each client watches (`specs/Views.antt`): an
//! event prints its own lines, and then what each client has to tell. The crate asks the one client alone whose document or
//! watches the event may change; that the others have nothing to tell is kept (`specs/Standing.antt`). The crate stands on
//! `sync_world`, and on `rec_format` for what a recording says and prints.
#![tactic(auto)]

mod lines;
pub mod viewed;

pub use viewed::ViewedWorld;
