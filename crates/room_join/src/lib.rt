//! A client on a link to a room: what it does by itself, what it takes from the link, and what it says and prints then.
//!
//! Contracts say for which client of the definitions a `Joiner` stands (`specs/Standing.antt`): a client of `room_model`
//! with a base of its own, the views that it watches, the pieces that wait, and whether its link has ended
//! (`specs/Joiners.antt`). What a wait takes from a link, and what is made of it, is `specs/Hearing.antt`; the lines that a
//! client prints are `specs/Lines.antt`, and the texts of faults `specs/Texts.antt`. The crate stands on `sync_peer` for the
//! client, on `client_link` for its end of a link, and on `rec_format` for what recordings print.
#![tactic(auto)]

mod act;
mod delivering;
mod join_line;
mod joiner;
mod texts;

pub use act::Act;
pub use delivering::Delivery;
pub use join_line::JoinLine;
pub use joiner::{Answer, Joiner};
