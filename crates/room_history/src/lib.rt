//! What a room keeps of its history.
#![tactic(auto)]

mod begin;
mod check;
pub mod history;
mod kept;
mod load;
mod marks;
pub mod recent_entry;
mod records;
pub mod removal;
mod saving;

pub use history::RoomHistory;
pub use recent_entry::RecentEntry;
pub use removal::Removal;
