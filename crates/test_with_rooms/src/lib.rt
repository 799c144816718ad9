//! Scripts of calls of a room, for the crates of tests: a table of steps, each with what the room answers.
//!
//! A row of a script is a step and its answer, parted by ` | `; both may have the short names of `test_with_boards`. A session is
//! named by its number. The steps are:
//! - `enter`, `enter readonly`: a session enters; its number, or `Full`.
//! - `fill n`: so many sessions enter; how many did.
//! - `connect s v c`, `connect s v c p`: session s asks with the schema of version v, from clock c, in protocol p or 2. A v of
//!   `none` is a schema without sequences, and `newer` one that the room doesn't know.
//! - `push s n d`: session s pushes the diff d with the client clock n; a d of `-` is none.
//! - `presence s n o`: it pushes the operation o on its presence.
//! - `bulk s n from count d`: it pushes a diff of count parts d, in which `@` stands for the numbers that begin at from.
//! - `each s n count d`: it pushes count diffs `{d}`, in which `@` stands for the client clocks, which begin at n.
//! - `ping s`: it pings.
//! - `drain s`: what session s is given.
//! - `count s`: how much that is: how many events, operations in them and removes among those.
//! - `leave s`: it leaves.
//! - `clock`, `start`, `document`, `presences`, `record id`: what the room tells of itself.
//! - `saved`: what is saved of it, as `{"clock":3,"documents":[[1,{..}]],"start":0,"tombstones":[[3,"shape:a"]]}`, where each
//!   record and each removed id stands behind its clock.
//! - `reload last`: a room begins from what is saved of it, in its place, and refuses pushes from the clock `last` on.
//! - `load last saved`: a room begins from the saved one that is written, in its place; `loaded`, or why none begins.
//!
//! In a d of `bulk` and in a saved room, `~n~` stands for n letters, and in a saved room `^from count d^` for count parts d, in
//! which `@` stands for the numbers that begin at from.
//!
//! The crate says nothing in contracts: what a room answers is looked at where the tests are run.
#![tactic(auto)]

mod begins;
mod messages;
mod saves;
mod says;
mod steps;
mod texts;

pub use messages::message_of;
pub use says::{handled_text, out_text};
pub use steps::first_difference;
