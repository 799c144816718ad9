//! Scripts of recordings, for the crates of tests: a table of lines, each with what the world answers to it.
//!
//! A row of a script is a step and its answer, parted by ` | `; both may have the short names of `test_with_boards`. A step is a
//! line of a recording, or a short form of lines:
//! - `client v`: a client of version v joins;
//! - `open c s`: client c connects by session s, the room handles its request and sends the answer, which is delivered;
//! - `sync c s`: the room handles the first message of session s and sends what is next, which is delivered to client c;
//! - `get c s`: the room sends session s what is next, which is delivered to client c;
//! - `edit c d`: client c makes the edit of the diff d;
//! - `bulk c n m front part`: client c makes an edit whose diff begins with the front and has m parts, in which `@` stands for
//!   the numbers from n on;
//! - `watch c v`: client c watches the view v;
//! - `query c t q`: client c asks for the records of type t that meet the query q;
//! - `times n line`: the line, n times.
//!
//! The step `peer c` is no line: its answer is what the peer of client c has, as `2 owes 1: {..}` with the clock that it has
//! reached, how much it owes, and its document.
//!
//! An answer is the lines that are printed, parted by ` and `. Of a line that is refused it is the text of the fault; the
//! world goes on with the next line. Messages of a trace aren't asked for.
//!
//! The crate says nothing in contracts but which events a world plays: what a world answers is looked at where the tests are
//! run.
#![tactic(auto)]

mod lines;
mod plays;

pub use plays::first_difference;
