//! What plays the tests of serving a link, by tables: what comes on links that are served in a new room of version 3, and what is
//! reported, what goes out, and what the room's history is.
//!
//! A row has four cells, parted by ` | `. The first has what happens, in parts with ` ; ` between them, one after the other. The part
//! `enter n` lets n sessions enter, which stay. Any other part is a link that is served, and has these words:
//! - `.` is an Idle, and `-` is nothing;
//! - `fails=n` is a call on the link that fails, by its number from 0;
//! - any other word is a text that comes;
//! - the words behind `meanwhile` are texts of another session, `n*` in front of one if it says it n times. It enters once the
//!   link's text 1 was answered, says them, and stays.
//!
//! Texts may have the short names of `test_with_boards` in them, and are those of `texts::named_text` where they have one. `~n~` stands
//! for n blanks, `*` for a byte that no text has, and `^n^part^` for n parts, with a comma between them and a number for each `@`.
//!
//! The second cell has each link's report, with how many arrivals are left; the third what went out on it, as texts and reasons. The
//! fourth has the room's events when it is closed with those that are gone, and its clock. If the fourth begins with `..`, it is the
//! end of that. `enters=n` stands there for the first n sessions' entering. A text of more than 1,000 bytes is written as its length.
//! One thread that does those events in a new room must be given the same.
//!
//! A player tells the first difference. It says nothing in contracts but that who is gone was of the room, and that a new link had no
//! fault: what a link and a room answer is looked at where the tests are run. Links by their
//! words, and what went out on them, are there for the tests of servers too.
#![tactic(auto)]

mod links;
mod plays;
mod says;
mod texts;
mod visitor;

pub use links::link_of;
pub use plays::first_difference;
pub use says::sent_text;
pub use texts::spell_out;
