//! What plays the tests of serving rooms by workers, in threads of their own: servers by a table, and a
//! crowd.
//!
//! A row of the table has four cells, parted by ` | `. The first has what there is: the server and
//! then each worker, with ` ; ` between them. The server has these words:
//! - `rooms=n` is how many rooms there are;
//! - `hold=w.t>v.u` holds text t of worker w at the gate until worker v has answered its text u.
//!   The row fails if that takes too long;
//! - `write=n` is a write that fails, by its number from 0.
//!
//! A worker has parts with ` , ` between them: `accept=n` is a call on the worker that fails, by
//! its number from 0, and any other part is a link, with the words of `test_with_served`.
//!
//! The second cell has what went out on each link, as `test_with_served` has it, parted as links and
//! workers are, and `none` in the place of links where there is none. The third has the status. The
//! fourth has the lines that were written, with blanks between them, or `-` if there is none.
//!
//! A player tells the first difference. It says nothing in contracts: what a server does is looked at where the tests are run.
#![tactic(auto)]

mod cast;
mod crowd;
mod given;
mod host;
mod plays;
mod tellings;

pub use crowd::crowd_difference;
pub use host::{Ended, serve_after};
pub use plays::first_difference;
