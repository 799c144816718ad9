//! Why no room begins from what was saved.
ghost use Rattle.std.specs.Prelude.{◌≡◌};
ghost use Rattle.room_model.specs.declared.load_fault.LoadFault.TheVariants as fault;

use rooms_val::{OutOfMemory, Text};
use std::fmt;
use thiserror::Error;

/// Why no room begins from what was saved. Of several causes the first in this order is named.
#[derive(Drop, Error)]
pub enum LoadFault {
    /// The clocks don't fit. They fit if the start lies from 0 to the clock, which is below the
    /// room's last, the clock of each record lies from 1 to the room's, and that of each removed id
    /// above the start and up to the room's.
    #[error("the clocks of the saved room don't fit together")]
    Clocks,
    /// The first record that isn't admitted to the document under the id that it says, or says no
    /// id (`-`), or whose id stood before; else the first removed id that isn't of the document, or
    /// stood before among the records or the removed ids.
    #[error("a record or a removed id of the saved room is refused")]
    BadRecord(Text),
    /// There are more than 16,384 records, they weigh more than 2,097,152 together, or there are
    /// more than 3,000 removed ids.
    #[error("the saved room is too large")]
    TooLarge,
    /// Memory was refused. It may come in place of any result.
    #[error("out of memory")]
    OutOfMemory,
}

impl From<OutOfMemory> for LoadFault {
    ghost from_gives = { λ _ e. e ≡ fault.OutOfMemory };

    fn from(_refused: OutOfMemory) -> LoadFault {
        LoadFault::OutOfMemory
    }
}

impl fmt::Debug for LoadFault {
    fn fmt<W: fmt::Write>(&self, f: &mut fmt::Formatter<W>) -> fmt::Result {
        write!(f, "{self}")
    }
}
