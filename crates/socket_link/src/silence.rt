//! How long a peer has been silent.

use crate::bounds::{WAITS_TO_FAULT, WAITS_TO_PING};

/// What a wait without a message asks for.
#[derive(Clone, Copy, Debug, PartialEq, Eq)]
pub(crate) enum Asks {
    /// Nothing.
    Nothing,
    /// A ping.
    Ping,
    /// The end of the link.
    Fault,
}

/// The waits of a link in a row in which no byte came.
#[derive(Drop)]
pub(crate) struct Silence {
    // How many there were. At most `WAITS_TO_FAULT`.
    waits: u32,
    // How many reads of the stream had given bytes before the first of them.
    reads: u64,
}

impl Silence {
    /// No wait yet.
    pub(crate) fn new() -> Silence {
        Silence { waits: 0, reads: 0 }
    }

    /// A message came.
    pub(crate) fn end(&mut self) {
        self.waits = 0;
    }

    /// A wait passed without a message, and so many reads of the stream had given bytes by then.
    pub(crate) fn wait(&mut self, reads: u64) -> Asks {
        if reads != self.reads {
            self.reads = reads;
            self.waits = 0;
        }
        self.waits = self.waits.saturating_add(1);
        if self.waits >= WAITS_TO_FAULT {
            Asks::Fault
        } else if self.waits == WAITS_TO_PING {
            Asks::Ping
        } else {
            Asks::Nothing
        }
    }
}
