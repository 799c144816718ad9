//! How many pushes a client made.
ghost use Rattle.std.specs.Prelude.{◌≡◌, ◌≤◌, ◌<◌, ◌+◌, ◌-◌, nat_le};
ghost use Rattle.room_model.specs.declared.limits.TheConstants.{MOST_PUSHES};

use room_model::limits::MOST_PUSHES;

/// How many pushes a client made, and how many of its pending works the last of them sent. The works that were sent are the
/// first ones, and their pushes followed one another.
#[derive(Drop)]
pub(crate) struct Counts {
    // How many pushes it ever made.
    pub(crate) pushes: u64,
    // How many works of those that are pending were sent on this connection.
    pub(crate) sent: usize,
    ghost within: { sent ≤ pushes },
    ghost most: { pushes ≤ MOST_PUSHES },
}

impl Counts {
    /// Nothing was pushed.
    pub(crate) fn new() -> Counts
        ensures pushes { result.pushes ≡ 0 }
        ensures sent { result.sent ≡ 0 }
    {
        Counts { pushes: 0, sent: 0 }
    }

    /// The number under which the first pending work was sent, or would be.
    pub(crate) fn first(&self) -> u64
        ensures first { result ≡ self.now.pushes - self.now.sent + 1 }
        ensures all { result + self.now.sent ≤ MOST_PUSHES + 1 }
    {
        self.pushes - self.sent as u64 + 1
    }

    /// Whether no further push may be made.
    pub(crate) fn are_spent(&self) -> bool
        ensures { result ≡ nat_le MOST_PUSHES self.now.pushes }
    {
        self.pushes >= MOST_PUSHES
    }

    /// The number of the next push, which is made and sends a further work.
    pub(crate) fn push(&mut self)
        requires { self.old.pushes < MOST_PUSHES }
        ensures pushes { self.new.pushes ≡ self.old.pushes + 1 }
        ensures sent { self.new.sent ≡ self.old.sent + 1 }
    {
        *self = Counts {
            pushes: self.pushes + 1,
            sent: self.sent + 1,
        };
    }

    /// The first works that were sent are pending no more.
    pub(crate) fn end(&mut self, works: usize)
        requires { works ≤ self.old.sent }
        ensures pushes { self.new.pushes ≡ self.old.pushes }
        ensures sent { self.new.sent + works ≡ self.old.sent }
    {
        *self = Counts {
            pushes: self.pushes,
            sent: self.sent - works,
        };
    }

    /// All is to be sent again.
    pub(crate) fn restart(&mut self)
        ensures pushes { self.new.pushes ≡ self.old.pushes }
        ensures sent { self.new.sent ≡ 0 }
    {
        *self = Counts {
            pushes: self.pushes,
            sent: 0,
        };
    }
}
