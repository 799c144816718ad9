//! A link to one peer.
ghost use Rattle.std.specs.Prelude.{ℕ, ◌<◌, ◌≤◌, Option};
ghost use Rattle.room_link.specs.Stops.{OnFailed};
ghost use Rattle.room_link.specs.Exchange.{Exchange, Tells, Takes, Sends};
ghost use Rattle.room_link.specs.declared.passing.Outgoing.TheVariants as outgoing;

use crate::passing::{Incoming, Stop};
use sync_msgs::EndReason;

/// A link to one peer, over which texts go both ways. It may fail. A call costs the bytes that it moves,
/// and may wait for the peer.
pub trait Link {
    /// How many faults there were so far.
    ghost faults: { Self → ℕ };

    /// What is left to come and what went out, or `None` where the link doesn't tell.
    ghost told: { Self → Option Exchange };

    /// Gives what is next: a text, an Idle where nothing came for a while, or the End, which is given
    /// only where nothing is left.
    ///
    /// # Errors
    ///
    /// `Failed` where the link had a fault, and `OutOfMemory` where memory was refused. Then nothing
    /// that was left is lost, where the link tells.
    fn next(&mut self) -> Result<Incoming, Stop>
        ensures faults_stay { faults self.old ≤ faults self.new }
        ensures failed { OnFailed result (faults self.old < faults self.new) }
        ensures taken { Tells (Takes result) (told self.old) (told self.new) };

    /// Sends a text.
    ///
    /// # Errors
    ///
    /// As of `next`. Then nothing went out, where the link tells.
    fn send(&mut self, text: &str) -> Result<(), Stop>
        ensures faults_stay { faults self.old ≤ faults self.new }
        ensures failed { OnFailed result (faults self.old < faults self.new) }
        ensures sent { Tells (Sends result (outgoing.Text text.now))
            (told self.old) (told self.new) };

    /// Closes the link, and tells the peer the reason.
    ///
    /// # Errors
    ///
    /// As of `next`. Then nothing went out, where the link tells.
    fn close(&mut self, reason: EndReason) -> Result<(), Stop>
        ensures faults_stay { faults self.old ≤ faults self.new }
        ensures failed { OnFailed result (faults self.old < faults self.new) }
        ensures closed { Tells (Sends result (outgoing.Close reason))
            (told self.old) (told self.new) };
}
