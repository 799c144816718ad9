//! What accepts links, one after another.
ghost use Rattle.std.specs.Prelude.{◌≡◌, ℕ, ◌<◌, ◌≤◌, Option, IfOk, IfSome};
ghost use Rattle.room_link.specs.Stops.{OnFailed};
ghost use Rattle.room_link.specs.Exchange.{Tells};
ghost use Rattle.room_link.specs.Worker.{Worker, Accepts, GivesBack};

use crate::link::Link;
use crate::passing::Stop;

/// What accepts links for a worker, which serves one after another. It may fail, and `next` may wait for
/// a peer.
pub trait Accept {
    /// Its links.
    type Link: Link;

    /// How many faults there were so far.
    ghost faults: { Self → ℕ };

    /// The links that are left and those that were given back, or `None` where it doesn't tell.
    ghost told: { Self → Option (Worker Self.Link) };

    /// Gives the next link, which had no fault yet, or `None` where no link is left.
    ///
    /// # Errors
    ///
    /// `Failed` where there was a fault, and `OutOfMemory` where memory was refused. Then no link is
    /// lost, where it tells.
    fn next(&mut self) -> Result<Option<Self::Link>, Stop>
        ensures faults_stay { faults self.old ≤ faults self.new }
        ensures failed { OnFailed result (faults self.old < faults self.new) }
        ensures new { IfOk result (λ next. IfSome next (λ link. Self.Link.faults link ≡ 0)) }
        ensures taken { Tells (Accepts result) (told self.old) (told self.new) };

    /// Takes back a link that was served. It takes no memory.
    fn back(&mut self, link: Self::Link)
        ensures faults { faults self.new ≡ faults self.old }
        ensures kept { Tells (GivesBack link) (told self.old) (told self.new) };
}
