//! What bytes are written to.
ghost use Rattle.std.specs.Prelude.{◌≡◌, ℕ, ◌<◌, ◌≤◌, List, [], Option, length, IfOk, OnErr};
ghost use Rattle.room_link.specs.Held.{Extends, taken_of};

use crate::Failed;

/// A sink for bytes that may fail.
pub trait Sink {
    /// How many faults there were so far.
    ghost faults: { Self → ℕ };

    /// The bytes that the sink has taken so far, in order, or `None` where it doesn't tell.
    ghost held: { Self → Option (List ℕ) };

    /// Takes bytes from the front of `bytes`, and returns how many: at least one where there is one.
    ///
    /// # Errors
    ///
    /// `Failed` where the sink had a fault, as where it would take nothing of a piece that isn't
    /// empty. Then it has taken nothing.
    fn write(&mut self, bytes: &[u8]) -> Result<usize, Failed>
        ensures faults_stay { faults self.old ≤ faults self.new }
        ensures failed { OnErr result (faults self.old < faults self.new) }
        ensures bound { IfOk result (λ n. n ≤ length bytes.now) }
        ensures goes_on { IfOk result (λ n. n ≡ 0 → bytes.now ≡ []) }
        ensures held { Extends (held self.old) (held self.new) (taken_of result bytes.now) };
}
