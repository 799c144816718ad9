//! What bytes are read from.
ghost use Rattle.std.specs.Prelude.{ℕ, ◌<◌, ◌≤◌, List, Option, length, IfOk, OnErr};
ghost use Rattle.std.specs.Io.KnownBytes.{ReadConsumes};

use crate::Failed;

/// A source of bytes that may fail.
pub trait Source {
    /// How many faults there were so far.
    ghost faults: { Self → ℕ };

    /// The bytes that are left to be read, or `None` where the source doesn't tell.
    ghost left: { Self → Option (List ℕ) };

    /// Reads bytes into the front of `buf`, and returns how many; 0 for a buffer that isn't empty
    /// is the end of input. What `buf` has behind those bytes is left open.
    ///
    /// # Errors
    ///
    /// `Failed` where the source had a fault. Then nothing that was left is lost.
    fn read(&mut self, buf: &mut [u8]) -> Result<usize, Failed>
        ensures faults_stay { faults self.old ≤ faults self.new }
        ensures failed { OnErr result (faults self.old < faults self.new) }
        ensures bound { IfOk result (λ n. n ≤ length buf.new) }
        ensures bytes { ReadConsumes (left self.old) (left self.new) result buf.new };
}
