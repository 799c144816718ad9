//! Laws of what recordings write. Each function does nothing: its contract is the law.
ghost use Rattle.std.specs.Prelude.{◌≡◌, ℕ, List, Bool};
ghost use Rattle.replay_job.specs.Replay.{Written, Replays};

/// A recording writes one text and ends in one way: two that it writes are the same, and so is how
/// far they were read.
pub fn recordings_have_one_text()
    ensures { (trace : Bool) (recording : List ℕ) (v w : Written)
        → Replays trace recording v → Replays trace recording w → v ≡ w }
{}

/// Every recording writes a text, whatever its bytes are: what becomes of a line can be told of
/// each line.
pub fn recordings_have_a_text()
    ensures { (trace : Bool) (recording : List ℕ) → (w : Written) × Replays trace recording w }
{}
