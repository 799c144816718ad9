//! Laws of what is written of recordings that are saved, and of those that go on from a saved room.
//! Each function does nothing: its contract is the law.
ghost use Rattle.std.specs.Prelude.{◌≡◌, ℕ, List};
ghost use Rattle.replay_job.specs.Replay.{Written};
ghost use Rattle.snapshot_jobs.specs.Restoring.{Restores};
ghost use Rattle.snapshot_jobs.specs.Saving.{Saves};

/// Of every recording a text is saved, with a status, whatever its bytes are: what becomes of a line
/// can be told of each line, and of the room that is left something is saved.
pub fn recordings_have_a_saved_text()
    ensures { (recording : List ℕ)
        → (status : ℕ) × (text : List ℕ) × Saves recording status text }
{}

/// Of a recording one text is saved, with one status.
pub fn recordings_have_one_saved_text()
    ensures { (recording : List ℕ) (s t : ℕ) (v w : List ℕ)
        → Saves recording s v → Saves recording t w → (s ≡ t) × (v ≡ w) }
{}

/// Of everything that is read something is written, whatever its bytes are: a line is that of a
/// saved room or not, a room begins from that or not, and what becomes of the lines behind it can be
/// told of each.
pub fn recordings_are_restored()
    ensures { (recording : List ℕ) → (w : Written) × Restores recording w }
{}

/// Of what is read one text is written, which ends in one way.
pub fn recordings_are_restored_once()
    ensures { (recording : List ℕ) (v w : Written)
        → Restores recording v → Restores recording w → v ≡ w }
{}
