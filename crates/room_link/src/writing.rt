//! Writing a whole text to a sink.
ghost use Rattle.std.specs.Prelude.{ℕ, ◌<◌, ◌≤◌, take, OnOk, OnErr};
ghost use Rattle.room_link.specs.Held.{Extends};

use crate::Failed;
use crate::sink::Sink;

/// Writes all of the bytes, by as many writes as the sink wants.
///
/// # Errors
///
/// `Failed` where a write failed; a front of the bytes is written then.
pub fn write_all<K: Sink>(sink: &mut K, bytes: &[u8]) -> Result<(), Failed>
    ensures faults_stay { K.faults sink.old ≤ K.faults sink.new }
    ensures failed { OnErr result (K.faults sink.old < K.faults sink.new) }
    ensures held { OnOk result (Extends (K.held sink.old) (K.held sink.new) bytes.now) }
    ensures front { OnErr result ((n : ℕ)
        × Extends (K.held sink.old) (K.held sink.new) (take n bytes.now)) }
{
    let mut at = 0;
    'writes: while at < bytes.len() {
        at += sink.write(&bytes[at..])?;
    }
    Ok(())
}
