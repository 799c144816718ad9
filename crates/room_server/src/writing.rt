//! Writing lines to a sink.
ghost use Rattle.std.specs.Prelude.{◌≡◌, ◌<◌, ◌++◌, List, ℕ, flat_map, OnOk, OnErr};
ghost use Rattle.room_link.specs.Held.{Extends};

use room_link::Failed;
use room_link::sink::Sink;
use room_link::writing::write_all;

// Writes lines one after the other, each by writes of its own.
pub(crate) fn write_each<K: Sink>(sink: &mut K, lines: &[Vec<u8>]) -> Result<(), Failed>
    ensures ok { OnOk result (Extends (K.held sink.old) (K.held sink.new)
        (flat_map (λ line. line.items) lines.now)) }
    ensures err { OnErr result ((front rest : List ℕ)
        × (flat_map (λ line. line.items) lines.now ≡ front ++ rest)
        × Extends (K.held sink.old) (K.held sink.new) front) }
    ensures failed { OnErr result (K.faults sink.old < K.faults sink.new) }
{
    'lines: for line in lines {
        write_all(sink, line)?;
    }
    Ok(())
}
