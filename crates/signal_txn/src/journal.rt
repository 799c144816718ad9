//! What open transactions keep, and the last of the writes that are committed.
ghost use Rattle.std.specs.Prelude.{◌≡◌, ◌≢◌, [], ◌∷◌, reverse, OnOk, OnErr};
ghost use Rattle.signal_txn.specs.Journal.{journal_of, joined, committed};
ghost use Rattle.signal_txn.specs.Level.{unwritten};

use crate::last_writes::LastWrites;
use crate::level::Level;
use crate::write::Write;
use rooms_val::Mem;
use std::alloc::Global;

// Opens a transaction.
//
// # Errors
//
// Memory was refused, and none more is open.
pub(crate) fn begin<K: Ord + Drop, V: Drop>(alloc: Global, levels: &mut Vec<Level<K, V>>) -> Mem<()>
    ensures ok { OnOk result (reverse levels.new.items ≡ unwritten ∷ reverse levels.old.items) }
    ensures err { OnErr result (levels.new.items ≡ levels.old.items) }
{
    let level = Level::new(alloc)?;
    levels.push(level)?;
    Ok(())
}

// A write joins those of the newest open transaction, or else the committed ones.
pub(crate) fn join<K: Ord + Drop, V: Drop>(
    ring: &mut LastWrites<K, V>,
    levels: &mut Vec<Level<K, V>>,
    write: Write<K, V>,
)
    ensures { journal_of levels.new.items ring.new
        ≡ joined write (reverse levels.old.items) ring.old }
{
    let depth = levels.len();
    if depth == 0 {
        ring.join(write);
        return;
    }
    levels[depth - 1].join(write);
}

// Closes the newest transaction, and keeps its writes.
pub(crate) fn commit<K: Ord + Drop, V: Drop>(
    ring: &mut LastWrites<K, V>,
    levels: &mut Vec<Level<K, V>>,
)
    requires { levels.old.items ≢ [] }
    ensures { journal_of levels.new.items ring.new ≡ committed (reverse levels.old.items) ring.old }
{
    let Some(level) = levels.pop() else {
        unreachable!();
    };
    let (_, writes) = level.into_parts();
    let depth = levels.len();
    if depth == 0 {
        ring.append(writes);
        return;
    }
    levels[depth - 1].append(writes);
}
