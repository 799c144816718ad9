//! What was written since an epoch.
ghost use Rattle.std.specs.Prelude.{◌≡◌, IfOk};
ghost use Rattle.signal_txn.specs.Since.{diffs_after};

use crate::last_writes::LastWrites;
use rooms_val::Mem;
use signal_core::Rules;
use std::alloc::Global;

/// What was written since an epoch.
#[derive(Drop)]
pub enum Since<K, V> {
    /// The keys that were written, each with its value from then on, in the order of the writes.
    Diffs(Vec<(K, V)>),
    /// That isn't known.
    Reset,
}

// What was written after an epoch.
//
// # Errors
//
// Memory was refused.
pub(crate) fn copies_after<R: Rules>(
    alloc: Global,
    rules: &R,
    ring: &LastWrites<R::Key, R::Value>,
    epoch: u64,
) -> Mem<Vec<(R::Key, R::Value)>>
    ensures { IfOk result (λ diffs. diffs.items ≡ diffs_after epoch ring.now.writes) }
{
    let writes = ring.writes();
    let mut diffs = Vec::new(alloc);
    'writes: for i in 0..writes.len() {
        let Some(write) = writes.get(i) else {
            unreachable!();
        };
        if epoch < write.epoch {
            let key = rules.copy_key(alloc, &write.key)?;
            diffs.push((key, rules.copy_value(alloc, &write.value)?))?;
        }
    }
    Ok(diffs)
}
