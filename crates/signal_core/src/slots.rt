//! Watches in a vector by number, and where the next one goes.
ghost use Rattle.std.specs.Prelude.{◌≡◌, ℕ, ◌<◌, ◌≤◌, length, OnOk, OnErr};
ghost use Rattle.signal_core.specs.Watches.{IsLeastFree, AddsWatch};

use crate::watch::Watch;
use rooms_val::Mem;

// The least number that isn't watched.
pub(crate) fn least_free<K, V>(watches: &[Option<Watch<K, V>>]) -> usize
    ensures least { IsLeastFree watches.now result }
    ensures within { result ≤ length watches.now }
{
    for (number, slot) in watches.iter().enumerate() {
        if slot.is_none() {
            return number;
        }
    }
    watches.len()
}

// Watches a key by a number that isn't watched.
pub(crate) fn add_watch<K: Drop, V: Drop>(
    watches: &mut Vec<Option<Watch<K, V>>>,
    number: usize,
    key: K,
) -> Mem<()>
    requires { number ≤ length watches.old.items }
    ensures ok { OnOk result (AddsWatch watches.old.items watches.new.items key number) }
    ensures within { (most : ℕ) → number < most → length watches.old.items ≤ most
        → length watches.new.items ≤ most }
    ensures err { OnErr result (watches.new.items ≡ watches.old.items) }
{
    let watch = Some(Watch { key, told: None });
    if number < watches.len() {
        watches[number] = watch;
        return Ok(());
    }
    watches.push(watch)?;
    Ok(())
}
