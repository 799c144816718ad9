//! Counts of faults.
ghost use Rattle.std.specs.Prelude.{◌≡◌, ◌<◌, ◌≤◌, ◌↔◌};
ghost use Rattle.room_link.specs.declared.passing.Stop.TheVariants.{Failed, OutOfMemory};

use crate::exchange::Broken;
use room_link::passing::Stop;

/// Counts a fault, and returns it. A count at its end, 2^64 − 1, stands still; what is returned is then
/// `OutOfMemory`, since no fault is returned that isn't counted.
pub(crate) fn count_fault(faults: &mut u64) -> Stop
    ensures stays { faults.old ≤ faults.new }
    ensures failed { result ≡ Failed → faults.old < faults.new }
    ensures only_at_end { result ≡ OutOfMemory → faults.old ≡ u64.MAX }
{
    match faults.checked_add(1) {
        Some(more) => {
            *faults = more;
            Stop::Failed
        }
        None => Stop::OutOfMemory,
    }
}

/// What a link returns for what broke a call. A fault is counted.
pub(crate) fn stop_for(faults: &mut u64, broken: Broken) -> Stop
    ensures stays { faults.old ≤ faults.new }
    ensures failed { result ≡ Failed → faults.old < faults.new }
{
    match broken {
        Broken::Memory => Stop::OutOfMemory,
        Broken::Fault => count_fault(faults),
    }
}
