//! Watches, by number.
ghost use Rattle.std.specs.Prelude.{◌≡◌};
ghost use Rattle.signal_core.specs.declared.watch.WatchFault.TheVariants as watch_fault;

use rooms_val::OutOfMemory;
use thiserror::Error;

/// The most watches of one [`crate::Graph`].
pub const MOST_WATCHES: usize = 64;

/// The number of a watch of one [`crate::Graph`].
#[derive(Clone, Copy, Debug, PartialEq, Eq)]
pub struct WatchId {
    /// Below 64.
    pub number: u32,
}

/// Why a watch is refused.
#[derive(Clone, Copy, Debug, PartialEq, Eq, Error)]
pub enum WatchFault {
    /// There are as many watches as may be.
    #[error("too many watches")]
    Full,
    /// Memory was refused.
    #[error("out of memory")]
    OutOfMemory,
}

impl From<OutOfMemory> for WatchFault {
    ghost from_gives = { λ _ e. e ≡ watch_fault.OutOfMemory };

    fn from(_refused: OutOfMemory) -> WatchFault {
        WatchFault::OutOfMemory
    }
}

/// The key that is watched, and the value that was last told of it, if any was.
#[derive(Drop)]
pub struct Watch<K, V> {
    pub(crate) key: K,
    pub(crate) told: Option<V>,
}
