//! The last entries of a room.
ghost use Rattle.std.specs.Prelude.{◌≡◌, [], ◌∷◌, ◌++◌, map};
ghost use Rattle.rooms_val.specs.Maps.{seen};
ghost use Rattle.field_ops.specs.View.{maybe_data};
ghost use Rattle.circular_buffer.specs.Buffer.{keep_last};
ghost use Rattle.room_history.specs.Entries.{recent_tree};

use circular_buffer::HeapCircularBuffer;
use room_model::Entry;
use rooms_val::{Text, Val};

/// One of the last entries of a room.
#[derive(Drop)]
pub struct RecentEntry {
    /// The room's clock after it, from 1.
    pub clock: i64,
    /// The entry.
    pub entry: Entry,
    /// What stood after the entry under each id that its diff names, in the order of the ids.
    pub after: Vec<(Text, Option<Val>)>,
}

// Puts an entry at the end of the last ones, in place of the oldest where there are too many.
pub(crate) fn remember(
    recent: &mut HeapCircularBuffer<RecentEntry>,
    clock: i64,
    entry: Entry,
    after: Vec<(Text, Option<Val>)>,
)
    ensures items { map recent_tree recent.new.items
        ≡ keep_last recent.old.capacity (map recent_tree recent.old.items
        ++ record { clock = clock; entry = entry; after = seen maybe_data after.items } ∷ []) }
    ensures capacity { recent.new.capacity ≡ recent.old.capacity }
{
    let _ = recent.push_back(RecentEntry {
        clock,
        entry,
        after,
    });
}
