//! The line of a saved room.
ghost use Rattle.std.specs.Prelude.{◌≡◌, ◌≤◌, IfOk, IsUtf8, length};
ghost use Rattle.rooms_val.specs.Json.{text_of};
ghost use Rattle.rooms_val.specs.Maps.{AreRising};
ghost use Rattle.room_snapshot.specs.Lines.{line_val};
ghost use Rattle.room_snapshot.specs.Readings.{IsLine, IsReadable};
ghost use Rattle.room_snapshot.specs.Saved.{saved_tree};
ghost use Rattle.room_snapshot.specs.declared.snapshot.TheConstants.{LONGEST_LINE};

use crate::line::line_fields;
use migrate_seq::Serialized;
use room_model::SavedRoom;
use rooms_val::{Mem, Val};
use std::alloc::Global;

/// The line of a saved room with the versions of its schema, without a newline: compact JSON in
/// UTF-8, with the records in their order and the tombstones by id. Of two tombstones with one id
/// the later one counts. It costs what is printed.
///
/// # Errors
/// Out of memory alone.
pub fn print(alloc: Global, saved: &SavedRoom, schema: &Serialized) -> Mem<Vec<u8>>
    ensures text { IfOk result (λ text.
        text.items ≡ text_of (line_val (saved_tree saved.now) schema.now)) }
    ensures utf8 { IfOk result (λ text. IsUtf8 text.items) }
    // It is a line of this room, where the tombstones rise by id, the numbers are within 2^53 - 1,
    // the depth is at most 64, and it has at most 67,108,864 bytes.
    ensures reads_back { IfOk result (λ text. AreRising (saved_tree saved.now).tombstones
        → IsReadable (line_val (saved_tree saved.now) schema.now)
        → length text.items ≤ LONGEST_LINE
        → IsLine text.items (saved_tree saved.now) schema.now) }
{
    let fields = line_fields(alloc, saved, schema)?;
    let text = Val::Map(fields).print(alloc)?;
    Ok(text)
}
