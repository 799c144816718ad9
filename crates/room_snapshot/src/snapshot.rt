//! The saved room that a line is.
ghost use Rattle.std.specs.Prelude.{◌≡◌, ◌<◌, ◌≤◌, length, false, IsTrue, IfOk, IfErr};
ghost use Rattle.rooms_val.specs.Maps.{AreRising};
ghost use Rattle.rooms_val.specs.View.{data_of};
ghost use Rattle.rooms_val.specs.Answers.{Refuses};
ghost use Rattle.migrate_seq.specs.Versions.{Versions};
ghost use Rattle.room_snapshot.specs.Lines.{line_val};
ghost use Rattle.room_snapshot.specs.Readings.{IsLine, IsNoRoom, RefusesLine};
ghost use Rattle.room_snapshot.specs.Saved.{saved_tree};
ghost use Rattle.room_snapshot.specs.declared.snapshot.TheConstants.{LONGEST_LINE};

use crate::fault::SnapFault;
use crate::line::line_in;
use migrate_seq::Serialized;
use room_model::SavedRoom;
use rooms_val::{OpFault, Val};
use std::alloc::Global;

/// The most bytes that a line may have.
pub const LONGEST_LINE: usize = 67_108_864;

/// A saved room with the versions of the schema that its records have.
#[derive(Drop)]
pub struct Snapshot {
    /// The saved room.
    pub saved: SavedRoom,
    /// The versions of the schema that it had.
    pub held: Serialized,
}

/// The saved room that a line is, with the versions of its schema. The line has no newline, and its
/// fields may stand in any order. Nothing is asked of its records, ids and clocks. It costs the
/// line.
///
/// # Errors
/// The first of these that applies: `LineTooLong` where the line has more than 67,108,864 bytes;
/// `Val` where it is no value; `Shape` where the value is that of no saved room. `OutOfMemory` may
/// come in place of any.
pub fn read(alloc: Global, bytes: &[u8]) -> Result<Snapshot, SnapFault>
    ensures found { IfOk result (λ s. IsLine bytes.now (saved_tree s.saved) s.held) }
    ensures refused { IfErr result (RefusesLine bytes.now) }
{
    if !is_short(bytes) {
        return Err(SnapFault::LineTooLong);
    }
    let val = Val::read(alloc, bytes)?;
    let snapshot = snapshot_of(alloc, &val)?;
    Ok(snapshot)
}

// Whether bytes are few enough for a line.
fn is_short(bytes: &[u8]) -> bool
    ensures short { IsTrue result → length bytes.now ≤ LONGEST_LINE }
    ensures long { result ≡ false → LONGEST_LINE < length bytes.now }
{
    bytes.len() <= LONGEST_LINE
}

// The saved room that a value is.
fn snapshot_of(alloc: Global, val: &Val) -> Result<Snapshot, OpFault>
    ensures found { IfOk result (λ s. data_of val.now ≡ line_val (saved_tree s.saved) s.held) }
    ensures rising { IfOk result (λ s. AreRising (saved_tree s.saved).tombstones) }
    ensures refused { IfErr result (Refuses (IsNoRoom (data_of val.now))) }
{
    let Val::Map(fields) = val else {
        return Err(OpFault::WrongKind);
    };
    line_in(alloc, fields.as_slice())
}
