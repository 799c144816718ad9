//! The fields of a line, both ways.
ghost use Rattle.std.specs.Prelude.{◌≡◌, IfOk, IfErr};
ghost use Rattle.rooms_val.specs.Maps.{AreRising};
ghost use Rattle.rooms_val.specs.View.{data_of, pairs_view};
ghost use Rattle.rooms_val.specs.Answers.{Refuses};
ghost use Rattle.migrate_seq.specs.Versions.{Versions, schema_of};
ghost use Rattle.room_snapshot.specs.Lines.{line_fields};
ghost use Rattle.room_snapshot.specs.Saved.{SavedTree, saved_tree};

use crate::documents::{documents_of, documents_val};
use crate::entries::{list_in, map_in, number_in, val_in};
use crate::snapshot::Snapshot;
use crate::tombs::{tombs_of, tombs_val};
use migrate_seq::Serialized;
use room_model::SavedRoom;
use rooms_val::{Fields, Mem, OpFault, Text, Val};
use std::alloc::Global;

const CLOCK_KEY: &str = "clock";

const DOCUMENTS_KEY: &str = "documents";

const SCHEMA_KEY: &str = "schema";

const START_KEY: &str = "tombstoneHistoryStartsAtClock";

const TOMBS_KEY: &str = "tombstones";

/// The fields of a saved room with the versions of its schema.
pub(crate) fn line_fields(alloc: Global, saved: &SavedRoom, schema: &Serialized) -> Mem<Fields>
    ensures { IfOk result (λ fields.
        fields ≡ line_fields (saved_tree saved.now) schema.now) }
{
    let documents = Val::List(documents_val(alloc, &saved.documents)?);
    let tombs = Val::Map(tombs_val(alloc, &saved.tombstones)?);
    let fields = Fields::new(alloc);
    let fields = fields.with(alloc, CLOCK_KEY, Val::Int(saved.clock))?;
    let fields = fields.with(alloc, DOCUMENTS_KEY, documents)?;
    let fields = fields.with(alloc, SCHEMA_KEY, schema.val(alloc)?)?;
    let fields = fields.with(alloc, START_KEY, Val::Int(saved.start))?;
    fields.with(alloc, TOMBS_KEY, tombs)
}

/// The saved room with the versions of its schema that has these fields.
pub(crate) fn line_in(alloc: Global, entries: &[(Text, Val)]) -> Result<Snapshot, OpFault>
    ensures found { IfOk result (λ s.
        pairs_view entries.now ≡ line_fields (saved_tree s.saved) s.held) }
    ensures rising { IfOk result (λ s. AreRising (saved_tree s.saved).tombstones) }
    ensures refused { IfErr result (Refuses ((s : SavedTree) (held : Versions)
        → ¬ (pairs_view entries.now ≡ line_fields s held))) }
{
    let [clock, documents, schema, start, tombs] = entries else {
        return Err(OpFault::WrongKind);
    };
    let clock = number_in(clock, CLOCK_KEY)?;
    let vals = list_in(documents, DOCUMENTS_KEY)?;
    let versions = val_in(schema, SCHEMA_KEY)?;
    let start = number_in(start, START_KEY)?;
    let fields = map_in(tombs, TOMBS_KEY)?;
    let documents = documents_of(alloc, vals.as_slice())?;
    let held = held_of(alloc, versions)?;
    let tombstones = tombs_of(alloc, fields)?;
    Ok(Snapshot {
        saved: SavedRoom {
            clock,
            start,
            documents,
            tombstones,
        },
        held,
    })
}

// The versions for which a value stands.
fn held_of(alloc: Global, val: &Val) -> Result<Serialized, OpFault>
    ensures found { IfOk result (λ s. data_of val.now ≡ schema_of s) }
    ensures refused { IfErr result (Refuses ((s : Versions) → ¬ (data_of val.now ≡ schema_of s))) }
{
    Serialized::read(alloc, val)
}
