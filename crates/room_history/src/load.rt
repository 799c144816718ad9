//! A room's history that begins from what was saved.
ghost use Rattle.std.specs.Prelude.{◌≡◌, ◌≢◌, ◌≤ℤ◌, ◌^◌, pos, nat_abs, Some, None, IfOk, IfErr};
ghost use Rattle.schema_core.specs.SchemaOf.{schema_tree};
ghost use Rattle.room_accept.specs.Suiting.{HasPresences};
ghost use Rattle.room_history.specs.Keeps.{Keeps};
ghost use Rattle.room_model.specs.Saves.{begun, load_fault};
ghost use Rattle.room_model.specs.declared.load_fault.LoadFault.TheVariants.{OutOfMemory};
ghost use Rattle.room_schemas.specs.Decided.{decided};

use crate::begin::{diffs_of, mark_diffs, recent_of};
use crate::check::check;
use crate::history::RoomHistory;
use crate::kept::Kept;
use change_list::ChangeList;
use room_model::{LoadFault, SavedRoom};
use rooms_val::{Mem, Steps};
use schema_core::Schema;
use std::alloc::Global;
use std::sync::ledger::Ledger;

impl RoomHistory {
    /// The history with which a room begins from what was saved, in a room with a last clock of at
    /// most 2^53: an entry without author for each clock, which puts the records of that clock and
    /// removes the ids of that clock. It costs a copy of the records, whose values are shared, and a
    /// logarithm for each record and each removed id; each id also costs a move of a word for each id
    /// above it that is known by then.
    ///
    /// # Errors
    ///
    /// [`LoadFault`] names each with its cause. Of several causes the first of its order is named, or
    /// that memory was refused.
    pub fn load<L: Ledger>(
        alloc: Global,
        schema: Schema,
        last: i64,
        saved: SavedRoom,
        steps: &mut Steps<L>,
    ) -> Result<RoomHistory, LoadFault>
        requires presence { HasPresences (schema_tree schema) }
        requires last { last ≤ℤ pos (2 ^ 53) }
        ensures fault { IfErr result (λ e. e ≢ OutOfMemory
            → load_fault (decided (schema_tree schema)) last saved ≡ Some e) }
        ensures fits { IfOk result (λ h.
            load_fault (decided (schema_tree schema)) last saved ≡ None) }
        ensures keeps { IfOk result (λ h. Keeps (nat_abs saved.start) (begun saved) h.kept) }
        ensures schema { IfOk result (λ h. h.kept.schema ≡ schema) }
    {
        let checked = check(alloc, &schema, last, &saved, steps)?;
        let mut changes = ChangeList::starting(alloc, saved.start)?;
        let diffs = diffs_of(alloc, &saved)?;
        mark_diffs(alloc, &mut changes, &diffs)?;
        let recent = recent_of(alloc, saved.clock, diffs)?;
        Ok(RoomHistory {
            kept: Kept {
                schema,
                records: checked.records,
                size: checked.size,
                changes,
                recent,
                clock: saved.clock,
            },
        })
    }
}
