//! What records are to a session.
ghost use Rattle.std.specs.Prelude.{◌≡◌, fold, IfOk, OnOk};
ghost use Rattle.std.specs.Option.{option_copied};
ghost use Rattle.rooms_val.specs.Maps.{value_at, with_key};
ghost use Rattle.field_ops.specs.View.{maybe_data};
ghost use Rattle.field_ops.specs.ViewRecordOps.{change_of};
ghost use Rattle.schema_core.specs.SchemaOf.{schema_tree};
ghost use Rattle.room_schemas.specs.Decided.{decided};
ghost use Rattle.room_accept.specs.Plans.{plan_of};
ghost use Rattle.room_messages.specs.Told.{decided_by, state_of};

use field_ops::{Diff, RecordOp};
use room_accept::SessionPlan;
use room_history::RoomHistory;
use rooms_val::{Mem, Text, Val};
use schema_core::Schema;
use std::alloc::Global;

/// A put of a record as a session sees it, or a remove where there is none.
pub(crate) fn state_op(
    alloc: Global,
    schema: &Schema,
    plan: &SessionPlan,
    val: Option<&Val>,
) -> Mem<RecordOp>
    ensures { IfOk result (λ op. change_of op
        ≡ state_of (decided (schema_tree schema.now)) (plan_of plan.now)
        (maybe_data (option_copied val.entry))) }
{
    match val {
        Some(val) => Ok(RecordOp::Put(plan.lower(alloc, schema, val)?)),
        None => Ok(RecordOp::Remove),
    }
}

/// Puts into a diff what a room's records have under each of some ids, as a session sees it.
pub(crate) fn put_states(
    alloc: Global,
    room: &RoomHistory,
    plan: &SessionPlan,
    diff: &mut Diff,
    ids: Vec<Text>,
) -> Mem<()>
    ensures { OnOk result (diff.new
        ≡ fold (λ d id. with_key d id (state_of (decided_by room.now.kept) (plan_of plan.now)
        (value_at room.now.kept.records.0 id)))
        diff.old ids.items) }
{
    'ids: for id in ids {
        let op = state_op(alloc, room.schema(), plan, room.record(id.as_str()))?;
        drop(diff.put(id, op)?);
    }
    Ok(())
}
