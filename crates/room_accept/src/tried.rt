//! The operations that are tried for those of a session.
ghost use Rattle.std.specs.Prelude.{◌≡◌, Some, IfOk};
ghost use Rattle.std.specs.Option.{option_copied};
ghost use Rattle.rooms_val.specs.View.{data_of};
ghost use Rattle.field_ops.specs.View.{maybe_data};
ghost use Rattle.field_ops.specs.ViewRecordOps.{change_of};
ghost use Rattle.schema_core.specs.SchemaOf.{schema_tree};
ghost use Rattle.room_model.specs.Accepting.{on_put, as_put, raise_op, tried_op};
ghost use Rattle.room_schemas.specs.Decided.{decided, raise, lower};
ghost use Rattle.room_accept.specs.Plans.{plan_of};

use crate::plan::SessionPlan;
use field_ops::{RecordOp, apply_record};
use rooms_val::{Mem, Val};
use schema_core::Schema;
use std::alloc::Global;

// The operation that is tried for one of a session, on the record, or the lack of one, that it is
// done to.
pub(crate) fn op_to_try(
    alloc: Global,
    schema: &Schema,
    plan: &SessionPlan,
    op: &RecordOp,
    before: Option<&Val>,
) -> Mem<RecordOp>
    ensures { IfOk result (λ o. change_of o
        ≡ tried_op (decided (schema_tree schema.now)) (plan_of plan.now) (change_of op.now)
        (maybe_data (option_copied before.entry))) }
{
    if plan.is_empty() {
        return op.copy(alloc);
    }
    raised_op(alloc, schema, plan, op, before)
}

// An operation at a session's schema as it is at the room's.
fn raised_op(
    alloc: Global,
    schema: &Schema,
    plan: &SessionPlan,
    op: &RecordOp,
    before: Option<&Val>,
) -> Mem<RecordOp>
    ensures { IfOk result (λ o. change_of o
        ≡ raise_op (raise (schema_tree schema.now) (plan_of plan.now))
        (lower (schema_tree schema.now) (plan_of plan.now))
        (change_of op.now) (maybe_data (option_copied before.entry))) }
{
    match op {
        RecordOp::Put(val) => Ok(RecordOp::Put(plan.raise(alloc, schema, val)?)),
        RecordOp::Patch(_) => match before {
            Some(val) => raised_patch(alloc, schema, plan, op, val),
            None => op.copy(alloc),
        },
        RecordOp::Remove => Ok(RecordOp::Remove),
    }
}

// A patch of a record as the put of what it makes of the record at a session's schema, taken up.
fn raised_patch(
    alloc: Global,
    schema: &Schema,
    plan: &SessionPlan,
    op: &RecordOp,
    before: &Val,
) -> Mem<RecordOp>
    ensures { IfOk result (λ o. change_of o
        ≡ on_put (raise (schema_tree schema.now) (plan_of plan.now))
        (as_put (change_of op.now)
        (Some (lower (schema_tree schema.now) (plan_of plan.now) (data_of before.now))))) }
{
    let seen = plan.lower(alloc, schema, before)?;
    match apply_record(alloc, Some(&seen), op)? {
        Some(val) => Ok(RecordOp::Put(plan.raise(alloc, schema, &val)?)),
        None => op.copy(alloc),
    }
}
