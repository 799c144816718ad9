//! Whether a push is taken.
ghost use Rattle.std.specs.Prelude.{◌≡◌, ◌||◌, ◌&&◌, true, IfOk};
ghost use Rattle.std.specs.Option.{option_map_or};
ghost use Rattle.field_ops.specs.ViewRecordOps.{change_of, maybe_change};
ghost use Rattle.schema_core.specs.SchemaOf.{schema_tree};
ghost use Rattle.room_model.specs.Accepting.{on_put, is_put_admitted, is_fit, pushed_diff};
ghost use Rattle.room_schemas.specs.Decided.{decided, raise};
ghost use Rattle.room_accept.specs.Plans.{plan_of};

use crate::plan::SessionPlan;
use crate::push::Member;
use field_ops::{Diff, RecordOp};
use rooms_val::{Mem, Text};
use schema_core::Schema;
use std::alloc::Global;

// Whether a push is taken that has this diff and what happens to the session's presence, where that
// has the presence's id already.
pub(crate) fn is_taken(
    alloc: Global,
    schema: &Schema,
    member: Member<'_>,
    pushed: &Option<Diff>,
    id: &Text,
    own: &Option<RecordOp>,
) -> Mem<bool>
    ensures { IfOk result (λ taken. taken
        ≡ ((member.entry.readonly
        || is_fit (decided (schema_tree schema.now)) (plan_of member.entry.plan.now)
        (pushed_diff pushed.now))
        && option_map_or (λ c. is_put_admitted (decided (schema_tree schema.now)) id.now c)
        (maybe_change own.now) true)) }
{
    if !member.readonly && !is_pushed_fit(alloc, schema, member.plan, pushed)? {
        return Ok(false);
    }
    match own {
        Some(op) => Ok(is_put_admitted(schema, id.as_str(), op)),
        None => Ok(true),
    }
}

// Whether a push's diff, if it has one, is fit.
fn is_pushed_fit(
    alloc: Global,
    schema: &Schema,
    plan: &SessionPlan,
    pushed: &Option<Diff>,
) -> Mem<bool>
    ensures { IfOk result (λ fit. fit
        ≡ is_fit (decided (schema_tree schema.now)) (plan_of plan.now) (pushed_diff pushed.now)) }
{
    match pushed {
        Some(diff) => is_fit(alloc, schema, plan, diff),
        None => Ok(true),
    }
}

// Whether each operation names an id of the document, and what it puts is admitted once it is taken
// up.
fn is_fit(alloc: Global, schema: &Schema, plan: &SessionPlan, diff: &Diff) -> Mem<bool>
    ensures { IfOk result (λ fit. fit
        ≡ is_fit (decided (schema_tree schema.now)) (plan_of plan.now) diff.now) }
{
    'ids: for (id, op) in diff.as_slice() {
        if !schema.is_document(id.as_str()) {
            return Ok(false);
        }
        if !is_put_fit(alloc, schema, plan, id, op)? {
            return Ok(false);
        }
    }
    Ok(true)
}

// Whether what an operation puts is admitted under the id once it is taken up.
fn is_put_fit(
    alloc: Global,
    schema: &Schema,
    plan: &SessionPlan,
    id: &Text,
    op: &RecordOp,
) -> Mem<bool>
    ensures { IfOk result (λ fit. fit
        ≡ is_put_admitted (decided (schema_tree schema.now)) id.now
        (on_put (raise (schema_tree schema.now) (plan_of plan.now)) (change_of op.now))) }
{
    match op {
        RecordOp::Put(val) => {
            let raised = plan.raise(alloc, schema, val)?;
            Ok(schema.admits(id.as_str(), &raised).is_ok())
        }
        RecordOp::Patch(_) => Ok(true),
        RecordOp::Remove => Ok(true),
    }
}

// Whether what an operation puts is admitted under the id.
pub(crate) fn is_put_admitted(schema: &Schema, id: &str, op: &RecordOp) -> bool
    ensures { result
        ≡ is_put_admitted (decided (schema_tree schema.now)) id.now (change_of op.now) }
{
    match op {
        RecordOp::Put(val) => schema.admits(id, val).is_ok(),
        RecordOp::Patch(_) => true,
        RecordOp::Remove => true,
    }
}
