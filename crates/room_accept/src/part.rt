//! The part of a diff that is accepted.
ghost use Rattle.std.specs.Prelude.{◌≡◌, [], ◌∷◌, ◌++◌, true, false, IfOk, MatchOption, if◌then◌else◌};
ghost use Rattle.std.specs.Option.{option_copied};
ghost use Rattle.rooms_val.specs.Maps.{AreRising, value_at};
ghost use Rattle.field_ops.specs.Patched.{raw};
ghost use Rattle.field_ops.specs.View.{maybe_data};
ghost use Rattle.field_ops.specs.ViewRecordOps.{change_of};
ghost use Rattle.schema_core.specs.Admits.{is_document};
ghost use Rattle.schema_core.specs.SchemaOf.{schema_tree};
ghost use Rattle.room_model.specs.Accepting.{pushed_diff, tried_op, accept_ops, document_part};
ghost use Rattle.room_schemas.specs.Decided.{decided};
ghost use Rattle.room_accept.specs.Parts.{IsPart, IsStanding, are_documents, is_taken_in, with_tried};
ghost use Rattle.room_accept.specs.Plans.{plan_of};
ghost use Rattle.room_accept.specs.Pushes.{member_of};
ghost use Rattle.room_accept.specs.Sizes.{size_of, size_after};
ghost use Rattle.room_accept.specs.Suiting.{AreAdmitted};

use crate::admitted::step_admitted;
use crate::fit::is_put_admitted;
use crate::plan::SessionPlan;
use crate::push::Member;
use crate::size::DocumentSize;
use crate::tried::op_to_try;
use doc_store::{DocStore, MapDoc};
use field_ops::{Diff, RecordOp};
use rooms_val::{Mem, Text, Val};
use schema_core::Schema;
use std::alloc::Global;

// What is accepted of a diff so far.
#[derive(Drop)]
pub(crate) struct Part {
    // What was accepted, as it was tried.
    pub(crate) diff: Diff,
    // What each operation left under its id, in the order of the ids.
    pub(crate) after: Vec<(Text, Option<Val>)>,
    // How large the document is then.
    pub(crate) size: DocumentSize,
}

// What is accepted of a push's diff: nothing of a read-only session's.
pub(crate) fn document_part(
    alloc: Global,
    schema: &Schema,
    records: &MapDoc,
    size: DocumentSize,
    member: Member<'_>,
    pushed: &Option<Diff>,
) -> Mem<Part>
    requires size { size ≡ size_of (is_document (schema_tree schema.now)) records.now.0 }
    requires admitted { AreAdmitted (schema_tree schema.now) records.now.0 }
    requires documents { member.readonly ≡ false
        → are_documents (schema_tree schema.now) (pushed_diff pushed.now) ≡ true }
    ensures diff { IfOk result (λ part. part.diff
        ≡ document_part (decided (schema_tree schema.now)) (member_of member.entry) records.now.0
        (pushed_diff pushed.now)) }
    ensures part { IfOk result (IsPart (schema_tree schema.now) records.now.0) }
{
    if !member.readonly {
        if let Some(diff) = pushed {
            return accept_each(alloc, schema, records, size, member.plan, diff);
        }
    }
    Ok(Part {
        diff: Diff::new(alloc),
        after: Vec::new(alloc),
        size,
    })
}

// What is accepted of a diff, operation by operation.
fn accept_each(
    alloc: Global,
    schema: &Schema,
    records: &MapDoc,
    size: DocumentSize,
    plan: &SessionPlan,
    diff: &Diff,
) -> Mem<Part>
    requires size { size ≡ size_of (is_document (schema_tree schema.now)) records.now.0 }
    requires admitted { AreAdmitted (schema_tree schema.now) records.now.0 }
    requires documents { are_documents (schema_tree schema.now) diff.now ≡ true }
    ensures diff { IfOk result (λ part. part.diff
        ≡ accept_ops (decided (schema_tree schema.now)) (plan_of plan.now) records.now.0 diff.now) }
    ensures part { IfOk result (IsPart (schema_tree schema.now) records.now.0) }
{
    let mut part = Part {
        diff: Diff::new(alloc),
        after: Vec::new(alloc),
        size,
    };
    'ids: for (id, op) in diff.as_slice() {
        part = accept_one(alloc, schema, records, plan, part, id, op)?;
    }
    Ok(part)
}

// What was accepted, and then what is tried for an operation on a later id, if that is accepted.
fn accept_one(
    alloc: Global,
    schema: &Schema,
    records: &MapDoc,
    plan: &SessionPlan,
    part: Part,
    id: &Text,
    op: &RecordOp,
) -> Mem<Part>
    requires part { IsPart (schema_tree schema.now) records.now.0 part }
    requires admitted { AreAdmitted (schema_tree schema.now) records.now.0 }
    requires document { is_document (schema_tree schema.now) id.now ≡ true }
    requires later { AreRising (part.diff ++ (id.now, change_of op.now) ∷ []) }
    ensures diff { IfOk result (λ next. let r = value_at records.now.0 id.now in
        next.diff ≡ with_tried (schema_tree schema.now) part.size part.diff id.now
        (tried_op (decided (schema_tree schema.now)) (plan_of plan.now) (change_of op.now) r) r) }
    ensures part { IfOk result (IsPart (schema_tree schema.now) records.now.0) }
    ensures sound { IfOk result (λ _. AreRising records.now.0) }
{
    let before = records.get(id.as_str());
    let op = op_to_try(alloc, schema, plan, op, before)?;
    match left_by(alloc, schema, part.size, id.as_str(), before, &op)? {
        Some(left) => with_later_op(alloc, part, id, op, left),
        None => Ok(part),
    }
}

// What an operation leaves of the record under an id, or of the lack of one, in a document of this
// size, with how large the document is then. `None` exactly where it isn't accepted.
fn left_by(
    alloc: Global,
    schema: &Schema,
    size: DocumentSize,
    id: &str,
    before: Option<&Val>,
    op: &RecordOp,
) -> Mem<Option<(Option<Val>, DocumentSize)>>
    requires { IsStanding (schema_tree schema.now) id.now (maybe_data (option_copied before)) }
    ensures { IfOk result (λ left. let r = maybe_data (option_copied before.entry) in
        let taken = is_taken_in (schema_tree schema.now) size id.now (change_of op.now) r in
        MatchOption left (taken ≡ false) (λ l. (taken ≡ true)
        × (maybe_data l.0 ≡ raw (change_of op.now) r)
        × (l.1 ≡ size_after size r (raw (change_of op.now) r)))) }
{
    let Some(after) = step_admitted(alloc, schema, id, before, op)? else {
        return Ok(None);
    };
    if !is_put_admitted(schema, id, op) {
        return Ok(None);
    }
    let size = size.after(before, &after);
    if !size.is_within() {
        return Ok(None);
    }
    Ok(Some((after, size)))
}

// What was accepted with one operation more, on a later id, and what it left.
fn with_later_op(
    alloc: Global,
    part: Part,
    id: &Text,
    op: RecordOp,
    left: (Option<Val>, DocumentSize),
) -> Mem<Part>
    requires { AreRising (part.diff ++ (id.now, change_of op) ∷ []) }
    ensures diff { IfOk result (λ next. next.diff ≡ part.diff ++ (id.now, change_of op) ∷ []) }
    ensures after { IfOk result (λ next. next.after.items
        ≡ part.after.items ++ (id.now, left.0) ∷ []) }
    ensures size { IfOk result (λ next. next.size ≡ left.1) }
{
    let Part {
        mut diff,
        mut after,
        size: _,
    } = part;
    let (stored, size) = left;
    diff.put(id.copy(alloc)?, op)?;
    after.push((id.copy(alloc)?, stored))?;
    Ok(Part { diff, after, size })
}
