//! The presence of sessions in pushes.
ghost use Rattle.std.specs.Prelude.{◌≡◌, ◌≤◌, ◌+◌, true, length, None, IfOk, MatchOption, option_map, option_and_then};
ghost use Rattle.std.specs.Option.{option_map_or};
ghost use Rattle.rooms_val.specs.Maps.{AreRising, added, with_key};
ghost use Rattle.rooms_val.specs.View.{data_of};
ghost use Rattle.field_ops.specs.ViewRecordOps.{change_of, maybe_change};
ghost use Rattle.schema_core.specs.SchemaOf.{schema_tree};
ghost use Rattle.doc_model.specs.Documents.{fold_raw};
ghost use Rattle.room_model.specs.Accepting.{is_put_admitted, with_id, own_presence};
ghost use Rattle.room_model.specs.Schemas.{presence_id, records_with};
ghost use Rattle.room_schemas.specs.Decided.{decided, is_presence};
ghost use Rattle.room_accept.specs.Parts.{IsPart, IsOwnLeft, are_documents, own_part};
ghost use Rattle.room_accept.specs.Pushes.{member_of};
ghost use Rattle.room_accept.specs.Suiting.{AreAdmitted, HasPresences};

use crate::admitted::step_admitted;
use crate::part::Part;
use crate::push::Member;
use doc_store::{DocStore, MapDoc};
use field_ops::RecordOp;
use rooms_val::{Mem, Text, Val, entries};
use schema_core::Schema;
use std::alloc::Global;

/// The id under which a room keeps the presence of a session.
pub fn presence_id(alloc: Global, session: u64) -> Mem<Text>
    ensures { IfOk result (λ id. id ≡ presence_id session) }
{
    let id = format!(in alloc; "instance_presence:{session}")?;
    Text::of(alloc, id.as_str())
}

// What happens to the session's presence, if anything does: what is put is taken up, and has the id
// of the presence.
pub(crate) fn own_presence(
    alloc: Global,
    schema: &Schema,
    member: Member<'_>,
    id: &Text,
    pushed: &Option<RecordOp>,
) -> Mem<Option<RecordOp>>
    requires { id.now ≡ presence_id member.session }
    ensures { IfOk result (λ own. maybe_change own
        ≡ option_map (own_presence (decided (schema_tree schema.now)) (member_of member.entry))
        (maybe_change pushed.now)) }
{
    match pushed {
        Some(op) => Ok(Some(own_op(alloc, schema, member, id, op)?)),
        None => Ok(None),
    }
}

// The same of an operation.
fn own_op(
    alloc: Global,
    schema: &Schema,
    member: Member<'_>,
    id: &Text,
    op: &RecordOp,
) -> Mem<RecordOp>
    requires { id.now ≡ presence_id member.session }
    ensures { IfOk result (λ own. change_of own
        ≡ own_presence (decided (schema_tree schema.now)) (member_of member.entry)
        (change_of op.now)) }
{
    match op {
        RecordOp::Put(val) => {
            let raised = member.plan.raise(alloc, schema, val)?;
            Ok(RecordOp::Put(with_id(alloc, id, raised)?))
        }
        RecordOp::Patch(_) => op.copy(alloc),
        RecordOp::Remove => Ok(RecordOp::Remove),
    }
}

// A record with this id, where it is a map.
fn with_id(alloc: Global, id: &Text, stored: Val) -> Mem<Val>
    ensures { IfOk result (λ v. data_of v ≡ with_id id.now (data_of stored)) }
{
    match stored {
        Val::Map(mut fields) => {
            fields.put(Text::of(alloc, "id")?, Val::Text(id.copy(alloc)?))?;
            Ok(Val::Map(fields))
        }
        other => Ok(other),
    }
}

// What was accepted of a document, and what is accepted of what happens to the session's presence.
pub(crate) fn with_presence(
    alloc: Global,
    schema: &Schema,
    records: &MapDoc,
    part: Part,
    id: Text,
    own: Option<RecordOp>,
) -> Mem<Part>
    requires part { IsPart (schema_tree schema.now) records.now.0 part }
    requires documents { are_documents (schema_tree schema.now) part.diff ≡ true }
    requires presence { is_presence (schema_tree schema.now) id ≡ true }
    requires admitted { AreAdmitted (schema_tree schema.now) records.now.0 }
    requires own { option_map_or (λ c. is_put_admitted (decided (schema_tree schema.now)) id c)
        (maybe_change own) true ≡ true }
    ensures diff { IfOk result (λ all. all.diff ≡ added part.diff id
        (option_and_then (own_part (schema_tree schema.now) records.now.0 id) (maybe_change own))) }
    ensures part { IfOk result (IsPart (schema_tree schema.now) records.now.0) }
    ensures presences { IfOk result (λ all. length (records_with
        (is_presence (schema_tree schema.now)) (fold_raw records.now.0 all.diff))
        ≤ length (records_with (is_presence (schema_tree schema.now)) records.now.0) + 1) }
{
    let Some(op) = own else {
        return Ok(part);
    };
    match own_left(alloc, schema, records, id.as_str(), &op)? {
        Some(left) => with_own_op(alloc, part, id, op, left),
        None => Ok(part),
    }
}

// What an operation on a session's presence leaves of it. `None` exactly where it isn't accepted.
fn own_left(
    alloc: Global,
    schema: &Schema,
    records: &MapDoc,
    id: &str,
    op: &RecordOp,
) -> Mem<Option<Option<Val>>>
    requires { AreAdmitted (schema_tree schema.now) records.now.0 }
    ensures { IfOk result (λ left. MatchOption left
        (own_part (schema_tree schema.now) records.now.0 id.now (change_of op.now) ≡ None)
        (IsOwnLeft (schema_tree schema.now) records.now.0 id.now (change_of op.now))) }
{
    if let RecordOp::Remove = op {
        return Ok(None);
    }
    step_admitted(alloc, schema, id, records.get(id), op)
}

// What was accepted with one operation more, which changes nothing of the document, and what it
// left.
fn with_own_op(alloc: Global, part: Part, id: Text, op: RecordOp, left: Option<Val>) -> Mem<Part>
    requires { AreRising part.after.items }
    ensures diff { IfOk result (λ all. all.diff ≡ with_key part.diff id (change_of op)) }
    ensures after { IfOk result (λ all. all.after.items ≡ with_key part.after.items id left) }
    ensures size { IfOk result (λ all. all.size ≡ part.size) }
{
    let Part {
        mut diff,
        mut after,
        size,
    } = part;
    diff.put(id.copy(alloc)?, op)?;
    entries::put(&mut after, id, left)?;
    Ok(Part { diff, after, size })
}
