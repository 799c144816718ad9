//! What a session is told of an entry.
ghost use Rattle.std.specs.Prelude.{◌≡◌, not, ◌&&◌, IfOk};
ghost use Rattle.std.specs.Option.{option_copied};
ghost use Rattle.std.specs.Str.{bytes_eq};
ghost use Rattle.rooms_val.specs.Maps.{seen};
ghost use Rattle.field_ops.specs.View.{maybe_data};
ghost use Rattle.field_ops.specs.ViewRecordOps.{change_of};
ghost use Rattle.schema_core.specs.SchemaOf.{schema_tree};
ghost use Rattle.room_model.specs.Schemas.{presence_id};
ghost use Rattle.room_schemas.specs.Decided.{decided};
ghost use Rattle.room_accept.specs.Plans.{plan_of};
ghost use Rattle.room_accept.specs.Pushes.{member_of};
ghost use Rattle.room_history.specs.Entries.{recent_tree};
ghost use Rattle.room_messages.specs.Told.{is_in, told_of, told_part, told_result, told_entry};

use crate::states::state_op;
use field_ops::{Diff, RecordOp};
use room_accept::{Member, SessionPlan};
use room_history::RecentEntry;
use rooms_val::{Mem, Text, Val};
use schema_core::Schema;
use std::alloc::Global;
use sync_msgs::{Action, DataEvent};

/// A part of an entry's diff.
#[derive(Clone, Copy)]
pub(crate) enum Part {
    /// All of it.
    Whole,
    /// What it does to the document.
    Document,
}

/// What a session is told of one of the last entries: the result of its own push, or what changed.
pub(crate) fn told_entry(
    alloc: Global,
    schema: &Schema,
    member: Member<'_>,
    own: &Text,
    recent: &RecentEntry,
) -> Mem<DataEvent>
    requires { own.now ≡ presence_id member.session }
    ensures { IfOk result (λ event. event
        ≡ told_entry (decided (schema_tree schema.now)) (member_of member.entry)
        (recent_tree recent.now)) }
{
    if let Some(author) = &recent.entry.author {
        if author.session == member.session {
            return Ok(DataEvent::PushResult {
                client_clock: author.client_clock,
                server_clock: recent.clock,
                action: told_result(alloc, schema, member, own, recent, &author.action)?,
            });
        }
    }
    Ok(DataEvent::Patch {
        diff: told_part(alloc, schema, member, own, Part::Whole, recent)?,
        server_clock: recent.clock,
    })
}

// The action of a session's own push, as it is told it.
fn told_result(
    alloc: Global,
    schema: &Schema,
    member: Member<'_>,
    own: &Text,
    recent: &RecentEntry,
    action: &Action,
) -> Mem<Action>
    requires { own.now ≡ presence_id member.session }
    ensures { IfOk result (λ told. told
        ≡ told_result (decided (schema_tree schema.now)) (member_of member.entry)
        recent.now.entry.diff (seen maybe_data recent.now.after.items) action.now) }
{
    match action {
        Action::Commit => Ok(Action::Commit),
        Action::Discard => Ok(Action::Discard),
        Action::Rebase(_) => {
            let diff = told_part(alloc, schema, member, own, Part::Document, recent)?;
            Ok(Action::Rebase(diff))
        }
    }
}

// A part of the diff of an entry as a session is told it.
fn told_part(
    alloc: Global,
    schema: &Schema,
    member: Member<'_>,
    own: &Text,
    part: Part,
    recent: &RecentEntry,
) -> Mem<Diff>
    requires { own.now ≡ presence_id member.session }
    ensures { IfOk result (λ told. told
        ≡ told_part (decided (schema_tree schema.now)) (member_of member.entry) part
        recent.now.entry.diff (seen maybe_data recent.now.after.items)) }
{
    let mut told = Diff::new(alloc);
    let ops = recent.entry.diff.as_slice();
    'ops: for (place, (id, op)) in ops.iter().enumerate() {
        let Some((_, after)) = recent.after.get(place) else {
            return Ok(told);
        };
        if is_told(schema, own, part, id) {
            let op = told_op(alloc, schema, member.plan, after, op)?;
            drop(told.put(id.copy(alloc)?, op)?);
        }
    }
    Ok(told)
}

// Whether a session is told of an id in a part of a diff: not of its own presence.
fn is_told(schema: &Schema, own: &Text, part: Part, id: &Text) -> bool
    ensures { result ≡ not (bytes_eq id.now own.now)
        && is_in (decided (schema_tree schema.now)) part id.now }
{
    id.as_str() != own.as_str() && is_in(schema, part, id)
}

// Whether an id is in a part of a diff.
fn is_in(schema: &Schema, part: Part, id: &Text) -> bool
    ensures { result ≡ is_in (decided (schema_tree schema.now)) part id.now }
{
    match part {
        Part::Whole => true,
        Part::Document => schema.is_document(id.as_str()),
    }
}

// An operation as a session is told it: at the room's schema as it is, else what stood under its id
// afterwards.
fn told_op(
    alloc: Global,
    schema: &Schema,
    plan: &SessionPlan,
    after: &Option<Val>,
    op: &RecordOp,
) -> Mem<RecordOp>
    ensures { IfOk result (λ told. change_of told
        ≡ told_of (decided (schema_tree schema.now)) (plan_of plan.now) (maybe_data after.now)
        (change_of op.now)) }
{
    if plan.is_empty() {
        op.copy(alloc)
    } else {
        state_op(alloc, schema, plan, after.as_ref())
    }
}
