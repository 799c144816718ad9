//! What a room accepts of a push.
ghost use Rattle.std.specs.Prelude.{◌≡◌, ℕ, IfOk, IfSome, is_some};
ghost use Rattle.schema_core.specs.Admits.{is_document};
ghost use Rattle.schema_core.specs.SchemaOf.{schema_tree};
ghost use Rattle.room_model.specs.Accepting.{is_taken, entry_of};
ghost use Rattle.room_schemas.specs.Decided.{decided};
ghost use Rattle.room_accept.specs.Pushes.{member_of, push_of};
ghost use Rattle.room_accept.specs.Sizes.{size_of};
ghost use Rattle.room_accept.specs.Suiting.{AreAdmitted, HasPresences, Suits};

use crate::accepted::Accepted;
use crate::action::action_of;
use crate::fit::is_taken;
use crate::part::{Part, document_part};
use crate::presence::{own_presence, presence_id, with_presence};
use crate::push::{Member, Push};
use crate::size::DocumentSize;
use doc_store::MapDoc;
use room_model::{Author, Entry};
use rooms_val::Mem;
use schema_core::Schema;
use std::alloc::Global;

/// What is accepted of a push of a session, in a room that has these records. `None` exactly where
/// the push is refused. Nothing changes. It costs what the diff names, and a logarithm of the
/// records for each id; no map is copied. A patched record is checked at the keys that its patch
/// names, since each record is one that the schema admits.
pub fn accept(
    alloc: Global,
    schema: &Schema,
    records: &MapDoc,
    size: DocumentSize,
    member: Member<'_>,
    push: Push<'_>,
) -> Mem<Option<Accepted>>
    requires size { size ≡ size_of (is_document (schema_tree schema.now)) records.now.0 }
    requires presence { HasPresences (schema_tree schema.now) }
    requires admitted { AreAdmitted (schema_tree schema.now) records.now.0 }
    ensures taken { IfOk result (λ accepted. is_some accepted
        ≡ is_taken (decided (schema_tree schema.now)) (member_of member.entry)
        (push_of push.entry)) }
    ensures entry { IfOk result (λ accepted. IfSome accepted (λ a. a.entry
        ≡ entry_of (decided (schema_tree schema.now)) (member_of member.entry) records.now.0
        (push_of push.entry))) }
    ensures suits { IfOk result
        (λ accepted. IfSome accepted (Suits (schema_tree schema.now) records.now.0)) }
{
    let id = presence_id(alloc, member.session)?;
    let own = own_presence(alloc, schema, member, &id, push.presence)?;
    if !is_taken(alloc, schema, member, push.diff, &id, &own)? {
        return Ok(None);
    }
    let part = document_part(alloc, schema, records, size, member, push.diff)?;
    let action = action_of(alloc, member.plan, push.diff, &part.diff)?;
    let Part { diff, after, size } = with_presence(alloc, schema, records, part, id, own)?;
    let author = Author {
        session: member.session,
        client_clock: push.client_clock,
        action,
    };
    let entry = Entry {
        diff,
        author: Some(author),
    };
    Ok(Some(Accepted { entry, after, size }))
}
