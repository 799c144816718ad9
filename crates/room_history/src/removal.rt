//! The removal of a session's presence, made beforehand.
ghost use Rattle.std.specs.Prelude.{◌≡◌, [], ◌∷◌, IfOk, None};
ghost use Rattle.rooms_val.specs.Maps.{seen};
ghost use Rattle.field_ops.specs.RecordOps.{remove};
ghost use Rattle.field_ops.specs.View.{maybe_data};
ghost use Rattle.field_ops.specs.WireRecordOps.{coded_changes};
ghost use Rattle.doc_store.specs.Slots.{coded_slots};
ghost use Rattle.room_model.specs.Schemas.{presence_id};
ghost use base.Stored.{Coded-set};

use field_ops::{Diff, RecordOp};
use room_accept::presence_id;
use rooms_val::{Mem, Text, Val};
use std::alloc::Global;

/// All that it takes to remove the presence of a session from a room, so that it takes no memory
/// then.
#[derive(Drop)]
pub struct Removal {
    // The number of the session.
    pub(crate) session: u64,
    // The id of its presence.
    pub(crate) id: Text,
    // The diff that removes the presence, and what it leaves.
    pub(crate) diff: Diff,
    pub(crate) after: Vec<(Text, Option<Val>)>,
    ghost id_is: { id ≡ presence_id session },
    ghost diff_is: { diff ≡ (id, remove) ∷ [] } by { Coded-set coded_changes diff
        ((id, remove) ∷ []) },
    ghost after_is: { seen maybe_data after.items ≡ (id, None) ∷ [] } by { Coded-set coded_slots
        (seen maybe_data after.items) ((id, None) ∷ []) },
}

impl Removal {
    /// The removal of the presence of a session, by its number.
    pub fn new(alloc: Global, session: u64) -> Mem<Removal>
        ensures { IfOk result (λ removal. removal.session ≡ session) }
    {
        let id = presence_id(alloc, session)?;
        let mut diff = Diff::new(alloc);
        diff.put(id.copy(alloc)?, RecordOp::Remove)?;
        let mut after = Vec::new(alloc);
        after.push((id.copy(alloc)?, None))?;
        Ok(Removal {
            session,
            id,
            diff,
            after,
        })
    }
}
