//! Laws of what a room accepts of a push.
ghost use Rattle.std.specs.Prelude.{◌≡◌, ◌⊎◌, ◌↔◌, [], ℕ, List, false};
ghost use Rattle.rooms_val.specs.Data.{Pairs};
ghost use Rattle.field_ops.specs.RecordOps.{RecordOps};
ghost use Rattle.doc_model.specs.Documents.{fold_raw, step};
ghost use Rattle.room_model.specs.Schemas.{Schemas, Plan, Member};
ghost use Rattle.room_model.specs.Accepting.{accept_ops, document_part, action_of};
ghost use Rattle.sync_msgs.specs.declared.data_event.Action.TheVariants.{Commit};

/// Folding what is accepted of a diff is the step by what is accepted: each operation acts.
pub fn accepts_by_step()
    ensures { (schemas : Schemas) (plan : Plan) (m : Pairs) (diff : RecordOps)
        → fold_raw m (accept_ops schemas plan m diff)
        ≡ step schemas.admits m (accept_ops schemas plan m diff) }
{}

/// The action of a push is a commit exactly if its diff has no operation, or the session isn't read-only, has the room's
/// schema, and every operation of the diff was accepted.
pub fn commits_exactly()
    ensures { (schemas : Schemas) (member : Member) (m : Pairs) (diff : RecordOps)
        → (action_of member.plan diff (document_part schemas member m diff) ≡ Commit)
        ↔ ((diff ≡ []) ⊎ ((member.readonly ≡ false) × (member.plan ≡ [])
        × (accept_ops schemas member.plan m diff ≡ diff))) }
{}
