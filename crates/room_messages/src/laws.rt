//! Laws of the entries of rooms.
ghost use Rattle.std.specs.Prelude.{◌≡◌, ℕ, ◌∷◌, true};
ghost use Rattle.rooms_val.specs.Data.{Pairs};
ghost use Rattle.rooms_val.specs.Maps.{AreRising};
ghost use Rattle.schema_core.specs.Tree.{SchemaTree};
ghost use Rattle.room_model.specs.Schemas.{Member};
ghost use Rattle.room_model.specs.Histories.{History};
ghost use Rattle.room_model.specs.Accepting.{Push, is_taken, entry_of};
ghost use Rattle.room_schemas.specs.Decided.{decided};
ghost use Rattle.room_accept.specs.Suiting.{HasPresences};
ghost use Rattle.room_messages.specs.Told.{HasOwnActions};

/// The action of a push that is taken is that of the document's part of its entry's diff, so it is so
/// of each entry after the push if it was before.
pub fn pushes_have_own_actions()
    ensures { (tree : SchemaTree) (member : Member) (m : Pairs)
        (push : Push) (history : History) → HasPresences tree → AreRising push.diff
        → is_taken (decided tree) member push ≡ true → HasOwnActions (decided tree) history
        → HasOwnActions (decided tree) (entry_of (decided tree) member m push ∷ history) }
{}
