//! What is saved of a room is loaded again.
ghost use Rattle.std.specs.Prelude.{◌≡◌, ◌<◌, ℕ, pos, None, length};
ghost use Rattle.room_history.specs.Saving.{IsSavedOf};
ghost use Rattle.room_model.specs.Reachable.{Reachable};
ghost use Rattle.room_model.specs.Rooms.{Room};
ghost use Rattle.room_model.specs.Saves.{load_fault};
ghost use Rattle.room_model.specs.Schemas.{AreLawful};
ghost use Rattle.room_model.specs.declared.saved.SavedRoom.{SavedRoom};
ghost use Rattle.room_schemas.specs.Decided.{decided};
ghost use Rattle.schema_core.specs.Admits.{is_document};
ghost use Rattle.schema_core.specs.Tree.{SchemaTree};

/// Of each room that calls make something is saved.
pub fn rooms_are_saved()
    ensures { (tree : SchemaTree) (room : Room)
        → AreLawful (decided tree) → Reachable (decided tree) room
        → (saved : SavedRoom) × IsSavedOf (is_document tree) room.first room.history saved }
{}

/// What is saved of a room that calls make is loaded without a fault at the room's schema, with any
/// last clock above the room's. That premise doesn't follow from the room: its own last clock bounds
/// its pushes alone, and its clock passes that by the removals of presence.
pub fn what_is_saved_loads()
    ensures { (tree : SchemaTree) (room : Room) (saved : SavedRoom) (last : ℕ)
        → AreLawful (decided tree) → Reachable (decided tree) room
        → IsSavedOf (is_document tree) room.first room.history saved
        → (below : length room.history < last)
        → load_fault (decided tree) (pos last) saved ≡ None }
{}
