//! A room that begins from what was saved stands for the room that was saved.
ghost use Rattle.std.specs.Prelude.{◌≡◌, ℕ, ℤ, List, length, nat_abs, true};
ghost use Rattle.rooms_val.specs.Maps.{value_at};
ghost use Rattle.room_history.specs.Saving.{IsSavedOf};
ghost use Rattle.room_model.specs.Histories.{records_of, start_of, dead};
ghost use Rattle.room_model.specs.Messages.{snapshot};
ghost use Rattle.room_model.specs.Reachable.{Reachable};
ghost use Rattle.room_model.specs.Rooms.{Room};
ghost use Rattle.room_model.specs.Saves.{begun};
ghost use Rattle.room_model.specs.Schemas.{AreLawful, Member, doc};
ghost use Rattle.room_model.specs.declared.saved.SavedRoom.{SavedRoom};
ghost use Rattle.room_schemas.specs.Decided.{decided};
ghost use Rattle.saved_laws.specs.Answers.{answer_without_presence, dead_of};
ghost use Rattle.schema_core.specs.Admits.{is_document};
ghost use Rattle.schema_core.specs.Tree.{SchemaTree};

/// The room that begins from what is saved of another has the other's clock, start and document, and
/// remembers the same removals of the document's ids, with the same clocks.
pub fn what_is_saved_stays()
    ensures clock { (tree : SchemaTree) (room : Room) (saved : SavedRoom)
        → AreLawful (decided tree) → Reachable (decided tree) room
        → IsSavedOf (is_document tree) room.first room.history saved
        → length (begun saved) ≡ length room.history }
    ensures start { (tree : SchemaTree) (room : Room) (saved : SavedRoom)
        → AreLawful (decided tree) → Reachable (decided tree) room
        → IsSavedOf (is_document tree) room.first room.history saved
        → start_of (nat_abs saved.start) (begun saved) ≡ start_of room.first room.history }
    ensures document { (tree : SchemaTree) (room : Room) (saved : SavedRoom)
        → AreLawful (decided tree) → Reachable (decided tree) room
        → IsSavedOf (is_document tree) room.first room.history saved
        → records_of (begun saved) ≡ doc (decided tree) (records_of room.history) }
    ensures dead { (tree : SchemaTree) (room : Room) (saved : SavedRoom)
        → AreLawful (decided tree) → Reachable (decided tree) room
        → IsSavedOf (is_document tree) room.first room.history saved
        → (id : List ℕ) → value_at (dead (nat_abs saved.start) (begun saved)) id
        ≡ value_at (dead_of (decided tree) room.first room.history) id }
{}

/// Who connects to the room that begins from what is saved of another is answered as by the other,
/// but that nobody's presence is in the answer: whichever clock the client has reached, and whatever
/// plan leads from its schema to the room's.
pub fn answers_stay()
    ensures { (tree : SchemaTree) (room : Room) (saved : SavedRoom)
        (member : Member) (request : List ℕ) (reached : ℤ)
        → AreLawful (decided tree) → Reachable (decided tree) room
        → IsSavedOf (is_document tree) room.first room.history saved
        → snapshot (decided tree) member request reached (nat_abs saved.start) (begun saved)
        ≡ answer_without_presence (decided tree)
        (snapshot (decided tree) member request reached room.first room.history) }
{}
