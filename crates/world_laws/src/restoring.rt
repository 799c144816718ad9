//! Laws of what marks bring back.
ghost use Rattle.std.specs.Prelude.{◌≡◌, ◌∷◌, ◌++◌, ℕ, List, Bool, Some, Ok, slice_get, map};
ghost use Rattle.rooms_val.specs.Data.{Pairs};
ghost use Rattle.field_ops.specs.RecordOps.{RecordOps};
ghost use Rattle.doc_model.specs.Marks.{Item, mark, inverse, undo_diff, bail_diff};
ghost use Rattle.doc_model.specs.Restoring.{AreBackAdmitted};
ghost use Rattle.room_model.specs.Schemas.{WorldSchemas, AreLawfulTogether};
ghost use Rattle.room_model.specs.Replicas.{Client, schema_of};
ghost use Rattle.room_model.specs.Worlds.{World, Stepped, shown_in, after_event};
ghost use Rattle.room_model.specs.declared.event.Event.{Event};
ghost use Rattle.room_model.specs.declared.event.Event.TheVariants as event;
ghost use Rattle.world_laws.specs.Reachable.{ReachableWorld};
ghost use Rattle.world_laws.specs.Restoring.{Spares, ShowsSound, BringsBack, IsSinceMark};

/// A mark that a client makes brings its document back to what it shows then (`made`), and still
/// does after each event that takes nothing back at the client, gives it nothing but the end of its
/// session, and makes no such mark there, be it an edit of its own (`goes_on`).
pub fn marks_bring_back<F: Drop>()
    ensures made { (schemas : WorldSchemas F) (trace : Bool) (world : World) (number : ℕ)
        (name : List ℕ) (client : Client) (made : Stepped)
        → slice_get world.clients number ≡ Some client
        → after_event schemas trace world (event.Mark number name) ≡ Ok made
        → BringsBack schemas made.world number name (shown_in schemas world client) }
    ensures goes_on { (schemas : WorldSchemas F) (trace : Bool) (world : World) (happening : Event)
        (number : ℕ) (name : List ℕ) (before : Pairs) (made : Stepped)
        → AreLawfulTogether schemas → ReachableWorld schemas world
        → Spares world number name happening
        → ShowsSound schemas world number → ShowsSound schemas made.world number
        → after_event schemas trace world happening ≡ Ok made
        → BringsBack schemas world number name before
        → BringsBack schemas made.world number name before }
{}

/// If a client's mark brings its document back to what it showed, a bail to the mark does so
/// (`bails`), and an undo, if there is no mark after it but some inverse (`undoes`): provided that the
/// records that are patched back are admitted under their ids at the client's version.
pub fn going_back_shows_it_again<F: Drop>()
    ensures bails { (schemas : WorldSchemas F) (trace : Bool) (world : World) (number : ℕ)
        (name : List ℕ) (client after : Client) (before : Pairs) (diff : RecordOps)
        (made : Stepped)
        → BringsBack schemas world number name before
        → slice_get world.clients number ≡ Some client → bail_diff name client.marks ≡ Some diff
        → AreBackAdmitted (schema_of schemas client).admits diff before
        → after_event schemas trace world (event.Bail number name) ≡ Ok made
        → slice_get made.world.clients number ≡ Some after
        → shown_in schemas made.world after ≡ before }
    ensures undoes { (schemas : WorldSchemas F) (trace : Bool) (world : World) (number : ℕ)
        (name : List ℕ) (client after : Client) (before : Pairs) (diff : RecordOps)
        (earlier : List Item) (first : RecordOps) (more : List RecordOps) (made : Stepped)
        → BringsBack schemas world number name before
        → slice_get world.clients number ≡ Some client
        → client.marks.history ≡ earlier ++ mark name ∷ map inverse (first ∷ more)
        → undo_diff client.marks ≡ Some diff
        → AreBackAdmitted (schema_of schemas client).admits diff before
        → after_event schemas trace world (event.Undo number) ≡ Ok made
        → slice_get made.world.clients number ≡ Some after
        → shown_in schemas made.world after ≡ before }
{}

/// Since a client made a mark, with nothing between but what spares it, the mark brings its document
/// back to what the client showed when it made the mark.
pub fn marks_bring_back_ever_since<F: Drop>()
    ensures { (schemas : WorldSchemas F) (world : World) (number : ℕ) (name : List ℕ)
        (before : Pairs)
        → AreLawfulTogether schemas → IsSinceMark schemas number name before world
        → BringsBack schemas world number name before }
{}
