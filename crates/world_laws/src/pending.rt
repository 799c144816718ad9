//! Laws of what clients owe.
ghost use Rattle.std.specs.Prelude.{◌≡◌, ℕ, [], pos, length, slice_get, Some, Ok};
ghost use Rattle.room_model.specs.Schemas.{WorldSchemas, AreLawfulTogether, Plan, doc, seen_along};
ghost use Rattle.room_model.specs.Histories.{records_of};
ghost use Rattle.room_model.specs.Replicas.{Client, pending_diffs, plan_of, shown_document};
ghost use Rattle.room_model.specs.Worlds.{World};
ghost use Rattle.world_laws.specs.Reachable.{ReachableWorld};
ghost use Rattle.world_laws.specs.Pending.{AreWaiting, AreOwed, AreFewPushes};

/// A client that isn't connected owes edits alone, none of which was pushed; and the session on
/// which it waits has authored nothing.
pub fn who_waits_has_pushed_nothing<F: Drop>()
    ensures { (schemas : WorldSchemas F) (world : World)
        → AreLawfulTogether schemas → ReachableWorld schemas world → AreWaiting world }
{}

/// The first pending items of a client that is connected are those that entries above its clock
/// answer, in order, each under its number; the document part of an entry whose action is a commit is
/// the item's diff. If the session is live, what is in flight from it are the
/// pushes of the items after these, in order, each under its number; and there are further items
/// only if the client can push no more.
pub fn connected_clients_owe_what_is_in_flight<F: Drop>()
    ensures { (schemas : WorldSchemas F) (world : World)
        → AreLawfulTogether schemas → ReachableWorld schemas world → AreOwed schemas.room world }
{}

/// No client makes more than 2^53 - 1 pushes.
pub fn clients_push_at_most_so_often<F: Drop>()
    ensures { (schemas : WorldSchemas F) (world : World)
        → ReachableWorld schemas world → AreFewPushes world }
{}

/// A client that owes no edit, and has reached the room's clock, shows the room's document, seen at
/// the client's version.
pub fn who_owes_nothing_shows_the_room<F: Drop>()
    ensures { (schemas : WorldSchemas F) (world : World) (number : ℕ) (client : Client)
        → ReachableWorld schemas world → slice_get world.clients number ≡ Some client
        → client.reached ≡ pos (length world.room.history) → pending_diffs client ≡ []
        → (plan : Plan) × (plan_of schemas client ≡ Ok plan)
        × (shown_document schemas world.room.history client
        ≡ seen_along schemas.room plan (doc schemas.room (records_of world.room.history))) }
{}
