//! Laws of the worlds that can be reached.
ghost use Rattle.std.specs.Prelude.{◌≡◌, ℕ, Bool, Some, Ok, slice_get};
ghost use Rattle.room_model.specs.Schemas.{WorldSchemas, AreLawfulTogether};
ghost use Rattle.room_model.specs.Reachable.{Reachable};
ghost use Rattle.room_model.specs.Replicas.{Client};
ghost use Rattle.room_model.specs.Worlds.{World, Stepped, after_event};
ghost use Rattle.room_model.specs.declared.event.Event.{Event};
ghost use Rattle.world_laws.specs.Reachable.{ReachableWorld};
ghost use Rattle.world_laws.specs.Sessions.{AreSessions};
ghost use Rattle.world_laws.specs.Clocks.{AreClocks};
ghost use Rattle.world_laws.specs.Told.{HasSame};

/// Calls make the room of a world that can be reached, so that the laws of such rooms hold of it.
pub fn calls_make_the_room<F: Drop>()
    ensures { (schemas : WorldSchemas F) (world : World)
        → AreLawfulTogether schemas → ReachableWorld schemas world
        → Reachable schemas.room world.room }
{}

/// There is a channel for each session; the current session of each client has entered, and is
/// that of no other client.
pub fn sessions_stand<F: Drop>()
    ensures { (schemas : WorldSchemas F) (world : World)
        → ReachableWorld schemas world → AreSessions world }
{}

/// Each client's clock is -1 or at most the room's, and so is all that is in flight to clients; data
/// ends above where it begins.
pub fn clocks_stand<F: Drop>()
    ensures { (schemas : WorldSchemas F) (world : World)
        → ReachableWorld schemas world → AreClocks world }
{}

/// What a client has of the room stays through each event, and so does what it would show if the
/// client stayed as it is.
pub fn what_was_reached_stays<F: Drop>()
    ensures { (schemas : WorldSchemas F) (trace : Bool) (world : World) (event : Event)
        (made : Stepped) (number : ℕ) (client : Client)
        → ReachableWorld schemas world → after_event schemas trace world event ≡ Ok made
        → slice_get world.clients number ≡ Some client
        → HasSame schemas world made.world client }
{}
