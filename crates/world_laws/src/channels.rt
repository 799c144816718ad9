//! Laws of what is in flight to clients.
ghost use Rattle.std.specs.Prelude.{◌≡◌, ◌∷◌, ℕ, List, Some, slice_get};
ghost use Rattle.room_model.specs.Schemas.{WorldSchemas};
ghost use Rattle.room_model.specs.Replicas.{Client, session_of};
ghost use Rattle.room_model.specs.Rooms.{Notice};
ghost use Rattle.room_model.specs.Worlds.{World, Channel};
ghost use Rattle.world_laws.specs.Reachable.{ReachableWorld};
ghost use Rattle.world_laws.specs.Channels.{AreSent, AreWithoutPings, IsDue};

/// What is in flight to a client on its current session leads it from where it is to where the
/// session is: an answer comes first to one that asks, there is no second, what changed begins where
/// what came before it ended, and the last ends at the sent clock of a live session; an end stands
/// last, and only if the session was told so or has left.
pub fn notices_lead_to_the_sent_clock<F: Drop>()
    ensures { (schemas : WorldSchemas F) (world : World)
        → ReachableWorld schemas world → AreSent world }
{}

/// What comes next to a client can be given to it: an answer only while it asks, and what changed
/// only while it is connected, from the clock on that it has reached.
pub fn what_comes_next_is_due<F: Drop>()
    ensures { (schemas : WorldSchemas F) (world : World) (number k : ℕ) (client : Client)
        (channel : Channel) (notice : Notice) (notices : List Notice)
        → ReachableWorld schemas world → slice_get world.clients number ≡ Some client
        → session_of client.connection ≡ Some k → slice_get world.channels k ≡ Some channel
        → channel.to_client ≡ notice ∷ notices → IsDue client k notice }
{}

/// No ping is in flight, and none waits to be answered.
pub fn none_pings<F: Drop>()
    ensures { (schemas : WorldSchemas F) (world : World)
        → ReachableWorld schemas world → AreWithoutPings world }
{}
