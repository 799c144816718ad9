//! Laws of the messages in flight: they are what the notices tell, clients expect them, and to take
//! them is the delivery.
ghost use Rattle.std.specs.Prelude.{◌≡◌, [], ◌∷◌, ℕ, List, Bool, Some, Ok, slice_get};
ghost use Rattle.room_model.specs.Schemas.{WorldSchemas, AreLawfulTogether, doc, pres};
ghost use Rattle.room_model.specs.Replicas.{Client, session_of, base_of, others, after_notice};
ghost use Rattle.room_model.specs.Rooms.{Room, Notice};
ghost use Rattle.room_model.specs.Worlds.{World, Channel, world_over, Stepped, after_event};
ghost use Rattle.room_model.specs.declared.event.Event.{Event};
ghost use Rattle.world_laws.specs.Reachable.{ReachableWorld};
ghost use Rattle.world_laws.specs.Told.{told, replica_of, IsExpected, IsTaken};
ghost use Rattle.world_laws.specs.Queues.{Queues, queues_after, AreQueues};

/// Queues that hold, for each client's current session, the messages that the notices in flight
/// there tell, still do so after each event: what the room gives out joins the queue of its session,
/// what a client is given leaves it, and a session that enters has an empty one. So queues that
/// begin empty hold those messages in every world that can be reached.
pub fn queues_hold_what_is_told<F: Drop>()
    ensures begins { (schemas : WorldSchemas F) (room : Room)
        → AreQueues schemas (world_over room) [] }
    ensures goes_on { (schemas : WorldSchemas F) (trace : Bool) (world : World) (queues : Queues)
        (event : Event) (made : Stepped)
        → ReachableWorld schemas world → AreQueues schemas world queues
        → after_event schemas trace world event ≡ Ok made
        → AreQueues schemas made.world (queues_after schemas world queues event) }
{}

/// What comes next to a client is what it expects. While the client asks, this is the answer to its
/// request. While the client is connected, it is a pong, or events whose clocks never fall, and whose
/// results are those of the first items that are pending, in order. In either case it may be the end
/// of the session. And to take it is the delivery: it brings the client's base and clock, and by
/// events also what is pending, to those of the client after the notice.
pub fn what_comes_next_is_taken<F: Drop>()
    ensures { (schemas : WorldSchemas F) (world : World) (number k : ℕ) (client : Client)
        (channel : Channel) (notice : Notice) (notices : List Notice)
        → AreLawfulTogether schemas → ReachableWorld schemas world
        → slice_get world.clients number ≡ Some client
        → session_of client.connection ≡ Some k → slice_get world.channels k ≡ Some channel
        → channel.to_client ≡ notice ∷ notices
        → let out = told schemas world.room client k notice in
        IsExpected client k out
        × IsTaken schemas world.room.history client out
        (after_notice world.room.history k client notice).client }
{}

/// In the base of a client the document is what the client has of the room's (`document`), and the
/// presence is that of others, none while the client isn't connected (`presence`).
pub fn bases_are_of_the_room<F: Drop>()
    ensures document { (schemas : WorldSchemas F) (world : World) (number : ℕ) (client : Client)
        → AreLawfulTogether schemas → ReachableWorld schemas world
        → slice_get world.clients number ≡ Some client
        → doc schemas.room (replica_of schemas world.room.history client).base
        ≡ base_of schemas world.room.history client }
    ensures presence { (schemas : WorldSchemas F) (world : World) (number : ℕ) (client : Client)
        → AreLawfulTogether schemas → ReachableWorld schemas world
        → slice_get world.clients number ≡ Some client
        → pres schemas.room (replica_of schemas world.room.history client).base
        ≡ others schemas world.room.history client }
{}
