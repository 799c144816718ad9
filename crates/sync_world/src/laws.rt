//! Laws of worlds: what decides them, and what their clients take.
ghost use Rattle.std.specs.Prelude.{◌≡◌, ◌∷◌, ℕ, List, Some, None, slice_get};
ghost use Rattle.room_model.specs.Schemas.{WorldSchemas, AreLawfulTogether};
ghost use Rattle.room_model.specs.Replicas.{Client, session_of};
ghost use Rattle.room_model.specs.Rooms.{Notice};
ghost use Rattle.room_model.specs.Worlds.{World, Channel};
ghost use Rattle.side_effects.specs.declared.fault.EditFault.{EditFault};
ghost use Rattle.sync_client.specs.Faults.{take_fault};
ghost use Rattle.sync_msgs.specs.declared.out.Out.TheVariants as out;
ghost use Rattle.sync_msgs.specs.declared.server_message.ServerMessage.{ServerMessage};
ghost use Rattle.world_laws.specs.Reachable.{ReachableWorld};
ghost use Rattle.world_laws.specs.Told.{told};
ghost use Rattle.sync_world.specs.Standing.{IsAtVersion};

/// The message that comes next to a client of a world that can be reached is at none of the five
/// faults by which a client refuses a message. So a world takes each fault for out of memory.
pub fn clients_refuse_no_message<F: Drop>()
    ensures { (schemas : WorldSchemas F) (world : World) (number k : ℕ) (client : Client)
        (channel : Channel) (notice : Notice) (notices : List Notice) (said : ServerMessage)
        → AreLawfulTogether schemas → ReachableWorld schemas world
        → slice_get world.clients number ≡ Some client
        → session_of client.connection ≡ Some k → slice_get world.channels k ≡ Some channel
        → channel.to_client ≡ notice ∷ notices
        → told schemas world.room client k notice ≡ out.Message said
        → take_fault client said ≡ None }
{}

/// What decides a world whose room is at a version of the tables is one: there are no two such schemas.
pub fn versions_have_one_schema()
    ensures { (version : ℕ) (one other : WorldSchemas EditFault)
        → IsAtVersion version one → IsAtVersion version other → one ≡ other }
{}
