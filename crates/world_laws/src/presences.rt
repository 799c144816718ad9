//! Laws of who changes what in the room of a world that can be reached.
ghost use Rattle.std.specs.Prelude.{◌≡◌, ℕ, Bool, true, Some, Ok};
ghost use Rattle.room_model.specs.Schemas.{Schemas, WorldSchemas, AreLawful, AreLawfulTogether};
ghost use Rattle.room_model.specs.Rooms.{Room, Replied, after_message, after_leave};
ghost use Rattle.room_model.specs.Naming.{AllNamed};
ghost use Rattle.room_model.specs.Closing.{was_open};
ghost use Rattle.room_model.specs.Reachable.{Reachable, IsRising};
ghost use Rattle.room_model.specs.Worlds.{World, Stepped, after_event};
ghost use Rattle.room_model.specs.declared.event.Event.{Event};
ghost use Rattle.sync_msgs.specs.declared.client_message.ClientMessage.{ClientMessage};
ghost use Rattle.world_laws.specs.Reachable.{ReachableWorld};
ghost use Rattle.world_laws.specs.Sessions.{ArePresencesLive};
ghost use Rattle.world_laws.specs.Presences.{GoesOnByRemovals, GoesOnByClosing, HasSamePresence};

/// The author of an entry has entered, and the entry names ids of the document and its author's
/// presence alone; that of a read-only session names no id of the document.
pub fn entries_name_their_own<F: Drop>()
    ensures { (schemas : WorldSchemas F) (world : World)
        → AreLawfulTogether schemas → ReachableWorld schemas world
        → AllNamed schemas.room world.room.sessions world.room.history }
{}

/// An entry without author is one of those with which the room began, or removes the presence of a
/// session that was ended or has left.
pub fn entries_without_author_remove<F: Drop>()
    ensures { (schemas : WorldSchemas F) (world : World)
        → AreLawfulTogether schemas → ReachableWorld schemas world
        → GoesOnByRemovals schemas.room world.room }
{}

/// An event makes the room's history go on by entries of which each without author removes the
/// presence of a session that wasn't ended and hadn't left before the event, and is ended or has left
/// after it.
pub fn removals_close_sessions<F: Drop>()
    ensures { (schemas : WorldSchemas F) (trace : Bool) (world : World) (event : Event)
        (made : Stepped)
        → ReachableWorld schemas world → after_event schemas trace world event ≡ Ok made
        → GoesOnByClosing world.room made.world.room }
{}

/// The presence of a session is in the room only while that session is live.
pub fn presences_are_of_live_sessions<F: Drop>()
    ensures { (schemas : WorldSchemas F) (world : World)
        → AreLawfulTogether schemas → ReachableWorld schemas world → ArePresencesLive world.room }
{}

/// No session changes the presence of another that is still there and not ended: neither by a
/// message nor by a leave. Nothing else that happens appends an entry.
pub fn nobody_changes_the_presence_of_another()
    ensures receives { (schemas : Schemas) (room : Room) (session other : ℕ)
        (said : ClientMessage) (replied : Replied)
        → AreLawful schemas → Reachable schemas room → IsRising said
        → after_message schemas room session said ≡ Some replied → (other ≡ session → ⊥)
        → was_open replied.room other ≡ true → HasSamePresence other room replied.room }
    ensures leaves { (schemas : Schemas) (room after : Room) (session other : ℕ)
        → AreLawful schemas → Reachable schemas room → after_leave room session ≡ Some after
        → was_open after other ≡ true → HasSamePresence other room after }
{}
