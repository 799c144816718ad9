//! Laws of what the room knows of clients.
ghost use Rattle.room_model.specs.Schemas.{WorldSchemas};
ghost use Rattle.room_model.specs.Worlds.{World};
ghost use Rattle.world_laws.specs.Reachable.{ReachableWorld};
ghost use Rattle.world_laws.specs.Requests.{AreHeard, AreBarred};

/// On the current session of a client the room knows what the client said: a new session's only
/// message in flight is the client's request, with the session's number, the client's clock and its
/// schema; one that has asked has just that, with the client's plan; a live one has the client's
/// plan; and while a client asks on one that isn't new, nothing is in flight from it.
pub fn requests_are_heard<F: Drop>()
    ensures { (schemas : WorldSchemas F) (world : World)
        → ReachableWorld schemas world → AreHeard schemas world }
{}

/// A client that the room wouldn't have for its schema has reached no clock, isn't connected, and
/// neither an answer nor data is in flight to it.
pub fn unfit_clients_are_told_nothing<F: Drop>()
    ensures { (schemas : WorldSchemas F) (world : World)
        → ReachableWorld schemas world → AreBarred schemas world }
{}
