//! Laws of a client on its way.
ghost use Rattle.std.specs.Prelude.{◌≡◌, ◌⊎◌, ◌≤◌, ℕ, pos, negsuc, List, length, None, Ok};
ghost use Rattle.room_events.specs.Events.{events_of};
ghost use Rattle.room_events.specs.Legal.{Legal, state_of};
ghost use Rattle.room_events.specs.declared.room_event.RoomEvent.{RoomEvent};
ghost use Rattle.room_model.specs.Bases.{whole_for};
ghost use Rattle.room_model.specs.Histories.{records_of, up_to};
ghost use Rattle.room_model.specs.Replicas.{base_of, others_by, shown_document};
ghost use Rattle.room_model.specs.Schemas.{WorldSchemas, AreLawfulTogether, Plan, doc, pres};
ghost use Rattle.room_model.specs.declared.connection.Connection.TheVariants.{Open};
ghost use Rattle.side_effects.specs.declared.fault.EditFault.{EditFault};
ghost use Rattle.sync_peer.specs.Calls.{shown};
ghost use Rattle.join_laws.specs.Serving.{Serves};
ghost use Rattle.join_laws.specs.Ways.{Step, way_of};

/// A client that a session serves takes each message that comes to it.
pub fn takes_what_comes()
    ensures { (schemas : WorldSchemas EditFault) (version room : ℕ) (steps : List Step)
        (last : ℕ) (events : List RoomEvent) (number : ℕ)
        → AreLawfulTogether schemas → Legal schemas.room last events
        → let way = way_of schemas version room steps in
        Serves (events_of number events) way → way.fault ≡ None }
{}

/// The base of a client that a session serves is what the room has at the clock that the client has
/// reached, seen along the client's plan with the presence of others alone (`base`). So its document is
/// that of the room's records at that clock, seen at its version (`document`), its presence that of the
/// other sessions (`presence`), and what it shows is that document with its pending edits replayed
/// (`shows`). That clock is -1 before the room's answer, where the base is empty; else it is one of the
/// room's history (`clock`). The room takes the client's schema; of a client whose schema it refuses
/// only `clock` is said.
pub fn has_the_rooms_base()
    ensures base { (schemas : WorldSchemas EditFault) (version room : ℕ) (steps : List Step)
        (last : ℕ) (events : List RoomEvent) (number : ℕ) (plan : Plan)
        → AreLawfulTogether schemas → Legal schemas.room last events
        → schemas.room.plan_for (schemas.client version).versions ≡ Ok plan
        → let way = way_of schemas version room steps in
        let state = way.joiner.state in
        let history = (state_of schemas.room last events).history in
        Serves (events_of number events) way
        → state.base
        ≡ whole_for schemas.room plan number (records_of (up_to state.client.reached history)) }
    ensures document { (schemas : WorldSchemas EditFault) (version room : ℕ) (steps : List Step)
        (last : ℕ) (events : List RoomEvent) (number : ℕ) (plan : Plan)
        → AreLawfulTogether schemas → Legal schemas.room last events
        → schemas.room.plan_for (schemas.client version).versions ≡ Ok plan
        → let way = way_of schemas version room steps in
        let state = way.joiner.state in
        let history = (state_of schemas.room last events).history in
        Serves (events_of number events) way
        → doc schemas.room state.base ≡ base_of schemas history state.client }
    ensures presence { (schemas : WorldSchemas EditFault) (version room : ℕ) (steps : List Step)
        (last : ℕ) (events : List RoomEvent) (number : ℕ) (plan : Plan)
        → AreLawfulTogether schemas → Legal schemas.room last events
        → schemas.room.plan_for (schemas.client version).versions ≡ Ok plan
        → let way = way_of schemas version room steps in
        let state = way.joiner.state in
        let history = (state_of schemas.room last events).history in
        Serves (events_of number events) way
        → pres schemas.room state.base ≡ others_by schemas history state.client (Open number) }
    ensures shows { (schemas : WorldSchemas EditFault) (version room : ℕ) (steps : List Step)
        (last : ℕ) (events : List RoomEvent) (number : ℕ) (plan : Plan)
        → AreLawfulTogether schemas → Legal schemas.room last events
        → schemas.room.plan_for (schemas.client version).versions ≡ Ok plan
        → let way = way_of schemas version room steps in
        let state = way.joiner.state in
        let history = (state_of schemas.room last events).history in
        Serves (events_of number events) way
        → shown schemas state ≡ shown_document schemas history state.client }
    ensures clock { (schemas : WorldSchemas EditFault) (version room : ℕ) (steps : List Step)
        (last : ℕ) (events : List RoomEvent) (number : ℕ)
        → AreLawfulTogether schemas → Legal schemas.room last events
        → let way = way_of schemas version room steps in
        let reached = way.joiner.state.client.reached in
        Serves (events_of number events) way
        → (reached ≡ negsuc 0)
        ⊎ ((clock : ℕ) × (reached ≡ pos clock)
        × (clock ≤ length (state_of schemas.room last events).history)) }
{}
