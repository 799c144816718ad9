//! Laws of what a session is told by the replies of a legal list.
ghost use Rattle.std.specs.Prelude.{◌≡◌, ℕ, ◌≤◌, ℤ, pos, List, ◌∷◌, ◌++◌, length, slice_get};
ghost use Rattle.std.specs.Prelude.{count_by, false, Some, None};
ghost use Rattle.std.specs.List.{list_any};
ghost use Rattle.room_model.specs.Schemas.{Schemas, AreLawful, Plan};
ghost use Rattle.room_model.specs.Histories.{oldest};
ghost use Rattle.room_model.specs.Rooms.{live, Session};
ghost use Rattle.room_events.specs.Events.{events_of};
ghost use Rattle.room_events.specs.Following.{Follower, Follows, AreResultsOf, request_of};
ghost use Rattle.room_events.specs.Following.{first_replica, replica_of, told_replica};
ghost use Rattle.room_events.specs.Legal.{Legal, state_of};
ghost use Rattle.room_events.specs.Told.{told_up_to, GoOnFrom, is_ping, is_pong};
ghost use Rattle.room_events.specs.declared.room_event.RoomEvent.{RoomEvent};
ghost use Rattle.room_events.specs.declared.room_event.RoomEvent.TheVariants as call;
ghost use Rattle.sync_msgs.specs.declared.data_event.DataEvent.{DataEvent};
ghost use Rattle.sync_msgs.specs.declared.out.Out.TheVariants as out;
ghost use Rattle.sync_msgs.specs.declared.server_message.ServerMessage.{ServerMessage};
ghost use Rattle.sync_msgs.specs.declared.server_message.ServerMessage.TheVariants as reply;

/// What a session was told by what it was given goes up to a clock of the room's history: the clock
/// of its snapshot, or of the last event of the last updates after that (`bounded`). Of a live
/// session that is the sent clock (`sent`). And updates to a session go on from there: their events
/// are at the next clocks, or, in a catch-up, all at one clock that is more than 32 later
/// (`updates`).
pub fn told_in_order()
    ensures bounded { (schemas : Schemas) (last : ℕ) (events : List RoomEvent) (number : ℕ)
        (told : ℤ) → Legal schemas last events → told_up_to (events_of number events) ≡ Some told
        → (clock : ℕ) × (told ≡ pos clock)
        × (clock ≤ length (state_of schemas last events).history) }
    ensures sent { (schemas : Schemas) (last : ℕ) (events : List RoomEvent) (number : ℕ)
        (session : Session) (clock : ℕ) (plan : Plan) → Legal schemas last events
        → slice_get (state_of schemas last events).sessions number ≡ Some session
        → session.phase ≡ live clock plan
        → told_up_to (events_of number events) ≡ Some (pos clock) }
    ensures updates { (schemas : Schemas) (last : ℕ) (before after : List RoomEvent) (number : ℕ)
        (told : List DataEvent)
        → Legal schemas last
        (before ++ call.Drain number (Some (out.Message (reply.Data told))) ∷ after)
        → (clock : ℕ) × (told_up_to (events_of number before) ≡ Some (pos clock))
        × GoOnFrom clock told }
{}

/// A client whose messages are those of its session, in order, and that had reached no clock when
/// it connected, is as it was as long as it was told nothing (`waits`). Once it was told something,
/// it has the room's base at the clock up to which it was told, seen along its plan with the
/// presence of others alone; and pending are, of its items, all but as many of the first as the
/// session has entries up to there (`has_base`). Schemas are lawful; the client's plan is that from
/// its schema, if the room takes that; and a client at the room's schema admits what the room does.
/// The items may be all that it will push on the session.
pub fn clients_follow()
    ensures waits { (schemas : Schemas) (last : ℕ) (events : List RoomEvent) (number : ℕ)
        (client : Follower) → AreLawful schemas → Legal schemas last events
        → Follows schemas client (events_of number events)
        → told_up_to (events_of number events) ≡ None
        → replica_of schemas client (events_of number events) ≡ first_replica client }
    ensures has_base { (schemas : Schemas) (last : ℕ) (events : List RoomEvent) (number : ℕ)
        (client : Follower) (clock : ℕ) → AreLawful schemas → Legal schemas last events
        → Follows schemas client (events_of number events)
        → told_up_to (events_of number events) ≡ Some (pos clock)
        → replica_of schemas client (events_of number events)
        ≡ told_replica schemas client number
        (oldest clock (state_of schemas last events).history) }
{}

/// What such a client is given it expects: a snapshot only under its own request, and only one
/// (`snapshots`); and the results in updates are those of the first items that are pending then, in
/// order (`results`). It need follow only by the events before, so its items may be those alone
/// that it pushed by then. That the clocks of updates don't fall is said by `told_in_order`, and
/// that no pong comes unasked by `no_pong_unasked`.
pub fn replies_are_expected()
    ensures snapshots { (schemas : Schemas) (last : ℕ) (before after : List RoomEvent) (number : ℕ)
        (client : Follower) (told : ServerMessage) (request : List ℕ) → AreLawful schemas
        → Legal schemas last (before ++ call.Drain number (Some (out.Message told)) ∷ after)
        → Follows schemas client (events_of number before) → request_of told ≡ Some request
        → (told_up_to (events_of number before) ≡ None) × (request ≡ client.request) }
    ensures results { (schemas : Schemas) (last : ℕ) (before after : List RoomEvent) (number : ℕ)
        (client : Follower) (told : List DataEvent) → AreLawful schemas
        → Legal schemas last
        (before ++ call.Drain number (Some (out.Message (reply.Data told))) ∷ after)
        → Follows schemas client (events_of number before)
        → AreResultsOf (replica_of schemas client (events_of number before)).pending told }
{}

/// A session is given at most as many pongs as it sent pings (`counts`); so it is given none if it
/// sent none (`none`).
pub fn no_pong_unasked()
    ensures counts { (schemas : Schemas) (last : ℕ) (events : List RoomEvent) (number : ℕ)
        → Legal schemas last events
        → count_by is_pong (events_of number events) ≤ count_by is_ping (events_of number events) }
    ensures none { (schemas : Schemas) (last : ℕ) (events : List RoomEvent) (number : ℕ)
        → Legal schemas last events → list_any is_ping (events_of number events) ≡ false
        → list_any is_pong (events_of number events) ≡ false }
{}
