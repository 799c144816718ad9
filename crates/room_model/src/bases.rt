//! Laws of what a client is sent: it brings the client's base to what the room has.
ghost use Rattle.std.specs.Prelude.{◌≡◌, ℕ, ◌≤◌, ℤ, List, length, drop, slice_get, Bool, true};
ghost use Rattle.std.specs.Prelude.{Some, None, Ok};
ghost use Rattle.std.specs.List.{list_all};
ghost use Rattle.rooms_val.specs.Data.{Data, Pairs};
ghost use Rattle.rooms_val.specs.Maps.{AreRising};
ghost use Rattle.room_model.specs.Schemas.{Schemas, WorldSchemas, AreLawful, AreLawfulTogether};
ghost use Rattle.room_model.specs.Schemas.{Plan, Member, records_with, doc, pres, seen_along};
ghost use Rattle.room_model.specs.Histories.{History, records_of, oldest, up_to, above};
ghost use Rattle.room_model.specs.Histories.{start_of};
ghost use Rattle.room_model.specs.Messages.{known_clock, others_of};
ghost use Rattle.room_model.specs.Messages.{events_after, catch_up, updates};
ghost use Rattle.room_model.specs.Acting.{AllActing, AllCommit};
ghost use Rattle.room_model.specs.Bases.{whole_for, AgreesUpTo, Hydrates};
ghost use Rattle.room_model.specs.Bases.{is_scoped, AreAnswered, BringUp};
ghost use Rattle.room_model.specs.Rooms.{live, Session, Room};
ghost use Rattle.room_model.specs.Reachable.{Reachable};
ghost use Rattle.room_model.specs.Replicas.{Pending, count_by_session};
ghost use Rattle.sync_msgs.specs.declared.data_event.DataEvent.{DataEvent};
ghost use Rattle.sync_msgs.specs.declared.server_message.ServerMessage.TheVariants as reply;

/// The base of a session that was told everything is the room's document and the presence of
/// others, and nothing else, each record seen at the session's version.
pub fn bases_have_two_parts()
    ensures document { (schemas : Schemas) (plan : Plan) (session : ℕ) (history : History)
        → AreLawful schemas
        → doc schemas (whole_for schemas plan session (records_of history))
        ≡ seen_along schemas plan (doc schemas (records_of history)) }
    ensures presence { (schemas : Schemas) (plan : Plan) (session : ℕ) (history : History)
        → AreLawful schemas
        → pres schemas (whole_for schemas plan session (records_of history))
        ≡ seen_along schemas plan (others_of schemas session (records_of history)) }
{}

/// A snapshot brings a base to what the room has, whatever the client's schema admits and whatever
/// entries there are: any base, if all records are sent (`whole`); else one that has the room's
/// document under the ids whose last entry is at most at the clock since which changes are sent
/// (`since`). So it does with a base whose document is the room's at the clock that the client
/// says it has reached (`reached`).
pub fn snapshots_bring_bases()
    ensures whole { (schemas : Schemas) (admits : List ℕ → Data → Bool) (member : Member)
        (history : History) (base : Pairs) → Hydrates schemas admits member None history base }
    ensures since { (schemas : Schemas) (admits : List ℕ → Data → Bool) (member : Member)
        (clock : ℕ) (history : History) (base : Pairs)
        → AreRising base → AgreesUpTo schemas member.plan clock history base
        → Hydrates schemas admits member (Some clock) history base }
    ensures reached { (schemas : Schemas) (admits : List ℕ → Data → Bool) (member : Member)
        (reached : ℤ) (first : ℕ) (history : History) (base : Pairs)
        → records_with schemas.is_document base
        ≡ seen_along schemas member.plan (doc schemas (records_of (up_to reached history)))
        → let known = known_clock reached (start_of first history) (length history) in
        Hydrates schemas admits member known history base }
{}

/// What a session is told that was told everything up to its sent clock brings its base to what the
/// room has, and ends the pending items that the session's own entries answer. The catch-up does so
/// at any client, over any entries that name ids of the document and presences alone (`caught_up`).
/// The events by entries do so if each entry acts where it stands, and if an own entry that is a
/// commit is what its item says, and nothing at an older schema (`by_entries`); so do either, as
/// they are sent (`told`). In every room that calls make the entries are so (`rooms`).
pub fn updates_bring_bases<F: Drop>()
    ensures caught_up { (schemas : Schemas) (admits : List ℕ → Data → Bool) (member : Member)
        (sent : ℕ) (history : History) (items : List Pending)
        → AreLawful schemas → list_all (is_scoped schemas) history ≡ true
        → BringUp schemas admits member sent history items
        (catch_up schemas member sent history) }
    ensures by_entries { (schemas : WorldSchemas F) (version : ℕ) (member : Member)
        (sent : ℕ) (history : History) (items : List Pending)
        → AreLawfulTogether schemas
        → schemas.room.plan_for (schemas.client version).versions ≡ Ok member.plan
        → AllActing schemas.room history
        → AllCommit schemas.room member.session member.plan history
        → AreAnswered schemas.room member.session items (above sent history)
        → BringUp schemas.room (schemas.client version).admits member sent history items
        (events_after schemas.room member sent history) }
    ensures told { (schemas : WorldSchemas F) (version : ℕ) (member : Member)
        (sent : ℕ) (history : History) (items : List Pending) (events : List DataEvent)
        → AreLawfulTogether schemas
        → schemas.room.plan_for (schemas.client version).versions ≡ Ok member.plan
        → AllActing schemas.room history
        → AllCommit schemas.room member.session member.plan history
        → AreAnswered schemas.room member.session items (above sent history)
        → updates schemas.room member sent history ≡ reply.Data events
        → BringUp schemas.room (schemas.client version).admits member sent history items events }
    ensures rooms { (schemas : WorldSchemas F) (version : ℕ) (room : Room) (number : ℕ)
        (session : Session) (sent : ℕ) (plan : Plan) (items : List Pending)
        (events : List DataEvent)
        → AreLawfulTogether schemas
        → schemas.room.plan_for (schemas.client version).versions ≡ Ok plan
        → Reachable schemas.room room → slice_get room.sessions number ≡ Some session
        → session.phase ≡ live sent plan
        → AreAnswered schemas.room number items (above sent room.history)
        → let member : Member =
        record { session = number; readonly = session.readonly; plan = plan } in
        updates schemas.room member sent room.history ≡ reply.Data events
        → BringUp schemas.room (schemas.client version).admits member sent room.history items
        events }
{}

/// If the entries of a session above a clock come from its first pending items, so do those up to a
/// later clock, and the others come from the items that are left once a client was told those.
pub fn answers_go_on()
    ensures before { (schemas : Schemas) (session : ℕ) (sent later : ℕ) (history : History)
        (items : List Pending) → sent ≤ later
        → AreAnswered schemas session items (above sent history)
        → AreAnswered schemas session items (above sent (oldest later history)) }
    ensures after { (schemas : Schemas) (session : ℕ) (sent later : ℕ) (history : History)
        (items : List Pending) → sent ≤ later
        → AreAnswered schemas session items (above sent history)
        → AreAnswered schemas session (drop (count_by_session session sent later history) items)
        (above later history) }
{}
