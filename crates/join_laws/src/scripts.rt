//! Laws of a client that plays a script.
ghost use Rattle.std.specs.Prelude.{◌≡◌, ℕ, List, false, None, Some, Ok};
ghost use Rattle.client_link.specs.declared.saying.Saying.{Saying};
ghost use Rattle.join_job.specs.Playing.{Played, Joins};
ghost use Rattle.join_job.specs.Turns.{Progress};
ghost use Rattle.join_job.specs.declared.ending.End.TheVariants.{Done, Server};
ghost use Rattle.room_events.specs.Events.{events_of};
ghost use Rattle.room_events.specs.Legal.{Legal, state_of};
ghost use Rattle.room_events.specs.declared.room_event.RoomEvent.{RoomEvent};
ghost use Rattle.room_join.specs.Joiners.{Joiner};
ghost use Rattle.room_link.specs.Exchange.{Arrival};
ghost use Rattle.room_model.specs.Bases.{whole_for};
ghost use Rattle.room_model.specs.Histories.{records_of, up_to};
ghost use Rattle.room_model.specs.Schemas.{WorldSchemas, AreLawfulTogether, Plan};
ghost use Rattle.side_effects.specs.declared.fault.EditFault.{EditFault};
ghost use Rattle.join_laws.specs.Linked.{Comes, ServesOver};
ghost use Rattle.join_laws.specs.Scripted.{Leads};
ghost use Rattle.join_laws.specs.Ways.{Way};

use wire_text::laws::pieces_come_back;

/// Where the first lines of a script lead to a client that wasn't told that its link has ended, that client
/// goes its way over the link: by acts and waits it came to be so, it said what was said for the lines, and
/// it took each message that came (`comes`). So what the laws of links say of such a client is said of the
/// client of a script. If a session serves it over the link, and the room takes its schema, its base is what
/// the room has at the clock that the client has reached, seen along the client's plan with the presence of
/// others alone (`base`). What a whole script says is what is said for its lines up to the one at which it
/// ends, or some of these (`ends`); a script that was read to its `end` line has a client there, and leaves what is still to
/// come there (`done`). Where a session serves a client that said what a whole script says, the script
/// doesn't end as a text of the room is refused (`not_server`).
pub fn goes_its_way_by_a_script()
    ensures comes { (schemas : WorldSchemas EditFault) (room : ℕ) (script : List ℕ)
        (coming left : List Arrival) (joiner : Joiner) (said : List Saying)
        → Leads schemas room script coming (Some joiner) said left → joiner.is_lost ≡ false
        → (version : ℕ) × (way : Way) × Comes schemas version room coming way left
        × (way.joiner ≡ joiner) × (way.said ≡ said) × (way.fault ≡ None) }
    ensures base { (schemas : WorldSchemas EditFault) (room : ℕ) (script : List ℕ)
        (coming left : List Arrival) (joiner : Joiner) (said : List Saying)
        (last : ℕ) (events : List RoomEvent) (number : ℕ) (plan : Plan)
        → AreLawfulTogether schemas → Legal schemas.room last events
        → Leads schemas room script coming (Some joiner) said left → joiner.is_lost ≡ false
        → ServesOver (events_of number events) coming said
        → let state = joiner.state in
        let history = (state_of schemas.room last events).history in
        schemas.room.plan_for (schemas.client state.client.version).versions ≡ Ok plan
        → state.base
        ≡ whole_for schemas.room plan number (records_of (up_to state.client.reached history)) }
    ensures ends { (schemas : WorldSchemas EditFault) (room : ℕ) (script : List ℕ)
        (coming : List Arrival) (all : Played)
        → Joins schemas room script coming all
        → (progress : Progress) × (left : List Arrival)
        × Leads schemas room script coming progress all.said left }
    ensures done { (schemas : WorldSchemas EditFault) (room : ℕ) (script : List ℕ)
        (coming : List Arrival) (all : Played)
        → Joins schemas room script coming all → all.by ≡ Done
        → (joiner : Joiner) × Leads schemas room script coming (Some joiner) all.said all.left }
    ensures not_server { (schemas : WorldSchemas EditFault) (room : ℕ) (script : List ℕ)
        (coming : List Arrival) (all : Played)
        (last : ℕ) (events : List RoomEvent) (number : ℕ)
        → AreLawfulTogether schemas → Legal schemas.room last events
        → Joins schemas room script coming all
        → ServesOver (events_of number events) coming all.said
        → all.by ≡ Server → ⊥ }
{
    pieces_come_back();
}
