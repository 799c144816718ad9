//! Laws of a client over a link.
ghost use Rattle.std.specs.Prelude.{◌≡◌, ℕ, List, None};
ghost use Rattle.client_link.specs.Waiting.{Waits};
ghost use Rattle.client_link.specs.declared.waiting.Heard.TheVariants.{Refused};
ghost use Rattle.link_texts.specs.declared.fault.WireFault.{WireFault};
ghost use Rattle.room_events.specs.Events.{events_of};
ghost use Rattle.room_events.specs.Legal.{Legal};
ghost use Rattle.room_events.specs.declared.room_event.RoomEvent.{RoomEvent};
ghost use Rattle.room_link.specs.Exchange.{Arrival};
ghost use Rattle.room_model.specs.Schemas.{WorldSchemas, AreLawfulTogether};
ghost use Rattle.side_effects.specs.declared.fault.EditFault.{EditFault};
ghost use Rattle.wire_text.specs.Feeding.{Assembly};
ghost use Rattle.join_laws.specs.Linked.{Comes, ServesOver};
ghost use Rattle.join_laws.specs.Serving.{Serves};
ghost use Rattle.join_laws.specs.Ways.{Step, Way, way_of};

use wire_text::laws::pieces_come_back;

/// A client over a link by which a session serves it goes its way by steps, and the session serves it there
/// (`serves`): so it has the room's base, by `has_the_rooms_base`. It took each message that came
/// (`takes`), and its next wait refuses no text (`refuses_nothing`).
pub fn refuses_nothing_over_a_link()
    ensures serves { (schemas : WorldSchemas EditFault) (version room : ℕ)
        (coming left : List Arrival) (way : Way) (mine : List RoomEvent)
        → Comes schemas version room coming way left → ServesOver mine coming way.said
        → (steps : List Step) × (way_of schemas version room steps ≡ way) × Serves mine way }
    ensures takes { (schemas : WorldSchemas EditFault) (version room : ℕ)
        (coming left : List Arrival) (way : Way)
        (last : ℕ) (events : List RoomEvent) (number : ℕ)
        → AreLawfulTogether schemas → Legal schemas.room last events
        → Comes schemas version room coming way left
        → ServesOver (events_of number events) coming way.said → way.fault ≡ None }
    ensures refuses_nothing { (schemas : WorldSchemas EditFault) (version room : ℕ)
        (coming left rest : List Arrival) (way : Way)
        (last : ℕ) (events : List RoomEvent) (number : ℕ) (fault : WireFault) (now : Assembly)
        → AreLawfulTogether schemas → Legal schemas.room last events
        → Comes schemas version room coming way left
        → ServesOver (events_of number events) coming way.said
        → Waits way.joiner.waiting left (Refused fault) now rest → ⊥ }
{
    pieces_come_back();
}
