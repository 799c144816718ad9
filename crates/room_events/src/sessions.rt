//! Laws of the sessions of a legal list.
ghost use Rattle.std.specs.Prelude.{◌≡◌, ℕ, List, [], length, true, false, Some, None};
ghost use Rattle.room_model.specs.Schemas.{Schemas};
ghost use Rattle.room_model.specs.Rooms.{Session, session_at};
ghost use Rattle.room_events.specs.Events.{events_of, number_of, has_leave};
ghost use Rattle.room_events.specs.Events.{EntersFirst, LeavesLast};
ghost use Rattle.room_events.specs.Legal.{Legal, state_of};
ghost use Rattle.room_events.specs.declared.room_event.RoomEvent.{RoomEvent};

/// A session that has events, none of which is its leave, is in the room.
pub fn is_in()
    ensures { (schemas : Schemas) (last : ℕ) (events mine : List RoomEvent) (number : ℕ)
        → Legal schemas last events → events_of number events ≡ mine
        → number_of mine ≡ Some number → has_leave mine ≡ false
        → (session : Session) × (session_at number (state_of schemas last events) ≡ Some session) }
{}

/// A session that left isn't in the room.
pub fn is_gone()
    ensures { (schemas : Schemas) (last : ℕ) (events : List RoomEvent) (number : ℕ)
        → Legal schemas last events → has_leave (events_of number events) ≡ true
        → session_at number (state_of schemas last events) ≡ None }
{}

/// The number that the next session gets has no event so far.
pub fn none_yet()
    ensures { (schemas : Schemas) (last : ℕ) (events : List RoomEvent)
        → Legal schemas last events
        → events_of (length (state_of schemas last events).sessions) events ≡ [] }
{}

/// A session enters by the first of its events, and by no other.
pub fn enters_once()
    ensures { (schemas : Schemas) (last : ℕ) (events : List RoomEvent) (number : ℕ)
        → Legal schemas last events → EntersFirst (events_of number events) }
{}

/// A session has no event after its leave.
pub fn nothing_after_leave()
    ensures { (schemas : Schemas) (last : ℕ) (events : List RoomEvent) (number : ℕ)
        → Legal schemas last events → LeavesLast (events_of number events) }
{}
