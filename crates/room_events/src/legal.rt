//! Laws of which lists are legal.
ghost use Rattle.std.specs.Prelude.{◌≡◌, ℕ, List, [], ◌∷◌, ◌++◌, length, Bool, Some, None};
ghost use Rattle.room_model.specs.Schemas.{Schemas};
ghost use Rattle.room_model.specs.Rooms.{Session, Room, new_room, enter, session_at, Replied};
ghost use Rattle.room_model.specs.Rooms.{after_message, Given, next_for, after_drain, after_leave};
ghost use Rattle.room_model.specs.Reachable.{IsRising};
ghost use Rattle.sync_msgs.specs.declared.client_message.ClientMessage.{ClientMessage};
ghost use Rattle.room_events.specs.Legal.{Happens, Legal, state_of};
ghost use Rattle.room_events.specs.declared.room_event.RoomEvent.{RoomEvent};
ghost use Rattle.room_events.specs.declared.room_event.RoomEvent.TheVariants as call;

/// No event is a legal list, after which the room is new (`begins`). A legal list with a further
/// event that happens after it is legal, and the room is then that event's (`goes_on`). Each
/// beginning of a legal list is legal (`before`), and the event behind it happens in the room after
/// it (`happened`).
pub fn goes_on()
    ensures begins { (schemas : Schemas) (last : ℕ)
        → Legal schemas last [] × (state_of schemas last [] ≡ new_room last) }
    ensures goes_on { (schemas : Schemas) (last : ℕ) (events : List RoomEvent) (event : RoomEvent)
        (after : Room) → Legal schemas last events
        → Happens schemas (state_of schemas last events) event after
        → Legal schemas last (events ++ event ∷ [])
        × (state_of schemas last (events ++ event ∷ []) ≡ after) }
    ensures before { (schemas : Schemas) (last : ℕ) (events more : List RoomEvent)
        → Legal schemas last (events ++ more) → Legal schemas last events }
    ensures happened { (schemas : Schemas) (last : ℕ) (events more : List RoomEvent)
        (event : RoomEvent) → Legal schemas last (events ++ event ∷ more)
        → Happens schemas (state_of schemas last events) event
        (state_of schemas last (events ++ event ∷ [])) }
{}

/// Each call of the definitions is an event that happens in the room, with the reply that the room
/// gave.
pub fn calls_happen()
    ensures enters { (schemas : Schemas) (readonly : Bool) (room after : Room)
        → enter readonly room ≡ Some after
        → Happens schemas room (call.Enter (length room.sessions) readonly) after }
    ensures receives { (schemas : Schemas) (number : ℕ) (said : ClientMessage) (room : Room)
        (replied : Replied) → IsRising said → after_message schemas room number said ≡ Some replied
        → Happens schemas room (call.Message number said replied.reply) replied.room }
    ensures gives { (schemas : Schemas) (number : ℕ) (given : Given) (room : Room)
        → next_for schemas room number ≡ Some given
        → Happens schemas room (call.Drain number (Some given.out))
        (after_drain room number given) }
    ensures gives_nothing { (schemas : Schemas) (number : ℕ) (session : Session) (room : Room)
        → session_at number room ≡ Some session → next_for schemas room number ≡ None
        → Happens schemas room (call.Drain number None) room }
    ensures leaves { (schemas : Schemas) (number : ℕ) (room after : Room)
        → after_leave room number ≡ Some after
        → Happens schemas room (call.Leave number) after }
{}
