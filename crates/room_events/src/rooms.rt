//! Laws of the room after a legal list.
ghost use Rattle.std.specs.Prelude.{◌≡◌, ℕ, ◌+◌, List, ◌++◌, length, count_by};
ghost use Rattle.room_model.specs.Schemas.{Schemas};
ghost use Rattle.room_model.specs.Histories.{oldest};
ghost use Rattle.room_model.specs.Rooms.{is_full, count_here};
ghost use Rattle.room_model.specs.Reachable.{Reachable};
ghost use Rattle.room_events.specs.Events.{is_leave, count_entered, is_full_after};
ghost use Rattle.room_events.specs.Legal.{Legal, state_of};
ghost use Rattle.room_events.specs.declared.room_event.RoomEvent.{RoomEvent};

/// Calls make the room after a legal list, so that the laws of such rooms hold of it.
pub fn is_reachable()
    ensures { (schemas : Schemas) (last : ℕ) (events : List RoomEvent)
        → Legal schemas last events → Reachable schemas (state_of schemas last events) }
{}

/// The history after a beginning of a legal list is the oldest part of the history after the list.
pub fn history_grows()
    ensures { (schemas : Schemas) (last : ℕ) (before after : List RoomEvent)
        → Legal schemas last (before ++ after)
        → let history = (state_of schemas last before).history in
        oldest (length history) (state_of schemas last (before ++ after)).history ≡ history }
{}

/// After a legal list as many sessions have entered the room as enter by the list (`entered`), and
/// those that are in it, with those that leave by the list, are as many (`stay`). So the room takes
/// no further session exactly if 64 sessions entered and haven't left by the list, or 2^53 - 1 have
/// entered (`full`).
pub fn full_shows()
    ensures entered { (schemas : Schemas) (last : ℕ) (events : List RoomEvent)
        → Legal schemas last events
        → length (state_of schemas last events).sessions ≡ count_entered events }
    ensures stay { (schemas : Schemas) (last : ℕ) (events : List RoomEvent)
        → Legal schemas last events
        → count_here (state_of schemas last events) + count_by is_leave events
        ≡ count_entered events }
    ensures full { (schemas : Schemas) (last : ℕ) (events : List RoomEvent)
        → Legal schemas last events
        → is_full (state_of schemas last events) ≡ is_full_after events }
{}
