//! Laws of the rooms that calls make.
ghost use Rattle.std.specs.Prelude.{◌≡◌, ℕ, ◌+◌, List, length, slice_get, Bool, true, Some};
ghost use Rattle.room_model.specs.Schemas.{Schemas, AreLawful, Plan};
ghost use Rattle.room_model.specs.Acting.{AllActing, AllCommit};
ghost use Rattle.room_model.specs.Rooms.{live, Session, Room, new_room, after_enter, Replied};
ghost use Rattle.room_model.specs.Rooms.{after_message, Given, next_for, after_drain, after_leave};
ghost use Rattle.room_model.specs.Reachable.{Reachable, AreSentNear};
ghost use Rattle.room_model.specs.Closing.{IsClosing, Appends, count_taken};
ghost use Rattle.room_model.specs.Naming.{gives_others, AllNamed};
ghost use Rattle.room_model.specs.declared.handled.Handled.{Handled};
ghost use Rattle.sync_msgs.specs.declared.client_message.ClientMessage.{ClientMessage};

/// Where the sent clocks of live sessions lie: it is so in a new room, each call keeps it, and so
/// it holds in every room that calls make.
pub fn sent_clocks_lie_near()
    ensures begins { (last : ℕ) → AreSentNear (new_room last) }
    ensures enters { (readonly : Bool) (room : Room)
        → AreSentNear room → AreSentNear (after_enter readonly room) }
    ensures receives { (schemas : Schemas) (session : ℕ) (said : ClientMessage) (room : Room)
        (replied : Replied) → after_message schemas room session said ≡ Some replied
        → AreSentNear room → AreSentNear replied.room }
    ensures drains { (schemas : Schemas) (session : ℕ) (given : Given) (room : Room)
        → next_for schemas room session ≡ Some given
        → AreSentNear room → AreSentNear (after_drain room session given) }
    ensures leaves { (schemas : Schemas) (session : ℕ) (room after : Room)
        → after_leave room session ≡ Some after → AreSentNear room → AreSentNear after }
    ensures always { (schemas : Schemas) (room : Room)
        → Reachable schemas room → AreSentNear room }
{}

/// What a session is given names no presence of its own.
pub fn gives_nothing_of_its_own()
    ensures { (schemas : Schemas) (room : Room) (session : ℕ) (given : Given)
        → AreLawful schemas → next_for schemas room session ≡ Some given
        → gives_others session given.out ≡ true }
{}

/// Each entry of a room that calls make acts where it stands.
pub fn entries_act()
    ensures { (schemas : Schemas) (room : Room)
        → AreLawful schemas → Reachable schemas room → AllActing schemas room.history }
{}

/// In a room that calls make the commits of a live session have what they say: at an older schema
/// nothing was accepted.
pub fn commits_have_what_they_say()
    ensures { (schemas : Schemas) (room : Room) (number : ℕ) (session : Session) (sent : ℕ)
        (plan : Plan) → AreLawful schemas → Reachable schemas room
        → slice_get room.sessions number ≡ Some session → session.phase ≡ live sent plan
        → AllCommit schemas number plan room.history }
{}

/// In a room that calls make the author of an entry has entered, and the entry names ids of the
/// document and its author's presence alone; that of a read-only session names no id of the
/// document.
pub fn entries_name_their_own()
    ensures { (schemas : Schemas) (room : Room) → AreLawful schemas → Reachable schemas room
        → AllNamed schemas room.sessions room.history }
{}

/// What moves the clock: the entry of a push that is taken, and the removals of the presence of
/// sessions that are ended or leave; nothing else.
pub fn clocks_move_by_closing()
    ensures receives { (schemas : Schemas) (session : ℕ) (said : ClientMessage) (room : Room)
        (replied : Replied) → after_message schemas room session said ≡ Some replied
        → (closed : List ℕ)
        × Appends schemas room session said replied.reply replied.room closed }
    ensures receives_clock { (schemas : Schemas) (session : ℕ) (said : ClientMessage)
        (room after : Room) (reply : Handled) (closed : List ℕ)
        → Appends schemas room session said reply after closed
        → length after.history ≡ count_taken reply + length closed + length room.history }
    ensures leaves { (schemas : Schemas) (session : ℕ) (room after : Room)
        → after_leave room session ≡ Some after
        → (closed : List ℕ) × IsClosing room after closed }
    ensures closing_clock { (before after : Room) (closed : List ℕ)
        → IsClosing before after closed
        → length after.history ≡ length closed + length before.history }
    ensures enters { (readonly : Bool) (room : Room)
        → (after_enter readonly room).history ≡ room.history }
    ensures drains { (session : ℕ) (given : Given) (room : Room)
        → (after_drain room session given).history ≡ room.history }
{}
