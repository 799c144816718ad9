//! Laws of the entries that rooms make.
ghost use Rattle.std.specs.Prelude.{◌≡◌, ℕ, true, Some};
ghost use Rattle.rooms_val.specs.Data.{Pairs};
ghost use Rattle.rooms_val.specs.Maps.{AreRising};
ghost use Rattle.room_model.specs.Schemas.{Schemas, Plan, Member, AreLawful};
ghost use Rattle.room_model.specs.Accepting.{Push, is_taken, entry_of};
ghost use Rattle.room_model.specs.Acting.{document_ops, IsActing, AllActing, AllCommit};
ghost use Rattle.room_model.specs.Rooms.{Room, removal};
ghost use Rattle.room_model.specs.declared.history.Author.{Author};
ghost use Rattle.sync_msgs.specs.declared.data_event.Action.TheVariants.{Commit};
ghost use Rattle.room_model.specs.Histories.{History, records_of, oldest};

/// The entry of a push that isn't refused acts in the records before it, and its action says what was accepted.
pub fn pushes_act()
    ensures { (schemas : Schemas) (member : Member) (m : Pairs) (push : Push)
        → AreLawful schemas → AreRising push.diff → is_taken schemas member push ≡ true
        → IsActing schemas m (entry_of schemas member m push) }
{}

/// The document's part of a push's entry is the pushed diff if the result is a commit.
pub fn commits_are_their_push()
    ensures { (schemas : Schemas) (member : Member) (m : Pairs) (push : Push) (author : Author)
        → AreLawful schemas → is_taken schemas member push ≡ true
        → (entry_of schemas member m push).author ≡ Some author → author.action ≡ Commit
        → document_ops schemas (entry_of schemas member m push).diff ≡ push.diff }
{}

/// The entry that removes a session's presence acts.
pub fn removals_act()
    ensures { (schemas : Schemas) → AreLawful schemas → (room : Room) (session : ℕ)
        → IsActing schemas (records_of room.history) (removal session) }
{}

/// Where each entry of a history acts, each of its oldest ones does; so it is with what commits
/// say.
pub fn oldest_act()
    ensures act { (schemas : Schemas) (clock : ℕ) (history : History)
        → AllActing schemas history → AllActing schemas (oldest clock history) }
    ensures commit { (schemas : Schemas) (clock : ℕ) (session : ℕ) (plan : Plan)
        (history : History) → AllCommit schemas session plan history
        → AllCommit schemas session plan (oldest clock history) }
{}
