//! Laws of saved rooms. Each function does nothing: its contract is the law.
ghost use Rattle.room_snapshot.specs.Laws as laws;

/// Each value is that of one saved room with one schema's versions at most, where the tombstones
/// rise by id.
pub fn one_room_each()
    ensures { laws.OneRoomEach }
{}

/// What the contract of `read` says leaves it no choice: the line of a saved room is read as this
/// room with its schema's versions, unless memory is refused.
pub fn reads_the_line()
    ensures { laws.ReadsTheLine }
{}
