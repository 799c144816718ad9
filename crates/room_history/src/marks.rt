//! What an entry makes of the changes of ids.
ghost use Rattle.std.specs.Prelude.{◌≡◌, ◌≤◌, ◌<◌, ◌+◌, length, IsTrue, ◌||◌, IfOk};
ghost use Rattle.std.specs.List.{list_all};
ghost use Rattle.rooms_val.specs.Maps.{AreRising, seen};
ghost use Rattle.field_ops.specs.View.{maybe_data};
ghost use Rattle.change_list.specs.Changes.{listed, AreUpTo};
ghost use Rattle.room_history.specs.Marks.{marks_of, is_listed, mark_one, mark_all};

use change_list::ChangeList;
use rooms_val::{Mem, Text, Val};
use std::alloc::Global;

// Copies of the ids, each with whether a record is left under it.
pub(crate) fn marks(alloc: Global, left: &[(Text, Option<Val>)]) -> Mem<Vec<(Text, bool)>>
    ensures { IfOk result (λ marks. marks.items ≡ marks_of (seen maybe_data left.now)) }
{
    let mut marks = Vec::with_capacity(alloc, left.len())?;
    'ids: for (id, stored) in left {
        marks.push((id.copy(alloc)?, stored.is_some()))?;
    }
    Ok(marks)
}

// Lets each id be live or dead since a clock. It takes no memory, which was reserved.
pub(crate) fn mark_all(changes: &mut ChangeList, marks: Vec<(Text, bool)>, clock: i64)
    requires rising { AreRising marks.items }
    requires latest { AreUpTo clock (listed changes.old) }
    requires live { IsTrue (list_all
        (λ mark. mark.1 || is_listed changes.old.live mark.0) marks.items) }
    requires spare { length marks.items ≤ changes.old.spare }
    ensures lists { (changes.new.live, changes.new.dead)
        ≡ mark_all clock marks.items (changes.old.live, changes.old.dead) }
    ensures start { changes.new.start ≡ changes.old.start }
{
    'marks: for (id, live) in marks {
        mark_one(changes, id, live, clock);
    }
}

// Lets an id be live or dead since a clock. It takes no memory, which was reserved.
fn mark_one(changes: &mut ChangeList, id: Text, live: bool, clock: i64)
    requires latest { AreUpTo clock (listed changes.old) }
    requires live { IsTrue (live || is_listed changes.old.live id) }
    requires spare { 0 < changes.old.spare }
    ensures lists { (changes.new.live, changes.new.dead)
        ≡ mark_one clock id live (changes.old.live, changes.old.dead) }
    ensures start { changes.new.start ≡ changes.old.start }
    ensures spare { changes.old.spare ≤ changes.new.spare + 1 }
{
    if live {
        let _ = changes.touch(id, clock);
    } else {
        changes.bury(id.as_str(), clock);
    }
}
