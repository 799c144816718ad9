//! Touches of listed ids, and what their texts cost without them.
ghost use Rattle.change_list.specs.Changes.{listed, AreUpTo};

use change_list::ChangeList;
use rooms_val::{Mem, Text};
use std::alloc::Global;

/// A list of changes, and a clock that none of them is after.
#[derive(Drop)]
struct Clocked {
    list: ChangeList,
    clock: i64,
    ghost latest: { AreUpTo clock (listed list) },
}

impl Clocked {
    /// A list without ids, with memory for so many.
    fn new(alloc: Global, ids: usize) -> Mem<Clocked> {
        let mut list = ChangeList::new(alloc)?;
        list.reserve(ids)?;
        Ok(Clocked { list, clock: 0 })
    }

    /// Lets an id be live since the next clock.
    fn touch(&mut self, id: Text) -> Mem<()> {
        let clock = self.clock.saturating_add(1);
        self.list.touch(id, clock)?;
        self.clock = clock;
        Ok(())
    }
}

/// Which ids the calls take.
#[derive(Clone, Copy)]
pub(crate) struct Calls {
    /// How many there are.
    pub(crate) count: u32,
    /// How far the id of a call stands from that of the call before: 1 for one after the other.
    pub(crate) step: u32,
}

impl Calls {
    /// The number of a call among so many, or 0 where there are none.
    pub(crate) fn number(self, count: u32, call: u32) -> u32 {
        if count == 0 {
            return 0;
        }
        (u64::from(call) * u64::from(self.step) % u64::from(count)) as u32
    }

    /// The id of a call, where there are ids.
    pub(crate) fn id(self, ids: &[Text], call: u32) -> Option<&Text> {
        let count = ids.len() as u64;
        if count == 0 {
            return None;
        }
        ids.get((u64::from(call) * u64::from(self.step) % count) as usize)
    }
}

/// Touches each id once, and then one of them at each call. It returns the last clock.
pub(crate) fn touch_times(alloc: Global, ids: &[Text], calls: Calls) -> Mem<i64> {
    let mut clocked = Clocked::new(alloc, ids.len())?;
    touch_all(alloc, &mut clocked, ids, calls)
}

/// The same in a list with memory for the ids.
fn touch_all(alloc: Global, clocked: &mut Clocked, ids: &[Text], calls: Calls) -> Mem<i64> {
    for id in ids {
        clocked.touch(id.copy(alloc)?)?;
    }
    for call in 0..calls.count {
        if let Some(id) = calls.id(ids, call) {
            clocked.touch(id.copy(alloc)?)?;
        }
    }
    Ok(clocked.clock)
}

/// Makes the texts of the same calls, and returns how many bytes they have.
pub(crate) fn copy_times(alloc: Global, ids: &[Text], calls: Calls) -> Mem<i64> {
    let mut bytes = 0i64;
    for call in 0..calls.count {
        if let Some(id) = calls.id(ids, call) {
            let text = id.copy(alloc)?;
            bytes = bytes.saturating_add(text.as_str().len().min(64) as i64);
        }
    }
    Ok(bytes)
}
