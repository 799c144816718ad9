//! What changed since a clock, after touches, burials and a pruning. That `since` ticks once for
//! each change and once more is one of its clauses; a counter of steps has no number when the
//! program runs.
ghost use Rattle.std.specs.Prelude.{◌≡◌, ◌<◌, pos, IfOk};
ghost use Rattle.change_list.specs.Changes.{listed, AreUpTo};

use change_list::{Change, ChangeList};
use rooms_val::{Mem, Steps, Text};
use std::alloc::Global;
use std::marker::Brand;
use std::process::Abort;
use std::sync::ledger::{Blank, Ledger};
use std::test::Fail;

fn since_in<L: Ledger>(
    blank: Blank,
    alloc: Global,
    list: &ChangeList,
    clock: i64,
) -> Mem<Vec<Change>>
    requires name { blank.name ≡ L.name }
    requires parts { blank.parts ≡ L.parts }
    requires some { 0 < blank.parts }
{
    let mut steps = Steps::<L>::new(blank);
    list.since(alloc, clock, &mut steps)
}

// The changes after a clock. The steps are counted for nobody.
fn since(alloc: Global, list: &ChangeList, clock: i64) -> Mem<Vec<Change>> {
    since_in::<Brand>(Blank::new(1), alloc, list, clock)
}

// The changes after a clock, each as its id, whether it is live, and its clock.
fn changes_text(alloc: Global, list: &ChangeList, clock: i64) -> Result<String, Fail> {
    let mut text = String::new(alloc);
    for change in &since(alloc, list, clock)? {
        let state = if change.live { "live" } else { "dead" };
        let part = format!(in alloc; "{} {state} {};", change.id.as_str(), change.clock)?;
        text.push_str(part.as_str())?;
    }
    Ok(text)
}

// A list where `a` was touched at 1, `b` at 2, and `a` buried at 3.
fn two_touched_and_one_buried(alloc: Global) -> Mem<ChangeList>
    ensures { IfOk result (λ list. AreUpTo (pos 3) (listed list)) }
{
    let mut list = ChangeList::new(alloc)?;
    list.reserve(2)?;
    list.touch(Text::of(alloc, "a")?, 1)?;
    list.touch(Text::of(alloc, "b")?, 2)?;
    list.bury("a", 3);
    Ok(list)
}

// A list of changes, and a clock that none of them is after.
#[derive(Drop)]
struct Clocked {
    list: ChangeList,
    clock: i64,
    ghost latest: { AreUpTo clock (listed list) },
}

impl Clocked {
    // Touches a new id at the next clock, and buries it at the same one.
    fn bury_next(&mut self, alloc: Global) -> Mem<()> {
        let clock = self.clock.saturating_add(1);
        let id = format!(in alloc; "shape:{clock}")?;
        self.list.touch(Text::of(alloc, id.as_str())?, clock)?;
        self.list.bury(id.as_str(), clock);
        self.clock = clock;
        Ok(())
    }

    // Drops the oldest dead where there are too many, and tells whether it did.
    fn prune(&mut self) -> bool {
        self.list.prune()
    }
}

// That list where `a` was touched again at 4.
fn touched_again(alloc: Global) -> Mem<ChangeList> {
    let mut list = two_touched_and_one_buried(alloc)?;
    list.touch(Text::of(alloc, "a")?, 4)?;
    Ok(list)
}

// What is told of a list since a clock.
struct Telling {
    // Whether it is the list where `a` was touched again.
    again: bool,
    // The clock.
    clock: i64,
    // The changes.
    wanted: &'static str,
}

const TELLINGS: [Telling; 4] = [
    Telling {
        again: false,
        clock: 1,
        wanted: "a dead 3;b live 2;",
    },
    Telling {
        again: false,
        clock: 2,
        wanted: "a dead 3;",
    },
    Telling {
        again: false,
        clock: 3,
        wanted: "",
    },
    Telling {
        again: true,
        clock: 0,
        wanted: "a live 4;b live 2;",
    },
];

// What is told of one of the lists since a clock.
fn told_of(alloc: Global, again: bool, clock: i64) -> Result<String, Fail> {
    if again {
        return changes_text(alloc, &touched_again(alloc)?, clock);
    }
    changes_text(alloc, &two_touched_and_one_buried(alloc)?, clock)
}

// Asserts what is told.
fn tells(rt: &impl Abort, alloc: Global, table: &[Telling]) -> Result<(), Fail> {
    for row in table {
        let found = told_of(alloc, row.again, row.clock)?;
        assert_eq!(rt; found.as_str(), row.wanted);
    }
    Ok(())
}

#[test]
fn tells_what_changed_since_a_clock(rt: HostRuntime) -> Result<(), Fail> {
    tells(&rt, rt.alloc(), &TELLINGS)
}

// A pruning after so many more burials.
struct Pruning {
    // How many more are buried.
    buried: u32,
    // Whether some are dropped.
    drops: bool,
    // How many changes there are then, all of them after the clock where the dead begin.
    count: usize,
    // The clock where the dead begin.
    start: i64,
}

const PRUNINGS: [Pruning; 3] = [
    Pruning {
        buried: 3_000,
        drops: false,
        count: 3_000,
        start: 0,
    },
    Pruning {
        buried: 1,
        drops: true,
        count: 2_700,
        start: 301,
    },
    Pruning {
        buried: 0,
        drops: false,
        count: 2_700,
        start: 301,
    },
];

// Buries so many new ids.
fn bury(clocked: &mut Clocked, alloc: Global, count: u32) -> Mem<()> {
    for _ in 0..count {
        clocked.bury_next(alloc)?;
    }
    Ok(())
}

// How many changes a list has after a clock.
fn count_since(alloc: Global, list: &ChangeList, clock: i64) -> Mem<usize> {
    Ok(since(alloc, list, clock)?.len())
}

// Asserts what each pruning leaves of a list.
fn prunes(rt: &impl Abort, alloc: Global, table: &[Pruning]) -> Result<(), Fail> {
    let mut clocked = Clocked {
        list: ChangeList::new(alloc)?,
        clock: 0,
    };
    for row in table {
        bury(&mut clocked, alloc, row.buried)?;
        assert_eq!(rt; clocked.prune(), row.drops);
        assert_eq!(rt; clocked.list.starts_at(), row.start);
        assert_eq!(rt; count_since(alloc, &clocked.list, 0)?, row.count);
        assert_eq!(rt; count_since(alloc, &clocked.list, row.start)?, row.count);
    }
    Ok(())
}

#[test]
fn prunes_where_more_than_three_thousand_are_dead(rt: HostRuntime) -> Result<(), Fail> {
    prunes(&rt, rt.alloc(), &PRUNINGS)
}
