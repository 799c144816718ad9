//! The changes after a clock, from the end of a list.
ghost use Rattle.std.specs.Prelude.{◌≡◌, ℕ, ◌+◌, ◌<◌, ◌≤◌, ◌++◌, length, reverse, filter, Contains, OnOk, OnErr, IsPermutation, IsSortedBy};
ghost use Rattle.links_core.specs.Lists.{list_at};
ghost use Rattle.change_list.specs.Changes.{is_after, is_below, HasRisingClocks};
ghost use Rattle.change_list.specs.Kept.{changes_at};

use crate::entries::{Change, is_after};
use links_core::{Links, ListId};
use rooms_val::{Mem, Steps};
use std::alloc::Global;
use std::sync::ledger::Ledger;

/// Adds copies of the changes of a list after a clock, the last one first, and ticks one for each.
pub(crate) fn gather<L: Ledger>(
    alloc: Global,
    links: &Links,
    list: ListId,
    entries: &[Change],
    clock: i64,
    found: &mut Vec<Change>,
    steps: &mut Steps<L>,
) -> Mem<()>
    requires list { list.number < length links.now.lists }
    requires made { (node : ℕ) → Contains (list_at links.now.lists list.number) node
        → node < length entries.now }
    requires rising { HasRisingClocks
        (changes_at entries.now (list_at links.now.lists list.number)) }
    ensures ok { OnOk result (found.new.items
        ≡ found.old.items ++ reverse (filter (is_after clock)
        (changes_at entries.now (list_at links.now.lists list.number)))) }
    ensures ticked { OnOk result (steps.new ≡ steps.old + length (filter (is_after clock)
        (changes_at entries.now (list_at links.now.lists list.number)))) }
    ensures untold { OnErr result (steps.new ≤ steps.old + length (filter (is_after clock)
        (changes_at entries.now (list_at links.now.lists list.number)))) }
{
    let mut at = links.last(list);
    'back: while let Some(node) = at {
        let late = is_after(entries, node, clock);
        if !late {
            return Ok(());
        }
        found.push(entries[node].copy(alloc)?)?;
        steps.tick();
        at = links.prev(node);
    }
    Ok(())
}

/// Sorts changes by their ids.
pub(crate) fn sort(changes: &mut Vec<Change>) -> Mem<()>
    ensures same { OnOk result (IsPermutation changes.old.items changes.new.items) }
    ensures rising { OnOk result (IsSortedBy is_below changes.new.items) }
{
    changes.sort_by(|left, right| left.id.as_str().cmp(&right.id.as_str()))?;
    Ok(())
}
