//! Which dead changes are kept, and how the others are dropped.
ghost use Rattle.std.specs.Prelude.{◌≡◌, ℕ, ◌<◌, length, slice_index_or, filter, vec_capacity, Contains};
ghost use Rattle.links_core.specs.Lists.{list_at, AreSound};
ghost use Rattle.change_list.specs.Changes.{blank, HasRisingClocks};
ghost use Rattle.change_list.specs.Kept.{changes_at, AreFreed, stays_at};

use crate::entries::{Change, clock_of, is_after};
use links_core::{Links, ListId};
use room_model::limits;

/// How many may be dead before some are dropped.
pub(crate) const MOST_DEAD: usize = limits::MOST_DEAD as usize;

/// How many dead ones are kept at most, and more only if they share a clock.
pub(crate) const KEPT_DEAD: usize = limits::KEPT_DEAD as usize;

/// The clock of the change at a place of a list, counted from 0.
pub(crate) fn clock_at(links: &Links, list: ListId, entries: &[Change], place: usize) -> i64
    requires list { list.number < length links.now.lists }
    requires made { (node : ℕ) → Contains (list_at links.now.lists list.number) node
        → node < length entries.now }
    requires place { place < length (list_at links.now.lists list.number) }
    ensures { result ≡ (slice_index_or
        (changes_at entries.now (list_at links.now.lists list.number)) place blank).clock }
{
    let mut at = links.first(list);
    'forward: for _ in 0..place {
        let Some(node) = at else {
            unreachable!();
        };
        at = links.next(node);
    }
    match at {
        Some(node) => clock_of(entries, node),
        None => unreachable!(),
    }
}

/// Frees the first nodes of a list up to a clock.
pub(crate) fn free_up_to(
    links: &mut Links,
    list: ListId,
    free: ListId,
    entries: &[Change],
    clock: i64,
    count: &mut usize,
)
    requires list { list.number ≡ 1 }
    requires free { free.number ≡ 2 }
    requires three { length links.old.lists ≡ 3 }
    requires sound { AreSound links.old.lists (length entries.now) }
    requires count { links.old.count ≡ length entries.now }
    requires rising { HasRisingClocks (changes_at entries.now (list_at links.old.lists 1)) }
    requires counted { count.old ≡ length (list_at links.old.lists 1) }
    ensures freed { AreFreed links.old.lists links.new.lists entries.now clock count.new }
    ensures made { links.new.count ≡ links.old.count }
    ensures spare { links.new.spare ≡ links.old.spare }
{
    'dropped: while let Some(node) = links.first(list) {
        let late = is_after(entries, node, clock);
        if late {
            return;
        }
        links.unlink(node);
        links.push_back(free, node);
        *count -= 1;
    }
}

/// Whether a node stays in the order after a pruning up to a clock.
fn stays(entries: &[Change], node: usize, clock: i64) -> bool
    ensures { result ≡ stays_at entries.now clock node }
{
    match entries.get(node) {
        Some(entry) => entry.live || clock < entry.clock,
        None => false,
    }
}

/// Takes the nodes out of the order that are dead up to a clock.
pub(crate) fn forget_up_to(order: &mut Vec<usize>, entries: &[Change], clock: i64)
    ensures items { order.new.items ≡ filter (stays_at entries.now clock) order.old.items }
    ensures room { vec_capacity order.new ≡ vec_capacity order.old }
{
    order.retain(|node| stays(entries, *node, clock));
}
