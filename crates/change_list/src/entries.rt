//! The changes by node, and the order of their ids.
ghost use Rattle.std.specs.Prelude.{◌≡◌, true, false, ◌≢◌, ℕ, ◌+◌, ◌-◌, ◌<◌, ◌≤◌, length, map, insert, slice_set, vec_len, vec_capacity, Contains, IsOk, IfOk, IfErr, OnOk, OnErr};
ghost use Rattle.std.specs.Ordering.{nat_cmp};
ghost use Rattle.std.specs.Cmp.Lexicographic.{slice_cmp};
ghost use Rattle.rooms_val.specs.Places.{IsPlace, IsGap};
ghost use Rattle.links_core.specs.Lists.{list_at, without, IsLinked, AreSound};
ghost use Rattle.change_list.specs.Changes.{is_after};
ghost use Rattle.change_list.specs.Kept.{entry_at, keyed, HasRisingIds, IsTaken, moved};

use links_core::{Links, ListId};
use rooms_val::{Mem, Text};
use std::alloc::Global;
use std::cmp::Ordering;

/// An id, the clock of its last change, and whether it is there since.
#[derive(Drop)]
pub struct Change {
    pub id: Text,
    pub clock: i64,
    pub live: bool,
}

impl Change {
    /// An equal change.
    pub fn copy(&self, alloc: Global) -> Mem<Change>
        ensures { IfOk result (λ change. change ≡ self.now) }
    {
        Ok(Change {
            id: self.id.copy(alloc)?,
            clock: self.clock,
            live: self.live,
        })
    }
}

/// The clock of a node.
pub(crate) fn clock_of(entries: &[Change], node: usize) -> i64
    requires { node < length entries.now }
    ensures { result ≡ (entry_at entries.now node).clock }
{
    entries[node].clock
}

/// Whether a node changed after a clock.
pub(crate) fn is_after(entries: &[Change], node: usize, clock: i64) -> bool
    requires { node < length entries.now }
    ensures { result ≡ is_after clock (entry_at entries.now node) }
{
    clock < entries[node].clock
}

/// How many are dead once a node isn't.
pub(crate) fn dead_without(entries: &[Change], node: usize, dead_count: usize) -> usize
    requires made { node < length entries.now }
    requires counted { (entry_at entries.now node).live ≡ false → 0 < dead_count }
    ensures live { (entry_at entries.now node).live ≡ true → result ≡ dead_count }
    ensures dead { (entry_at entries.now node).live ≡ false → result + 1 ≡ dead_count }
{
    if entries[node].live {
        return dead_count;
    }
    dead_count - 1
}

/// How the id of a node compares with another id. A node that isn't there has the empty id.
fn compare(entries: &[Change], node: usize, id: &str) -> Ordering
    ensures { result ≡ slice_cmp nat_cmp (entry_at entries.now node).id id.now }
{
    match entries.get(node) {
        Some(entry) => entry.id.as_str().cmp(&id),
        None => "".cmp(&id),
    }
}

/// Where an id stands in the order, or where it would go. It costs a logarithm.
pub(crate) fn place_of(entries: &[Change], order: &[usize], id: &str) -> Result<usize, usize>
    requires { HasRisingIds entries.now order.now }
    ensures found { IfOk result (IsPlace (keyed entries.now order.now) id.now) }
    ensures absent { IfErr result (IsGap (keyed entries.now order.now) id.now) }
{
    order.binary_search_by(|node| compare(entries, *node, id))
}

/// Puts a linked node at the end of a list, with another clock and whether it is live.
pub(crate) fn move_to(
    links: &mut Links,
    entries: &mut [Change],
    node: usize,
    list: ListId,
    clock: i64,
    live: bool,
)
    requires linked { IsLinked links.old.lists node }
    requires list { list.number < length links.old.lists }
    requires sound { AreSound links.old.lists (length entries.old) }
    requires count { links.old.count ≡ length entries.old }
    ensures lists { links.new.lists ≡ moved node list.number links.old.lists }
    ensures sound { AreSound links.new.lists (length entries.new) }
    ensures count { links.new.count ≡ length entries.new }
    ensures spare { links.new.spare ≡ links.old.spare }
    ensures entries { entries.new ≡ slice_set entries.old node
        (record (entry_at entries.old node) { clock = clock; live = live }) }
{
    links.unlink(node);
    let entry = &mut entries[node];
    entry.clock = clock;
    entry.live = live;
    links.push_back(list, node);
}

/// An unlinked node for a new change: one that is free, or else a new one.
pub(crate) fn take_node(
    links: &mut Links,
    free: ListId,
    entries: &mut Vec<Change>,
    change: Change,
) -> Mem<usize>
    requires free { free.number < length links.old.lists }
    requires sound { AreSound links.old.lists (length entries.old.items) }
    requires count { links.old.count ≡ length entries.old.items }
    ensures ok { IfOk result (IsTaken links.old.lists links.new.lists free.number
        entries.old.items entries.new.items change) }
    ensures err { OnErr result
        ((links.new.lists ≡ links.old.lists) × (entries.new.items ≡ entries.old.items)) }
    ensures count { links.new.count ≡ length entries.new.items }
    ensures sure { 0 < links.old.spare → vec_len entries.old < vec_capacity entries.old
        → IsOk result }
    ensures spare { links.old.spare ≤ links.new.spare + 1 }
    ensures room { vec_capacity entries.old - vec_len entries.old
        ≤ vec_capacity entries.new - vec_len entries.new + 1 }
    ensures kept { OnErr result ((links.old.spare ≤ links.new.spare)
        × (vec_capacity entries.old - vec_len entries.old
        ≤ vec_capacity entries.new - vec_len entries.new)) }
{
    if let Some(node) = links.first(free) {
        links.unlink(node);
        entries[node] = change;
        return Ok(node);
    }
    entries.reserve(1)?;
    let node = links.node()?;
    entries.push_reserved(change);
    Ok(node)
}

/// Puts a node into the order, where there is room.
pub(crate) fn insert_node(order: &mut Vec<usize>, place: usize, node: usize)
    requires place { place ≤ vec_len order.old }
    requires room { vec_len order.old < vec_capacity order.old }
    ensures items { order.new.items ≡ insert order.old.items place node }
    ensures room { vec_capacity order.old - vec_len order.old
        ≤ vec_capacity order.new - vec_len order.new + 1 }
{
    let _ = order.insert(place, node);
}
