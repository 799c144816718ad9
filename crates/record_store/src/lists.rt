//! The lists of a board, as records change.
ghost use Rattle.std.specs.Prelude.{◌≡◌, ◌≤◌, ◌<◌, ◌↔◌, ℕ, List, length, Some, IsTrue, IfOk, OnOk};
ghost use Rattle.std.specs.List.Sorted.{IsPartitionedBy};
ghost use Rattle.rooms_val.specs.Data.{IsSoundRecord, Pairs};
ghost use Rattle.rooms_val.specs.Maps.{value_at, set_at, without_key, with_key};
ghost use Rattle.rooms_val.specs.View.{data_of};
ghost use Rattle.shape_tree.specs.View.{maybe_data};
ghost use Rattle.field_ops.specs.View.{maybe_data as owned_data};
ghost use Rattle.tl_rules.specs.Answers.{ids_in, record_in};
ghost use Rattle.tl_rules.specs.Meaning.{rank_of};
ghost use Rattle.tl_rules.specs.declared.key.TlKey.TheVariants as key_of;
ghost use Rattle.tl_rules.specs.declared.value.TlValue.TheVariants as told;
ghost use Rattle.tl_rules.specs.declared.listing.Listing.{Listing as Kind};
ghost use Rattle.tl_rules.specs.ListLaws.{IsPlaceAmong};
ghost use Rattle.tl_rules.specs.Listings.{is_before};
ghost use Rattle.record_store.specs.Kept.{IsBoard};
ghost use Rattle.record_store.specs.Seen.{AreKeys};
ghost use Rattle.record_store.specs.Lists.{atoms_of, records_of, place_at, AreLists, HasRecords, IsBeforeAt, AreBefore, AreBehind, IsListOf, StandAlike, IsMoved, IsRelisted, IsWritten, IsTold, AreTold, ChangesOnly};

use crate::keys::Keys;
use rooms_val::{Mem, Text, Val};
use signal_txn::Txn;
use std::alloc::Global;
use tl_rules::{Ids, Listing, TlKey, TlRules, TlValue, with_id, without_id};

// The record that an atom has, if there is one.
pub(crate) fn record_of<'a>(graph: &'a Txn<TlRules>, key: &TlKey) -> Option<&'a Val>
    requires { rank_of key.now ≡ 0 }
    ensures { maybe_data result ≡ record_in (atoms_of graph.now key.now) }
{
    graph.atom(key)?.record()
}

// The record under an id, if there is one.
pub(crate) fn record_at<'a>(graph: &'a Txn<TlRules>, keys: &Keys, id: &str) -> Option<&'a Val>
    ensures found { maybe_data result ≡ value_at (records_of keys.now graph.now) id.now }
    ensures keys { AreKeys keys.now }
{
    record_of(graph, keys.get(id)?)
}

// The record under an id, if there is one. It costs one look-up.
fn record_under<'a>(alloc: Global, graph: &'a Txn<TlRules>, id: &Text) -> Mem<Option<&'a Val>>
    ensures { IfOk result (λ r. maybe_data r
        ≡ record_in (atoms_of graph.now (key_of.Rec id.now))) }
{
    let key = TlKey::Rec(id.copy(alloc)?);
    let found = record_of(graph, &key);
    drop(key);
    Ok(found)
}

// The ids that an atom lists.
fn ids_at(graph: &Txn<TlRules>, key: &TlKey) -> Mem<Ids>
    requires { rank_of key.now ≡ 0 }
    ensures { IfOk result (λ ids. ids ≡ ids_in (atoms_of graph.now key.now)) }
{
    match graph.atom(key) {
        Some(value) => value.ids(),
        None => Ok(Ids::new()),
    }
}

// Whether the id at a place stands before a record of an index and an id. It costs one look-up.
fn is_before_at(
    alloc: Global,
    graph: &Txn<TlRules>,
    listing: Listing,
    ids: &Ids,
    at: usize,
    index: &str,
    id: &str,
) -> Mem<bool>
    requires { at < length ids.now }
    ensures { IfOk result
        (IsBeforeAt listing graph.now (place_at index.now id.now) ids.now at) }
{
    let Some(other) = ids.get(at) else {
        unreachable!();
    };
    let there = record_under(alloc, graph, other)?;
    Ok(listing.is_before(there, other.as_str(), index, id))
}

// A guess of a place, if the id before it stands before the record, and else the start.
fn least_place(
    alloc: Global,
    graph: &Txn<TlRules>,
    listing: Listing,
    ids: &Ids,
    guess: usize,
    index: &str,
    id: &str,
) -> Mem<usize>
    requires { guess ≤ length ids.now }
    ensures order { IfOk result (λ low. low ≤ guess) }
    ensures before { IfOk result
        (AreBefore listing graph.now (place_at index.now id.now) ids.now) }
{
    if guess == 0 {
        return Ok(0);
    }
    if is_before_at(alloc, graph, listing, ids, guess - 1, index, id)? {
        return Ok(guess);
    }
    Ok(0)
}

// A guess of a place, if the id there doesn't stand before the record, and else the end.
fn most_place(
    alloc: Global,
    graph: &Txn<TlRules>,
    listing: Listing,
    ids: &Ids,
    guess: usize,
    index: &str,
    id: &str,
) -> Mem<usize>
    requires { guess ≤ length ids.now }
    ensures order { IfOk result (λ high. guess ≤ high) }
    ensures within { IfOk result (λ high. high ≤ length ids.now) }
    ensures behind { IfOk result
        (AreBehind listing graph.now (place_at index.now id.now) ids.now) }
{
    if guess == ids.len() {
        return Ok(guess);
    }
    if is_before_at(alloc, graph, listing, ids, guess, index, id)? {
        return Ok(ids.len());
    }
    Ok(guess)
}

// Where a record of an index and an id stands among ids, or would stand. It costs two look-ups where the guess is right, and
// one more for each halving where it isn't.
fn place_among(
    alloc: Global,
    graph: &Txn<TlRules>,
    listing: Listing,
    ids: &Ids,
    index: &str,
    id: &str,
) -> Mem<usize>
    ensures bound { IfOk result (λ place. place ≤ length ids.now) }
    ensures place { IfOk result (λ place. (m : Pairs) → HasRecords graph.now m
        → IsPartitionedBy (is_before listing m (place_at index.now id.now)) ids.now
        → IsPlaceAmong listing m (place_at index.now id.now) ids.now place) }
{
    let guess = ids.guess(index, id);
    let mut low = least_place(alloc, graph, listing, ids, guess, index, id)?;
    let mut high = most_place(alloc, graph, listing, ids, guess, index, id)?;
    'halves: while low < high {
        let middle = low + (high - low) / 2;
        if is_before_at(alloc, graph, listing, ids, middle, index, id)? {
            low = middle + 1;
            continue;
        }
        high = middle;
    }
    Ok(low)
}

// Takes an id out of the list in which its record stands, which is this. It costs a copy of a part of the list.
fn unlist(
    alloc: Global,
    graph: &mut Txn<TlRules>,
    keys: &Keys,
    listing: Listing,
    id: &str,
    stored: &Val,
) -> Mem<()>
    requires records { HasRecords graph.old (records_of keys.now graph.old) }
    requires lists { AreLists listing graph.old (records_of keys.now graph.old) }
    requires there { value_at (records_of keys.now graph.old) id.now ≡ Some (data_of stored.now) }
    ensures lists { OnOk result
        (AreLists listing graph.new (without_key (records_of keys.now graph.old) id.now)) }
    ensures left { ChangesOnly (IsListOf listing id.now (Some (data_of stored.now)))
        graph.old graph.new }
{
    let Some(owner) = listing.owner(id, stored) else {
        return Ok(());
    };
    let key = listing.key(alloc, owner)?;
    let ids = ids_at(graph, &key)?;
    let place = place_among(alloc, graph, listing, &ids, listing.index(stored), id)?;
    let rest = without_id(alloc, &ids, place)?;
    set_atom(alloc, graph, key, TlValue::Ids(rest))
}

// Puts an id into the list in which its record is to stand, which is this. It costs a copy of a part of the list.
fn enlist(
    alloc: Global,
    graph: &mut Txn<TlRules>,
    keys: &Keys,
    listing: Listing,
    id: &str,
    stored: &Val,
) -> Mem<()>
    requires records { HasRecords graph.old (records_of keys.now graph.old) }
    requires lists { AreLists listing graph.old
        (without_key (records_of keys.now graph.old) id.now) }
    ensures lists { OnOk result (AreLists listing graph.new
        (with_key (records_of keys.now graph.old) id.now (data_of stored.now))) }
    ensures left { ChangesOnly (IsListOf listing id.now (Some (data_of stored.now)))
        graph.old graph.new }
{
    let Some(owner) = listing.owner(id, stored) else {
        return Ok(());
    };
    let key = listing.key(alloc, owner)?;
    let ids = ids_at(graph, &key)?;
    let place = place_among(alloc, graph, listing, &ids, listing.index(stored), id)?;
    let more = with_id(alloc, &ids, place, id, listing.index(stored))?;
    set_atom(alloc, graph, key, TlValue::Ids(more))
}

// Sets an atom.
fn set_atom(alloc: Global, graph: &mut Txn<TlRules>, key: TlKey, value: TlValue) -> Mem<()>
    requires { rank_of key ≡ 0 }
    ensures ok { OnOk result (atoms_of graph.new key ≡ value) }
    ensures left { ChangesOnly (λ k. k ≡ key) graph.old graph.new }
    ensures told { OnOk result (IsTold key value graph.old graph.new) }
{
    let _ = graph.set(alloc, key, value)?;
    Ok(())
}

// Whether a record stands in its list where another does under the same id.
fn stands_alike(listing: Listing, id: &str, before: &Val, after: &Val) -> bool
    ensures { IsTrue result ↔ StandAlike listing id.now (data_of before.now) (data_of after.now) }
{
    listing.owner(id, before) == listing.owner(id, after)
        && listing.index(before) == listing.index(after)
}

// Moves an id from the list in which its record stands to the one where the record is to stand that follows. It costs what
// both cost, and nothing where that is to stand as the record does.
fn move_id(
    alloc: Global,
    graph: &mut Txn<TlRules>,
    keys: &Keys,
    listing: Listing,
    id: &str,
    before: &Val,
    after: &Val,
) -> Mem<()>
    requires keys { AreKeys keys.now }
    requires records { HasRecords graph.old (records_of keys.now graph.old) }
    requires lists { AreLists listing graph.old (records_of keys.now graph.old) }
    requires there { value_at (records_of keys.now graph.old) id.now ≡ Some (data_of before.now) }
    ensures lists { OnOk result (AreLists listing graph.new
        (with_key (records_of keys.now graph.old) id.now (data_of after.now))) }
    ensures left { ChangesOnly
        (IsMoved listing id.now (Some (data_of before.now)) (Some (data_of after.now)))
        graph.old graph.new }
{
    if stands_alike(listing, id, before, after) {
        return Ok(());
    }
    unlist(alloc, graph, keys, listing, id, before)?;
    enlist(alloc, graph, keys, listing, id, after)
}

// Moves an id from the list in which its record stands, if there is one, to that in which the record is to stand that
// follows, if there is one.
fn relist(
    alloc: Global,
    graph: &mut Txn<TlRules>,
    keys: &Keys,
    listing: Listing,
    id: &str,
    before: &Option<Val>,
    after: &Option<Val>,
) -> Mem<()>
    requires keys { AreKeys keys.now }
    requires records { HasRecords graph.old (records_of keys.now graph.old) }
    requires lists { AreLists listing graph.old (records_of keys.now graph.old) }
    requires there { value_at (records_of keys.now graph.old) id.now ≡ owned_data before.now }
    ensures lists { OnOk result (AreLists listing graph.new
        (set_at (records_of keys.now graph.old) id.now (owned_data after.now))) }
    ensures left { ChangesOnly
        (IsMoved listing id.now (owned_data before.now) (owned_data after.now))
        graph.old graph.new }
{
    match before {
        Some(old) => {
            match after {
                Some(new) => move_id(alloc, graph, keys, listing, id, old, new),
                None => unlist(alloc, graph, keys, listing, id, old),
            }
        }
        None => {
            match after {
                Some(new) => enlist(alloc, graph, keys, listing, id, new),
                None => Ok(()),
            }
        }
    }
}

// The same in each kind of lists.
fn relist_all(
    alloc: Global,
    graph: &mut Txn<TlRules>,
    keys: &Keys,
    id: &str,
    before: &Option<Val>,
    after: &Option<Val>,
) -> Mem<()>
    requires keys { AreKeys keys.now }
    requires records { HasRecords graph.old (records_of keys.now graph.old) }
    requires lists { (l : Kind) → AreLists l graph.old (records_of keys.now graph.old) }
    requires there { value_at (records_of keys.now graph.old) id.now ≡ owned_data before.now }
    ensures lists { OnOk result ((l : Kind) → AreLists l graph.new
        (set_at (records_of keys.now graph.old) id.now (owned_data after.now))) }
    ensures left { ChangesOnly
        (IsRelisted id.now (owned_data before.now) (owned_data after.now)) graph.old graph.new }
{
    relist(alloc, graph, keys, Listing::Children, id, before, after)?;
    relist(alloc, graph, keys, Listing::BoundFrom, id, before, after)?;
    relist(alloc, graph, keys, Listing::BoundTo, id, before, after)
}

// Sets the record of an id, which has a key, and all lists with it, and gives the record before. Where memory is refused
// some of that is done.
pub(crate) fn write_all(
    alloc: Global,
    graph: &mut Txn<TlRules>,
    keys: &Keys,
    id: &str,
    after: Option<Val>,
) -> Mem<Option<Val>>
    requires known { value_at keys.now id.now ≡ Some (key_of.Rec id.now) }
    requires board { IsBoard keys.now (atoms_of graph.old) }
    ensures old { IfOk result (λ r. owned_data r
        ≡ value_at (records_of keys.now graph.old) id.now) }
    ensures ok { OnOk result
        (records_of keys.now graph.new
        ≡ set_at (records_of keys.now graph.old) id.now (owned_data after)) }
    ensures board { OnOk result (IsBoard keys.now (atoms_of graph.new)) }
    ensures left { ChangesOnly (IsWritten id.now
        (value_at (records_of keys.now graph.old) id.now) (owned_data after)) graph.old graph.new }
    ensures told { OnOk result (AreTold keys.now graph.old graph.new) }
{
    tell_sound(&after);
    keys.tell();
    let key = TlKey::Rec(Text::of(alloc, id)?);
    let before = Val::copy_of(alloc, record_of(graph, &key))?;
    relist_all(alloc, graph, keys, id, &before, &after)?;
    set_atom(alloc, graph, key, TlValue::Rec(after))?;
    Ok(before)
}

// That a record is sound is told by its kind.
fn tell_sound(stored: &Option<Val>)
    ensures { IsSoundRecord (owned_data stored.now) }
{
    if let Some(val) = stored {
        let _ = val.kind();
    }
}
