//! Lists of ids with one more id, and with one less.
ghost use Rattle.std.specs.Prelude.{◌≡◌, ◌≤◌, ◌<◌, ◌+◌, ◌++◌, length, take, drop, map, IfOk, OnOk};
ghost use Rattle.std.specs.List.{insert, remove};
ghost use Rattle.tl_rules.specs.Ids.{flat};
ghost use Rattle.tl_rules.specs.Parts.{IsIn};

use crate::ids::{Ids, Part};
use rooms_val::{Mem, Text};
use std::alloc::Global;

// How many ids stand together before they are parted.
const MOST_TOGETHER: usize = 128;

/// The ids with one more at a place, with a hint beside it (`Ids::guess`).
///
/// The place is at most the number of ids. It costs a copy of the part that the id joins, and a look at each other part;
/// these are shared. Parts have at most 128 ids in a list that [`with_id`] and [`without_id`] alone made of the empty one.
/// A part that `Ids::of` or `Part::of` made may have any number.
///
/// # Errors
///
/// Memory was refused.
pub fn with_id(alloc: Global, ids: &Ids, place: usize, id: &str, hint: &str) -> Mem<Ids>
    requires { place ≤ length ids.now }
    ensures { IfOk result (λ copy. copy ≡ insert ids.now place id.now) }
{
    let all = ids.parts();
    let (at, offset) = part_at(all, place, 0);
    let items = with_one(alloc, ids_of(all, at), offset, id)?;
    let others = hints_of(all, at);
    let hints = with_one(alloc, others, offset.min(others.len()), hint)?;
    let more = with_part(alloc, all, at, items, hints)?;
    Ok(more)
}

/// The ids without the one at a place.
///
/// The place is below the number of ids. It costs a copy of the part that the id leaves, and a look at each other part;
/// these are shared.
///
/// # Errors
///
/// Memory was refused.
pub fn without_id(alloc: Global, ids: &Ids, place: usize) -> Mem<Ids>
    requires { place < length ids.now }
    ensures { IfOk result (λ copy. copy ≡ remove ids.now place) }
{
    let all = ids.parts();
    let (at, offset) = part_at(all, place, 1);
    let items = without_one(alloc, ids_of(all, at), offset)?;
    let hints = without_hint(alloc, hints_of(all, at), offset)?;
    let less = with_part(alloc, all, at, items, hints)?;
    Ok(less)
}

// Copies of the ids or hints of a part, with one more at a place.
fn with_one(alloc: Global, part: &[Text], place: usize, id: &str) -> Mem<Vec<Text>>
    requires { place ≤ length part.now }
    ensures { IfOk result (λ items. items.items ≡ insert part.now place id.now) }
{
    let (before, after) = part.split_at(place);
    let mut items = Vec::with_capacity(alloc, part.len() + 1)?;
    add_copies(alloc, &mut items, before)?;
    items.push(Text::of(alloc, id)?)?;
    add_copies(alloc, &mut items, after)?;
    Ok(items)
}

// Copies of the ids of a part, without the one at a place.
fn without_one(alloc: Global, part: &[Text], place: usize) -> Mem<Vec<Text>>
    requires { place < length part.now }
    ensures { IfOk result (λ items. items.items ≡ remove part.now place) }
{
    let mut items = Vec::with_capacity(alloc, part.len() - 1)?;
    add_copies(alloc, &mut items, &part[..place])?;
    add_copies(alloc, &mut items, &part[place + 1..])?;
    Ok(items)
}

// Copies of the hints of a part, without the one at a place; none where there is none there.
fn without_hint(alloc: Global, hints: &[Text], place: usize) -> Mem<Vec<Text>> {
    if place < hints.len() {
        without_one(alloc, hints, place)
    } else {
        Ok(Vec::new(alloc))
    }
}

// The part in which a place is, and where in it; a part with so many ids from there on.
fn part_at(parts: &[Part], place: usize, wanted: usize) -> (usize, usize)
    requires few { wanted ≤ 1 }
    requires within { place + wanted ≤ length (flat parts.now) }
    ensures { IsIn parts.now place wanted result.0 result.1 }
{
    let mut offset = place;
    'parts: for (at, part) in parts.iter().enumerate() {
        let len = part.as_slice().len();
        if offset < len + 1 - wanted {
            return (at, offset);
        }
        offset -= len;
    }
    (parts.len(), offset)
}

// The ids of a part, none where there is no such part.
fn ids_of(parts: &[Part], at: usize) -> &[Text]
    ensures { result.now ≡ flat (take 1 (drop at parts.now)) }
{
    match parts.get(at) {
        Some(part) => part.as_slice(),
        None => &[],
    }
}

// The hints of a part, none where there is no such part.
fn hints_of(parts: &[Part], at: usize) -> &[Text] {
    match parts.get(at) {
        Some(part) => part.hints(),
        None => &[],
    }
}

// The ids of some parts, where the ids of one are replaced by others, or these are added. Where they are many they are
// parted.
fn with_part(
    alloc: Global,
    parts: &[Part],
    at: usize,
    items: Vec<Text>,
    hints: Vec<Text>,
) -> Mem<Ids>
    requires { at ≤ length parts.now }
    ensures { IfOk result (λ ids. ids
        ≡ flat (take at parts.now) ++ items.items ++ flat (drop (at + 1) parts.now)) }
{
    let (before, after) = parts.split_at(at);
    let mut all = Vec::with_capacity(alloc, parts.len() + 1)?;
    add_parts(&mut all, before)?;
    add_items(alloc, &mut all, items, hints)?;
    add_parts(&mut all, others_of(after))?;
    let ids = Ids::of_parts(alloc, all)?;
    Ok(ids)
}

// The parts after the first.
fn others_of(parts: &[Part]) -> &[Part]
    ensures { result.now ≡ drop 1 parts.now }
{
    match parts.split_first() {
        Some((_, others)) => others,
        None => &[],
    }
}

// Adds some ids with their hints, in two parts where they are many, and in none where there are none.
fn add_items(alloc: Global, parts: &mut Vec<Part>, items: Vec<Text>, hints: Vec<Text>) -> Mem<()>
    ensures { OnOk result (flat parts.new.items ≡ flat parts.old.items ++ items.items) }
{
    if items.is_empty() {
        return Ok(());
    }
    if items.len() > MOST_TOGETHER {
        return add_halves(alloc, parts, items, hints);
    }
    parts.push(Part::with_hints(alloc, items, hints)?)?;
    Ok(())
}

// Adds some ids with their hints in two parts.
fn add_halves(alloc: Global, parts: &mut Vec<Part>, items: Vec<Text>, hints: Vec<Text>) -> Mem<()>
    ensures { OnOk result (flat parts.new.items ≡ flat parts.old.items ++ items.items) }
{
    let mut front = items;
    let middle = front.len() / 2;
    let back = front.split_off(middle)?;
    let mut front_hints = hints;
    let back_hints = front_hints.split_off(middle.min(front_hints.len()))?;
    parts.push(Part::with_hints(alloc, front, front_hints)?)?;
    parts.push(Part::with_hints(alloc, back, back_hints)?)?;
    Ok(())
}

// Adds copies of some parts.
fn add_parts(all: &mut Vec<Part>, parts: &[Part]) -> Mem<()>
    ensures { OnOk result (all.new.items ≡ all.old.items ++ parts.now) }
{
    'parts: for part in parts {
        all.push(part.copy()?)?;
    }
    Ok(())
}

// Adds copies of some ids.
fn add_copies(alloc: Global, items: &mut Vec<Text>, ids: &[Text]) -> Mem<()>
    ensures { OnOk result (items.new.items ≡ items.old.items ++ ids.now) }
{
    'ids: for id in ids {
        items.push(id.copy(alloc)?)?;
    }
    Ok(())
}
