//! The ids of what is pasted.
ghost use Rattle.std.specs.Prelude.{◌≡◌, [], ◌∷◌, ◌++◌, map, IfOk, OnOk, string_bytes};
ghost use Rattle.std.specs.List.{find};
ghost use Rattle.side_effects.specs.Records.{has};
ghost use Rattle.clip_content.specs.Pasted.{place_in, last_digit, new_id, new_shape, new_binding, first_taken};
ghost use Rattle.clip_content.specs.View.{clip_tree, target_tree};

use crate::clip::Clip;
use crate::records::has;
use crate::target::Target;
use rooms_val::{Fields, Mem, Text, entries};
use std::alloc::Global;

// The new id of a shape. It costs a logarithm of the clip.
pub(crate) fn new_shape(alloc: Global, clip: &Clip, target: &Target, id: &str) -> Mem<Text>
    ensures { IfOk result (λ new. new
        ≡ new_shape (clip_tree clip.now) (target_tree target.now) id.now) }
{
    new_id(alloc, "shape:", target.prefix, &clip.shapes, id)
}

// The new id of a binding. It costs a logarithm of the clip.
pub(crate) fn new_binding(alloc: Global, clip: &Clip, target: &Target, id: &str) -> Mem<Text>
    ensures { IfOk result (λ new. new
        ≡ new_binding (clip_tree clip.now) (target_tree target.now) id.now) }
{
    new_id(alloc, "binding:", target.prefix, &clip.bindings, id)
}

// The least new id that the document has, if it has one.
pub(crate) fn first_taken(
    alloc: Global,
    clip: &Clip,
    target: &Target,
    records: &Fields,
) -> Mem<Option<Text>>
    ensures { IfOk result (λ taken. taken
        ≡ first_taken (clip_tree clip.now) (target_tree target.now) records.now) }
{
    match first_of(alloc, "binding:", target.prefix, &clip.bindings, records)? {
        Some(id) => Ok(Some(id)),
        None => first_of(alloc, "shape:", target.prefix, &clip.shapes, records),
    }
}

// The first new id of what is in a map that the document has, if it has one.
fn first_of(
    alloc: Global,
    kind: &str,
    prefix: &str,
    copied: &Fields,
    records: &Fields,
) -> Mem<Option<Text>>
    ensures { IfOk result (λ taken. taken
        ≡ find (has records.now)
        (map (λ e. new_id kind.now prefix.now copied.now e.0) copied.now)) }
{
    'copied: for (id, _) in copied.as_slice() {
        let new = new_id(alloc, kind, prefix, copied, id.as_str())?;
        if has(records, new.as_str()) {
            return Ok(Some(new));
        }
    }
    Ok(None)
}

// The new id of something of a type: the prefix, and the place in the map that was copied.
fn new_id(alloc: Global, kind: &str, prefix: &str, copied: &Fields, id: &str) -> Mem<Text>
    ensures { IfOk result (λ new. new ≡ new_id kind.now prefix.now copied.now id.now) }
{
    let place = place_in(copied, id);
    let mut text = String::from_str(alloc, kind)?;
    text.push_str(prefix)?;
    push_digit(&mut text, place / 1_000)?;
    push_digit(&mut text, place / 100)?;
    push_digit(&mut text, place / 10)?;
    push_digit(&mut text, place)?;
    Text::of(alloc, text.as_str())
}

// How many ids of a map come before an id. It costs a logarithm.
fn place_in(map: &Fields, id: &str) -> usize
    ensures { result ≡ place_in map.now id.now }
{
    match entries::place_of(map.as_slice(), id) {
        Ok(place) => place,
        Err(place) => place,
    }
}

// Adds the last digit of a number.
fn push_digit(text: &mut String, number: usize) -> Mem<()>
    ensures { OnOk result (string_bytes text.new
        ≡ string_bytes text.old ++ last_digit number ∷ []) }
{
    text.push(char::from(b'0' + (number % 10) as u8))?;
    Ok(())
}
