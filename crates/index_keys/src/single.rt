//! The key between two others.
ghost use Rattle.std.specs.Prelude.{◌≡◌, ◌≢◌, ◌<◌, ◌≤◌, ℕ, ◌↔◌, Ok, Err, All, IsTrue, IfOk, IfErr, length, slice_index, string_bytes};
ghost use Rattle.std.specs.Option.{option_map, option_copied};
ghost use Rattle.index_keys.specs.Answers.{Gives};
ghost use Rattle.index_keys.specs.Between.{width, before, after, past_fraction, inside, values_between, is_key_or_none, is_less_or_open, between};
ghost use Rattle.index_keys.specs.Digits.{values_of};
ghost use Rattle.index_keys.specs.Order.{IsBetween};

use crate::digit::{LOWER_A, text_of, values_of};
use crate::fault::BetweenFault;
use crate::fraction::{push_midpoint_open, push_midpoint_within};
use crate::integer::{decrement, filled_integer, fraction_part, increment, integer_part, smallest};
use crate::key::check;
use std::alloc::{AllocError, Global};

/// How many characters a key may have that `between` gives.
pub const MAX_LENGTH: usize = 256;

// Whether an end is a key, where it is given.
fn is_key_or_none(end: Option<&str>) -> bool
    ensures { result ≡ is_key_or_none (option_copied end.entry) }
{
    match end {
        Some(key) => check(key).is_ok(),
        None => true,
    }
}

// Whether the lower end is less, where both are given.
fn is_less_or_open(below: Option<&str>, above: Option<&str>) -> bool
    ensures { result ≡ is_less_or_open (option_copied below.entry) (option_copied above.entry) }
{
    match (below, above) {
        (Some(below), Some(above)) => below < above,
        _ => true,
    }
}

// A key with the integer part of one and a greater fraction.
fn past_fraction(alloc: Global, below: &[u8]) -> Result<Vec<u8>, AllocError>
    requires { width (slice_index below.now 0) < length below.now }
    ensures { IfOk result (λ key. key.items ≡ past_fraction below.now) }
{
    let mut key = integer_part(below).to_vec(alloc)?;
    push_midpoint_open(&mut key, fraction_part(below))?;
    Ok(key)
}

// The key below one, if there is one.
fn before(alloc: Global, above: &[u8]) -> Result<Option<Vec<u8>>, AllocError>
    requires { width (slice_index above.now 0) < length above.now }
    ensures { IfOk result (λ key. option_map (λ found. found.items) key ≡ before above.now) }
{
    let smallest = smallest(alloc)?;
    let integer = integer_part(above);
    let fraction = fraction_part(above);
    if integer == smallest.as_slice() {
        let mut key = smallest;
        push_midpoint_within(&mut key, &[], fraction)?;
        return Ok(Some(key));
    }
    if !fraction.is_empty() {
        return Ok(Some(integer.to_vec(alloc)?));
    }
    let last = decrement(alloc, integer)?;
    Ok(last.filter(|key| key.as_slice() != smallest.as_slice()))
}

// The key above one.
fn after(alloc: Global, below: &[u8]) -> Result<Vec<u8>, AllocError>
    requires { width (slice_index below.now 0) < length below.now }
    ensures { IfOk result (λ key. key.items ≡ after below.now) }
{
    match increment(alloc, integer_part(below))? {
        Some(next) => Ok(next),
        None => past_fraction(alloc, below),
    }
}

// The key between two that are in order.
#[tactic(auto, using(crate::proofs::OrderLemmas::comparing))]
fn inside(alloc: Global, below: &[u8], above: &[u8]) -> Result<Vec<u8>, AllocError>
    requires lower { width (slice_index below.now 0) < length below.now }
    requires upper { width (slice_index above.now 0) < length above.now }
    ensures { IfOk result (λ key. key.items ≡ inside below.now above.now) }
{
    let integer = integer_part(below);
    if integer == integer_part(above) {
        let mut key = integer.to_vec(alloc)?;
        push_midpoint_within(&mut key, fraction_part(below), fraction_part(above))?;
        return Ok(key);
    }
    match increment(alloc, integer)? {
        Some(next) => {
            if next.as_slice() < above {
                Ok(next)
            } else {
                past_fraction(alloc, below)
            }
        }
        None => past_fraction(alloc, below),
    }
}

// The key between two ends that are keys and in order, by its digits, if there is one.
fn values_between(
    alloc: Global,
    below: Option<&str>,
    above: Option<&str>,
) -> Result<Option<Vec<u8>>, AllocError>
    requires lower { IsTrue (is_key_or_none (option_copied below)) }
    requires upper { IsTrue (is_key_or_none (option_copied above)) }
    ensures { IfOk result (λ key.
        option_map (λ found. found.items) key
        ≡ values_between
        (option_map values_of (option_copied below.entry))
        (option_map values_of (option_copied above.entry))) }
{
    match (below, above) {
        (None, None) => Ok(Some(filled_integer(alloc, LOWER_A, 0)?)),
        (None, Some(above)) => before(alloc, &values_of(alloc, above)?),
        (Some(below), None) => Ok(Some(after(alloc, &values_of(alloc, below)?)?)),
        (Some(below), Some(above)) => {
            let below = values_of(alloc, below)?;
            let above = values_of(alloc, above)?;
            Ok(Some(inside(alloc, &below, &above)?))
        }
    }
}

/// Gives a key between two ends, each given or not: a valid key, greater by bytes than `below`
/// where that is given, and less than `above` where that is given.
///
/// The key is that of fractional indexing in base 62: an integer part before or after that of an
/// end where there is room, and else a fraction half way between those of the ends. It takes
/// memory of the size of the ends.
///
/// # Errors
/// Of several causes the first in this order: [`BetweenFault::NotKey`] where an end isn't a valid
/// key, [`BetweenFault::NotLess`] where both ends are given and `below` isn't less than `above`,
/// [`BetweenFault::NoRoom`] where `below` isn't given and `above` is `A`, 25 `0` and `1`,
/// [`BetweenFault::KeyTooLong`] where the key has more than [`MAX_LENGTH`] characters.
/// [`BetweenFault::OutOfMemory`] may come at any place.
#[tactic(auto, unfolding(crate::specs::Between::between))]
pub fn between(
    alloc: Global,
    below: Option<&str>,
    above: Option<&str>,
) -> Result<String, BetweenFault>
    ensures exact { Gives string_bytes result
        (between (option_copied below.entry) (option_copied above.entry)) }
    ensures between { IfOk result (λ key.
        IsBetween (option_copied below.entry) (option_copied above.entry) (string_bytes key)) }
{
    if !is_key_or_none(below) || !is_key_or_none(above) {
        return Err(BetweenFault::NotKey);
    }
    if !is_less_or_open(below, above) {
        return Err(BetweenFault::NotLess);
    }
    let Some(values) = values_between(alloc, below, above)? else {
        return Err(BetweenFault::NoRoom);
    };
    if values.len() > MAX_LENGTH {
        return Err(BetweenFault::KeyTooLong);
    }
    Ok(text_of(alloc, &values)?)
}
