//! The integer parts of keys, by the values of their digits, and which follows which.
ghost use Rattle.std.specs.Prelude.{◌≡◌, ◌+◌, ◌<◌, ◌≤◌, ℕ, length, slice_index, replicate, Some, None, MatchBool, IfOk};
ghost use Rattle.std.specs.Option.{option_map};
ghost use Rattle.index_keys.specs.Between.{width, integer_part, fraction_part, filled, smallest, plus_one, minus_one, increment, decrement};

use crate::digit::{GREATEST, LOWER_A, UPPER_A};
use std::alloc::{AllocError, Global};

/// How many digits follow a head in its integer part: 1 to 26 after a letter.
pub fn width(head: u8) -> usize
    ensures { result ≡ width head }
{
    if head >= LOWER_A {
        usize::from(head - LOWER_A) + 1
    } else {
        usize::from(LOWER_A - head)
    }
}

/// The integer part of a key, which has one: a head with the digits that it needs.
pub fn integer_part(key: &[u8]) -> &[u8]
    requires { width (slice_index key.now 0) < length key.now }
    ensures { result.now ≡ integer_part key.now }
{
    &key[..width(key[0]) + 1]
}

/// The fraction of a key, which has an integer part: what follows that.
pub fn fraction_part(key: &[u8]) -> &[u8]
    requires { width (slice_index key.now 0) < length key.now }
    ensures { result.now ≡ fraction_part key.now }
{
    &key[width(key[0]) + 1..]
}

/// A head and the one digit, as often as the head needs.
///
/// # Errors
/// Out of memory alone.
pub fn filled_integer(alloc: Global, head: u8, digit: u8) -> Result<Vec<u8>, AllocError>
    ensures { IfOk result (λ integer. integer.items ≡ filled head digit) }
{
    let mut integer = vec![in alloc; digit; width(head) + 1]?;
    integer[0] = head;
    Ok(integer)
}

// Adds one to the last digit, with carries. False where the carry leaves the digits.
fn add_one(digits: &mut [u8]) -> bool
    ensures { MatchBool result
        (plus_one digits.old ≡ Some digits.new)
        (plus_one digits.old ≡ None) }
{
    for i in (0..digits.len()).rev() {
        if digits[i] < GREATEST {
            digits[i] += 1;
            return true;
        }
        digits[i] = 0;
    }
    false
}

// Takes one from the last digit, with borrows. False where the borrow leaves the digits.
fn subtract_one(digits: &mut [u8]) -> bool
    ensures { MatchBool result
        (minus_one digits.old ≡ Some digits.new)
        (minus_one digits.old ≡ None) }
{
    for i in (0..digits.len()).rev() {
        if digits[i] > 0 {
            digits[i] -= 1;
            return true;
        }
        digits[i] = GREATEST;
    }
    false
}

/// The integer part after this one, if there is one. It costs the integer part, some 27 digits.
///
/// # Errors
/// Out of memory alone.
pub fn increment(alloc: Global, integer: &[u8]) -> Result<Option<Vec<u8>>, AllocError>
    requires { 0 < length integer.now }
    ensures { IfOk result (λ next.
        option_map (λ found. found.items) next ≡ increment integer.now) }
{
    let mut next = integer.to_vec(alloc)?;
    if add_one(&mut next[1..]) {
        return Ok(Some(next));
    }
    let head = integer[0];
    if head >= GREATEST {
        return Ok(None);
    }
    Ok(Some(filled_integer(alloc, head + 1, 0)?))
}

/// The integer part before this one, if there is one. It costs the integer part, some 27 digits.
///
/// # Errors
/// Out of memory alone.
pub fn decrement(alloc: Global, integer: &[u8]) -> Result<Option<Vec<u8>>, AllocError>
    requires { 0 < length integer.now }
    ensures { IfOk result (λ last.
        option_map (λ found. found.items) last ≡ decrement integer.now) }
{
    let mut last = integer.to_vec(alloc)?;
    if subtract_one(&mut last[1..]) {
        return Ok(Some(last));
    }
    let head = integer[0];
    if head <= UPPER_A {
        return Ok(None);
    }
    Ok(Some(filled_integer(alloc, head - 1, GREATEST)?))
}

/// The smallest integer part, `A` and 26 `0`.
///
/// # Errors
/// Out of memory alone.
pub fn smallest(alloc: Global) -> Result<Vec<u8>, AllocError>
    ensures { IfOk result (λ integer. integer.items ≡ smallest) }
{
    filled_integer(alloc, UPPER_A, 0)
}
