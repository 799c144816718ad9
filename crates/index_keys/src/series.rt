//! Several keys between two others.
ghost use Rattle.std.specs.Prelude.{◌≡◌, ◌≤◌, ◌<◌, ℕ, IfOk, Some, None};
ghost use Rattle.std.specs.Option.{option_copied};
ghost use Rattle.index_keys.specs.Answers.{Gives, texts};
ghost use Rattle.index_keys.specs.Between.{between};
ghost use Rattle.index_keys.specs.Order.{AreBetween};
ghost use Rattle.index_keys.specs.Several.{last_or, joined_to, rising_from, rising_to, halves, several};

use crate::fault::BetweenFault;
use crate::single::between;
use std::alloc::Global;

// The last of the keys, or the end where there is none.
fn last_or<'a>(keys: &'a [String], end: Option<&'a str>) -> Option<&'a str>
    ensures { option_copied result ≡ last_or (texts keys.now) (option_copied end.entry) }
{
    match keys.last() {
        Some(key) => Some(key.as_str()),
        None => end,
    }
}

// Keys that rise from above `below`.
fn rising_from(alloc: Global, below: Option<&str>, count: u32) -> Result<Vec<String>, BetweenFault>
    ensures { Gives (λ keys. texts keys.items) result
        (rising_from count (option_copied below.entry)) }
{
    let mut keys = Vec::new(alloc);
    for _made in 0..count {
        let key = between(alloc, last_or(&keys, below), None)?;
        keys.push(key)?;
    }
    Ok(keys)
}

// Keys that rise to below `above`.
fn rising_to(alloc: Global, above: &str, count: u32) -> Result<Vec<String>, BetweenFault>
    ensures { Gives (λ keys. texts keys.items) result (rising_to count (Some above.now)) }
{
    let mut keys = Vec::new(alloc);
    for _made in 0..count {
        let key = between(alloc, None, last_or(&keys, Some(above)))?;
        keys.push(key)?;
    }
    keys.reverse();
    Ok(keys)
}

// Writes so many keys between two after those that are there: one, and around it the halves of
// the others.
fn push_halves(
    alloc: Global,
    keys: &mut Vec<String>,
    below: &str,
    above: &str,
    count: u32,
) -> Result<(), BetweenFault>
    ensures { (depth : ℕ) → count ≤ depth →
        Gives (λ _. texts keys.new.items) result
        (joined_to (texts keys.old.items) (halves depth below.now above.now count)) }
{
    if count == 0 {
        return Ok(());
    }
    let key = between(alloc, Some(below), Some(above))?;
    push_halves(alloc, keys, below, key.as_str(), count / 2)?;
    keys.push(key.clone()?)?;
    push_halves(alloc, keys, key.as_str(), above, count - count / 2 - 1)
}

/// Gives `n` keys that rise, each between the ends: a valid key, greater by bytes than `below`
/// where that is given, and less than `above` where that is given.
///
/// With no end above, each key is `between` the one before it and none. With an end above alone,
/// each is `between` none and the one after it. With both, the key between them stands in the
/// middle, and the others are made in the same way on both sides of it. It costs `n` calls of
/// [`between`].
///
/// # Errors
/// The refusal of the first of these calls that refuses, as said there. None where `n` is 0, when
/// no end is looked at. [`BetweenFault::OutOfMemory`] may come at any place.
pub fn several(
    alloc: Global,
    below: Option<&str>,
    above: Option<&str>,
    n: u32,
) -> Result<Vec<String>, BetweenFault>
    ensures exact { Gives (λ keys. texts keys.items) result
        (several (option_copied below.entry) (option_copied above.entry) n) }
    ensures between { IfOk result (λ keys.
        AreBetween (option_copied below.entry) (option_copied above.entry) n (texts keys.items)) }
{
    match (below, above) {
        (_, None) => rising_from(alloc, below, n),
        (None, Some(above)) => rising_to(alloc, above, n),
        (Some(below), Some(above)) => {
            let mut keys = Vec::new(alloc);
            push_halves(alloc, &mut keys, below, above, n)?;
            Ok(keys)
        }
    }
}
