//! The fractions of keys, by the values of their digits, and what lies half way between two.
ghost use Rattle.std.specs.Prelude.{◌≡◌, ◌++◌, ◌≤◌, OnOk};
ghost use Rattle.index_keys.specs.Between.{half_way, midpoint_open, midpoint_within};

use crate::digit::GREATEST;
use std::alloc::AllocError;

// The digit half way from one to another, rounded up.
fn half_way(low: u8, high: u8) -> u8
    requires { low ≤ high }
    ensures { result ≡ half_way low high }
{
    low + (high - low).div_ceil(2)
}

/// Writes the midpoint of a fraction and none after what the key has. It costs the fraction.
///
/// # Errors
/// Out of memory alone; then the key may have a part of it.
pub fn push_midpoint_open(key: &mut Vec<u8>, below: &[u8]) -> Result<(), AllocError>
    ensures { OnOk result (key.new.items ≡ key.old.items ++ midpoint_open below.now) }
{
    for low in below {
        if *low < GREATEST {
            return Ok(key.push(half_way(*low, GREATEST + 1))?);
        }
        key.push(*low)?;
    }
    Ok(key.push(half_way(0, GREATEST + 1))?)
}

/// Writes the midpoint of two fractions, the first less than the second, after what the key has. It
/// costs the fractions.
///
/// # Errors
/// Out of memory alone; then the key may have a part of it.
pub fn push_midpoint_within(key: &mut Vec<u8>, below: &[u8], above: &[u8]) -> Result<(), AllocError>
    ensures { OnOk result
        (key.new.items ≡ key.old.items ++ midpoint_within below.now above.now) }
{
    for (place, high) in above.iter().enumerate() {
        let low = below.get(place).copied().unwrap_or(0);
        if low == *high {
            key.push(low)?;
        } else if low < *high && *high - low > 1 {
            return Ok(key.push(half_way(low, *high))?);
        } else if place + 1 < above.len() {
            return Ok(key.push(*high)?);
        } else {
            key.push(low)?;
            return push_midpoint_open(key, below.get(place + 1..).unwrap_or(&[]));
        }
    }
    Ok(())
}
