//! Digits as their values, 0 to 61, in the order of their bytes.
ghost use Rattle.std.specs.Prelude.{◌≡◌, ◌<◌, IfOk, All, string_bytes};
ghost use Rattle.index_keys.specs.Digits.{value_of, digit_of, values_of, text_of};

use std::alloc::{AllocError, Global};

/// The value of the digit `A`.
pub const UPPER_A: u8 = 10;

/// The value of the digit `a`.
pub const LOWER_A: u8 = 36;

/// The value of the digit `z`, past which there is none.
pub const GREATEST: u8 = 61;

// The value of a digit.
fn value_of(digit: u8) -> u8
    ensures { result ≡ value_of digit }
{
    if digit >= b'a' {
        digit - b'a' + LOWER_A
    } else if digit >= b'A' {
        digit - b'A' + UPPER_A
    } else {
        digit.saturating_sub(b'0')
    }
}

// The digit of a value.
fn digit_of(value: u8) -> u8
    requires { value < 62 }
    ensures { result ≡ digit_of value }
{
    if value < UPPER_A {
        value + b'0'
    } else if value < LOWER_A {
        value - UPPER_A + b'A'
    } else {
        value - LOWER_A + b'a'
    }
}

/// The values of a text's digits, each below 62 where the text has digits alone. It costs the text.
///
/// # Errors
/// Out of memory alone.
pub fn values_of(alloc: Global, text: &str) -> Result<Vec<u8>, AllocError>
    ensures { IfOk result (λ values. values.items ≡ values_of text.now) }
{
    text.bytes().map(value_of).collect(alloc)
}

/// The text whose digits have these values, each below 62. It costs the text.
///
/// # Errors
/// Out of memory alone.
pub fn text_of(alloc: Global, values: &[u8]) -> Result<String, AllocError>
    requires { All (λ value. value < 62) values.now }
    ensures { IfOk result (λ text. string_bytes text ≡ text_of values.now) }
{
    let mut text = String::new(alloc);
    for value in values {
        text.push(char::from(digit_of(*value)))?;
    }
    Ok(text)
}
