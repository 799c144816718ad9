ghost use Rattle.std.specs.Prelude.{◌≡◌, ◌≤◌, ◌↔◌, length, IsTrue, IsOk};
ghost use Rattle.std.specs.Char.{is_ascii_alphabetic, is_ascii_alphanumeric};
ghost use Rattle.std.specs.List.{list_all};
ghost use Rattle.std.specs.Str.{chars};
ghost use Rattle.std.specs.Result.{result_err};
ghost use Rattle.index_keys.specs.Keys.{integer_length, first_fault, IsKey};

use crate::fault::KeyFault;

// The one integer part below which there is no other: `A` and 26 `0`.
const SMALLEST_INTEGER: &str = "A00000000000000000000000000";

// How many characters an integer part has under this head, the head included: 2 to 27.
fn integer_length(head: u8) -> usize
    requires { IsTrue (is_ascii_alphabetic head) }
    ensures { result ≡ integer_length head }
{
    if head.is_ascii_lowercase() {
        usize::from(head - b'a') + 2
    } else {
        usize::from(b'Z' - head) + 2
    }
}

// How many characters the text has, at most as many as it has bytes.
fn character_count(text: &str) -> usize
    ensures characters { result ≡ length (chars text.now) }
    ensures within_bytes { result ≤ length text.now }
{
    text.chars().count()
}

// Whether each byte is a digit of a key.
fn are_digits(bytes: &[u8]) -> bool
    ensures { result ≡ list_all is_ascii_alphanumeric bytes.now }
{
    bytes.iter().all(|byte| byte.is_ascii_alphanumeric())
}

/// Tells whether the text is a valid key.
///
/// The key's length counts characters. The call reads the text once and takes no memory.
///
/// # Errors
/// The text's first fault in the order of [`KeyFault`], where it is no valid key.
pub fn check(key: &str) -> Result<(), KeyFault>
    ensures valid { IsOk result ↔ IsKey key.now }
    ensures fault { result_err result ≡ first_fault key.now }
{
    let Some((head, digits)) = key.as_bytes().split_first() else {
        return Err(KeyFault::BadHead);
    };
    if !head.is_ascii_alphabetic() {
        return Err(KeyFault::BadHead);
    }
    let integer_length = integer_length(*head);
    if character_count(key) < integer_length {
        return Err(KeyFault::ShortInteger);
    }
    if !are_digits(digits) {
        return Err(KeyFault::BadDigit);
    }
    if key.as_bytes()[integer_length..].ends_with(b"0") {
        return Err(KeyFault::TrailingZero);
    }
    if key == SMALLEST_INTEGER {
        return Err(KeyFault::SmallestInteger);
    }
    Ok(())
}
