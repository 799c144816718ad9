//! The numbers that the words of the command line write.
ghost use Rattle.std.specs.Prelude.{◌≡◌, ◌≤◌, IfSome};
ghost use Rattle.std.specs.List.{list_all};
ghost use Rattle.rooms.specs.Numbers.{is_digit, is_decimal, number_between};

/// The number that a word writes by decimal digits, without sign or leading zeros, if it is within
/// bounds.
pub(crate) fn number_between(word: &str, least: u64, most: u64) -> Option<u64>
    ensures number { result ≡ number_between least most word.now }
    ensures within { IfSome result (λ number. (least ≤ number) × (number ≤ most)) }
{
    if !is_decimal(word.as_bytes()) {
        return None;
    }
    match word.parse::<u64>() {
        Ok(number) => if least <= number && number <= most {
            Some(number)
        } else {
            None
        },
        Err(_) => None,
    }
}

// Whether a word is decimal digits, of which the first is 0 only where it is alone.
fn is_decimal(word: &[u8]) -> bool
    ensures { result ≡ is_decimal word.now }
{
    match word {
        [first, rest @ ..] => (*first != b'0' || rest.len() == 0) && are_digits(word),
        [] => false,
    }
}

fn are_digits(bytes: &[u8]) -> bool
    ensures { result ≡ list_all is_digit bytes.now }
{
    bytes.iter().all(|byte| is_digit(*byte))
}

fn is_digit(byte: u8) -> bool
    ensures { result ≡ is_digit byte }
{
    b'0' <= byte && byte <= b'9'
}
