//! What a piece says.
ghost use Rattle.std.specs.Prelude.{◌≡◌, ◌↔◌, ◌∷◌, ℕ, List, true, decimal, MatchOption};
ghost use Rattle.wire_text.specs.Feeding.{Says, IsCount, IsNoPiece, tree_of};

use itoa::Buffer;

/// The most parts that a piece can say are still to come.
pub const MOST_TO_COME: u32 = 999_999;

// What a piece says.
#[derive(Clone, Copy)]
pub(crate) enum Piece<'a> {
    // a whole text
    Whole(&'a str),
    // how many parts are still to come, and a part
    Part(u32, &'a str),
}

// What a piece says, if anything: one that begins with `{` is a whole text, another a part after a
// count and `_`.
pub(crate) fn read_piece(piece: &str) -> Option<Piece<'_>>
    ensures { MatchOption result (IsNoPiece piece.now) (λ read. Says (tree_of read) piece.now) }
{
    if begins_whole(piece) {
        return Some(Piece::Whole(piece));
    }
    let Some((digits, part)) = piece.split_once('_') else {
        return None;
    };
    let Some(count) = count_of(digits) else {
        return None;
    };
    Some(Piece::Part(count, part))
}

// Whether a piece is a whole text.
fn begins_whole(piece: &str) -> bool
    ensures { result ≡ true ↔ (rest : List ℕ) × (piece.now ≡ 123 ∷ rest) }
{
    match piece.as_bytes() {
        [first, ..] => *first == b'{',
        [] => false,
    }
}

// The number of parts still to come that the digits say.
fn count_of(digits: &str) -> Option<u32>
    ensures { MatchOption result ((n : ℕ) → IsCount n digits.now → ⊥) (λ n. IsCount n digits.now) }
{
    let Ok(count) = digits.parse::<u32>() else {
        return None;
    };
    if count <= MOST_TO_COME && is_decimal(count, digits) {
        Some(count)
    } else {
        None
    }
}

// Whether the digits are how a number is written.
fn is_decimal(number: u32, digits: &str) -> bool
    ensures { result ≡ true ↔ digits.now ≡ decimal number }
{
    Buffer::new().format(number) == digits
}
