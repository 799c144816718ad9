//! Cutting a text into pieces.
ghost use Rattle.std.specs.Prelude.{◌≡◌, ◌<◌, ◌≤◌, ◌++◌, ◌∷◌, length, map, decimal, IfOk};
ghost use Rattle.wire_text.specs.Cutting.{IsLongest, AreParts, IsCutInto, numbered};

use itoa::Buffer;
use rooms_val::{Mem, Text};
use std::alloc::Global;

/// The most bytes of a part, and of a text that goes as it is.
pub const LONGEST_PART: usize = 262_144;

/// The pieces of a text: the text itself where it has at most 262,144 bytes, else parts of it, each after
/// the number of parts still to come and `_`. A part is as long as may be and ends between two
/// characters.
///
/// Costs the text.
pub fn pieces(alloc: Global, text: &str) -> Mem<Vec<Text>>
    ensures { IfOk result (λ pieces. IsCutInto text.now pieces.items) }
{
    let mut pieces = Vec::new(alloc);
    if text.len() <= LONGEST_PART {
        pieces.push(Text::of(alloc, text)?)?;
        return Ok(pieces);
    }
    let parts = parts_of(alloc, text)?;
    let mut to_come = parts.len();
    'parts: for part in parts.iter() {
        to_come -= 1;
        pieces.push(numbered_part(alloc, to_come, part)?)?;
    }
    Ok(pieces)
}

/// The parts of a text, for one that is too long to go as it is: each is as long as may be and ends
/// between two characters.
///
/// Costs the text's length, and a place for each part; no text is copied.
pub fn parts_of(alloc: Global, text: &str) -> Mem<Vec<&str>>
    ensures { IfOk result (λ parts. AreParts text.now (map (λ part. part.now) parts.items)) }
{
    let mut parts = Vec::new(alloc);
    let mut rest = text;
    'parts: while !rest.is_empty() {
        let (part, others) = rest.split_at(part_length(rest));
        parts.push(part)?;
        rest = others;
    }
    Ok(parts)
}

// How many bytes the longest part has with which the text begins.
fn part_length(text: &str) -> usize
    requires { 0 < length text.now }
    ensures { IsLongest text.now result }
{
    text.floor_char_boundary(LONGEST_PART)
}

/// The piece of a part: the part after the number of those to come and `_`.
///
/// Costs two copies of the part: one behind the number, and one of both together.
pub fn numbered_part(alloc: Global, to_come: usize, part: &str) -> Mem<Text>
    ensures { IfOk result (λ piece. piece ≡ decimal to_come ++ 95 ∷ part.now) }
{
    let mut piece = String::new(alloc);
    piece.push_str(Buffer::new().format(to_come))?;
    piece.push_str("_")?;
    piece.push_str(part)?;
    Text::of(alloc, piece.as_str())
}
