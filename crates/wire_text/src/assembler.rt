//! Putting pieces together.
ghost use Rattle.std.specs.Prelude.{◌≡◌, string_bytes, option_map, Some, Err, IfOk, IfErr};
ghost use Rattle.rooms_val.specs.Answers.{Gives};
ghost use Rattle.wire_text.specs.Feeding.{PieceTree, Says, IsNoPiece, part, tree_of, empty, given, after, joined_in_turn};
ghost use Rattle.wire_text.specs.Gathering.{gathered_of};
ghost use Rattle.wire_text.specs.Feeding as feeding;
ghost use Rattle.wire_text.specs.declared.fault.PieceFault.TheVariants.{BadPiece, OutOfMemory};

use crate::fault::PieceFault;
use crate::piece::{Piece, read_piece};
use rooms_val::Text;
use std::alloc::Global;
use std::marker::Model;

/// What puts the pieces of texts together, one text after another. Contracts see its limit, and what
/// it gathered of a text that isn't whole: the parts together, and how many parts follow the one that
/// comes next.
#[derive(Drop)]
pub struct Assembler {
    // the most bytes of a text
    limit: usize,
    // what came of a text that isn't whole
    gathered: Option<Gathered>,
}

// What came of a text that isn't whole.
#[derive(Drop)]
struct Gathered {
    // how many parts follow the one that comes next, at most 999,998
    next: u32,
    // the parts together, at most as many bytes as the limit
    text: String,
}

impl Model for Assembler {
    ghost use Rattle.std.specs.Prelude.{option_map};
    ghost use Rattle.wire_text.specs.Feeding.{Assembly};
    ghost use Rattle.wire_text.specs.Gathering.{gathered_of};

    ghost Value = { Assembly };

    ghost view = { λ a. record {
      limit = a.limit;
      gathered = option_map gathered_of a.gathered;
    } };
}

impl Assembler {
    /// One that gathered nothing. A text may have at most `limit` bytes.
    pub fn new(limit: usize) -> Assembler
        ensures { result ≡ empty limit }
    {
        Assembler {
            limit,
            gathered: None,
        }
    }

    /// Takes the next piece, and gives the text that it completes, or none exactly where more parts
    /// follow.
    ///
    /// # Errors
    ///
    /// `BadPiece` exactly where the piece neither begins with `{` nor is one to six digits without a
    /// needless leading 0, `_` and a part. Else `OutOfTurn` exactly where a text isn't whole and the
    /// piece hasn't the count that comes next. Else `TooLong` exactly where the text so far has more
    /// bytes than the limit. After each of them, and where memory is refused, the assembler is empty.
    ///
    /// Costs the piece, and the text where it is complete.
    pub fn feed(&mut self, alloc: Global, piece: &str) -> Result<Option<Text>, PieceFault>
        ensures gives { (p : PieceTree) → Says p piece.now →
            Gives OutOfMemory (λ text. text) result (given self.old p) }
        ensures leaves { (p : PieceTree) → Says p piece.now
            → IfOk result (λ _. self.new ≡ after self.old p) }
        ensures bad { IsNoPiece piece.now → result ≡ Err BadPiece }
        ensures empties { IfErr result (λ _. self.new ≡ empty self.old.limit) }
    {
        let gathered = self.gathered.take();
        let Some(read) = read_piece(piece) else {
            return Err(PieceFault::BadPiece);
        };
        let text = with_piece(alloc, gathered, read)?;
        if text.len() > self.limit {
            return Err(PieceFault::TooLong);
        }
        match to_come(read).checked_sub(1) {
            None => Ok(Some(Text::of(alloc, text.as_str())?)),
            Some(next) => {
                self.gathered = Some(Gathered { next, text });
                Ok(None)
            }
        }
    }
}

// How many parts are still to come after a piece.
fn to_come(piece: Piece<'_>) -> u32
    ensures { result ≡ feeding.to_come (tree_of piece.entry) }
{
    match piece {
        Piece::Whole(_) => 0,
        Piece::Part(count, _) => count,
    }
}

// What came so far, with a piece, if that follows it.
fn with_piece(
    alloc: Global,
    gathered: Option<Gathered>,
    piece: Piece<'_>,
) -> Result<String, PieceFault>
    ensures { Gives OutOfMemory (λ text. string_bytes text) result
        (joined_in_turn (option_map gathered_of gathered) (tree_of piece.entry)) }
{
    match (gathered, piece) {
        (None, Piece::Whole(text)) | (None, Piece::Part(_, text)) => Ok(String::from_str(
            alloc, text,
        )?),
        (Some(before), Piece::Whole(_)) => Err(PieceFault::OutOfTurn(i64::from(before.next), -1)),
        (Some(before), Piece::Part(count, part)) => with_part(before, count, part),
    }
}

// The parts so far, with one that has the count that comes next.
fn with_part(before: Gathered, count: u32, text: &str) -> Result<String, PieceFault>
    ensures { Gives OutOfMemory (λ text. string_bytes text) result
        (joined_in_turn (Some (gathered_of before)) (part count text.now)) }
{
    if count != before.next {
        return Err(PieceFault::OutOfTurn(i64::from(before.next), i64::from(count)));
    }
    let mut gathered = before.text;
    gathered.push_str(text)?;
    Ok(gathered)
}
