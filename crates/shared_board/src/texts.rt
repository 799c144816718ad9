//! Edits as texts.
ghost use Rattle.std.specs.Prelude.{◌≡◌, Ok, Err};
ghost use Rattle.std.specs.Option.{ok_or};
ghost use Rattle.rooms_val.specs.Answers.{Gives};
ghost use Rattle.rooms_val.specs.View.{data_of};
ghost use Rattle.field_ops.specs.Readings.{diff_of_data};
ghost use Rattle.shared_board.specs.Texts.{diff_of_text};
ghost use Rattle.shared_board.specs.declared.fault.BoardFault.TheVariants as board_fault;

use crate::fault::BoardFault;
use field_ops::{Diff, read_diff};
use rooms_val::{OpFault, Val, ValFault};
use std::alloc::Global;

// The diff of a text. `NotAnEdit` exactly where the text is the JSON of none, or `OutOfMemory`.
pub(crate) fn diff_of(alloc: Global, text: &str) -> Result<Diff, BoardFault>
    ensures { Gives board_fault.OutOfMemory (λ d. d) result
        (ok_or (diff_of_text text.now) board_fault.NotAnEdit) }
{
    match Val::read(alloc, text.as_bytes()) {
        Ok(val) => diff_in(alloc, &val),
        Err(ValFault::OutOfMemory) => Err(BoardFault::OutOfMemory),
        Err(_) => Err(BoardFault::NotAnEdit),
    }
}

// The diff of a value.
fn diff_in(alloc: Global, val: &Val) -> Result<Diff, BoardFault>
    ensures { Gives board_fault.OutOfMemory (λ d. d) result
        (ok_or (diff_of_data (data_of val.now)) board_fault.NotAnEdit) }
{
    match read_diff(alloc, val) {
        Ok(diff) => Ok(diff),
        Err(OpFault::WrongKind) => Err(BoardFault::NotAnEdit),
        Err(OpFault::OutOfMemory) => Err(BoardFault::OutOfMemory),
    }
}
