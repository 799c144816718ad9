//! The text of lines, each with its newline.
ghost use Rattle.std.specs.Prelude.{◌≡◌, IfOk};
ghost use Rattle.rec_format.specs.Printed.{printed_text};
ghost use Rattle.replay_job.specs.Texts.{written_line, fault_line};

use rec_format::{OutLine, PrintedLine, print_line};
use rooms_val::{Mem, Text};
use std::alloc::Global;

/// The text of a printed line.
pub(crate) fn written_line(alloc: Global, line: &PrintedLine) -> Mem<Vec<u8>>
    ensures { IfOk result (λ text. text.items ≡ written_line (printed_text line.now)) }
{
    let mut text = print_line(alloc, line)?;
    text.push(b'\n')?;
    Ok(text)
}

/// Where a recording is refused, and why.
pub fn fault_line(alloc: Global, at: u64, fault: Text) -> Mem<Vec<u8>>
    ensures { IfOk result (λ text. text.items ≡ fault_line at fault) }
{
    written_line(
        alloc,
        &PrintedLine::World(OutLine::Fault { at, text: fault }),
    )
}
