//! The text that a script's client writes.
ghost use Rattle.std.specs.Prelude.{◌≡◌, IfOk};
ghost use Rattle.join_job.specs.Texts.{lines_text, fault_line, unended_text};

use rec_format::{OutLine, PrintedLine};
use room_join::JoinLine;
use rooms_val::{Mem, Text};
use std::alloc::Global;

/// The text of lines.
pub(crate) fn lines_text(alloc: Global, lines: &[JoinLine]) -> Mem<Vec<u8>>
    ensures { IfOk result (λ text. text.items ≡ lines_text lines.now) }
{
    let mut text = Vec::new(alloc);
    'lines: for line in lines {
        text.extend_from_slice(&line.print(alloc)?)?;
    }
    Ok(text)
}

/// Where a script is refused, and why.
pub(crate) fn fault_line(alloc: Global, at: u64, fault: Text) -> Mem<Vec<u8>>
    ensures { IfOk result (λ text. text.items ≡ fault_line at fault) }
{
    JoinLine::Printed(PrintedLine::World(OutLine::Fault { at, text: fault })).print(alloc)
}

/// Why a script without an `end` line is refused.
pub(crate) fn no_end_text(alloc: Global, whole: bool) -> Mem<Text>
    ensures { IfOk result (λ text. text ≡ unended_text whole) }
{
    Text::of(alloc, if whole { "Unended" } else { "TooMuch" })
}
