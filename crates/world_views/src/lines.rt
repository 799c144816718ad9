//! What is printed of an event.
ghost use Rattle.std.specs.Prelude.{◌≡◌, ◌∷◌, ◌++◌, [], IfOk, map};
ghost use Rattle.rec_format.specs.declared.printed.PrintedLine.TheVariants as printed_line;
ghost use Rattle.live_views.specs.Telling.{by_number};
ghost use Rattle.world_views.specs.Views.{told_line};

use live_views::WatchId;
use rec_format::PrintedLine;
use room_model::OutLine;
use rooms_val::{Mem, Val};
use std::alloc::Global;

/// The lines of an event of a world.
pub(crate) fn world_lines(alloc: Global, lines: Vec<OutLine>) -> Mem<Vec<PrintedLine>>
    ensures { IfOk result (λ all. all.items ≡ map printed_line.World lines.items) }
{
    let mut all = Vec::with_capacity(alloc, lines.len())?;
    'lines: for line in lines {
        all.push(PrintedLine::World(line))?;
    }
    Ok(all)
}

/// Adds what a client tells, each value by the number of its watch.
pub(crate) fn add_told(
    client: u64,
    mut lines: Vec<PrintedLine>,
    told: Vec<(WatchId, Val)>,
) -> Mem<Vec<PrintedLine>>
    ensures { IfOk result (λ all.
        all.items ≡ lines.items ++ map (told_line client) (by_number told.items)) }
{
    'told: for one in told {
        let (watch, told) = one;
        lines.push(PrintedLine::Told {
            client,
            told,
            watch: watch.number,
        })?;
    }
    Ok(lines)
}

/// One line.
pub(crate) fn one_line(alloc: Global, line: PrintedLine) -> Mem<Vec<PrintedLine>>
    ensures { IfOk result (λ lines. lines.items ≡ line ∷ []) }
{
    let mut lines = Vec::new(alloc);
    lines.push(line)?;
    Ok(lines)
}
