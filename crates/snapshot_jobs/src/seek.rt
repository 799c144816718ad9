//! Seeking the first line that isn't passed by.
ghost use Rattle.std.specs.Prelude.{◌≡◌, ◌<◌, ◌≤◌, ◌+◌, ◌^◌, IfOk, IsErrOf};
ghost use Rattle.recording_lines.specs.Reading.{budget, to_come, TakesUnread};
ghost use Rattle.replay_job.specs.declared.play.Stop.TheVariants as stop;
ghost use Rattle.snapshot_jobs.specs.Seeking.{is_passed, Seeks, IfLine};

use recording_lines::line_reader::{LineReader, Next};
use recording_lines::lines::is_blank;
use replay_job::play::Stop;
use room_link::source::Source;

/// What is found where the first line is sought that isn't passed by.
#[derive(Clone, Copy, Debug, PartialEq, Eq)]
pub(crate) enum Sought {
    /// The line of this number: `LineReader::line` has its bytes.
    Line { at: u64 },
    /// The line of this number, which is too long for the reader.
    TooLong { at: u64 },
    /// No line: this number is that behind the last one, and `whole` tells whether the recording ended.
    End { at: u64, whole: bool },
}

// Reads on to the first line that isn't passed by, as a blank one of at most `longest` bytes is. The
// next line has the number `at`. It costs the lines.
pub(crate) fn seek<S: Source>(
    reader: &mut LineReader,
    longest: usize,
    mut at: u64,
    source: &mut S,
) -> Result<Sought, Stop>
    requires wide { longest ≤ reader.old.longest }
    requires number { at + budget reader.old ≤ 2 ^ 40 }
    ensures found { IfOk result (λ sought. Seeks longest reader.old.longest at
        (budget reader.old) (to_come reader.old (S.left source.old))
        (budget reader.new) (to_come reader.new (S.left source.new)) reader.new.line sought) }
    ensures number { IfOk result (λ sought. IfLine sought
        (λ n. n + budget reader.new < at + budget reader.old)) }
    ensures longest { reader.new.longest ≡ reader.old.longest }
    ensures taken { TakesUnread reader.old.unread reader.new.unread
        (S.left source.old) (S.left source.new) }
    ensures faults_stay { S.faults source.old ≤ S.faults source.new }
    ensures source_failed { IsErrOf result stop.SourceFailed
        → S.faults source.old < S.faults source.new }
    ensures no_sink { IsErrOf result stop.SinkFailed → ⊥ }
{
    'lines: loop {
        match reader.next_line(source)? {
            Next::Line => if !is_passed(reader.line(), longest) {
                return Ok(Sought::Line { at });
            },
            Next::TooLong => return Ok(Sought::TooLong { at }),
            Next::End { whole } => return Ok(Sought::End { at, whole }),
        }
        at += 1;
    }
}

// Whether a line is passed by: it is blank, and not longer than this.
fn is_passed(line: &[u8], longest: usize) -> bool
    ensures { result ≡ is_passed longest line.now }
{
    line.len() <= longest && is_blank(line)
}
