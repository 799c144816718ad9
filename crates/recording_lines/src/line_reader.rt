//! A reader of lines.
ghost use Rattle.std.specs.Prelude.{◌≡◌, ℕ, ◌+◌, ◌<◌, ◌≤◌, [], length, take, nat_lt, true, false, IfOk, OnErr, IfSome, IsErrOf};
ghost use Rattle.std.specs.Io.KnownBytes.{ReadConsumes};

use crate::fault::ReadFault;
use crate::lines::{LONGEST_LINE, MOST_BYTES, first_piece};
use room_link::Failed;
use room_link::source::Source;
use std::alloc::{AllocError, Global};
use std::marker::Model;

/// How many bytes are asked of a source at once.
const PIECE: usize = 65_536;

/// What comes next of a recording.
#[derive(Clone, Copy, Debug, PartialEq, Eq)]
pub enum Next {
    /// A line: `LineReader::line` has its bytes.
    Line,
    /// A line of more bytes than the reader's `longest`, which isn't gathered.
    TooLong,
    /// No line. `whole` tells whether the recording ended before `MOST_BYTES` of its bytes were
    /// looked at.
    End { whole: bool },
}

/// What became of the line that is being gathered.
#[derive(Clone, Copy, Debug, PartialEq, Eq)]
enum Gathered {
    /// It is whole.
    Whole,
    /// It is too long, and nothing was added.
    TooLong,
    /// It has all that was buffered, and no end yet.
    Part,
}

/// Reads the lines of one recording, of which it looks at `MOST_BYTES` bytes at most. It keeps a
/// buffer of 65,536 bytes and one line of at most `longest` bytes.
#[derive(Drop)]
pub struct LineReader {
    /// What was read last stands here: `PIECE` bytes always.
    buffer: Vec<u8>,
    /// Where the bytes begin that wait in the buffer. At most `end`.
    start: usize,
    /// Where they end. At most `PIECE`.
    end: usize,
    /// The line that was given last or, while it is open, is being gathered. At most `longest`
    /// bytes, and no newline.
    line: Vec<u8>,
    /// Whether the line has no end yet.
    is_open: bool,
    /// How many bytes may still be read. At most `MOST_BYTES`.
    unread: usize,
    /// How many bytes a line may have without its newline. At most `MOST_BYTES`.
    longest: usize,
}

impl Model for LineReader {
    ghost use Rattle.recording_lines.specs.Reading.{Reading};

    ghost Value = { Reading };

    ghost use Rattle.recording_lines.specs.Views.{reading_of, IsInOrder};

    ghost view = { reading_of };

    ghost invariant = { IsInOrder };
}

impl LineReader {
    ghost use Rattle.recording_lines.specs.Lines.{lines_left, longest_line, most_bytes};
    ghost use Rattle.recording_lines.specs.Reading.{held, budget, to_come, LosesLine, BeginsTooLong, TakesUnread};
    ghost use Rattle.recording_lines.specs.Answers.{OnLine, OnTooLong, IfEnd, UnlessLine};
    ghost use Rattle.std.specs.Io.KnownBytes.{Keeps};
    ghost use Rattle.recording_lines.specs.declared.fault.ReadFault.TheVariants as fault;

    /// A reader at the beginning of a recording, whose lines may have `LONGEST_LINE` bytes.
    ///
    /// # Errors
    ///
    /// `AllocError` where there is no memory for the buffer.
    pub fn new(alloc: Global) -> Result<LineReader, AllocError>
        ensures empty { IfOk result (λ reader. held reader ≡ []) }
        ensures unread { IfOk result (λ reader. reader.unread ≡ most_bytes) }
        ensures longest { IfOk result (λ reader. reader.longest ≡ longest_line) }
    {
        LineReader::with_longest(alloc, LONGEST_LINE)
    }

    /// A reader at the beginning of a recording, whose lines may have `longest` bytes without the
    /// newline. `longest` must be at most `MOST_BYTES`.
    ///
    /// It takes the buffer alone. The memory for a line is taken as the line comes.
    ///
    /// # Errors
    ///
    /// `AllocError` where there is no memory for the buffer.
    pub fn with_longest(alloc: Global, longest: usize) -> Result<LineReader, AllocError>
        requires { longest ≤ most_bytes }
        ensures empty { IfOk result (λ reader. held reader ≡ []) }
        ensures unread { IfOk result (λ reader. reader.unread ≡ most_bytes) }
        ensures longest { IfOk result (λ reader. reader.longest ≡ longest) }
    {
        Ok(LineReader {
            buffer: vec![in alloc; 0u8; PIECE]?,
            start: 0,
            end: 0,
            line: Vec::new(alloc),
            is_open: false,
            unread: MOST_BYTES,
            longest,
        })
    }

    /// The line that `next_line` gave last.
    pub fn line(&self) -> &[u8]
        ensures line { result.now ≡ self.now.line }
    {
        &self.line
    }

    /// Goes on to the next line, and reads of the source as far as that wants.
    ///
    /// It costs the bytes of the line, however the source's reads cut them. Where it doesn't return
    /// `Line`, nothing is lost: what was gathered is kept, and the next call goes on there.
    ///
    /// # Errors
    ///
    /// `Failed` where a read failed, and `OutOfMemory` where the line doesn't fit.
    pub fn next_line<S: Source>(&mut self, source: &mut S) -> Result<Next, ReadFault>
        // The first of the lines to come is this one, and the others are still to come.
        ensures line { OnLine result (LosesLine self.old.longest
            (budget self.old) (to_come self.old (S.left source.old))
            (budget self.new) (to_come self.new (S.left source.new)) self.new.line) }
        ensures short { OnLine result (length self.new.line ≤ self.old.longest) }
        ensures shorter { OnLine result (budget self.new < budget self.old) }

        // Other results, and what they leave.
        ensures too_long { OnTooLong result (IfSome (to_come self.old (S.left source.old))
            (λ bytes. BeginsTooLong self.old.longest
            (lines_left self.old.longest (budget self.old) bytes))) }
        ensures end { IfEnd result (λ whole. IfSome (to_come self.old (S.left source.old))
            (λ bytes. (lines_left self.old.longest (budget self.old) bytes ≡ [])
            × (whole ≡ nat_lt (length bytes) (budget self.old)))) }
        ensures kept { UnlessLine result (Keeps
            (to_come self.old (S.left source.old)) (to_come self.new (S.left source.new))) }
        ensures kept_budget { UnlessLine result (budget self.new ≡ budget self.old) }

        ensures faults_stay { S.faults source.old ≤ S.faults source.new }
        ensures failed { IsErrOf result fault.Failed → S.faults source.old < S.faults source.new }

        // Whatever is returned, the limit of a line stays.
        ensures longest { self.new.longest ≡ self.old.longest }

        // Whatever is returned, a front is gone from the source, of no more bytes than may be read no longer.
        ensures taken { TakesUnread self.old.unread self.new.unread
            (S.left source.old) (S.left source.new) }
    {
        self.open_line();
        'pieces: loop {
            match self.gather()? {
                Gathered::Whole => return Ok(Next::Line),
                Gathered::TooLong => return Ok(Next::TooLong),
                Gathered::Part => {}
            }
            if self.unread == 0 {
                return Ok(Next::End { whole: false });
            }
            if self.fill(source)? == 0 {
                return Ok(self.close_line());
            }
        }
    }
}

impl LineReader {
    ghost use Rattle.recording_lines.specs.Reading.{gathered};
    ghost use Rattle.recording_lines.specs.Gathering.{Gathers, Fills, Closes};
    ghost use Rattle.std.specs.Io.KnownBytes.{Keeps};

    // Empties the line for the next one, unless it is being gathered already.
    fn open_line(&mut self)
        ensures { self.new ≡ record self.old { line = gathered self.old; is_open = true } }
    {
        if !self.is_open {
            self.line.clear();
            self.is_open = true;
        }
    }

    // Moves what is buffered to the line, to the first newline, which is passed by.
    fn gather(&mut self) -> Result<Gathered, AllocError>
        requires { self.old.is_open ≡ true }
        ensures ok { IfOk result (λ gathered. Gathers gathered self.old self.new) }
        ensures err { OnErr result (self.new ≡ self.old) }
    {
        let (piece, is_whole) = first_piece(&self.buffer[self.start..self.end]);
        let taken = piece.len();
        if self.line.len() + taken > self.longest {
            return Ok(Gathered::TooLong);
        }
        self.line.extend_from_slice(piece)?;
        self.start += taken;
        if !is_whole {
            return Ok(Gathered::Part);
        }
        self.start += 1;
        self.is_open = false;
        Ok(Gathered::Whole)
    }

    // Reads the next piece into the buffer, which is empty, and tells how many bytes it has.
    fn fill<S: Source>(&mut self, source: &mut S) -> Result<usize, Failed>
        requires empty { self.old.buffered ≡ [] }
        requires unread { 0 < self.old.unread }
        ensures faults_stay { S.faults source.old ≤ S.faults source.new }
        ensures failed { OnErr result (S.faults source.old < S.faults source.new) }
        ensures ok { IfOk result (λ n. Fills n self.old self.new
            (S.left source.old) (S.left source.new)) }
        ensures err { OnErr result ((self.new ≡ self.old)
            × Keeps (S.left source.old) (S.left source.new)) }
    {
        let n = read_front(source, &mut self.buffer, self.unread.min(PIECE))?;
        self.start = 0;
        self.end = n;
        self.unread -= n;
        Ok(n)
    }

    // What comes where the source ended: the line that was gathered, where it has a byte.
    fn close_line(&mut self) -> Next
        ensures { Closes result self.old self.new }
    {
        if self.line.is_empty() {
            return Next::End { whole: true };
        }
        self.is_open = false;
        Next::Line
    }
}

// Reads at most `room` bytes into the front of the buffer.
fn read_front<S: Source>(source: &mut S, buffer: &mut [u8], room: usize) -> Result<usize, Failed>
    requires { room ≤ length buffer.old }
    ensures faults_stay { S.faults source.old ≤ S.faults source.new }
    ensures failed { OnErr result (S.faults source.old < S.faults source.new) }
    ensures bound { IfOk result (λ n. n ≤ room) }
    ensures bytes { ReadConsumes (S.left source.old) (S.left source.new) result
        (take room buffer.new) }
{
    source.read(&mut buffer[..room])
}
