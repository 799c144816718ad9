//! Standard input and standard output, or any reader and writer of std in their place.
ghost use Rattle.std.specs.Prelude.{◌≡◌, ℕ, ◌+◌, ◌^◌, ◌-◌, ◌<◌, ◌≤◌, ◌↔◌, [], None, length, IfOk, OnErr, IsOk};
ghost use Rattle.std.specs.Io.KnownBytes.{ReadConsumes, WriteAppends};
ghost use Rattle.room_link.specs.Held.{Extends, taken_of};
ghost use Rattle.room_link.specs.Standard.{reader_of, source_faults, writer_of, sink_faults};

use crate::Failed;
use crate::sink::Sink;
use crate::source::Source;
use std::io::{Read, Write};

/// A source over a reader, as `StandardInput::new(rt.reader())`. It tells nothing of what is left,
/// but passes on what the reader tells of each read.
#[derive(Drop)]
pub struct StandardInput<R> {
    reader: R,
    faults: u64,
}

/// A sink over a writer that keeps nothing back, as `StandardOutput::new(io::writer(&rt))`. It
/// tells nothing of what it holds, but passes on what the writer tells of each write.
#[derive(Drop)]
pub struct StandardOutput<W> {
    writer: W,
    faults: u64,
}

/// Counts a fault and returns it. A count at its end stands still. The call then returns
/// `past_end`, since no fault is returned that isn't counted.
fn count_fault<T: Drop>(faults: &mut u64, past_end: T) -> Result<T, Failed>
    ensures err { OnErr result (faults.new ≡ faults.old + 1) }
    ensures ok { IfOk result (λ value. (value ≡ past_end) × (faults.new ≡ faults.old)) }
    ensures only_at_end { IsOk result ↔ (faults.old ≡ u64.MAX) }
{
    match faults.checked_add(1) {
        Some(more) => {
            *faults = more;
            Err(Failed)
        }
        None => Ok(past_end),
    }
}

impl<R: Read> StandardInput<R> {
    /// A source with no fault so far.
    pub fn new(reader: R) -> Self
        ensures { ⟦<StandardInput<R> as Source>⟧.faults result ≡ 0 }
    {
        StandardInput { reader, faults: 0 }
    }
}

impl<R: Read> Source for StandardInput<R> {
    ghost faults = { source_faults };

    ghost left = { λ _. None };

    /// After 2^64 − 1 faults, which is the end of the count, a fault is the end of input.
    fn read(&mut self, buf: &mut [u8]) -> Result<usize, Failed>
        // What the reader tells of the read holds of the result.
        ensures given { source_faults self.old < u64.MAX
            → ReadConsumes (R.remaining (reader_of self.old)) (R.remaining (reader_of self.new))
            result buf.new }

        // As at any source.
        ensures faults_stay { source_faults self.old ≤ source_faults self.new }
        ensures failed { OnErr result (source_faults self.old < source_faults self.new) }
        ensures bound { IfOk result (λ n. n ≤ length buf.new) }
        ensures bytes { ReadConsumes None None result buf.new }
    {
        match self.reader.read(buf) {
            Ok(n) => Ok(n),
            Err(_) => count_fault(&mut self.faults, 0),
        }
    }
}

impl<W: Write> StandardOutput<W> {
    /// A sink with no fault so far.
    pub fn new(writer: W) -> Self
        ensures { ⟦<StandardOutput<W> as Sink>⟧.faults result ≡ 0 }
    {
        StandardOutput { writer, faults: 0 }
    }
}

impl<W: Write> Sink for StandardOutput<W> {
    ghost faults = { sink_faults };

    ghost held = { λ _. None };

    /// After 2^64 − 1 faults, which is the end of the count, bytes that can't be written are let go.
    fn write(&mut self, bytes: &[u8]) -> Result<usize, Failed>
        // What the writer tells of the write holds of the result.
        ensures given { sink_faults self.old < u64.MAX
            → WriteAppends (W.contents (writer_of self.old)) (W.contents (writer_of self.new))
            result bytes.now }

        // As at any sink.
        ensures faults_stay { sink_faults self.old ≤ sink_faults self.new }
        ensures failed { OnErr result (sink_faults self.old < sink_faults self.new) }
        ensures bound { IfOk result (λ n. n ≤ length bytes.now) }
        ensures goes_on { IfOk result (λ n. n ≡ 0 → bytes.now ≡ []) }
        ensures held { Extends None None (taken_of result bytes.now) }
    {
        if bytes.is_empty() {
            return Ok(0);
        }
        match self.writer.write(bytes) {
            Ok(n) if n > 0 => Ok(n),
            _ => count_fault(&mut self.faults, bytes.len()),
        }
    }
}
