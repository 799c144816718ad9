//! A stream that counts the reads that gave bytes.

use std::io;
use std::io::{Read, Write};

/// A stream, with how often a read of it gave bytes, modulo 2^64. So it is known whether a byte came
/// where a message takes many reads.
#[derive(Debug, Drop)]
pub struct Heard<S> {
    /// The stream.
    pub stream: S,
    /// The reads of it that gave bytes, modulo 2^64.
    pub reads: u64,
}

impl<S: Read> Read for Heard<S> {
    ghost remaining = { λ heard. S.remaining heard.stream };

    fn read(&mut self, buf: &mut [u8]) -> io::Result<usize> {
        let got = self.stream.read(buf);
        if let Ok(1..) = got {
            self.reads = self.reads.wrapping_add(1);
        }
        got
    }
}

impl<S: Write> Write for Heard<S> {
    ghost contents = { λ heard. S.contents heard.stream };

    fn write(&mut self, buf: &[u8]) -> io::Result<usize> {
        self.stream.write(buf)
    }

    fn flush(&mut self) -> io::Result<()> {
        self.stream.flush()
    }
}
