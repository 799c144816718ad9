//! The lines that a reader gives, whatever its source's reads.
ghost use Rattle.std.specs.Prelude.{◌<◌};

use recording_lines::fault::ReadFault;
use recording_lines::line_reader::{LineReader, Next};
use recording_lines::lines::{LONGEST_LINE, is_blank};
use room_link::memory_source::{MemorySource, SteadySource};
use room_link::script::Script;
use room_link::source::Source;
use std::alloc::Global;
use std::process::Abort;
use std::test::Fail;

/// Recordings, in which `/` stands for a newline, each before its lines. `|` stands after a line.
const RECORDINGS: [(&str, &str); 10] = [
    ("", ""),
    ("/", "|"),
    ("//", "||"),
    ("a", "a|"),
    ("a/", "a|"),
    ("/a", "|a|"),
    ("abc/de/f/", "abc|de|f|"),
    ("abc/de/f", "abc|de|f|"),
    ("abc///f", "abc|||f|"),
    (" /\t\r/x", " |\t\r|x|"),
];

/// What a reader gives of a source: each line and `|`, and `.` at the end of a whole recording. After a fault the call is
/// made again.
fn text_of<S: Source>(alloc: Global, source: &mut S) -> Result<Vec<u8>, Fail> {
    let mut reader = LineReader::new(alloc)?;
    let mut text = Vec::new(alloc);
    for _ in 0..1_000 {
        match reader.next_line(source) {
            Ok(Next::Line) => {
                text.extend_from_slice(reader.line())?;
                text.push(b'|')?;
            }
            Ok(Next::TooLong) => {
                text.push(b'!')?;
                return Ok(text);
            }
            Ok(Next::End { whole }) => {
                text.push(if whole { b'.' } else { b'~' })?;
                return Ok(text);
            }
            Err(ReadFault::Failed) => {}
            Err(ReadFault::OutOfMemory) => {
                text.push(b'?')?;
                return Ok(text);
            }
        }
    }
    Ok(text)
}

/// The bytes of a recording of the table.
fn bytes_of(alloc: Global, recording: &str) -> Result<Vec<u8>, Fail> {
    let mut bytes = Vec::new(alloc);
    for byte in recording.as_bytes() {
        bytes.push(if *byte == b'/' { b'\n' } else { *byte })?;
    }
    Ok(bytes)
}

#[test]
fn gives_the_lines_at_every_cut(rt: HostRuntime) -> Result<(), Fail> {
    let alloc = rt.alloc();
    for (recording, lines) in RECORDINGS {
        let wanted = format!(in alloc; "{lines}.")?;
        for most in [1, 2, 3, 4, 5, 65_536] {
            let mut source = SteadySource::new(bytes_of(alloc, recording)?, most);
            assert_eq!(&rt; text_of(alloc, &mut source)?.as_slice(), wanted.as_bytes());
        }
    }
    Ok(())
}

#[test]
fn goes_on_after_a_fault(rt: HostRuntime) -> Result<(), Fail> {
    let alloc = rt.alloc();
    for (recording, lines) in RECORDINGS {
        let wanted = format!(in alloc; "{lines}.")?;
        for failing in 0..10u64 {
            let mut calls = Vec::new(alloc);
            calls.push(failing)?;
            calls.push(failing + 1)?;
            let mut source = MemorySource {
                source: SteadySource::new(bytes_of(alloc, recording)?, 1),
                script: Script::new(calls),
            };
            assert_eq!(&rt; text_of(alloc, &mut source)?.as_slice(), wanted.as_bytes());
        }
    }
    Ok(())
}

/// A line of so many bytes, with what follows it.
fn long(alloc: Global, length: usize, after: &str) -> Result<Vec<u8>, Fail> {
    let mut line = vec![in alloc; b'a'; length]?;
    line.extend_from_slice(after.as_bytes())?;
    Ok(line)
}

#[test]
fn refuses_a_line_that_is_too_long(rt: HostRuntime) -> Result<(), Fail> {
    let alloc = rt.alloc();
    for most in [65_535, 65_536] {
        for after in ["", "\n", "\nb\n"] {
            let longest = text_of(
                alloc,
                &mut SteadySource::new(long(alloc, LONGEST_LINE, after)?, most),
            )?;
            let wanted = long(
                alloc,
                LONGEST_LINE,
                if after.len() == 3 { "|b|." } else { "|." },
            )?;
            assert!(&rt; longest == wanted);
            let longer = text_of(
                alloc,
                &mut SteadySource::new(long(alloc, LONGEST_LINE + 1, after)?, most),
            )?;
            assert_eq!(&rt; longer.as_slice(), "!".as_bytes());
        }
    }
    Ok(())
}

#[test]
fn tells_blank_lines(rt: HostRuntime) -> Result<(), Fail> {
    for (line, blank) in [("", true), (" \t\r", true), (" a", false), ("\u{b}", false)] {
        assert_eq!(&rt; is_blank(line.as_bytes()), blank);
    }
    Ok(())
}
