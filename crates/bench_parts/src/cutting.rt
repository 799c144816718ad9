//! A long text cut into pieces, and put together again.
use rooms_val::{Mem, OutOfMemory, Text};
use std::alloc::Global;
use wire_text::{Assembler, pieces};

/// Cuts a text of so many bytes into pieces and puts them together so many times. It returns how many bytes came together.
pub(crate) fn cut(alloc: Global, bytes: u32, times: u32) -> Mem<i64> {
    let text = long_text(alloc, bytes)?;
    let mut together = 0i64;
    for _ in 0..times {
        let cut = pieces(alloc, text.as_str())?;
        together = together.saturating_add(put_together(alloc, text.len(), &cut)?);
    }
    Ok(together)
}

/// A text of so many bytes, in characters of two bytes, that begins as a whole text does.
fn long_text(alloc: Global, bytes: u32) -> Mem<String> {
    let mut text = String::from_str(alloc, "{")?;
    for _ in 0..bytes / 2 {
        text.push_str("é")?;
    }
    Ok(text)
}

/// How many bytes the pieces are together. Any fault counts as that of memory: the pieces are a text's.
fn put_together(alloc: Global, limit: usize, pieces: &[Text]) -> Mem<i64> {
    let mut assembler = Assembler::new(limit);
    let mut bytes = 0i64;
    for piece in pieces {
        match assembler.feed(alloc, piece.as_str()) {
            Ok(None) => {}
            Ok(Some(text)) => bytes = text.as_str().len().min(1 << 40) as i64,
            Err(_) => return Err(OutOfMemory),
        }
    }
    Ok(bytes)
}
