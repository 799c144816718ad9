//! The texts of steps and answers.
use rooms_val::{Mem, Text};
use std::alloc::Global;
use std::test::Fail;

// How many ids are told one by one.
const MOST_TOLD: usize = 24;

// The first word of a text, and what comes after it.
pub(crate) fn cut(text: &str) -> (&str, &str) {
    text.split_once(' ').unwrap_or((text, ""))
}

// A text, with the given words in the places of its `@`, in order.
pub(crate) fn with_words(alloc: Global, text: &str, words: &str) -> Mem<String> {
    let mut out = String::new(alloc);
    let mut parts = text.split('@');
    out.push_str(parts.next().unwrap_or(""))?;
    for (part, word) in parts.zip(words.split(' ')) {
        out.push_str(word)?;
        out.push_str(part)?;
    }
    Ok(out)
}

// A text, with a number in the place of each mark.
pub(crate) fn with_number(alloc: Global, text: &str, mark: char, number: u32) -> Mem<String> {
    let number = format!(in alloc; "{number}")?;
    let mut out = String::new(alloc);
    let mut parts = text.split(mark);
    out.push_str(parts.next().unwrap_or(""))?;
    for part in parts {
        out.push_str(number.as_str())?;
        out.push_str(part)?;
    }
    Ok(out)
}

// A text of its own.
pub(crate) fn text(alloc: Global, given: &str) -> Result<String, Fail> {
    Ok(String::from_str(alloc, given)?)
}

// The ids without what they begin with as shapes, parted by blanks; of many the number, the first and the last.
pub(crate) fn names(alloc: Global, ids: &[Text]) -> Result<String, Fail> {
    if ids.len() > MOST_TOLD {
        return ends(alloc, ids);
    }
    let mut out = String::new(alloc);
    for id in ids {
        if !out.is_empty() {
            out.push_str(" ")?;
        }
        out.push_str(name(id))?;
    }
    Ok(out)
}

// The number of some ids, the first and the last.
fn ends(alloc: Global, ids: &[Text]) -> Result<String, Fail> {
    let (Some(first), Some(last)) = (ids.first(), ids.last()) else {
        return Ok(String::new(alloc));
    };
    Ok(format!(in alloc; "{}: {} .. {}", ids.len(), name(first), name(last))?)
}

// An id without what it begins with as a shape's.
fn name(id: &Text) -> &str {
    let id = id.as_str();
    id.strip_prefix("shape:").unwrap_or(id)
}
