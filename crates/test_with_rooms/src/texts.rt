//! The texts of steps.
use field_ops::{Diff, diff_val};
use rooms_val::Mem;
use std::alloc::Global;
use std::test::Fail;
use test_with_cases::val_text;

// The number of a text.
pub(crate) fn number(text: &str) -> Result<u64, Fail> {
    Ok(text.parse::<u64>()?)
}

// The whole number of a text, which may be negative.
pub(crate) fn whole(text: &str) -> Result<i64, Fail> {
    Ok(text.parse::<i64>()?)
}

// The first word of a text, and what comes after it.
pub(crate) fn cut(text: &str) -> (&str, &str) {
    text.split_once(' ').unwrap_or((text, ""))
}

// The text of a diff.
pub(crate) fn diff_text(alloc: Global, diff: &Diff) -> Result<String, Fail> {
    val_text(alloc, &diff_val(alloc, diff)?)
}

// A text in which each `~n~` is n letters.
pub(crate) fn with_letters(alloc: Global, text: &str) -> Result<String, Fail> {
    let mut out = String::new(alloc);
    let mut letters = false;
    for part in text.split('~') {
        if letters {
            add_letters(&mut out, number(part)?)?;
        } else {
            out.push_str(part)?;
        }
        letters = !letters;
    }
    Ok(out)
}

// Adds so many letters.
fn add_letters(out: &mut String, count: u64) -> Mem<()> {
    for _ in 0..count {
        out.push('x')?;
    }
    Ok(())
}

// Adds a text with a number in the place of each `@`.
pub(crate) fn add_numbered(out: &mut String, text: &str, place: &str) -> Mem<()> {
    let mut parts = text.split('@');
    out.push_str(parts.next().unwrap_or(""))?;
    for part in parts {
        out.push_str(place)?;
        out.push_str(part)?;
    }
    Ok(())
}

// A text in which each `^from count part^` is so many parts.
pub(crate) fn with_parts(alloc: Global, text: &str) -> Result<String, Fail> {
    let mut out = String::new(alloc);
    let mut parts = false;
    for part in text.split('^') {
        if parts {
            add_parts(alloc, &mut out, part)?;
        } else {
            out.push_str(part)?;
        }
        parts = !parts;
    }
    Ok(out)
}

// Adds the parts that `from count part` says, parted by commas, with the numbers that begin at from in the places of `@`.
pub(crate) fn add_parts(alloc: Global, out: &mut String, text: &str) -> Result<(), Fail> {
    let (from, rest) = cut(text);
    let (count, part) = cut(rest);
    let from = number(from)?;
    for place in 0..number(count)? {
        if 0 < place {
            out.push_str(",")?;
        }
        let name = format!(in alloc; "{}", from.saturating_add(place))?;
        add_numbered(out, part, name.as_str())?;
    }
    Ok(())
}
