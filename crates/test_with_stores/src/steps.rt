//! The steps of scripts.
use crate::asked::{ask, due_text, told_text, unwatch, view_text, watch_text};
use crate::calls::Call;
use crate::queries::{ids_text, refresh_index, since};
use crate::stores::call;
use crate::texts::{cut, text, with_number};
use field_index::FieldIndex;
use record_store::RecordStore;
use rooms_val::{Mem, Text};
use std::alloc::Global;
use std::test::Fail;
use test_with_cases::{cells, rows};

/// Plays scripts, one after the other, on a new store. `None` if each answer is the one that stands there, else the first step
/// with another answer, and both.
///
/// # Errors
/// A step that is none, and where memory is refused.
pub fn first_difference(alloc: Global, scripts: &[&str]) -> Result<Option<String>, Fail> {
    let mut index = index_of_x(alloc)?;
    let mut store = RecordStore::new(alloc)?;
    difference_in_all(alloc, &mut store, &mut index, scripts)
}

// An index of the x of shapes, which was never refreshed.
fn index_of_x(alloc: Global) -> Mem<FieldIndex> {
    let type_name = Text::of(alloc, "shape")?;
    Ok(FieldIndex::new(alloc, type_name, Text::of(alloc, "x")?))
}

// The first difference that playing scripts on a store with an index shows.
fn difference_in_all(
    alloc: Global,
    store: &mut RecordStore,
    index: &mut FieldIndex,
    scripts: &[&str],
) -> Result<Option<String>, Fail> {
    for script in scripts {
        if let Some(difference) = difference_in(alloc, store, index, script)? {
            return Ok(Some(difference));
        }
    }
    Ok(None)
}

// The first difference that playing a script shows.
fn difference_in(
    alloc: Global,
    store: &mut RecordStore,
    index: &mut FieldIndex,
    script: &str,
) -> Result<Option<String>, Fail> {
    for row in &rows(alloc, script)? {
        let [step, wanted, ..] = cells(row);
        let given = row_answer(alloc, store, index, step)?;
        if given.as_str() != wanted {
            return Ok(Some(format!(in alloc; "at {step}: {given}, and not {wanted}")?));
        }
    }
    Ok(None)
}

// What a row's step gives.
fn row_answer(
    alloc: Global,
    store: &mut RecordStore,
    index: &mut FieldIndex,
    step: &str,
) -> Result<String, Fail> {
    match step.strip_prefix("each ") {
        Some(rest) => each(alloc, store, index, rest),
        None => answer(alloc, store, index, step),
    }
}

// What the last of many steps gives, one for each number.
fn each(
    alloc: Global,
    store: &mut RecordStore,
    index: &mut FieldIndex,
    rest: &str,
) -> Result<String, Fail> {
    let (first, rest) = cut(rest);
    let (last, step) = cut(rest);
    let mut given = String::new(alloc);
    for number in first.parse::<u32>()?..=last.parse()? {
        let step = with_number(alloc, step, '@', number)?;
        let step = with_number(alloc, step.as_str(), '#', number.saturating_sub(1))?;
        given = answer(alloc, store, index, step.as_str())?;
    }
    Ok(given)
}

// What a step gives.
fn answer(
    alloc: Global,
    store: &mut RecordStore,
    index: &mut FieldIndex,
    step: &str,
) -> Result<String, Fail> {
    let (word, rest) = cut(step);
    match word {
        "ask" => ask(alloc, store, rest),
        "view" => view_text(alloc, store, rest),
        "watch" => watch_text(alloc, store, rest),
        "unwatch" => unwatch(alloc, store, rest.parse()?),
        "told" => told_text(alloc, store),
        "due" => due_text(alloc, store),
        "query" => ids_text(alloc, store, rest, None),
        "find" => ids_text(alloc, store, rest, Some(index)),
        "refresh" => refresh_index(alloc, store, index),
        "since" => since(alloc, store, index),
        _ => text(alloc, call(alloc, store, Call::read(alloc, step)?)?),
    }
}
