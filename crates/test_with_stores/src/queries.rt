//! Queries by their texts, and what an index answers.
//!
//! A text has conditions and what joins them, each a word, in the order in which they are put together: `x=5`, `x!5` and
//! `x>5` for a field that is, isn't or is greater than a value; `not:1` for the one before it; `and:n` and `or:n` for the n
//! before it.
ghost use Rattle.std.specs.Prelude.{◌≡◌, []};
ghost use Rattle.record_store.specs.Seen.{begun};

use crate::texts::{cut, names, text};
use field_index::FieldIndex;
use record_store::{RecordStore, Since};
use rooms_val::Text;
use shape_tree::Query;
use std::alloc::Global;
use std::test::Fail;
use store_query::{ids, refresh};
use test_with_cases::value;

// The query of a text.
fn query(alloc: Global, asked: &str) -> Result<Query, Fail> {
    let mut found = Vec::new(alloc);
    for word in asked.split(' ') {
        let next = query_of(alloc, &mut found, word)?;
        found.push(next)?;
    }
    match found.pop() {
        Some(last) => Ok(last),
        None => Err(Fail::from("no query")),
    }
}

// The query of a word, with those before it that it joins.
fn query_of(alloc: Global, found: &mut Vec<Query>, word: &str) -> Result<Query, Fail> {
    let (name, count) = word.split_once(':').unwrap_or(("", ""));
    match name {
        "and" => Ok(Query::And(last(found, count.parse()?)?)),
        "or" => Ok(Query::Or(last(found, count.parse()?)?)),
        "not" => match found.pop() {
            Some(before) => Ok(Query::Not(Box::new(alloc, before)?)),
            None => Err(Fail::from("nothing to deny")),
        },
        _ => condition(alloc, word),
    }
}

// The last so many queries.
fn last(found: &mut Vec<Query>, count: usize) -> Result<Vec<Query>, Fail> {
    let at = found.len().saturating_sub(count);
    Ok(found.split_off(at)?)
}

// The condition of a word.
fn condition(alloc: Global, word: &str) -> Result<Query, Fail> {
    if let Some((field, given)) = word.split_once('=') {
        return Ok(Query::Eq(Text::of(alloc, field)?, value(alloc, given)?));
    }
    if let Some((field, given)) = word.split_once('!') {
        return Ok(Query::Neq(Text::of(alloc, field)?, value(alloc, given)?));
    }
    match word.split_once('>') {
        Some((field, given)) => Ok(Query::Gt(Text::of(alloc, field)?, given.parse()?)),
        None => Err(Fail::from("no condition")),
    }
}

// The ids of a type that meet the query of a text, with an index or without.
pub(crate) fn ids_text(
    alloc: Global,
    store: &RecordStore,
    asked: &str,
    index: Option<&FieldIndex>,
) -> Result<String, Fail> {
    let (type_name, rest) = cut(asked);
    let query = query(alloc, rest)?;
    names(alloc, &ids(alloc, &query, store, type_name, index)?)
}

// Brings an index up to a store, where no transaction is open.
pub(crate) fn refresh_index(
    alloc: Global,
    store: &RecordStore,
    index: &mut FieldIndex,
) -> Result<String, Fail> {
    if store.depth() > 0 {
        return text(alloc, "one is open");
    }
    refresh(index, alloc, store)?;
    text(alloc, "")
}

// How many writes a store has to tell an index, or that it doesn't know.
pub(crate) fn since(
    alloc: Global,
    store: &RecordStore,
    index: &FieldIndex,
) -> Result<String, Fail> {
    let Some(epoch) = index.epoch() else {
        return text(alloc, "never");
    };
    match store.diffs_since(alloc, epoch)? {
        Since::Diffs(diffs) => Ok(format!(in alloc; "{}", diffs.len())?),
        Since::Reset => text(alloc, "reset"),
    }
}
