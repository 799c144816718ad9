//! The store on signals beside the plain one.
use crate::asked::{ask, maybe_text};
use crate::calls::Call;
use crate::plain::{plain_answer, records};
use crate::stores::{Plain, call};
use crate::texts::names;
use doc_store::DocStore;
use record_store::RecordStore;
use std::alloc::Global;
use std::test::Fail;
use test_with_cases::rows;

/// Does the calls of a script on a store on signals and on a plain one. At each row `look` the two must have the same records,
/// and each query of the pages `page:p` and `page:q` and of the shapes `shape:s0` to `shape:s7` must say what the plain query
/// says of these records. `None` if it is so, else where it isn't, and how.
///
/// # Errors
/// A step that is none, and where memory is refused.
pub fn first_unlike(alloc: Global, script: &str) -> Result<Option<String>, Fail> {
    let mut plain = Plain::new(alloc);
    let mut store = RecordStore::new(alloc)?;
    unlike_in(alloc, &mut store, &mut plain, script)
}

// Where the stores aren't alike in a script, if anywhere, and how.
fn unlike_in(
    alloc: Global,
    store: &mut RecordStore,
    plain: &mut Plain,
    script: &str,
) -> Result<Option<String>, Fail> {
    let queries = queries(alloc)?;
    for step in &rows(alloc, script)? {
        let told = if *step == "look" {
            unlike(alloc, store, plain, &queries)?
        } else {
            call_both(alloc, store, plain, step)?
        };
        if !told.is_empty() {
            return Ok(Some(told));
        }
    }
    Ok(None)
}

// Does a call on both stores. It tells nothing if both give the same.
fn call_both(
    alloc: Global,
    store: &mut RecordStore,
    plain: &mut Plain,
    step: &str,
) -> Result<String, Fail> {
    let given = call(alloc, store, Call::read(alloc, step)?)?;
    let wanted = plain.call(alloc, Call::read(alloc, step)?)?;
    different(alloc, step, given, wanted)
}

// Nothing where two answers are the same, and else what differs.
fn different(alloc: Global, asked: &str, given: &str, wanted: &str) -> Result<String, Fail> {
    if given == wanted {
        return Ok(String::new(alloc));
    }
    Ok(format!(in alloc; "at {asked}: {given}, and not {wanted}")?)
}

// The texts of the queries that are asked.
fn queries(alloc: Global) -> Result<Vec<String>, Fail> {
    let mut texts = Vec::new(alloc);
    for kind in ["tree", "count", "children"] {
        texts.push(format!(in alloc; "{kind} page:p")?)?;
        texts.push(format!(in alloc; "{kind} page:q")?)?;
    }
    for number in 0..8u32 {
        for kind in ["children", "bound", "box"] {
            texts.push(format!(in alloc; "{kind} shape:s{number}")?)?;
        }
    }
    Ok(texts)
}

// How what the stores have and what the queries say differs, if it does.
fn unlike(
    alloc: Global,
    store: &mut RecordStore,
    plain: &Plain,
    queries: &[String],
) -> Result<String, Fail> {
    let told = unlike_records(alloc, store, plain)?;
    if !told.is_empty() {
        return Ok(told);
    }
    let records = records(alloc, &plain.doc)?;
    for query in queries {
        let given = ask(alloc, store, query.as_str())?;
        let wanted = plain_answer(alloc, &records, query.as_str())?;
        let told = different(alloc, query.as_str(), given.as_str(), wanted.as_str())?;
        if !told.is_empty() {
            return Ok(told);
        }
    }
    Ok(String::new(alloc))
}

// How the records of the stores differ, if they do.
fn unlike_records(alloc: Global, store: &RecordStore, plain: &Plain) -> Result<String, Fail> {
    let ids = plain.doc.ids(alloc)?;
    let given = names(alloc, &store.ids(alloc)?)?;
    let wanted = names(alloc, &ids)?;
    let told = different(alloc, "ids", given.as_str(), wanted.as_str())?;
    if !told.is_empty() {
        return Ok(told);
    }
    for id in &ids {
        let given = maybe_text(alloc, store.get(id.as_str()))?;
        let wanted = maybe_text(alloc, plain.doc.get(id.as_str()))?;
        let told = different(alloc, id.as_str(), given.as_str(), wanted.as_str())?;
        if !told.is_empty() {
            return Ok(told);
        }
    }
    Ok(String::new(alloc))
}
