//! The ids of the records that meet a query.
ghost use Rattle.std.specs.Prelude.{◌≡◌, IfOk, IfSome, filter};
ghost use Rattle.std.specs.Option.{ForSome};
ghost use Rattle.rooms_val.specs.Data.{Pairs};
ghost use Rattle.rooms_val.specs.Maps.{AreRising, keys_of};
ghost use Rattle.shape_tree.specs.Queries.{ids_meeting};
ghost use Rattle.shape_tree.specs.Records.{is_id_of};
ghost use Rattle.store_query.specs.Asking.{IsIndexOf, AreCandidates, meets_at};

use doc_store::DocStore;
use field_index::{FieldIndex, is_id_of};
use rooms_val::{Mem, Text};
use shape_tree::Query;
use std::alloc::Global;

/// The ids of the records of a type that meet a query, by id. An index that holds the values of the store's records changes
/// nothing but the cost; of another index nothing is said.
///
/// Where the index is of the type, and the query asks for a value of its field or for a greater number, it costs what the
/// index does, and looks at no record. Where a direct part of an `And` does so, it costs that, and a look-up and the query
/// for each id that the index gives. Else it costs a walk over the ids of the store, and a look-up and the query for each
/// id of the type.
///
/// # Errors
///
/// Memory was refused.
pub fn ids<D: DocStore>(
    alloc: Global,
    query: &Query,
    store: &D,
    type_name: &str,
    index: Option<&FieldIndex>,
) -> Mem<Vec<Text>>
    ensures { ForSome index.entry (λ i. IsIndexOf (D.records store.now) i.now)
        → IfOk result (λ ids. ids.items
        ≡ ids_meeting (D.records store.now) type_name.now query.now) }
{
    match index {
        Some(index) => by_index(alloc, query, store, type_name, index),
        None => by_walk(alloc, query, store, type_name),
    }
}

// The same with an index.
fn by_index<D: DocStore>(
    alloc: Global,
    query: &Query,
    store: &D,
    type_name: &str,
    index: &FieldIndex,
) -> Mem<Vec<Text>>
    ensures { IsIndexOf (D.records store.now) index.now
        → IfOk result (λ ids. ids.items
        ≡ ids_meeting (D.records store.now) type_name.now query.now) }
{
    if let Some(ids) = answer(alloc, query, type_name, index)? {
        return Ok(ids);
    }
    match candidates(alloc, query, type_name, index)? {
        Some(ids) => {
            tell_rising(store, type_name);
            ids_that_meet(alloc, query, store, ids)
        }
        None => by_walk(alloc, query, store, type_name),
    }
}

// The same without an index.
fn by_walk<D: DocStore>(alloc: Global, query: &Query, store: &D, type_name: &str) -> Mem<Vec<Text>>
    ensures { IfOk result (λ ids. ids.items
        ≡ ids_meeting (D.records store.now) type_name.now query.now) }
{
    tell_rising(store, type_name);
    let ids = ids_of_type(alloc, store, type_name)?;
    ids_that_meet(alloc, query, store, ids)
}

// The ids that meet the query by the index alone, where it is of the type and the query asks for a value of its field or
// for a greater number.
fn answer(
    alloc: Global,
    query: &Query,
    type_name: &str,
    index: &FieldIndex,
) -> Mem<Option<Vec<Text>>>
    ensures { IfOk result (λ found. IfSome found (λ ids. (m : Pairs)
        → IsIndexOf m index.now → ids.items ≡ ids_meeting m type_name.now query.now)) }
{
    if index.type_name() != type_name {
        return Ok(None);
    }
    match query {
        Query::Eq(field, value) => {
            if field.as_str() == index.field() {
                return Ok(Some(index.equal(alloc, value)?));
            }
            Ok(None)
        }
        Query::Gt(field, number) => {
            if field.as_str() == index.field() {
                return Ok(Some(index.greater(alloc, *number)?));
            }
            Ok(None)
        }
        _ => Ok(None),
    }
}

// The ids that meet the first part of an `And` that the index answers, if there is one.
fn candidates(
    alloc: Global,
    query: &Query,
    type_name: &str,
    index: &FieldIndex,
) -> Mem<Option<Vec<Text>>>
    ensures { IfOk result (λ found. IfSome found (λ ids. (m : Pairs) → AreRising m
        → IsIndexOf m index.now → AreCandidates m type_name.now query.now ids.items)) }
{
    if let Query::And(parts) = query {
        'parts: for part in parts {
            if let Some(ids) = answer(alloc, part, type_name, index)? {
                return Ok(Some(ids));
            }
        }
    }
    Ok(None)
}

// The ids of a type, in order.
fn ids_of_type<D: DocStore>(alloc: Global, store: &D, type_name: &str) -> Mem<Vec<Text>>
    ensures { IfOk result (λ ids. ids.items
        ≡ filter (is_id_of type_name.now) (keys_of (D.records store.now))) }
{
    let mut ids = Vec::new(alloc);
    'ids: for id in store.ids(alloc)? {
        if is_id_of(type_name, id.as_str()) {
            ids.push(id)?;
        }
    }
    Ok(ids)
}

// Those of some ids whose record meets the query.
fn ids_that_meet<D: DocStore>(
    alloc: Global,
    query: &Query,
    store: &D,
    ids: Vec<Text>,
) -> Mem<Vec<Text>>
    ensures { IfOk result (λ found. found.items
        ≡ filter (meets_at (D.records store.now) query.now) ids.items) }
{
    let mut found = Vec::new(alloc);
    'ids: for id in ids {
        if is_met_at(query, store, id.as_str()) {
            found.push(id)?;
        }
    }
    Ok(found)
}

// Whether there is a record under an id that meets the query.
fn is_met_at<D: DocStore>(query: &Query, store: &D, id: &str) -> bool
    ensures { result ≡ meets_at (D.records store.now) query.now id.now }
{
    match store.get(id) {
        Some(val) => query.is_met(val),
        None => false,
    }
}

// That the ids of a store rise is told by any look-up.
pub(crate) fn tell_rising<D: DocStore>(store: &D, id: &str)
    ensures { AreRising (D.records store.now) }
{
    let _ = store.get(id);
}
