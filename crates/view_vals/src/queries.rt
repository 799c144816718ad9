//! The values by which queries are written.
ghost use Rattle.std.specs.Prelude.{◌≡◌, ◌∷◌, ◌++◌, [], List, map, IfOk, IfErr, OnOk};
ghost use Rattle.rooms_val.specs.Data.{text, list, items_of};
ghost use Rattle.rooms_val.specs.View.{data_of, items_view};
ghost use Rattle.rooms_val.specs.Answers.{Refuses};
ghost use Rattle.shape_tree.specs.declared.query.Query.{Query};
ghost use Rattle.view_vals.specs.Queries.{query_data, named, IsNoQuery};

use crate::parts;
use crate::parts::{name_and_rest, single, single_list, text_and_number, text_and_value};
use rooms_val::{Mem, OpFault, Text, Val, Vals};
use shape_tree::Query;
use std::alloc::Global;

/// The query that a value stands for: `["eq",FIELD,VALUE]`, `["neq",FIELD,VALUE]`,
/// `["gt",FIELD,NUMBER]`, `["and",[..]]`, `["or",[..]]` or `["not",QUERY]`, with any text as field.
/// It costs the value.
///
/// # Errors
/// `WrongKind` exactly if the value is that of no query, or `OutOfMemory`.
#[cycle(read)]
pub fn read_query(alloc: Global, val: &Val) -> Result<Query, OpFault>
    ensures found { IfOk result (λ q. data_of val.now ≡ query_data q) }
    ensures refused { IfErr result (Refuses (IsNoQuery (data_of val.now))) }
{
    let (name, rest) = name_and_rest(val)?;
    match name.as_str() {
        "eq" => {
            let (field, value) = text_and_value(rest)?;
            Ok(Query::Eq(field.copy(alloc)?, value.copy(alloc)?))
        }
        "neq" => {
            let (field, value) = text_and_value(rest)?;
            Ok(Query::Neq(field.copy(alloc)?, value.copy(alloc)?))
        }
        "gt" => {
            let (field, number) = text_and_number(rest)?;
            Ok(Query::Gt(field.copy(alloc)?, number))
        }
        "and" => Ok(Query::And(read_queries(alloc, single_list(rest)?)?)),
        "or" => Ok(Query::Or(read_queries(alloc, single_list(rest)?)?)),
        "not" => Ok(Query::Not(boxed_query(alloc, read_query(alloc, single(rest)?)?)?)),
        _ => Err(OpFault::WrongKind),
    }
}

// The queries that some values stand for, in their order. Refused exactly if one of the values
// stands for none.
#[cycle(read)]
fn read_queries(alloc: Global, vals: &[Val]) -> Result<Vec<Query>, OpFault>
    ensures found { IfOk result (λ queries. items_view vals.now ≡ map query_data queries.items) }
    ensures refused { IfErr result (Refuses
        ((queries : List Query) → ¬ (items_view vals.now ≡ map query_data queries))) }
{
    let mut queries = Vec::new(alloc);
    'vals: for val in vals {
        add(&mut queries, read_query(alloc, val)?)?;
    }
    Ok(queries)
}

// Adds a query at the end.
fn add(queries: &mut Vec<Query>, query: Query) -> Mem<()>
    ensures { OnOk result (queries.new.items ≡ queries.old.items ++ query ∷ []) }
{
    queries.push(query)?;
    Ok(())
}

// A query in a box.
fn boxed_query(alloc: Global, query: Query) -> Mem<Box<Query>>
    ensures { IfOk result (λ b. b.value ≡ query) }
{
    Ok(Box::new(alloc, query)?)
}

/// The value of a query. It costs the query.
#[cycle(print)]
pub fn query_val(alloc: Global, query: &Query) -> Mem<Val>
    ensures { IfOk result (λ v. data_of v ≡ query_data query.now) }
{
    match query {
        Query::Eq(field, value) => of_field(alloc, "eq", field, value.copy(alloc)?),
        Query::Neq(field, value) => of_field(alloc, "neq", field, value.copy(alloc)?),
        Query::Gt(field, number) => of_field(alloc, "gt", field, Val::Int(*number)),
        Query::And(queries) => of_one(alloc, "and", Val::List(queries_val(alloc, queries)?)),
        Query::Or(queries) => of_one(alloc, "or", Val::List(queries_val(alloc, queries)?)),
        Query::Not(query) => of_one(alloc, "not", query_val(alloc, query)?),
    }
}

// The values of some queries, in their order.
#[cycle(print)]
fn queries_val(alloc: Global, queries: &[Query]) -> Mem<Vals>
    ensures { IfOk result (λ vals. vals ≡ map query_data queries.now) }
{
    let mut vals = Vals::new(alloc);
    'queries: for query in queries {
        vals.push(query_val(alloc, query)?)?;
    }
    Ok(vals)
}

// The list of a name, a field and a value.
fn of_field(alloc: Global, name: &str, field: &Text, value: Val) -> Mem<Val>
    ensures { IfOk result (λ v. data_of v ≡ named name.now (text field.now ∷ data_of value ∷ [])) }
{
    let parts = parts::with(
        parts::list_of_name(alloc, name)?,
        Val::Text(field.copy(alloc)?),
    )?;
    Ok(Val::List(parts::with(parts, value)?))
}

// The list of a name and a value.
fn of_one(alloc: Global, name: &str, value: Val) -> Mem<Val>
    ensures { IfOk result (λ v. data_of v ≡ named name.now (data_of value ∷ [])) }
{
    Ok(Val::List(parts::with(parts::list_of_name(alloc, name)?, value)?))
}
