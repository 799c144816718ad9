//! The value of some JSON.
ghost use Rattle.std.specs.Prelude.{◌≡◌, IfOk};
ghost use Rattle.serde_json.specs.View.{view, items_view, members_view, number_view};
ghost use Rattle.rooms_val.specs.Data.{items_of, members_of};
ghost use Rattle.rooms_val.specs.Json.{value_in, items_in, members_in, whole_of};
ghost use Rattle.rooms_val.specs.View.{data_of};

use crate::fields::Fields;
use crate::memory::Mem;
use crate::text::Text;
use crate::val::Val;
use crate::vals::Vals;
use serde_json::{Map, Number, Value};
use std::alloc::Global;

/// The value of the JSON, with 0 for a number that is no whole one of 64 bits. Its long texts are
/// moved.
#[cycle(from_json)]
pub(crate) fn val_of(alloc: Global, json: Value) -> Mem<Val>
    ensures { IfOk result (λ val. data_of val ≡ value_in (view json)) }
{
    Ok(match json {
        Value::Null => Val::Null,
        Value::Bool(truth) => Val::Bool(truth),
        Value::Number(number) => Val::Int(whole_number(&number)),
        Value::String(text) => Val::Text(Text::from_string(text)?),
        Value::Array(items) => Val::List(vals_of(alloc, items)?),
        Value::Object(members) => Val::Map(fields_of(alloc, members)?),
    })
}

fn whole_number(number: &Number) -> i64
    ensures { result ≡ whole_of (number_view number.now) }
{
    number.as_i64().unwrap_or(0)
}

#[cycle(from_json)]
fn vals_of(alloc: Global, items: Vec<Value>) -> Mem<Vals>
    ensures { IfOk result (λ vals. items_of vals ≡ items_in (items_view items.items)) }
{
    let mut vals = Vec::with_capacity(alloc, items.len())?;
    for item in items {
        let val = val_of(alloc, item)?;
        // That a value is sound is told by its kind.
        let _ = val.kind();
        vals.push(val)?;
    }
    Vals::from_vec(alloc, vals)
}

#[cycle(from_json)]
fn fields_of(alloc: Global, members: Map<String, Value>) -> Mem<Fields>
    ensures { IfOk result
        (λ fields. members_of fields ≡ members_in (members_view members.entries)) }
{
    let mut entries = Vec::with_capacity(alloc, members.len())?;
    for (key, member) in members {
        let val = val_of(alloc, member)?;
        let _ = val.kind();
        entries.push((Text::from_string(key)?, val))?;
    }
    Fields::from_vec(alloc, entries)
}
