//! Records of any form, as copies and pastes look at them.
ghost use Rattle.std.specs.Prelude.{◌≡◌, Some, option_map, option_and_then, IfOk};
ghost use Rattle.rooms_val.specs.Json.{greatest_whole};
ghost use Rattle.rooms_val.specs.Kinds.{as_whole, field};
ghost use Rattle.rooms_val.specs.View.{data_of};
ghost use Rattle.shape_tree.specs.Boxes.{coordinate, IsWithin};
ghost use Rattle.shape_tree.specs.Records.{text_or_empty, is_id_of, is_shape, is_binding};
ghost use Rattle.side_effects.specs.Records.{has};
ghost use Rattle.side_effects.specs.Whole.{has_shape, parent_at};
ghost use Rattle.clip_content.specs.Pasted.{with_field};

use record_valid::id_type;
use rooms_val::limits::GREATEST_WHOLE;
use rooms_val::{Fields, Mem, Text, Val};
use std::alloc::Global;

// Whether the id is one of a type.
fn is_id_of(type_name: &str, id: &str) -> bool
    ensures { result ≡ is_id_of type_name.now id.now }
{
    match id_type(id) {
        Some(name) => name == type_name,
        None => false,
    }
}

// Whether the id is one of a shape.
pub(crate) fn is_shape(id: &str) -> bool
    ensures { result ≡ is_shape id.now }
{
    is_id_of("shape", id)
}

// Whether the id is one of a binding.
pub(crate) fn is_binding(id: &str) -> bool
    ensures { result ≡ is_binding id.now }
{
    is_id_of("binding", id)
}

// Whether there is a record under the id.
pub(crate) fn has(records: &Fields, id: &str) -> bool
    ensures { result ≡ has records.now id.now }
{
    records.get(id).is_some()
}

// Whether there is a shape under the id.
pub(crate) fn has_shape(records: &Fields, id: &str) -> bool
    ensures { result ≡ has_shape records.now id.now }
{
    is_shape(id) && has(records, id)
}

// The text under a key, and the empty text if there is none.
pub(crate) fn text_or_empty<'a>(val: &'a Val, key: &str) -> &'a str
    ensures { result.now ≡ text_or_empty (data_of val.now) key.now }
{
    match val.get(key) {
        Some(found) => found.as_text().unwrap_or(""),
        None => "",
    }
}

// The parent of the shape under an id, if there is one.
pub(crate) fn parent_at<'a>(records: &'a Fields, id: &str) -> Option<&'a str>
    ensures { option_map (λ t. t.now) result ≡ parent_at records.now id.now }
{
    if !is_shape(id) {
        return None;
    }
    let val = records.get(id)?;
    Some(text_or_empty(val, "parentId"))
}

// The coordinate under a key, and 0 if there is none in range.
pub(crate) fn coordinate(val: &Val, key: &str) -> i64
    ensures value { result ≡ coordinate (Some (data_of val.now)) key.now }
    ensures small { IsWithin greatest_whole result }
{
    match number_at(val, key) {
        Some(number) => {
            if -GREATEST_WHOLE <= number && number <= GREATEST_WHOLE {
                number
            } else {
                0
            }
        }
        None => 0,
    }
}

// The whole number under a key, if there is one.
fn number_at(val: &Val, key: &str) -> Option<i64>
    ensures { result ≡ option_and_then as_whole (field (data_of val.now) key.now) }
{
    val.get(key)?.as_int()
}

// The value with this under a key, if it is a map. If copies share the map, it costs a copy of each of its values.
pub(crate) fn with_field(alloc: Global, key: &str, new: Val, val: Val) -> Mem<Val>
    ensures { IfOk result (λ v. data_of v ≡ with_field key.now (data_of new) (data_of val)) }
{
    match val {
        Val::Map(mut fields) => {
            fields.put(Text::of(alloc, key)?, new)?;
            Ok(Val::Map(fields))
        }
        other => Ok(other),
    }
}
