//! Records by id, with any fields.
ghost use Rattle.std.specs.Prelude.{◌≡◌, IfOk, OnOk, option_map, option_and_then, codes};
ghost use Rattle.rooms_val.specs.Kinds.{as_text, field};
ghost use Rattle.rooms_val.specs.View.{data_of, items_view};
ghost use Rattle.shape_tree.specs.Records.{text_or_empty, is_shape, with_record, by_id};
ghost use Rattle.shape_tree.specs.View.{pairs_view};

use record_valid::id_type;
use rooms_val::{Mem, Val};
use std::alloc::Global;
use std::collections::BTreeMap;

// Records under their ids.
pub(crate) type Records<'a> = BTreeMap<&'a str, &'a Val>;

// The text under a key, and the empty text if there is none.
pub(crate) fn text_or_empty<'a>(val: &'a Val, key: &str) -> &'a str
    ensures { result.now ≡ text_or_empty (data_of val.now) key.now }
{
    match val.get(key) {
        Some(found) => found.as_text().unwrap_or(""),
        None => "",
    }
}

// Whether the id is one of a shape.
pub(crate) fn is_shape(id: &str) -> bool
    ensures { result ≡ is_shape id.now }
{
    match id_type(id) {
        Some(name) => name == "shape",
        None => false,
    }
}

// The records whose `id` is a text, by that text; of two with one id the later one. It costs a logarithm for each.
pub(crate) fn by_id<'a>(alloc: Global, vals: &'a [Val]) -> Mem<Records<'a>>
    ensures { IfOk result (λ m. pairs_view m.entries ≡ by_id (items_view vals.now)) }
{
    let mut records = BTreeMap::new(alloc);
    'vals: for val in vals {
        add(&mut records, val)?;
    }
    Ok(records)
}

// Sets the record under its `id`, where that is a text.
fn add<'a>(records: &mut Records<'a>, val: &'a Val) -> Mem<()>
    ensures { OnOk result (pairs_view records.new.entries
        ≡ with_record (pairs_view records.old.entries) (data_of val.now)) }
{
    if let Some(id) = id_of(val) {
        let _ = records.insert(id, val)?;
    }
    Ok(())
}

// The text under `id`, if there is one.
fn id_of(val: &Val) -> Option<&str>
    ensures { option_map (λ t. t.now) result
        ≡ option_and_then as_text (field (data_of val.now) (codes "id")) }
{
    val.get("id")?.as_text()
}
