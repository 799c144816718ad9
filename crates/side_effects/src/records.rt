//! Ids and records of any form, as completion looks at them.
ghost use Rattle.std.specs.Prelude.{◌≡◌};
ghost use Rattle.rooms_val.specs.View.{data_of};
ghost use Rattle.shape_tree.specs.Records.{text_or_empty, is_id_of, is_shape, is_binding};
ghost use Rattle.side_effects.specs.Records.{is_page, lacks_index};

use record_valid::id_type;
use rooms_val::Val;

// Whether the id is one of a type.
fn is_id_of(type_name: &str, id: &str) -> bool
    ensures { result ≡ is_id_of type_name.now id.now }
{
    match id_type(id) {
        Some(name) => name == type_name,
        None => false,
    }
}

// Whether the id is one of a page.
pub(crate) fn is_page(id: &str) -> bool
    ensures { result ≡ is_page id.now }
{
    is_id_of("page", id)
}

// Whether the id is one of a shape.
pub(crate) fn is_shape(id: &str) -> bool
    ensures { result ≡ is_shape id.now }
{
    is_id_of("shape", id)
}

// Whether the id is one of a binding.
pub(crate) fn is_binding(id: &str) -> bool
    ensures { result ≡ is_binding id.now }
{
    is_id_of("binding", id)
}

// The text under a key, and the empty text if there is none.
pub(crate) fn text_or_empty<'a>(stored: &'a Val, key: &str) -> &'a str
    ensures { result.now ≡ text_or_empty (data_of stored.now) key.now }
{
    match stored.get(key) {
        Some(found) => found.as_text().unwrap_or(""),
        None => "",
    }
}

// Whether the record is a map without the key `index`.
pub(crate) fn lacks_index(stored: &Val) -> bool
    ensures { result ≡ lacks_index (data_of stored.now) }
{
    match stored.as_map() {
        Some(fields) => fields.get("index").is_none(),
        None => false,
    }
}
