//! The types of ids.
ghost use Rattle.std.specs.Prelude.{◌≡◌};
ghost use Rattle.shape_tree.specs.Records.{is_id_of};

use record_valid::id_type;

/// Whether the id is one of the type.
pub fn is_id_of(type_name: &str, id: &str) -> bool
    ensures { result ≡ is_id_of type_name.now id.now }
{
    match id_type(id) {
        Some(name) => name == type_name,
        None => false,
    }
}
