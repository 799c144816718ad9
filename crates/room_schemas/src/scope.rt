//! Whose the ids are.
ghost use Rattle.std.specs.Prelude.{◌≡◌};
ghost use Rattle.schema_core.specs.SchemaOf.{schema_tree};
ghost use Rattle.room_schemas.specs.Decided.{is_presence};

use schema_core::{Schema, Scope};

/// Whether the records under an id are the presence of sessions. It takes no memory.
pub fn is_presence(schema: &Schema, id: &str) -> bool
    ensures { result ≡ is_presence (schema_tree schema.now) id.now }
{
    match schema.scope_of(id) {
        Some(Scope::Presence) => true,
        Some(Scope::Document) => false,
        Some(Scope::Session) => false,
        None => false,
    }
}
