//! What the schemas of the tables are to rooms. The crate has no code: it says a fact of `tl_tables`
//! in the words of `room_accept`, for those who make a room of such a schema.
#![tactic(auto)]

ghost use Rattle.std.specs.Prelude.{ℕ};
ghost use Rattle.schema_core.specs.Tree.{SchemaTree};
ghost use Rattle.room_accept.specs.Suiting.{HasPresences};
ghost use Rattle.tl_tables.specs.Tables.{IsSchemaAt};

/// To the schema at each version the ids of sessions' presence are presence.
pub fn tables_have_presences()
    ensures { (version : ℕ) (s : SchemaTree) → IsSchemaAt version s → HasPresences s }
{}
