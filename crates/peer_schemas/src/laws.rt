//! Laws of what the tables decide. Each function does nothing: its contract is the law.
ghost use Rattle.std.specs.Prelude.{◌≡◌, ℕ};
ghost use Rattle.schema_core.specs.Tree.{SchemaTree};
ghost use Rattle.room_model.specs.Schemas.{WorldSchemas, AreLawfulTogether};
ghost use Rattle.room_schemas.specs.Decided.{decided};
ghost use Rattle.side_effects.specs.declared.fault.EditFault.{EditFault};
ghost use Rattle.tl_tables.specs.Tables.{IsVersion, IsSchemaAt};
ghost use Rattle.peer_schemas.specs.Clients.{client_at, AreOfTables, IsDecidedBy};

/// What the tables decide is lawful, for a room at each version and its clients of each version.
pub fn tables_are_lawful()
    ensures { (schemas : WorldSchemas EditFault) → AreOfTables schemas
        → AreLawfulTogether schemas }
{}

/// The schema of the tables at a version that they have decides what is decided for a client of that version.
pub fn schemas_decide_by_version()
    ensures { (version : ℕ) (s : SchemaTree) → IsVersion version → IsSchemaAt version s
        → IsDecidedBy s (client_at version) }
{}

/// Two schemas of the tables at a version decide the same for a room: which ids are whose, what is admitted,
/// the newest migrations, and the plan from a client's schema with what it makes of a record, up and down.
pub fn versions_decide_for_rooms()
    ensures { (version : ℕ) (s t : SchemaTree) → IsSchemaAt version s → IsSchemaAt version t
        → decided s ≡ decided t }
{}
