//! Opening rooms.
ghost use Rattle.std.specs.Prelude.{◌≡◌, All, IfOk, vec_len};
ghost use Rattle.room_server.specs.Opened.{IsOpened};
ghost use Rattle.schema_core.specs.SchemaOf.{schema_tree};
ghost use Rattle.tl_tables.specs.Tables.{IsSchemaAt};

use room_model::limits::LAST_CLOCK;
use room_run::RunningRoom;
use rooms_val::{Mem, OutOfMemory};
use schema_core::Schema;
use std::alloc::Global;
use sync_room::Room;
use table_schemas::tables_have_presences;
use tl_tables::{TableFault, schema_at};

// The version of the rooms' schema.
const VERSION: u32 = 3;

// So many running rooms, in which nothing has happened.
pub(crate) fn open_rooms(alloc: Global, count: u32) -> Mem<Vec<RunningRoom>>
    ensures count { IfOk result (λ rooms. vec_len rooms ≡ count) }
    ensures opened { IfOk result (λ rooms. All IsOpened rooms.items) }
{
    let mut rooms = Vec::with_capacity(alloc, count as usize)?;
    'rooms: for _ in 0..count {
        rooms.push_reserved(open_room(alloc)?);
    }
    Ok(rooms)
}

// A running room in which nothing has happened.
fn open_room(alloc: Global) -> Mem<RunningRoom>
    ensures { IfOk result IsOpened }
{
    let schema = schema(alloc)?;
    tables_have_presences();
    RunningRoom::open(alloc, Room::new(alloc, schema, LAST_CLOCK as i64)?)
}

// The rooms' schema.
fn schema(alloc: Global) -> Mem<Schema>
    ensures { IfOk result (λ schema. IsSchemaAt 3 (schema_tree schema)) }
{
    match schema_at(alloc, VERSION) {
        Ok(schema) => Ok(schema),
        Err(TableFault::NoSuchVersion) => unreachable!(),
        Err(TableFault::OutOfMemory) => Err(OutOfMemory),
    }
}
