//! The steps of scripts that save a room, and that let one begin from what was saved.
ghost use Rattle.std.specs.Prelude.{◌≡◌, ◌<◌};

use crate::saves::{fault_text, saved_of, saved_text};
use crate::texts::{cut, whole};
use rooms_val::{Mem, Steps};
use std::alloc::Global;
use std::marker::Brand;
use std::sync::ledger::{Blank, Ledger};
use std::test::Fail;
use sync_room::{LoadFault, Room, SavedRoom};
use table_schemas::tables_have_presences;
use tl_tables::schema_at;

// What is saved of a room, as text.
pub(crate) fn save(alloc: Global, room: &Room) -> Result<String, Fail> {
    saved_text(alloc, &saved_room(alloc, room)?)
}

// A room begins from a saved one, in the place of another.
pub(crate) fn load(alloc: Global, room: &mut Room, rest: &str) -> Result<String, Fail> {
    let (last, text) = cut(rest);
    begin(alloc, room, whole(last)?, saved_of(alloc, text)?)
}

// A room begins from what is saved of another, in its place.
pub(crate) fn reload(alloc: Global, room: &mut Room, rest: &str) -> Result<String, Fail> {
    let saved = saved_room(alloc, room)?;
    begin(alloc, room, whole(rest)?, saved)
}

// A room begins from a saved one, in the place of another, if it can.
fn begin(alloc: Global, room: &mut Room, last: i64, saved: SavedRoom) -> Result<String, Fail> {
    match loaded_in::<Brand>(Blank::new(1), alloc, last, saved)? {
        Ok(loaded) => {
            *room = loaded;
            Ok(String::from_str(alloc, "loaded")?)
        }
        Err(fault) => fault_text(alloc, &fault),
    }
}

// What is saved of a room. The steps are counted for nobody.
fn saved_room(alloc: Global, room: &Room) -> Result<SavedRoom, Fail> {
    Ok(saved_in::<Brand>(Blank::new(1), alloc, room)?)
}

fn saved_in<L: Ledger>(blank: Blank, alloc: Global, room: &Room) -> Mem<SavedRoom>
    requires name { blank.name ≡ L.name }
    requires parts { blank.parts ≡ L.parts }
    requires some { 0 < blank.parts }
{
    let mut steps = Steps::<L>::new(blank);
    room.saved(alloc, &mut steps)
}

fn loaded_in<L: Ledger>(
    blank: Blank,
    alloc: Global,
    last: i64,
    saved: SavedRoom,
) -> Result<Result<Room, LoadFault>, Fail>
    requires name { blank.name ≡ L.name }
    requires parts { blank.parts ≡ L.parts }
    requires some { 0 < blank.parts }
{
    let last = last.clamp(1, 1_000_000);
    let schema = schema_at(alloc, 3)?;
    tables_have_presences();
    let mut steps = Steps::<L>::new(blank);
    Ok(Room::load(alloc, schema, last, saved, &mut steps))
}
