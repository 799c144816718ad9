//! A room, and what it tells of itself.
ghost use Rattle.std.specs.Prelude.{◌≡◌, ◌≢◌, ◌≤ℤ◌, ℕ, pos, Some, None, IfOk, IfErr, OnOk, length, option_map, filter, if◌then◌else◌};
ghost use Rattle.rooms_val.specs.Data.{map, members_of};
ghost use Rattle.rooms_val.specs.Maps.{AreRising, added, value_at};
ghost use Rattle.sync_room.specs.Scopes.{is_of_part};
ghost use Rattle.rooms_val.specs.View.{data_of};
ghost use Rattle.schema_core.specs.Admits.{is_document};
ghost use Rattle.schema_core.specs.SchemaOf.{schema_tree};
ghost use Rattle.room_model.specs.Histories.{records_of};
ghost use Rattle.room_model.specs.Rooms as model;
ghost use Rattle.room_model.specs.Schemas.{records_with};
ghost use Rattle.room_model.specs.declared.limits.TheConstants.{LAST_CLOCK};
ghost use Rattle.room_model.specs.Saves.{begun_room, load_fault};
ghost use Rattle.room_model.specs.declared.load_fault.LoadFault.TheVariants.{OutOfMemory};
ghost use Rattle.room_history.specs.Saving.{IsSavedOf};
ghost use Rattle.room_schemas.specs.Decided.{decided, is_presence};
ghost use Rattle.room_accept.specs.Suiting.{HasPresences};

use crate::sessions::Sessions;
use room_history::RoomHistory;
use room_model::{LoadFault, SavedRoom};
use room_schemas::is_presence;
use rooms_val::{Fields, Mem, Steps, Text, Val};
use schema_core::Schema;
use std::alloc::Global;
use std::sync::ledger::Ledger;

/// A room that one thread calls. It keeps its records, what changed since which clock, its last
/// entries, and the sessions that are in it, but no list of entries.
#[derive(Drop)]
pub struct Room {
    // The clock from which on pushes are refused, from 1 to 2^53 - 65.
    pub(crate) last: i64,
    // The records, and what is kept of how they came about.
    pub(crate) history: RoomHistory,
    // The sessions that are in the room.
    pub(crate) sessions: Sessions,
    ghost bounded: { last ≤ℤ pos LAST_CLOCK },
}

impl Room {
    ghost use Rattle.sync_room.specs.Standing.{Stands, tree_of};

    /// A room without an entry, which nobody entered. It refuses pushes from the clock `last` on,
    /// which is 1 to 2^53 - 65. To its schema the ids of sessions' presence are presence.
    pub fn new(alloc: Global, schema: Schema, last: i64) -> Mem<Room>
        requires presence { HasPresences (schema_tree schema) }
        requires low { pos 1 ≤ℤ last }
        requires high { last ≤ℤ pos LAST_CLOCK }
        ensures stands { IfOk result (λ room. (bound : ℕ) → last ≡ pos bound
            → Stands (model.new_room bound) room) }
        ensures schema { IfOk result (λ room. tree_of room ≡ schema_tree schema) }
    {
        Ok(Room {
            last,
            history: RoomHistory::new(alloc, schema)?,
            sessions: Sessions::new(alloc),
        })
    }

    /// A room that begins from what was saved, which nobody entered: its history has an entry for
    /// each clock, which put the saved records of that clock and removed the ids of that clock. The
    /// room refuses pushes from the clock `last` on, which is 1 to 2^53 - 65. To its schema the ids of
    /// sessions' presence are presence. It costs what `RoomHistory::load` does.
    ///
    /// # Errors
    ///
    /// [`LoadFault`] names each with its cause. Of several causes the first of its order is named, or
    /// that memory was refused.
    pub fn load<L: Ledger>(
        alloc: Global,
        schema: Schema,
        last: i64,
        saved: SavedRoom,
        steps: &mut Steps<L>,
    ) -> Result<Room, LoadFault>
        requires presence { HasPresences (schema_tree schema) }
        requires low { pos 1 ≤ℤ last }
        requires high { last ≤ℤ pos LAST_CLOCK }
        ensures fault { IfErr result (λ e. e ≢ OutOfMemory
            → load_fault (decided (schema_tree schema)) last saved ≡ Some e) }
        ensures fits { IfOk result (λ room.
            load_fault (decided (schema_tree schema)) last saved ≡ None) }
        ensures stands { IfOk result (λ room. (bound : ℕ) → last ≡ pos bound
            → Stands (begun_room bound saved) room) }
        ensures schema { IfOk result (λ room. tree_of room ≡ schema_tree schema) }
    {
        Ok(Room {
            last,
            history: RoomHistory::load(alloc, schema, last, saved, steps)?,
            sessions: Sessions::new(alloc),
        })
    }

    /// What is saved of the room: its clocks, the records of its document by rising id, with the clocks
    /// of their last entries, and the removed ids of the document that it remembers, by rising id;
    /// presence isn't saved. It costs a copy of the document, whose values are shared, and sorting the
    /// ids that are there or remembered as removed.
    pub fn saved<L: Ledger>(&self, alloc: Global, steps: &mut Steps<L>) -> Mem<SavedRoom>
        ensures { IfOk result (λ saved. (state : model.Room) → Stands state self.now
            → IsSavedOf (is_document (tree_of self.now)) state.first state.history saved) }
    {
        self.history.saved(alloc, steps)
    }

    /// The schema, by which is decided what the room takes.
    pub fn schema(&self) -> &Schema
        ensures { schema_tree result.now ≡ tree_of self.now }
    {
        self.history.schema()
    }

    /// The clock: how many entries there were.
    pub fn clock(&self) -> i64
        ensures { (state : model.Room) → Stands state self.now
            → result ≡ pos (length state.history) }
    {
        self.history.clock()
    }

    /// The clock up to which removals are forgotten.
    pub fn starts_at(&self) -> i64
        ensures { (state : model.Room) → Stands state self.now → result ≡ pos (model.start state) }
    {
        self.history.starts_at()
    }

    /// The record of an id, a presence too. `None` exactly if there is none. It costs a logarithm of
    /// the number of records.
    pub fn record(&self, id: &str) -> Option<&Val>
        ensures { (state : model.Room) → Stands state self.now
            → option_map (λ v. data_of v.now) result ≡ value_at (records_of state.history) id.now }
    {
        self.history.record(id)
    }

    /// The records of the document, as a map by id. It costs a copy of all records.
    pub fn document(&self, alloc: Global) -> Mem<Val>
        ensures { IfOk result (λ v. (state : model.Room) → Stands state self.now
            → data_of v ≡ map (members_of (records_with
            (is_document (tree_of self.now)) (records_of state.history)))) }
    {
        self.records_of(alloc, false)
    }

    /// The presence of the sessions, as a map by id. It costs a copy of all records.
    pub fn presence(&self, alloc: Global) -> Mem<Val>
        ensures { IfOk result (λ v. (state : model.Room) → Stands state self.now
            → data_of v ≡ map (members_of (records_with
            (is_presence (tree_of self.now)) (records_of state.history)))) }
    {
        self.records_of(alloc, true)
    }

    // The records of the presence, or else of the document, as a map by id.
    fn records_of(&self, alloc: Global, presence: bool) -> Mem<Val>
        ensures { IfOk result (λ v. AreRising self.now.history.kept.records.0
            → data_of v ≡ map (members_of (filter
            (λ p. is_of_part (tree_of self.now) presence p.0) self.now.history.kept.records.0))) }
    {
        let mut fields = Fields::new(alloc);
        'ids: for id in self.history.ids(alloc)? {
            self.copy_record(alloc, presence, id, &mut fields)?;
        }
        Ok(Val::Map(fields))
    }

    // Adds a copy of the record of an id, where that is of the presence, or else of the document.
    fn copy_record(&self, alloc: Global, presence: bool, id: Text, fields: &mut Fields) -> Mem<()>
        ensures { OnOk result (fields.new ≡ (if is_of_part (tree_of self.now) presence id
            then added fields.old id (value_at self.now.history.kept.records.0 id)
            else fields.old)) }
    {
        if !is_of_part(self.history.schema(), presence, id.as_str()) {
            return Ok(());
        }
        if let Some(record) = self.history.record(id.as_str()) {
            let record = record.copy(alloc)?;
            drop(fields.put(id, record)?);
        }
        Ok(())
    }
}

// Whether an id is of the presence of sessions, or else of the document.
fn is_of_part(schema: &Schema, presence: bool, id: &str) -> bool
    ensures { result ≡ is_of_part (schema_tree schema.now) presence id.now }
{
    if presence {
        return is_presence(schema, id);
    }
    schema.is_document(id)
}
