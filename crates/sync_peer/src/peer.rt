//! A peer: a client that completes its edits.
ghost use Rattle.std.specs.Prelude.{◌≡◌, ◌+◌, ◌*◌, ◌≤◌, ◌↔◌, [], length, option_to_list, is_some, IfOk, OnOk, OnErr, IsErrOf, Some, None, Ok, Err};
ghost use Rattle.std.specs.Option.{option_map_or};
ghost use Rattle.std.specs.Borrow.{sem};
ghost use Rattle.rooms_val.specs.Answers.{Gives};
ghost use Rattle.rooms_val.specs.Maps.{AreRising, value_at, added};
ghost use Rattle.rooms_val.specs.View.{data_of};
ghost use Rattle.room_model.specs.Schemas.{WorldSchemas, records_with};
ghost use Rattle.room_model.specs.Replicas.{schema_of, pending_diffs, new_client, after_cut, after_end};
ghost use Rattle.room_model.specs.Worlds.{map_val};
ghost use Rattle.room_model.specs.declared.fault.ConnectFault.TheVariants as connect_fault;
ghost use Rattle.client_replica.specs.Works.{operations};
ghost use Rattle.sync_client.specs.Calls.{ClientState, connect_answer, asking, pushed, after_message, message_steps};
ghost use Rattle.sync_client.specs.Faults.{take_fault};
ghost use Rattle.sync_client.specs.Presences.{with_presence};
ghost use Rattle.sync_client.specs.declared.fault.TakeFault.TheVariants as take_fault_is;
ghost use Rattle.side_effects.specs.declared.fault.EditFault.{EditFault};
ghost use Rattle.side_effects.specs.declared.fault.EditFault.TheVariants as edit_fault;
ghost use Rattle.tl_tables.specs.Tables.{IsVersion};
ghost use Rattle.tl_tables.specs.declared.tables.TableFault.TheVariants as table_fault;
ghost use Rattle.peer_schemas.specs.Clients.{AreOfTables};
ghost use Rattle.doc_model.specs.Inverses.{inverse_diff};
ghost use Rattle.doc_model.specs.Marks.{after_mark, undo_diff, redo_diff};
ghost use Rattle.client_replica.specs.Standing.{admits_of};
ghost use Rattle.sync_client.specs.Standing as client_of;
ghost use Rattle.undo_marks.specs.declared.fault.BailFault.TheVariants as bail_fault;
ghost use Rattle.sync_peer.specs.Calls.{records_of, shown, others_shown, completion, refusal, done_by, done_unless, as_edit, with_marks, with_diff, undone, redone, bailed, bail_done};
ghost use Rattle.shape_tree.specs.Queries.{ids_meeting};
ghost use Rattle.signal_core.specs.Due.{AreFreshIn};
ghost use Rattle.signal_core.specs.Watches.{IsLeastFree, IsFull};
ghost use Rattle.signal_core.specs.declared.watch.WatchFault.TheVariants as watch_fault;
ghost use Rattle.record_store.specs.Seen.{begun};
ghost use Rattle.live_views.specs.Telling.{by_number};
ghost use Rattle.live_views.specs.Watches.{Watches, Stand, IsWatching, news, all_told};
ghost use Rattle.sync_peer.specs.Viewing.{WatchAlike};

use doc_store::DocStore;
use field_ops::Diff;
use live_views::{WatchFault, WatchId};
use record_store::RecordStore;
use rooms_val::{Fields, Mem, Steps, Text, Val};
use shape_tree::{Query, View};
use side_effects::{EditFault, complete};
use std::alloc::Global;
use std::sync::ledger::Ledger;
use sync_client::{ConnectFault, PresenceFault, SyncClient, TakeFault};
use sync_msgs::{ClientMessage, EndReason, ServerMessage};
use tl_tables::{TableFault, schema_at};
use undo_marks::{BailFault, Marks};

/// A client over a store with live views, with the schema of a version of the tables. Contracts say for which of
/// `room_model`'s clients, with which base, it stands, and see its store, which has what it watches.
#[derive(Drop)]
pub struct Peer {
    // The client. Its schema is one of the tables', and its edits were completed.
    client: SyncClient<RecordStore>,
    // What it can take back, and do again.
    marks: Marks,
}

impl Peer {
    ghost use Rattle.sync_peer.specs.Standing.{Stands, Edits};
    ghost use Rattle.sync_peer.specs.Lending.{LendsStore};
    ghost use Rattle.sync_peer.specs.Viewing.{store_of, watched, IsClosed, IsSoundStore};

    /// A peer of a version that was never connected and has no record.
    ///
    /// # Errors
    /// `NoSuchVersion` exactly for a version that the tables don't have, or `OutOfMemory`.
    pub fn new(alloc: Global, version: u32) -> Result<Peer, TableFault>
        ensures unknown { IsErrOf result table_fault.NoSuchVersion ↔ (¬ (IsVersion version)) }
        ensures stands { IfOk result (λ peer. (schemas : WorldSchemas EditFault)
            → AreOfTables schemas
            → Stands schemas (record { base = []; client = new_client version }) peer) }
        ensures unwatched { IfOk result (λ peer. watched peer ≡ []) }
        ensures closed { IfOk result IsClosed }
    {
        let schema = schema_at(alloc, version)?;
        Ok(Peer {
            client: SyncClient::new(alloc, schema, RecordStore::new(alloc)?),
            marks: Marks::new(alloc),
        })
    }

    /// Does an edit as it is completed against what the peer shows; it is pending, and its inverse joins what can be taken
    /// back. It costs what the diff names, at most a step for each operation, and what the edit before it changed.
    ///
    /// # Errors
    /// The first rule of completion that refuses the edit decides; `OutOfMemory` may come in place of any result. Then the
    /// peer is as before.
    pub fn edit<L: Ledger>(
        &mut self,
        alloc: Global,
        wanted: &Diff,
        steps: &mut Steps<L>,
    ) -> Result<(), EditFault>
        ensures fault { (schemas : WorldSchemas EditFault) (state : ClientState)
            → Stands schemas state self.old
            → Gives edit_fault.OutOfMemory
            (λ done. done) result (done_by (completion schemas state wanted.now)) }
        ensures ok { OnOk result ((schemas : WorldSchemas EditFault) (state : ClientState)
            → Stands schemas state self.old
            → Edits schemas state (completion schemas state wanted.now) self.new) }
        ensures err { OnErr result ((schemas : WorldSchemas EditFault) (state : ClientState)
            → Stands schemas state self.old → Stands schemas state self.new) }
        ensures views { WatchAlike (store_of self.old) (store_of self.new) }
    {
        tell_rising(wanted);
        let diff = complete(alloc, self.client.schema(), self.client.store(), wanted)?;
        self.marks.edit(alloc)?;
        // Each patch of a completed diff acts: completion has looked at what it leaves.
        let back = self.client.edit(alloc, diff, true, steps)?;
        self.marks.record(back);
        Ok(())
    }

    /// Makes a mark, to which an undo or a bail goes back. Where memory is refused nothing changes.
    pub fn mark(&mut self, name: Text) -> Mem<()>
        ensures ok { OnOk result ((schemas : WorldSchemas EditFault) (state : ClientState)
            → Stands schemas state self.old
            → Stands schemas (with_marks (after_mark name state.client.marks) state) self.new) }
        ensures err { OnErr result ((schemas : WorldSchemas EditFault) (state : ClientState)
            → Stands schemas state self.old → Stands schemas state self.new) }
        ensures store { store_of self.new ≡ store_of self.old }
    {
        self.marks.mark(name)
    }

    /// Takes the edits since the last mark back, by a diff that is done to what the peer shows and is pending, unless it is
    /// empty; what others did since stays. Returns whether there was an edit to take back. It costs what the diff names.
    /// Where memory is refused the peer is as before.
    pub fn undo<L: Ledger>(&mut self, alloc: Global, steps: &mut Steps<L>) -> Mem<bool>
        ensures answer { IfOk result (λ done. (schemas : WorldSchemas EditFault)
            (state : ClientState) → Stands schemas state self.old
            → done ≡ is_some (undo_diff state.client.marks)) }
        ensures ok { OnOk result ((schemas : WorldSchemas EditFault) (state : ClientState)
            → Stands schemas state self.old → Stands schemas (undone schemas state) self.new) }
        ensures err { OnErr result ((schemas : WorldSchemas EditFault) (state : ClientState)
            → Stands schemas state self.old → Stands schemas state self.new) }
        ensures views { WatchAlike (store_of self.old) (store_of self.new) }
    {
        let Some(diff) = self.marks.undo(alloc)? else {
            return Ok(false);
        };
        let back = make(alloc, &mut self.client, diff, steps)?;
        self.marks.undone(back);
        Ok(true)
    }

    /// Does again what the last undo took back, by a diff that is done to what the peer shows and is pending, unless it is
    /// empty. Returns whether there was something to do again. It costs what the diff names. Where memory is refused the
    /// peer is as before.
    pub fn redo<L: Ledger>(&mut self, alloc: Global, steps: &mut Steps<L>) -> Mem<bool>
        ensures answer { IfOk result (λ done. (schemas : WorldSchemas EditFault)
            (state : ClientState) → Stands schemas state self.old
            → done ≡ is_some (redo_diff state.client.marks)) }
        ensures ok { OnOk result ((schemas : WorldSchemas EditFault) (state : ClientState)
            → Stands schemas state self.old → Stands schemas (redone schemas state) self.new) }
        ensures err { OnErr result ((schemas : WorldSchemas EditFault) (state : ClientState)
            → Stands schemas state self.old → Stands schemas state self.new) }
        ensures views { WatchAlike (store_of self.old) (store_of self.new) }
    {
        let Some(diff) = self.marks.redo(alloc)? else {
            return Ok(false);
        };
        let back = make(alloc, &mut self.client, diff, steps)?;
        self.marks.redone(back);
        Ok(true)
    }

    /// Takes all edits since the last mark of a name back, by a diff that is done to what the peer shows and is pending,
    /// unless it is empty. They can't be done again, and the mark is gone. It costs what the diff names.
    ///
    /// # Errors
    /// `NoMark` exactly where there is no mark of the name, or `OutOfMemory`. Then the peer is as before.
    pub fn bail<L: Ledger>(
        &mut self,
        alloc: Global,
        name: &str,
        steps: &mut Steps<L>,
    ) -> Result<(), BailFault>
        ensures fault { (schemas : WorldSchemas EditFault) (state : ClientState)
            → Stands schemas state self.old
            → Gives bail_fault.OutOfMemory
            (λ done. done) result (bail_done name.now state.client.marks) }
        ensures ok { OnOk result ((schemas : WorldSchemas EditFault) (state : ClientState)
            → Stands schemas state self.old
            → Stands schemas (bailed schemas name.now state) self.new) }
        ensures err { OnErr result ((schemas : WorldSchemas EditFault) (state : ClientState)
            → Stands schemas state self.old → Stands schemas state self.new) }
        ensures views { WatchAlike (store_of self.old) (store_of self.new) }
    {
        let diff = self.marks.bail(alloc, name)?;
        let _ = make(alloc, &mut self.client, diff, steps)?;
        self.marks.bailed();
        Ok(())
    }

    /// Sets the record by which others are to see the peer. It is pending if the peer is connected, and again each time it
    /// is connected anew.
    ///
    /// # Errors
    /// `WrongScope` exactly where the record's id, which is given, isn't one of a presence; else `Invalid` exactly where the
    /// record isn't admitted under it, with the cause; or `OutOfMemory`. Then the peer is as before.
    pub fn presence(&mut self, alloc: Global, stored: Val) -> Result<(), PresenceFault>
        ensures fault { (schemas : WorldSchemas EditFault) (state : ClientState)
            → Stands schemas state self.old
            → Gives edit_fault.OutOfMemory
            (λ done. done) (as_edit result) (done_unless (refusal schemas state (data_of stored))) }
        ensures ok { OnOk result ((schemas : WorldSchemas EditFault) (state : ClientState)
            → Stands schemas state self.old → Stands schemas (record state {
              client = with_presence (data_of stored) state.client;
            }) self.new) }
        ensures err { OnErr result ((schemas : WorldSchemas EditFault) (state : ClientState)
            → Stands schemas state self.old → Stands schemas state self.new) }
        ensures store { store_of self.new ≡ store_of self.old }
    {
        self.client.presence(alloc, stored)
    }

    /// Asks to be connected by a request, whose number the room's answer will name. What is returned is to be sent.
    ///
    /// # Errors
    /// `AlreadyOpen` exactly where it has asked before or is connected; `Refused` exactly where the room ended a session of
    /// it for another reason than `Slow`, which is given; or `OutOfMemory`. Then the peer is as before.
    pub fn connect(&mut self, alloc: Global, request: u64) -> Result<ClientMessage, ConnectFault>
        ensures answer { (schemas : WorldSchemas EditFault) (state : ClientState)
            → Stands schemas state self.old
            → Gives connect_fault.OutOfMemory (λ said. said) result (connect_answer
            (schema_of schemas state.client).versions request state.client) }
        ensures ok { OnOk result ((schemas : WorldSchemas EditFault) (state : ClientState)
            → Stands schemas state self.old
            → Stands schemas (record state { client = asking request state.client }) self.new) }
        ensures err { OnErr result (self.new ≡ self.old) }
        ensures store { store_of self.new ≡ store_of self.old }
    {
        self.client.connect(alloc, request)
    }

    /// The push of the first pending work that wasn't sent on this connection. `None` exactly where it isn't connected, all
    /// was sent, or its pushes have reached 2^53 - 1. It costs a copy of the work. Where memory is refused the peer is as
    /// before.
    pub fn next_push(&mut self, alloc: Global) -> Mem<Option<ClientMessage>>
        ensures push { IfOk result (λ push. (schemas : WorldSchemas EditFault) (state : ClientState)
            → Stands schemas state self.old
            → option_to_list push ≡ (pushed state.client).messages) }
        ensures ok { OnOk result ((schemas : WorldSchemas EditFault) (state : ClientState)
            → Stands schemas state self.old
            → Stands schemas (record state { client = (pushed state.client).client }) self.new) }
        ensures err { OnErr result (self.new ≡ self.old) }
        ensures store { store_of self.new ≡ store_of self.old }
    {
        self.client.next_push(alloc)
    }

    /// Takes a message of the room. An answer to its request connects it: its base is brought to the room's clock, the
    /// pending edits stay, and all is to be pushed, its own presence last. Data changes its base event by event, and
    /// each result ends the first pending work.
    ///
    /// Data costs what its events bring, and what the works name that these end. The works left are walked for each of these
    /// ids that pending edits name. No work left is walked where each event commits the first work that is left then, and
    /// these works name ids of the document alone. Where a presence changes, data also costs a copy of the presences' list.
    ///
    /// An answer with `WipePresence` costs what its diff names, and a walk over the works for each of these ids that pending
    /// edits name. An answer with `WipeAll` costs what its diff names, all that is pending, and the base's document. No
    /// other message costs the document.
    ///
    /// # Errors
    /// The first event at fault decides, and of an event the first cause in the order of `TakeFault`; `OutOfMemory` may
    /// come in place of success. Then the peer is as before.
    pub fn take<L: Ledger>(
        &mut self,
        alloc: Global,
        message: &ServerMessage,
        steps: &mut Steps<L>,
    ) -> Result<(), TakeFault>
        ensures fault { (schemas : WorldSchemas EditFault) (state : ClientState)
            → Stands schemas state self.old
            → Gives take_fault_is.OutOfMemory (λ done. done) result (option_map_or
            (λ fault. Err fault) (take_fault state.client message.now) (Ok tt)) }
        ensures ok { OnOk result ((schemas : WorldSchemas EditFault) (state : ClientState)
            → Stands schemas state self.old
            → Stands schemas (after_message (schema_of schemas state.client).admits
            schemas.room.is_document state message.now) self.new) }
        ensures err { OnErr result ((schemas : WorldSchemas EditFault) (state : ClientState)
            → Stands schemas state self.old → Stands schemas state self.new) }
        ensures ticks { (schemas : WorldSchemas EditFault) (state : ClientState)
            → Stands schemas state self.old
            → steps.new ≤ steps.old + (2 * operations (pending_diffs state.client) + message_steps
            schemas.room.is_document state.base message.now) }
        ensures views { WatchAlike (store_of self.old) (store_of self.new) }
    {
        self.client.take(alloc, message, steps)
    }

    /// Learns that its connection is lost: its edits stay pending and are to be pushed again, its presence isn't pending
    /// any more, and those of others are gone. It takes no memory.
    pub fn lost(&mut self, alloc: Global)
        ensures stands { (schemas : WorldSchemas EditFault) (state : ClientState)
            → Stands schemas state self.old
            → Stands schemas (record {
              base = records_with schemas.room.is_document state.base;
              client = after_cut state.client;
            }) self.new }
        ensures store { store_of self.new ≡ store_of self.old }
    {
        self.client.lost(alloc);
    }

    /// Learns that the room ended its session: as `lost`, and after each reason but `Slow` it can't connect any more. It
    /// takes no memory.
    pub fn ended(&mut self, alloc: Global, reason: EndReason)
        ensures stands { (schemas : WorldSchemas EditFault) (state : ClientState)
            → Stands schemas state self.old
            → Stands schemas (record {
              base = records_with schemas.room.is_document state.base;
              client = after_end reason state.client;
            }) self.new }
        ensures store { store_of self.new ≡ store_of self.old }
    {
        self.client.ended(alloc, reason);
    }

    /// The room's clock that it has reached, -1 before the first connection.
    pub fn reached(&self) -> i64
        ensures { (schemas : WorldSchemas EditFault) (state : ClientState)
            → Stands schemas state self.now → result ≡ state.client.reached }
    {
        self.client.reached()
    }

    /// How many works are pending: edits that the room hasn't answered, and presences that were set on this connection.
    pub fn owed(&self) -> usize
        ensures { (schemas : WorldSchemas EditFault) (state : ClientState)
            → Stands schemas state self.now → result ≡ length state.client.pending }
    {
        self.client.owed()
    }

    /// What the peer shows, as a map by id: the document of its base with its pending edits replayed. It costs a copy of
    /// all records.
    pub fn document(&self, alloc: Global) -> Mem<Val>
        ensures { IfOk result (λ val. (schemas : WorldSchemas EditFault) (state : ClientState)
            → Stands schemas state self.now → val ≡ map_val (shown schemas state)) }
    {
        Ok(Val::Map(self.records(alloc)?))
    }

    /// The records that the peer shows, by id. It costs a copy of all records.
    pub fn records(&self, alloc: Global) -> Mem<Fields>
        ensures { IfOk result (λ records. (schemas : WorldSchemas EditFault) (state : ClientState)
            → Stands schemas state self.now → records ≡ shown schemas state) }
    {
        let store = self.client.store();
        let mut fields = Fields::new(alloc);
        'ids: for id in store.ids(alloc)? {
            copy_record(alloc, store, id, &mut fields)?;
        }
        Ok(fields)
    }

    /// What the peer shows is sound, which a look-up tells.
    pub fn tell_sound(&self)
        ensures { IsSoundStore (store_of self.now) }
    {
        let _ = self.client.store().get("");
    }

    /// The presence of others, as a map by id. It costs a copy of it.
    pub fn others(&self, alloc: Global) -> Mem<Val>
        ensures { IfOk result (λ val. (schemas : WorldSchemas EditFault) (state : ClientState)
            → Stands schemas state self.now → val ≡ map_val (others_shown schemas state)) }
    {
        Ok(Val::Map(self.client.others().copy(alloc)?))
    }

    /// The ids of the records of a type that it shows and that meet a query, by id. It costs a walk over the ids, and a
    /// look-up and the query for each of the type.
    pub fn query(&self, alloc: Global, type_name: &str, query: &Query) -> Mem<Vec<Text>>
        ensures { IfOk result (λ ids. (schemas : WorldSchemas EditFault) (state : ClientState)
            → Stands schemas state self.now
            → ids.items ≡ ids_meeting (shown schemas state) type_name.now query.now) }
    {
        store_query::ids(alloc, query, self.client.store(), type_name, None)
    }

    /// Watches a view by the least number that isn't watched. It is told at the next [`Peer::told`], whatever it comes to.
    ///
    /// # Errors
    /// `Full` exactly where 64 views are watched, or `OutOfMemory`; then the peer is as before.
    pub fn watch(&mut self, alloc: Global, view: &View) -> Result<WatchId, WatchFault>
        ensures number { IfOk result (λ id. IsLeastFree (watched self.old) id.number) }
        ensures ok { IfOk result (λ id. (old new : Watches) → Stand (watched self.old) old
            → IsWatching old new id.number view.now → Stand (watched self.new) new) }
        ensures full { (result ≡ Err watch_fault.Full) ↔ IsFull (watched self.old) }
        ensures err { OnErr result (watched self.new ≡ watched self.old) }
        ensures stands { (schemas : WorldSchemas EditFault) (state : ClientState)
            → Stands schemas state self.old
            → Stands schemas state self.new }
        ensures begun { begun (store_of self.new) ≡ begun (store_of self.old) }
    {
        live_views::watch(alloc, self.client.store_mut(), view)
    }

    /// The watched views that tell something else of what the peer shows than was last told of them, a new watch always,
    /// each with what it tells, by rising number. From then on this counts as told. While a transaction of the store is open
    /// nothing is told. It costs a look-up for each watch on which nothing hangs that changed, and a copy of what is told.
    /// Where memory is refused nothing counts as told.
    pub fn told<L: Ledger>(
        &mut self,
        alloc: Global,
        steps: &mut Steps<L>,
    ) -> Mem<Vec<(WatchId, Val)>>
        ensures told { IfOk result (λ told. (schemas : WorldSchemas EditFault) (state : ClientState)
            (ws : Watches) → Stands schemas state self.old → IsClosed self.old
            → Stand (watched self.old) ws
            → by_number told.items ≡ news (shown schemas state) ws) }
        ensures ok { OnOk result ((schemas : WorldSchemas EditFault) (state : ClientState)
            (ws : Watches) → Stands schemas state self.old → IsClosed self.old
            → Stand (watched self.old) ws
            → Stand (watched self.new) (all_told (shown schemas state) ws)) }
        ensures err { OnErr result (watched self.new ≡ watched self.old) }
        ensures stands { (schemas : WorldSchemas EditFault) (state : ClientState)
            → Stands schemas state self.old
            → Stands schemas state self.new }
        ensures begun { begun (store_of self.new) ≡ begun (store_of self.old) }
        ensures free { AreFreshIn (watched self.old) (store_of self.old).txn.graph.values
            → steps.new ≡ steps.old }
    {
        let store = self.client.store_mut();
        if store.depth() > 0 {
            return Ok(Vec::new(alloc));
        }
        live_views::told(alloc, store, steps)
    }

    /// The store. Afterwards its records are to be as before, and no transaction is to be open.
    pub fn store_mut(&mut self) -> &mut RecordStore
        ensures* writes_back { sem 𝓛 (LendsStore self.entry result) }
        ensures value { result.now ≡ self.old.client.replica.store }
    {
        self.client.store_mut()
    }
}

// Adds a copy of the record of an id, if there is one.
fn copy_record(alloc: Global, store: &RecordStore, id: Text, fields: &mut Fields) -> Mem<()>
    ensures sound { AreRising (records_of store.now) }
    ensures copied { OnOk result
        (fields.new ≡ added fields.old id (value_at (records_of store.now) id)) }
{
    if let Some(record) = store.get(id.as_str()) {
        let record = record.copy(alloc)?;
        drop(fields.put(id, record)?);
    }
    Ok(())
}

// Does a diff that marks gave, unless it is empty, and returns the inverse of what acted.
fn make<L: Ledger>(
    alloc: Global,
    client: &mut SyncClient<RecordStore>,
    diff: Diff,
    steps: &mut Steps<L>,
) -> Mem<Diff>
    ensures ok { OnOk result ((state : ClientState) → client_of.Stands records_of state client.old
        → client_of.Stands records_of
        (record state { client = with_diff diff state.client }) client.new) }
    ensures back { IfOk result (λ back. back ≡ inverse_diff
        (admits_of client.old.replica) (records_of client.old.replica.store) diff) }
    ensures err { OnErr result ((state : ClientState) → client_of.Stands records_of state client.old
        → client_of.Stands records_of state client.new) }
    ensures schema { client.new.replica.schema ≡ client.old.replica.schema }
    ensures views { WatchAlike client.old.replica.store client.new.replica.store }
{
    if diff.is_empty() {
        return Ok(diff);
    }
    // Others may have changed the records since, so that nobody knows which patches act.
    client.edit(alloc, diff, false, steps)
}

// That the ids of a diff rise is told by its length.
fn tell_rising(diff: &Diff)
    ensures { AreRising diff.now }
{
    let _ = diff.len();
}
