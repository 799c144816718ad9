//! A client of a room.
ghost use Rattle.std.specs.Prelude.{ℕ, true, false, ◌≡◌, ◌+◌, ◌*◌, ◌≤◌, ◌<◌, ◌^◌, [], length, take, pos, negsuc, None, Some, Ok, Err, option_map, option_to_list, IfOk, OnOk, OnErr, IfErr, decimal};
ghost use Rattle.std.specs.Option.{option_map_or};
ghost use Rattle.std.specs.Borrow.{sem};
ghost use Rattle.rooms_val.specs.Answers.{Gives};
ghost use Rattle.field_ops.specs.View.{maybe_data};
ghost use Rattle.rooms_val.specs.Data.{Pairs};
ghost use Rattle.doc_model.specs.Inverses.{inverse_diff};
ghost use Rattle.doc_store.specs.Checking.{IsChecked};
ghost use Rattle.doc_model.specs.Documents as documents;
ghost use Rattle.migrate_seq.specs.Plans.{newest_versions};
ghost use Rattle.schema_core.specs.SchemaOf.{schema_tree};
ghost use Rattle.room_model.specs.Schemas.{records_with};
ghost use Rattle.room_model.specs.Replicas.{edit, pending_diffs, after_cut, after_end, is_open};
ghost use Rattle.room_model.specs.Replicas as model;
ghost use Rattle.room_model.specs.declared.fault.ConnectFault.TheVariants as connect_fault;
ghost use Rattle.client_replica.specs.Standing.{admits_of, document_of, presence_of};
ghost use Rattle.client_replica.specs.Parts.{wiped};
ghost use Rattle.client_replica.specs.Works.{work_of, works_in, diffs_in, operations, brought, ended};
ghost use Rattle.client_replica.specs.Owns.{are_own};
ghost use Rattle.sync_client.specs.Calls as calls;
ghost use Rattle.sync_client.specs.Calls.{ClientState, connect_answer, opened, hydrated, updated, asking, pushed, after_message, message_steps, answer_steps, few_steps, is_own_message};
ghost use Rattle.std.specs.Result.{result_err};
ghost use Rattle.sync_client.specs.Faults as faults;
ghost use Rattle.sync_client.specs.Faults.{take_fault};
ghost use Rattle.sync_client.specs.Presences.{presence_fault, with_presence};
ghost use Rattle.rooms_val.specs.View.{data_of};
ghost use Rattle.sync_client.specs.declared.fault.PresenceFault.TheVariants as presence_fault_is;
ghost use Rattle.sync_client.specs.Standing.{Stands};
ghost use Rattle.sync_client.specs.declared.fault.TakeFault.TheVariants as take_fault_is;

use crate::check::{check_answer, check_events};
use crate::counts::Counts;
use crate::fault::{PresenceFault, TakeFault};
use crate::presence::check_presence;
use client_replica::{Replica, Work};
use doc_store::DocStore;
use field_ops::{Diff, RecordOp};
use itoa::Buffer;
use room_model::connection::Connection;
use room_model::fault::ConnectFault;
use room_model::limits::PROTOCOL;
use rooms_val::{Fields, Mem, OutOfMemory, Steps, Text, Val};
use schema_core::Schema;
use std::alloc::Global;
use std::sync::ledger::Ledger;
use sync_msgs::{ClientMessage, EndReason, Events, Hydration, ServerMessage};

/// A client over a store of its own. Contracts say for which of `room_model`'s clients, with which base, it stands.
#[derive(Drop)]
pub struct SyncClient<D> {
    // The base with what is pending over it.
    replica: Replica<D>,
    // Whether it has a session, and by which request it asked for it.
    connection: Connection,
    // The room's clock that it has reached, -1 before the first connection.
    reached: i64,
    // How many pushes it made, and how many of the pending works it sent on this connection.
    counts: Counts,
    // The record by which others are to see it, if it set one.
    presence: Option<Val>,
    // The reason for which the room won't have it, if there is one.
    refused: Option<EndReason>,
}

impl<D: DocStore> SyncClient<D> {
    ghost use Rattle.sync_client.specs.Lending.{LendsStore};

    /// A client that was never connected, over a store without a record and without an open transaction.
    pub fn new(alloc: Global, schema: Schema, store: D) -> SyncClient<D>
        requires { D.records store ≡ [] }
        ensures stands { (version : ℕ)
            → Stands D.records (record { base = []; client = model.new_client version }) result }
        ensures store { result.replica.store ≡ store }
        ensures schema { result.replica.schema ≡ schema }
    {
        SyncClient {
            replica: Replica::new(alloc, schema, store),
            connection: Connection::Off,
            reached: -1,
            counts: Counts::new(),
            presence: None,
            refused: None,
        }
    }

    /// Does an edit, whose ids are the document's: its operations act as the step has it, and it is pending. Returns the
    /// diff that undoes what acted. An edit costs what the diff names, at most a step for each operation. Where memory is
    /// refused the client is as before.
    ///
    /// By `checked` the caller vouches for the diff. Where `checked` is true, the caller knows that each patch of the diff
    /// acts: the patch leaves a record, and that record is admitted. A patch then acts wherever it leaves a record, and
    /// those records aren't looked at again. Where the caller is wrong, nothing is said of what the client stands for, or of
    /// the diff that is returned. Where `checked` is false, the caller vouches for nothing, and each patch is checked.
    pub fn edit<L: Ledger>(
        &mut self,
        alloc: Global,
        diff: Diff,
        checked: bool,
        steps: &mut Steps<L>,
    ) -> Mem<Diff>
        ensures ok { OnOk result ((state : ClientState) → Stands D.records state self.old
            → IsChecked checked (admits_of self.old.replica)
            (D.records self.old.replica.store) diff
            → Stands D.records (record state {
              client = model.with_work
                  (edit diff) state.client;
            }) self.new) }
        ensures back { IfOk result (λ back. IsChecked checked (admits_of self.old.replica)
            (D.records self.old.replica.store) diff
            → back ≡ inverse_diff (admits_of self.old.replica)
            (D.records self.old.replica.store) diff) }
        ensures err { OnErr result ((state : ClientState) → Stands D.records state self.old
            → Stands D.records state self.new) }
        ensures schema { self.new.replica.schema ≡ self.old.replica.schema }
        ensures begun { D.begun self.new.replica.store ≡ D.begun self.old.replica.store }
        ensures rest { D.rest self.new.replica.store ≡ D.rest self.old.replica.store }
        ensures ticks { steps.new ≤ steps.old + length diff }
    {
        self.replica.edit(alloc, diff, checked, steps)
    }

    /// Sets the record by which others are to see it. It is pending if the client is connected, and again each time it is
    /// connected anew.
    ///
    /// # Errors
    /// `WrongScope` exactly where the record's id, which is given, isn't one of a presence; else `Invalid` exactly where the
    /// record isn't admitted under it, with the cause; or `OutOfMemory`. Then the client is as before.
    pub fn presence(&mut self, alloc: Global, stored: Val) -> Result<(), PresenceFault>
        ensures fault { Gives presence_fault_is.OutOfMemory (λ done. done) result (option_map_or
            (λ fault. Err fault) (presence_fault (schema_tree self.old.replica.schema)
            (data_of stored)) (Ok tt)) }
        ensures ok { OnOk result ((state : ClientState) → Stands D.records state self.old
            → Stands D.records (record state {
              client = with_presence
                  (data_of stored) state.client;
            }) self.new) }
        ensures err { OnErr result ((state : ClientState) → Stands D.records state self.old
            → Stands D.records state self.new) }
        ensures schema { self.new.replica.schema ≡ self.old.replica.schema }
        ensures store { self.new.replica.store ≡ self.old.replica.store }
    {
        check_presence(alloc, self.replica.schema(), &stored)?;
        if !self.is_open() {
            self.presence = Some(stored);
            return Ok(());
        }
        let copy = stored.copy(alloc)?;
        self.replica.show(copy)?;
        self.presence = Some(stored);
        Ok(())
    }

    /// Asks to be connected by a request, whose number the room's answer will name. What is returned is to be sent.
    ///
    /// # Errors
    /// `AlreadyOpen` exactly where it has asked before or is connected; `Refused` exactly where the room ended a session of
    /// it for another reason than `Slow`, which is given; or `OutOfMemory`. Then the client is as before.
    pub fn connect(&mut self, alloc: Global, request: u64) -> Result<ClientMessage, ConnectFault>
        ensures answer { (state : ClientState) → Stands D.records state self.old
            → Gives connect_fault.OutOfMemory
            (λ said. said) result (connect_answer (newest_versions
            (schema_tree self.old.replica.schema).sequences) request state.client) }
        ensures ok { OnOk result ((state : ClientState) → Stands D.records state self.old
            → Stands D.records (record state { client = asking request state.client }) self.new) }
        ensures err { OnErr result (self.new ≡ self.old) }
        ensures replica { self.new.replica ≡ self.old.replica }
    {
        if let Some(fault) = self.connect_fault() {
            return Err(fault);
        }
        match self.ask(alloc, request) {
            Ok(said) => {
                self.connection = Connection::Asking(request);
                Ok(said)
            }
            Err(_) => Err(ConnectFault::OutOfMemory),
        }
    }

    // Why it can't connect, if it can't.
    fn connect_fault(&self) -> Option<ConnectFault>
        ensures { (state : ClientState) → Stands D.records state self.now
            → result ≡ calls.connect_fault state.client }
    {
        match self.connection {
            Connection::Asking(_) => Some(ConnectFault::AlreadyOpen),
            Connection::Open(_) => Some(ConnectFault::AlreadyOpen),
            Connection::Off => match self.refused {
                Some(reason) => Some(ConnectFault::Refused(reason)),
                None => None,
            },
        }
    }

    // The message by which it asks.
    fn ask(&self, alloc: Global, request: u64) -> Mem<ClientMessage>
        ensures { IfOk result (λ said. said
            ≡ ClientMessage.Connect (decimal request) self.now.reached PROTOCOL (newest_versions
            (schema_tree self.now.replica.schema).sequences)) }
    {
        let mut digits = Buffer::new();
        Ok(ClientMessage::Connect {
            connect_request_id: Text::of(alloc, digits.format(request))?,
            last_server_clock: self.reached,
            protocol_version: PROTOCOL,
            schema: self.replica.schema().sequences().serialized(alloc)?,
        })
    }

    /// The push of the first pending work that wasn't sent on this connection. `None` exactly where it isn't connected, all
    /// was sent, or its pushes have reached 2^53 - 1. It costs a copy of the work. Where memory is refused the client is as
    /// before.
    pub fn next_push(&mut self, alloc: Global) -> Mem<Option<ClientMessage>>
        ensures push { IfOk result (λ push. (state : ClientState) → Stands D.records state self.old
            → option_to_list push ≡ (pushed state.client).messages) }
        ensures ok { OnOk result ((state : ClientState) → Stands D.records state self.old
            → Stands D.records (record state { client = (pushed state.client).client }) self.new) }
        ensures err { OnErr result (self.new ≡ self.old) }
        ensures replica { self.new.replica ≡ self.old.replica }
    {
        if !self.is_open() {
            return Ok(None);
        }
        if self.counts.are_spent() {
            return Ok(None);
        }
        let Some(work) = self.replica.at(self.counts.sent) else {
            return Ok(None);
        };
        let push = push_of(alloc, self.counts.pushes + 1, work)?;
        self.counts.push();
        Ok(Some(push))
    }

    /// Takes a message of the room. An answer to its request connects it: its base is brought to the room's clock, the
    /// pending edits stay, and all is to be pushed, its own presence last. Data changes its base event by event, and
    /// each result ends the first pending work.
    ///
    /// Data costs what its events bring, and what the works name that these end. The works left are walked for each of these
    /// ids that pending edits name. No work left is walked where each event commits the first work that is left then, and
    /// these works name ids of the document alone. Where a presence changes, data also costs a copy of the presences' list.
    ///
    /// An answer with `WipePresence` costs what its diff names, and a walk over the works for each of these ids that pending
    /// edits name. An answer with `WipeAll` costs what its diff names, all that is pending, and the base's document. No
    /// other message costs the document.
    ///
    /// # Errors
    /// The first event at fault decides, and of an event the first cause in the order of `TakeFault`; `OutOfMemory` may
    /// come in place of success. Then the client is as before.
    pub fn take<L: Ledger>(
        &mut self,
        alloc: Global,
        message: &ServerMessage,
        steps: &mut Steps<L>,
    ) -> Result<(), TakeFault>
        ensures fault { (state : ClientState) → Stands D.records state self.old
            → Gives take_fault_is.OutOfMemory (λ done. done) result (option_map_or
            (λ fault. Err fault) (take_fault state.client message.now) (Ok tt)) }
        ensures ok { OnOk result ((state : ClientState) → Stands D.records state self.old
            → Stands D.records (after_message (admits_of self.old.replica)
            (document_of self.old.replica) state message.now) self.new) }
        ensures err { OnErr result ((state : ClientState) → Stands D.records state self.old
            → Stands D.records state self.new) }
        ensures schema { self.new.replica.schema ≡ self.old.replica.schema }
        ensures begun { D.begun self.new.replica.store ≡ D.begun self.old.replica.store }
        ensures rest { D.rest self.new.replica.store ≡ D.rest self.old.replica.store }
        ensures ticks { (state : ClientState) → Stands D.records state self.old
            → steps.new ≤ steps.old + (2 * operations (pending_diffs state.client) + message_steps
            (document_of self.old.replica) state.base message.now) }
        ensures few { (state : ClientState) → Stands D.records state self.old
            → steps.new ≤ steps.old + few_steps (document_of self.old.replica) state message.now }
        ensures own { OnOk result ((state : ClientState) → Stands D.records state self.old
            → is_own_message (document_of self.old.replica) state.client message.now ≡ true
            → (steps.new ≡ steps.old) × (self.new.replica.store ≡ self.old.replica.store)) }
    {
        match message {
            ServerMessage::Connect {
                hydration_type,
                connect_request_id,
                diff,
                server_clock,
                ..
            } => {
                check_answer(self.connection, connect_request_id.as_str())?;
                self.take_answer(alloc, *hydration_type, diff, *server_clock, steps)?;
            }
            ServerMessage::Data { events } => {
                self.check_open()?;
                self.take_data(alloc, events, steps)?;
            }
            ServerMessage::Pong => self.check_open()?,
        }
        Ok(())
    }

    /// Learns that its connection is lost: its edits stay pending and are to be pushed again, its presence isn't pending
    /// any more, and those of others are gone. It takes no memory.
    pub fn lost(&mut self, alloc: Global)
        ensures stands { (state : ClientState) → Stands D.records state self.old
            → Stands D.records (record {
              base = records_with
                  (document_of self.old.replica) state.base;
              client = after_cut state.client;
            }) self.new }
        ensures store { self.new.replica.store ≡ self.old.replica.store }
        ensures schema { self.new.replica.schema ≡ self.old.replica.schema }
    {
        self.leave(alloc, self.refused);
    }

    /// Learns that the room ended its session: as `lost`, and after each reason but `Slow` it can't connect any more. It
    /// takes no memory.
    pub fn ended(&mut self, alloc: Global, reason: EndReason)
        ensures stands { (state : ClientState) → Stands D.records state self.old
            → Stands D.records (record {
              base = records_with
                  (document_of self.old.replica) state.base;
              client = after_end reason state.client;
            }) self.new }
        ensures store { self.new.replica.store ≡ self.old.replica.store }
        ensures schema { self.new.replica.schema ≡ self.old.replica.schema }
    {
        self.leave(alloc, refusal(self.refused, reason));
    }

    /// The room's clock that it has reached, -1 before the first connection.
    pub fn reached(&self) -> i64
        ensures { (state : ClientState) → Stands D.records state self.now
            → result ≡ state.client.reached }
    {
        self.reached
    }

    /// How many works are pending: edits that the room hasn't answered, and presences that were set on this connection.
    pub fn owed(&self) -> usize
        ensures { (state : ClientState) → Stands D.records state self.now
            → result ≡ length state.client.pending }
    {
        self.replica.len()
    }

    /// The presence of others, by id.
    pub fn others(&self) -> &Fields
        ensures { (state : ClientState) → Stands D.records state self.now
            → result.now ≡ records_with (presence_of self.now.replica) state.base }
    {
        self.replica.others()
    }

    /// The schema that says what is admitted.
    pub fn schema(&self) -> &Schema
        ensures { result.now ≡ self.now.replica.schema }
    {
        self.replica.schema()
    }

    /// The store, which has what the client shows: the base's document with the pending edits replayed.
    pub fn store(&self) -> &D
        ensures store { result.now ≡ self.now.replica.store }
        ensures shown { (state : ClientState) → Stands D.records state self.now
            → D.records result.now
            ≡ documents.replay (admits_of self.now.replica) (records_with
            (document_of self.now.replica) state.base) (pending_diffs state.client) }
    {
        self.replica.store()
    }

    /// The store, of which the rest may be changed. Afterwards its records are to be as before, and no transaction is to
    /// be open.
    pub fn store_mut(&mut self) -> &mut D
        ensures* writes_back { sem 𝓛 (LendsStore D.row self.entry result) }
        ensures value { result.now ≡ self.old.replica.store }
    {
        self.replica.store_mut()
    }

    // Has no session any more, and is refused for this reason, if there is one.
    fn leave(&mut self, alloc: Global, refused: Option<EndReason>)
        ensures stands { (state : ClientState) → Stands D.records state self.old
            → Stands D.records (record {
              base = records_with
                  (document_of self.old.replica) state.base;
              client = record
                  (after_cut state.client) { refused = refused };
            }) self.new }
        ensures store { self.new.replica.store ≡ self.old.replica.store }
        ensures schema { self.new.replica.schema ≡ self.old.replica.schema }
    {
        self.replica.part(alloc);
        self.connection = Connection::Off;
        self.counts.restart();
        self.refused = refused;
    }

    // That it is connected.
    fn check_open(&self) -> Result<(), TakeFault>
        ensures { result_err result ≡ faults.open_fault self.now.connection None }
    {
        if self.is_open() {
            Ok(())
        } else {
            Err(TakeFault::NotOpen)
        }
    }

    // Takes an answer to the request that it made.
    fn take_answer<L: Ledger>(
        &mut self,
        alloc: Global,
        hydration: Hydration,
        diff: &Diff,
        clock: i64,
        steps: &mut Steps<L>,
    ) -> Mem<()>
        ensures ok { OnOk result ((state : ClientState) (session : ℕ)
            → Stands D.records state self.old
            → state.client.connection ≡ Connection.Asking session
            → Stands D.records (hydrated (admits_of self.old.replica)
            (document_of self.old.replica) hydration diff.now clock state) self.new) }
        ensures err { OnErr result ((state : ClientState) → Stands D.records state self.old
            → Stands D.records state self.new) }
        ensures schema { self.new.replica.schema ≡ self.old.replica.schema }
        ensures begun { D.begun self.new.replica.store ≡ D.begun self.old.replica.store }
        ensures rest { D.rest self.new.replica.store ≡ D.rest self.old.replica.store }
        ensures ticks { (state : ClientState) → Stands D.records state self.old
            → steps.new ≤ steps.old + (2 * operations (pending_diffs state.client) +
            (length diff.now + wiped hydration (records_with
            (document_of self.old.replica) state.base))) }
        ensures few { (state : ClientState) → Stands D.records state self.old
            → steps.new ≤ steps.old + answer_steps (document_of self.old.replica) state hydration
            diff.now }
    {
        let own = Val::copy_slot(alloc, &self.presence)?;
        self.replica
            .take_snapshot(alloc, hydration, diff, own, steps)?;
        self.connection = opened_connection(self.connection);
        self.reached = clock;
        self.counts.restart();
        Ok(())
    }

    // Takes events, if none is at fault.
    fn take_data<L: Ledger>(
        &mut self,
        alloc: Global,
        events: &Events,
        steps: &mut Steps<L>,
    ) -> Result<(), TakeFault>
        ensures fault { (state : ClientState) → Stands D.records state self.old
            → Gives take_fault_is.OutOfMemory (λ done. done) result (option_map_or
            (λ fault. Err fault)
            (faults.events_fault state.client.pending state.client.reached events.now) (Ok tt)) }
        ensures ok { OnOk result ((state : ClientState) → Stands D.records state self.old
            → is_open state.client.connection ≡ true
            → Stands D.records (updated (admits_of self.old.replica)
            (document_of self.old.replica) events.now state) self.new) }
        ensures err { OnErr result ((state : ClientState) → Stands D.records state self.old
            → Stands D.records state self.new) }
        ensures schema { self.new.replica.schema ≡ self.old.replica.schema }
        ensures begun { D.begun self.new.replica.store ≡ D.begun self.old.replica.store }
        ensures rest { D.rest self.new.replica.store ≡ D.rest self.old.replica.store }
        ensures ticks { (state : ClientState) → Stands D.records state self.old
            → steps.new ≤ steps.old + (2 * operations
            (pending_diffs state.client) + brought events.now) }
        ensures few { (state : ClientState) → Stands D.records state self.old
            → steps.new ≤ steps.old + (brought events.now + 2 * operations (diffs_in
            (take (ended events.now) (works_in state.client.pending)))) }
        ensures own { OnOk result ((state : ClientState) → Stands D.records state self.old
            → are_own (document_of self.old.replica)
            (works_in state.client.pending) events.now ≡ true
            → (steps.new ≡ steps.old) × (self.new.replica.store ≡ self.old.replica.store)) }
    {
        let first = self.counts.first();
        let state = self.reached;
        let checked = check_events(events.as_slice(), first, self.counts.sent, state)?;
        self.replica.take_events(alloc, events, steps)?;
        self.counts.end(checked.ended);
        self.reached = checked.clock;
        Ok(())
    }

    // Whether it is connected.
    fn is_open(&self) -> bool
        ensures { result ≡ is_open self.now.connection }
    {
        match self.connection {
            Connection::Off => false,
            Connection::Asking(_) => false,
            Connection::Open(_) => true,
        }
    }
}

// The push of a work under a number.
fn push_of(alloc: Global, number: u64, work: &Work) -> Mem<ClientMessage>
    requires { number < 2 ^ 63 }
    ensures { IfOk result (λ push. push ≡ model.push_of number (work_of work.now)) }
{
    match work {
        Work::Edit(diff) => Ok(ClientMessage::Push {
            client_clock: number as i64,
            diff: Some(diff.copy(alloc)?),
            presence: None,
        }),
        Work::Presence(stored) => Ok(ClientMessage::Push {
            client_clock: number as i64,
            diff: None,
            presence: Some(RecordOp::Put(stored.copy(alloc)?)),
        }),
    }
}

// Why a client is refused once its session was ended for a reason, where it was refused for this one before, or for none.
fn refusal(before: Option<EndReason>, reason: EndReason) -> Option<EndReason>
    ensures { (client : model.Client) → before ≡ client.refused
        → result ≡ (after_end reason client).refused }
{
    match reason {
        EndReason::Slow => before,
        EndReason::ClientTooOld => Some(reason),
        EndReason::ServerTooOld => Some(reason),
        EndReason::InvalidRecord => Some(reason),
        EndReason::RoomFull => Some(reason),
    }
}

// The connection that an answer opens.
fn opened_connection(connection: Connection) -> Connection
    ensures { result ≡ opened connection }
{
    match connection {
        Connection::Off => Connection::Off,
        Connection::Asking(session) => Connection::Open(session),
        Connection::Open(session) => Connection::Open(session),
    }
}
