//! What clients do by themselves: they join, edit, set their presence, and lose their connection.
ghost use Rattle.std.specs.Prelude.{◌≡◌, ◌≢◌, [], IfOk, OnOk, Err};
ghost use Rattle.rooms_val.specs.View.{data_of};
ghost use Rattle.room_model.specs.Schemas.{WorldSchemas};
ghost use Rattle.room_model.specs.Replicas.{new_client};
ghost use Rattle.room_model.specs.Worlds as model;
ghost use Rattle.room_model.specs.Worlds.{on_join, on_edit, on_presence, on_cut};
ghost use Rattle.side_effects.specs.declared.fault.EditFault.{EditFault};
ghost use Rattle.tl_tables.specs.Tables.{IsVersion};
ghost use Rattle.peer_schemas.specs.Clients.{AreOfTables};
ghost use Rattle.sync_peer.specs.Standing as peer_of;
ghost use Rattle.sync_world.specs.Standing.{Keeps};
ghost use Rattle.sync_world.specs.Answers.{Answers};
ghost use Rattle.sync_world.specs.Viewing.{stores_in, ChangesOne, MayJoin, IsUnwatched};
ghost use Rattle.sync_peer.specs.Viewing.{store_of};

use crate::live::{Answer, Live, WorldClient};
use field_ops::Diff;
use peer_schemas::edit_fault;
use room_model::fault::StepFault;
use room_model::limits::MOST_CLIENTS;
use rooms_val::{Mem, OutOfMemory, Steps, Val};
use side_effects::EditFault;
use std::alloc::Global;
use std::sync::ledger::Ledger;
use sync_peer::Peer;
use tl_tables::TableFault;

impl Live {
    // A client of a version joins, with the next number.
    pub(crate) fn join(&mut self, alloc: Global, version: u32) -> Mem<Answer>
        requires { IsVersion version }
        ensures step { IfOk result (λ answer. (schemas : WorldSchemas EditFault)
            (world : model.World)
            → Keeps schemas world self.old
            → Answers schemas world (on_join version world) answer self.new) }
        ensures stores { OnOk result (MayJoin (stores_in self.old) (stores_in self.new)) }
    {
        if self.clients.len() as u64 >= MOST_CLIENTS {
            return Ok(Err(StepFault::Limit));
        }
        let peer = new_peer(alloc, version)?;
        let client = WorldClient {
            peer,
            session: None,
            clip: None,
        };
        self.clients.push(client)?;
        Ok(Ok(Vec::new(alloc)))
    }

    // A client edits its document, as the edit is completed.
    pub(crate) fn edit<L: Ledger>(
        &mut self,
        alloc: Global,
        number: u64,
        wanted: &Diff,
        steps: &mut Steps<L>,
    ) -> Mem<Answer>
        ensures step { IfOk result (λ answer. (schemas : WorldSchemas EditFault)
            (world : model.World)
            → Keeps schemas world self.old
            → Answers schemas world (on_edit schemas number wanted.now world) answer self.new) }
        ensures stores { OnOk result (ChangesOne number (stores_in self.old) (stores_in self.new)) }
    {
        let Some(at) = self.place(number) else {
            return Ok(Err(StepFault::NoSuchClient));
        };
        match self.clients[at].peer.edit(alloc, wanted, steps) {
            Ok(()) => {
                self.push(alloc, at)?;
                Ok(Ok(Vec::new(alloc)))
            }
            Err(fault) => refusal_of(fault),
        }
    }

    // A client sets the record by which others see it.
    pub(crate) fn presence(&mut self, alloc: Global, number: u64, stored: Val) -> Mem<Answer>
        ensures step { IfOk result (λ answer. (schemas : WorldSchemas EditFault)
            (world : model.World)
            → Keeps schemas world self.old
            → Answers schemas world (on_presence schemas number (data_of stored) world) answer
            self.new) }
        ensures stores { OnOk result (stores_in self.new ≡ stores_in self.old) }
    {
        let Some(at) = self.place(number) else {
            return Ok(Err(StepFault::NoSuchClient));
        };
        match self.clients[at].peer.presence(alloc, stored) {
            Ok(()) => {
                self.push(alloc, at)?;
                Ok(Ok(Vec::new(alloc)))
            }
            Err(fault) => refusal_of(edit_fault(fault)),
        }
    }

    // A client learns that its connection is lost; the room doesn't.
    pub(crate) fn cut(&mut self, alloc: Global, number: u64) -> Answer
        ensures step { (schemas : WorldSchemas EditFault) (world : model.World)
            → Keeps schemas world self.old
            → Answers schemas world (on_cut number world) result self.new }
        ensures stores { stores_in self.new ≡ stores_in self.old }
    {
        let Some(at) = self.place(number) else {
            return Err(StepFault::NoSuchClient);
        };
        if self.clients[at].session.is_none() {
            return Err(StepFault::NoSuchSession);
        }
        let client = &mut self.clients[at];
        client.peer.lost(alloc);
        client.session = None;
        Ok(Vec::new(alloc))
    }
}

// A client of a version that did nothing.
fn new_peer(alloc: Global, version: u32) -> Mem<Peer>
    requires { IsVersion version }
    ensures stands { IfOk result (λ peer. (schemas : WorldSchemas EditFault) → AreOfTables schemas
        → peer_of.Stands schemas (record { base = []; client = new_client version }) peer) }
    ensures unwatched { IfOk result (λ peer. IsUnwatched (store_of peer)) }
{
    match Peer::new(alloc, version) {
        Ok(peer) => {
            peer.tell_sound();
            Ok(peer)
        }
        Err(TableFault::NoSuchVersion) => unreachable!(),
        Err(TableFault::OutOfMemory) => Err(OutOfMemory),
    }
}

// The answer to an edit or a presence that is refused.
fn refusal_of(fault: EditFault) -> Mem<Answer>
    ensures { IfOk result (λ answer. (answer ≡ Err (StepFault.Edit fault))
        × (fault ≢ EditFault.OutOfMemory)) }
{
    match fault {
        EditFault::OutOfMemory => Err(OutOfMemory),
        EditFault::TooMany => Ok(Err(StepFault::Edit(EditFault::TooMany))),
        EditFault::WrongScope(id) => Ok(Err(StepFault::Edit(EditFault::WrongScope(id)))),
        EditFault::NoRecord(id) => Ok(Err(StepFault::Edit(EditFault::NoRecord(id)))),
        EditFault::Invalid(id, fault) => Ok(Err(StepFault::Edit(EditFault::Invalid(id, fault)))),
        EditFault::NoKey(fault) => Ok(Err(StepFault::Edit(EditFault::NoKey(fault)))),
        EditFault::LastPage => Ok(Err(StepFault::Edit(EditFault::LastPage))),
        EditFault::NoParent(id) => Ok(Err(StepFault::Edit(EditFault::NoParent(id)))),
        EditFault::UnderItself(id) => Ok(Err(StepFault::Edit(EditFault::UnderItself(id)))),
        EditFault::NoEnd(id) => Ok(Err(StepFault::Edit(EditFault::NoEnd(id)))),
    }
}
