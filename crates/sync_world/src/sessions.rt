//! What happens between clients and the room: sessions enter and are lost, and messages go both
//! ways.
ghost use Rattle.std.specs.Prelude.{◌≡◌, ◌≢◌, ◌<◌, ◌∷◌, [], ℕ, Bool, Some, Err, IfOk, OnOk, slice_get, vec_len};
ghost use Rattle.room_model.specs.Schemas.{WorldSchemas};
ghost use Rattle.room_model.specs.Replicas.{Client, after_notice};
ghost use Rattle.room_model.specs.Rooms.{Room, Notice};
ghost use Rattle.room_model.specs.Worlds as model;
ghost use Rattle.room_model.specs.Worlds.{on_connect, on_handle, on_send, on_deliver, on_lose, trace_line, out_line, with_pushing};
ghost use Rattle.side_effects.specs.declared.fault.EditFault.{EditFault};
ghost use Rattle.sync_msgs.specs.declared.out.Out.TheVariants as out;
ghost use Rattle.sync_room.specs.Standing as room_of;
ghost use Rattle.world_queues.specs.Queues.{to_client};
ghost use Rattle.sync_world.specs.Moving.{Enters, IsDelivery};
ghost use Rattle.sync_world.specs.Standing.{Fits, Keeps};
ghost use Rattle.sync_world.specs.Answers.{Answers};
ghost use Rattle.sync_world.specs.Viewing.{stores_in, ChangesOne};

use crate::live::{Answer, Live};
use room_model::OutLine;
use room_model::fault::{ConnectFault, StepFault};
use room_model::limits::MOST_RECORDED;
use rooms_val::{Mem, OutOfMemory, Steps};
use side_effects::EditFault;
use std::alloc::Global;
use std::sync::ledger::Ledger;
use sync_msgs::{ClientMessage, EndReason, Out, ServerMessage};
use sync_room::EnterFault;

impl Live {
    // A client asks to be connected, by a session that enters. Its request goes to the room.
    pub(crate) fn connect(&mut self, alloc: Global, number: u64, readonly: bool) -> Mem<Answer>
        ensures step { IfOk result (λ answer. (schemas : WorldSchemas EditFault)
            (world : model.World)
            → Keeps schemas world self.old
            → Answers schemas world (on_connect schemas number readonly world) answer self.new) }
        ensures stores { OnOk result (stores_in self.new ≡ stores_in self.old) }
    {
        let Some(at) = self.place(number) else {
            return Ok(Err(StepFault::NoSuchClient));
        };
        let session = self.queues.len() as u64;
        let request = match self.clients[at].peer.connect(alloc, session) {
            Ok(request) => request,
            Err(fault) => return not_connected(fault),
        };
        if !self.enter(alloc, session, readonly, request)? {
            self.clients[at].peer.lost(alloc);
            return Ok(Err(StepFault::Limit));
        }
        self.clients[at].session = Some(session);
        Ok(Ok(Vec::new(alloc)))
    }

    // The session of this number enters the room, with a request in flight. `false` if there is no
    // place for it; then nobody enters.
    fn enter(
        &mut self,
        alloc: Global,
        session: u64,
        readonly: bool,
        request: ClientMessage,
    ) -> Mem<bool>
        ensures entered { IfOk result (λ entered. (state : Room)
            → room_of.Stands state self.old.room
            → Enters session readonly request state entered self.old self.new) }
        ensures clients { self.new.clients ≡ self.old.clients }
    {
        if session >= MOST_RECORDED {
            return Ok(false);
        }
        match self.room.enter(alloc, readonly) {
            Ok(_) => {
                self.queues.enter(alloc, request)?;
                Ok(true)
            }
            Err(EnterFault::Full) => Ok(false),
            Err(EnterFault::OutOfMemory) => Err(OutOfMemory),
        }
    }

    // The first message in flight from a session is given to the room.
    pub(crate) fn handle<L: Ledger>(
        &mut self,
        alloc: Global,
        trace: bool,
        session: u64,
        steps: &mut Steps<L>,
    ) -> Mem<Answer>
        ensures step { IfOk result (λ answer. (schemas : WorldSchemas EditFault)
            (world : model.World)
            → Keeps schemas world self.old
            → Answers schemas world (on_handle schemas trace session world) answer self.new) }
        ensures stores { OnOk result (stores_in self.new ≡ stores_in self.old) }
    {
        let Some(id) = self.room.find(session) else {
            return Ok(Err(StepFault::NoSuchSession));
        };
        let Some(message) = self.queues.take_sent(session) else {
            return Ok(Err(StepFault::NothingThere));
        };
        self.room.handle(alloc, id, &message, steps)?;
        let line = OutLine::From { session, message };
        Ok(Ok(traced_lines(alloc, trace, line)?))
    }

    // The room gives a session what is next for it.
    pub(crate) fn send<L: Ledger>(
        &mut self,
        alloc: Global,
        trace: bool,
        session: u64,
        steps: &mut Steps<L>,
    ) -> Mem<Answer>
        ensures step { IfOk result (λ answer. (schemas : WorldSchemas EditFault)
            (world : model.World)
            → Keeps schemas world self.old
            → Answers schemas world (on_send schemas trace session world) answer self.new) }
        ensures stores { OnOk result (stores_in self.new ≡ stores_in self.old) }
    {
        let Some(id) = self.room.find(session) else {
            return Ok(Err(StepFault::NoSuchSession));
        };
        let Some(out) = self.room.drain(alloc, id, steps)? else {
            return Ok(Err(StepFault::NothingThere));
        };
        let lines = sent_lines(alloc, trace, session, &out)?;
        self.queues.give(session, out)?;
        Ok(Ok(lines))
    }

    // A client is given the first that is in flight to its session, also if that was lost.
    pub(crate) fn deliver<L: Ledger>(
        &mut self,
        alloc: Global,
        number: u64,
        steps: &mut Steps<L>,
    ) -> Mem<Answer>
        ensures step { IfOk result (λ answer. (schemas : WorldSchemas EditFault)
            (world : model.World)
            → Keeps schemas world self.old
            → Answers schemas world (on_deliver number world) answer self.new) }
        ensures stores { OnOk result (ChangesOne number (stores_in self.old) (stores_in self.new)) }
    {
        let Some(at) = self.place(number) else {
            return Ok(Err(StepFault::NoSuchClient));
        };
        let Some(session) = self.clients[at].session else {
            return Ok(Err(StepFault::NoSuchSession));
        };
        match self.queues.take_given(session) {
            Some(Out::Message(message)) => {
                self.take(alloc, at, &message, steps)?;
                Ok(Ok(Vec::new(alloc)))
            }
            Some(Out::End(reason)) => {
                let client = &mut self.clients[at];
                client.peer.ended(alloc, reason);
                client.session = None;
                let line = OutLine::Ended {
                    client: number,
                    reason,
                };
                Ok(Ok(one_line(alloc, line)?))
            }
            None => Ok(Err(StepFault::NothingThere)),
        }
    }

    // A client takes a message of the room, and pushes what it then can if that connects it. A message
    // that is in flight to it is at none of the five faults `NotOpen`, `WrongRequest`, `NoPending`,
    // `WrongPending` and `ClockBack` (`laws::clients_refuse_no_message`), so that a fault means that memory
    // ran out.
    fn take<L: Ledger>(
        &mut self,
        alloc: Global,
        at: usize,
        message: &ServerMessage,
        steps: &mut Steps<L>,
    ) -> Mem<()>
        requires { at < vec_len self.old.clients }
        ensures taken { OnOk result ((schemas : WorldSchemas EditFault) (world : model.World)
            (client : Client) (k : ℕ) (notice : Notice)
            → Fits schemas world self.old → slice_get world.clients at ≡ Some client
            → IsDelivery schemas world client k (out.Message message.now) notice
            → Fits schemas (with_pushing at
            (after_notice world.room.history k client notice) world) self.new) }
        ensures given { OnOk result (to_client self.new.queues ≡ to_client self.old.queues) }
        ensures stores { OnOk result (ChangesOne at (stores_in self.old) (stores_in self.new)) }
    {
        let Ok(()) = self.clients[at].peer.take(alloc, message, steps) else {
            return Err(OutOfMemory);
        };
        match message {
            ServerMessage::Connect { .. } => self.push(alloc, at),
            ServerMessage::Data { .. } => Ok(()),
            ServerMessage::Pong => Ok(()),
        }
    }

    // The room learns that a session is lost, and what was in flight from it is gone.
    pub(crate) fn lose(&mut self, alloc: Global, session: u64) -> Answer
        ensures step { (schemas : WorldSchemas EditFault) (world : model.World)
            → Keeps schemas world self.old
            → Answers schemas world (on_lose session world) result self.new }
        ensures stores { stores_in self.new ≡ stores_in self.old }
    {
        let Some(id) = self.room.find(session) else {
            return Err(StepFault::NoSuchSession);
        };
        self.room.leave(id);
        self.queues.forget_sent(session);
        Ok(Vec::new(alloc))
    }
}

// The answer to a client that asks to be connected and is refused.
fn not_connected(fault: ConnectFault) -> Mem<Answer>
    ensures { IfOk result (λ answer. (answer ≡ Err (StepFault.Connect fault))
        × (fault ≢ ConnectFault.OutOfMemory)) }
{
    match fault {
        ConnectFault::OutOfMemory => Err(OutOfMemory),
        ConnectFault::AlreadyOpen => Ok(Err(StepFault::Connect(ConnectFault::AlreadyOpen))),
        ConnectFault::Refused(reason) => {
            Ok(Err(StepFault::Connect(ConnectFault::Refused(reason))))
        }
    }
}

// A line of a trace, if messages are traced.
fn traced_lines(alloc: Global, trace: bool, line: OutLine) -> Mem<Vec<OutLine>>
    ensures { IfOk result (λ lines. lines.items ≡ trace_line trace line) }
{
    if trace {
        return one_line(alloc, line);
    }
    Ok(Vec::new(alloc))
}

// The line of a trace of what a session is given, if messages are traced.
fn sent_lines(alloc: Global, trace: bool, session: u64, out: &Out) -> Mem<Vec<OutLine>>
    ensures { IfOk result (λ lines. lines.items ≡ trace_line trace (out_line session out.now)) }
{
    if trace {
        return sent_line(alloc, session, out);
    }
    Ok(Vec::new(alloc))
}

// That line, with a copy of what is given.
fn sent_line(alloc: Global, session: u64, out: &Out) -> Mem<Vec<OutLine>>
    ensures { IfOk result (λ lines. lines.items ≡ out_line session out.now ∷ []) }
{
    let line = out_line(session, out.copy(alloc)?);
    one_line(alloc, line)
}

// One line.
pub(crate) fn one_line(alloc: Global, line: OutLine) -> Mem<Vec<OutLine>>
    ensures { IfOk result (λ lines. lines.items ≡ line ∷ []) }
{
    let mut lines = Vec::new(alloc);
    lines.push(line)?;
    Ok(lines)
}

// What a trace prints of what a session is given.
fn out_line(session: u64, out: Out) -> OutLine
    ensures { result ≡ out_line session out }
{
    match out {
        Out::Message(message) => OutLine::To { session, message },
        Out::End(reason) => OutLine::Ending { session, reason },
    }
}
