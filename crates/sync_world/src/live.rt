//! The parts of a world, and which event each part takes.
ghost use Rattle.std.specs.Prelude.{◌≡◌, ◌<◌, ◌≤◌, ◌∷◌, [], ℕ, Bool, Some, None, IfOk, OnOk, IfSome, IfNone, slice_get, vec_len};
ghost use Rattle.room_model.specs.Schemas.{WorldSchemas};
ghost use Rattle.room_model.specs.Replicas.{Client, push_all};
ghost use Rattle.room_model.specs.Worlds as model;
ghost use Rattle.room_model.specs.Worlds.{with_pushing, after_event};
ghost use Rattle.side_effects.specs.declared.fault.EditFault.{EditFault};
ghost use Rattle.sync_client.specs.Calls.{ClientState};
ghost use Rattle.sync_peer.specs.Standing as peer_of;
ghost use Rattle.world_queues.specs.Queues.{to_client};
ghost use Rattle.sync_world.specs.Playing.{IsPlayed};
ghost use Rattle.sync_world.specs.Standing.{Fits, Keeps};
ghost use Rattle.sync_world.specs.Answers.{Answers};
ghost use Rattle.sync_world.specs.Viewing.{stores_in, KeepsStores, IsSoundAt};
ghost use Rattle.sync_peer.specs.Viewing.{store_of};

use clip_content::{Clip, Target};
use room_model::fault::StepFault;
use room_model::{Event, OutLine};
use rooms_val::{Mem, Steps};
use side_effects::EditFault;
use std::alloc::Global;
use std::sync::ledger::Ledger;
use sync_msgs::ClientMessage;
use sync_peer::Peer;
use sync_room::Room;
use world_queues::Queues;

/// The lines that an event prints, or why it can't happen. Out of memory is told apart from it.
pub(crate) type Answer = Result<Vec<OutLine>, StepFault<EditFault>>;

/// A world whose memory never ran out.
#[derive(Drop)]
pub(crate) struct Live {
    // The room that all sessions are in.
    pub(crate) room: Room,
    // What is in flight, for each session that ever entered.
    pub(crate) queues: Queues,
    // The clients by number, 64 at most.
    pub(crate) clients: Vec<WorldClient>,
}

/// A client of a world.
#[derive(Drop)]
pub(crate) struct WorldClient {
    // The client by itself.
    pub(crate) peer: Peer,
    // The session of its last connect, until it is cut or its end is delivered.
    pub(crate) session: Option<u64>,
    // What it copied last, if it copied anything.
    pub(crate) clip: Option<Clip>,
}

impl Live {
    /// Lets an event happen. Where memory is refused nothing is said of the world.
    pub(crate) fn happen<L: Ledger>(
        &mut self,
        alloc: Global,
        event: Event,
        trace: bool,
        steps: &mut Steps<L>,
    ) -> Mem<Answer>
        requires { IsPlayed event }
        ensures step { IfOk result (λ answer. (schemas : WorldSchemas EditFault)
            (world : model.World)
            → Keeps schemas world self.old
            → Answers schemas world (after_event schemas trace world event) answer self.new) }
        ensures stores { OnOk result (KeepsStores event (stores_in self.old) (stores_in self.new)) }
    {
        match event {
            Event::Client { version } => self.join(alloc, version),
            Event::Connect { client, readonly } => self.connect(alloc, client, readonly),
            Event::Edit { client, diff } => self.edit(alloc, client, &diff, steps),
            Event::Presence { client, stored } => self.presence(alloc, client, stored),
            Event::Mark { client, name } => self.mark(alloc, client, name),
            Event::Undo { client } => self.undo(alloc, client, steps),
            Event::Redo { client } => self.redo(alloc, client, steps),
            Event::Bail { client, name } => self.bail(alloc, client, &name, steps),
            Event::Copy { client, ids } => self.copy(alloc, client, ids.as_slice()),
            Event::Paste {
                client,
                dx,
                dy,
                parent,
                prefix,
            } => {
                let target = Target {
                    prefix: prefix.as_str(),
                    parent: parent.as_str(),
                    dx,
                    dy,
                };
                self.paste(alloc, client, &target, steps)
            }
            Event::Handle { session } => self.handle(alloc, trace, session, steps),
            Event::Send { session } => self.send(alloc, trace, session, steps),
            Event::Deliver { client } => self.deliver(alloc, client, steps),
            Event::Cut { client } => Ok(self.cut(alloc, client)),
            Event::Lose { session } => Ok(self.lose(alloc, session)),
            Event::Show { client } => self.show(alloc, client),
            Event::End => self.end(alloc),
        }
    }

    // What a client shows is sound, which a look-up tells.
    pub(crate) fn tell_sound(&self, client: Option<u64>)
        ensures { IsSoundAt client (stores_in self.now) }
    {
        let Some(number) = client else {
            return;
        };
        if let Some(at) = self.place(number) {
            self.clients[at].peer.tell_sound();
        }
    }

    // Where a client is kept, if it was made.
    pub(crate) fn place(&self, number: u64) -> Option<usize>
        ensures found { IfSome result (λ at. (at ≡ number) × (at < vec_len self.now.clients)) }
        ensures none { IfNone result (vec_len self.now.clients ≤ number) }
    {
        let at = number as usize;
        if at < self.clients.len() {
            Some(at)
        } else {
            None
        }
    }

    // Puts what a client can push into the queue of its session; nowhere if the session has left
    // the room, or it has none. Where memory is refused nothing is said of the world.
    pub(crate) fn push(&mut self, alloc: Global, at: usize) -> Mem<()>
        requires { at < vec_len self.old.clients }
        ensures pushed { OnOk result ((schemas : WorldSchemas EditFault) (world : model.World)
            (client : Client)
            → Fits schemas world self.old → slice_get world.clients at ≡ Some client
            → Fits schemas (with_pushing at (push_all client) world) self.new) }
        ensures given { OnOk result (to_client self.new.queues ≡ to_client self.old.queues) }
        ensures stores { OnOk result (stores_in self.new ≡ stores_in self.old) }
    {
        let session = self.clients[at].session;
        let messages = pushes(alloc, &mut self.clients[at].peer)?;
        let Some(session) = session else {
            return Ok(());
        };
        let Some(_) = self.room.find(session) else {
            return Ok(());
        };
        self.queues.send_all(session, messages)
    }
}

// What a client can push, the oldest first. Where memory is refused nothing is said of the client.
fn pushes(alloc: Global, peer: &mut Peer) -> Mem<Vec<ClientMessage>>
    ensures pushes { IfOk result (λ messages. (schemas : WorldSchemas EditFault)
        (state : ClientState) → peer_of.Stands schemas state peer.old
        → (messages.items ≡ (push_all state.client).messages)
        × peer_of.Stands schemas (record state {
          client = (push_all state.client).client;
        }) peer.new) }
    ensures store { store_of peer.new ≡ store_of peer.old }
{
    let mut messages = Vec::new(alloc);
    let owed = peer.owed();
    'pushes: for _ in 0..owed {
        match peer.next_push(alloc)? {
            Some(message) => messages.push(message)?,
            None => return Ok(messages),
        }
    }
    Ok(messages)
}
