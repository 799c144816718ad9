//! The queues of all sessions.
ghost use Rattle.std.specs.Prelude.{◌≡◌, [], ◌∷◌, ◌++◌, length, OnOk, OnErr, slice_get};
ghost use Rattle.world_queues.specs.Queues.{to_room, to_client, queue_at, with_all, with_last, without_first, emptied};

use crate::channel::Channel;
use rooms_val::Mem;
use std::alloc::Global;
use sync_msgs::{ClientMessage, Out};

/// What is in flight between sessions and their room. Sessions are numbered from 0 as they enter.
#[derive(Drop)]
pub struct Queues {
    // By the numbers of sessions.
    channels: Vec<Channel>,
}

impl Queues {
    /// No session has entered.
    pub fn new(alloc: Global) -> Queues
        ensures sent { to_room result ≡ [] }
        ensures given { to_client result ≡ [] }
    {
        Queues {
            channels: Vec::new(alloc),
        }
    }

    /// How many sessions have entered.
    pub fn len(&self) -> usize
        ensures sent { result ≡ length (to_room self.now) }
        ensures given { result ≡ length (to_client self.now) }
    {
        self.channels.len()
    }

    /// A session enters, with a first message to the room. Where memory is refused none enters. It
    /// costs a fixed number of steps.
    pub fn enter(&mut self, alloc: Global, first: ClientMessage) -> Mem<()>
        ensures sent { OnOk result (to_room self.new ≡ to_room self.old ++ (first ∷ []) ∷ []) }
        ensures given { OnOk result (to_client self.new ≡ to_client self.old ++ [] ∷ []) }
        ensures err { OnErr result ((to_room self.new ≡ to_room self.old)
            × (to_client self.new ≡ to_client self.old)) }
    {
        let channel = Channel::new(alloc, first)?;
        self.channels.push(channel)?;
        Ok(())
    }

    /// Puts messages to the room into the queue of a session, behind what is there; nowhere if no
    /// such session has entered. It costs the number of messages.
    ///
    /// # Errors
    ///
    /// Memory was refused; some of the messages may be in the queue.
    pub fn send_all(&mut self, session: u64, messages: Vec<ClientMessage>) -> Mem<()>
        ensures sent { OnOk result (to_room self.new
            ≡ with_all session messages.items (to_room self.old)) }
        ensures given { to_client self.new ≡ to_client self.old }
    {
        match self.channels.get_mut(session as usize) {
            Some(channel) => channel.send_all(messages),
            None => Ok(()),
        }
    }

    /// Puts what the room gave out for a session into the session's queue, behind what is there;
    /// nowhere if no such session has entered. Where memory is refused nothing changes.
    pub fn give(&mut self, session: u64, out: Out) -> Mem<()>
        ensures given { OnOk result (to_client self.new
            ≡ with_last session out (to_client self.old)) }
        ensures err { OnErr result (to_client self.new ≡ to_client self.old) }
        ensures sent { to_room self.new ≡ to_room self.old }
    {
        match self.channels.get_mut(session as usize) {
            Some(channel) => channel.give(out),
            None => Ok(()),
        }
    }

    /// Takes the first message to the room from the queue of a session. `None` exactly if the queue
    /// is empty, or no such session has entered.
    pub fn take_sent(&mut self, session: u64) -> Option<ClientMessage>
        ensures first { result ≡ slice_get (queue_at session (to_room self.old)) 0 }
        ensures rest { to_room self.new ≡ without_first session (to_room self.old) }
        ensures given { to_client self.new ≡ to_client self.old }
    {
        match self.channels.get_mut(session as usize) {
            Some(channel) => channel.take_sent(),
            None => None,
        }
    }

    /// Takes the first that the client of a session is to be given from the session's queue. `None`
    /// exactly if the queue is empty, or no such session has entered.
    pub fn take_given(&mut self, session: u64) -> Option<Out>
        ensures first { result ≡ slice_get (queue_at session (to_client self.old)) 0 }
        ensures rest { to_client self.new ≡ without_first session (to_client self.old) }
        ensures sent { to_room self.new ≡ to_room self.old }
    {
        match self.channels.get_mut(session as usize) {
            Some(channel) => channel.take_given(),
            None => None,
        }
    }

    /// Lets go of all messages to the room in the queue of a session.
    pub fn forget_sent(&mut self, session: u64)
        ensures sent { to_room self.new ≡ emptied session (to_room self.old) }
        ensures given { to_client self.new ≡ to_client self.old }
    {
        if let Some(channel) = self.channels.get_mut(session as usize) {
            channel.forget_sent();
        }
    }
}
