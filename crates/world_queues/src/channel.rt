//! What is in flight between one session and the room.
ghost use Rattle.std.specs.Prelude.{◌≡◌, [], ◌∷◌, ◌++◌, drop, IfOk, OnOk, OnErr, option_to_list};
ghost use Rattle.world_queues.specs.Queues.{sent_in, given_in};

use rooms_val::Mem;
use std::alloc::Global;
use std::collections::VecDeque;
use sync_msgs::{ClientMessage, Out};

// What is in flight between a session and the room, the oldest first.
#[derive(Drop)]
pub(crate) struct Channel {
    // What the session sent, and the room wasn't given.
    to_room: VecDeque<ClientMessage>,
    // What the room gave out, and the session's client wasn't given.
    to_client: VecDeque<Out>,
}

impl Channel {
    // A channel with a first message to the room.
    pub(crate) fn new(alloc: Global, first: ClientMessage) -> Mem<Channel>
        ensures sent { IfOk result (λ channel. sent_in channel ≡ first ∷ []) }
        ensures given { IfOk result (λ channel. given_in channel ≡ []) }
    {
        let mut to_room = VecDeque::new(alloc);
        to_room.push_back(first)?;
        Ok(Channel {
            to_room,
            to_client: VecDeque::new(alloc),
        })
    }

    // Puts messages to the room behind the others. Where memory is refused nothing is said of them.
    pub(crate) fn send_all(&mut self, messages: Vec<ClientMessage>) -> Mem<()>
        ensures ok { OnOk result (sent_in self.new ≡ sent_in self.old ++ messages.items) }
        ensures given { given_in self.new ≡ given_in self.old }
    {
        'messages: for message in messages {
            self.to_room.push_back(message)?;
        }
        Ok(())
    }

    // Puts what the room gave out behind what it gave out before.
    pub(crate) fn give(&mut self, out: Out) -> Mem<()>
        ensures ok { OnOk result (given_in self.new ≡ given_in self.old ++ out ∷ []) }
        ensures err { OnErr result (given_in self.new ≡ given_in self.old) }
        ensures sent { sent_in self.new ≡ sent_in self.old }
    {
        self.to_client.push_back(out)?;
        Ok(())
    }

    // Takes the first message to the room, if there is one.
    pub(crate) fn take_sent(&mut self) -> Option<ClientMessage>
        ensures first { sent_in self.old ≡ option_to_list result ++ sent_in self.new }
        ensures rest { sent_in self.new ≡ drop 1 (sent_in self.old) }
        ensures given { given_in self.new ≡ given_in self.old }
    {
        self.to_room.pop_front()
    }

    // Takes the first that the client is to be given, if there is any.
    pub(crate) fn take_given(&mut self) -> Option<Out>
        ensures first { given_in self.old ≡ option_to_list result ++ given_in self.new }
        ensures rest { given_in self.new ≡ drop 1 (given_in self.old) }
        ensures sent { sent_in self.new ≡ sent_in self.old }
    {
        self.to_client.pop_front()
    }

    // Lets go of all messages to the room.
    pub(crate) fn forget_sent(&mut self)
        ensures sent { sent_in self.new ≡ [] }
        ensures given { given_in self.new ≡ given_in self.old }
    {
        self.to_room.clear();
    }
}
