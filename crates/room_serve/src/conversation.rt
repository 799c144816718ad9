//! What a client and its room say to each other over a link.
ghost use Rattle.std.specs.Prelude.{◌≡◌, false, Some};
ghost use Rattle.room_link.specs.Exchange.{Arrival, Tells};
ghost use Rattle.room_link.specs.Exchange as arrival;
ghost use Rattle.room_run.specs.Passes.{room_of};
ghost use Rattle.room_run.specs.Rooms.{id_of};
ghost use Rattle.room_serve.specs.Accounts.{IsOpen, IsBlamed};
ghost use Rattle.room_serve.specs.Answering.{said, idled};
ghost use Rattle.room_serve.specs.Turns.{Answers, Converses, IsAsked, Leaves, Reacts};
ghost use Rattle.room_serve.specs.declared.account.Account.{Account};

use crate::account::Account;
use link_texts::{Unheard, hear};
use room_link::gate::Gate;
use room_link::link::Link;
use room_link::passing::Incoming;
use room_run::{Pass, RunningRoom};
use rooms_val::Mem;
use std::alloc::Global;
use std::sync::Wait;
use sync_msgs::{ClientMessage, Out};
use wire_text::Assembler;

// A session of a room over a link.
#[derive(Drop)]
pub(crate) struct Conversation {
    pub(crate) pass: Pass,
    // what came of a message that isn't whole
    pub(crate) assembler: Assembler,
    pub(crate) account: Account,
    // the number of the text for which the gate was entered last
    pub(crate) entered: Option<u64>,
}

// Where a worker serves a link: at the door of a room.
#[derive(Drop)]
pub(crate) struct Door<'a, R, G> {
    pub(crate) rt: &'a R,
    pub(crate) alloc: Global,
    pub(crate) room: &'a RunningRoom,
    // the number of the worker
    pub(crate) worker: u32,
    pub(crate) gate: &'a G,
}

impl<'a, R: Wait, G: Gate> Door<'a, R, G> {
    // Serves a session until its link ends, a call fails, a text is refused, or the room ends the session.
    pub(crate) fn converse<K: Link>(&self, link: &mut K, conversation: &mut Conversation)
        requires open { IsOpen conversation.old.account }
        requires own { room_of conversation.old.pass ≡ id_of self.now.room.now }
        ensures own { room_of conversation.new.pass ≡ room_of conversation.old.pass }
        ensures session { conversation.new.pass.session ≡ conversation.old.pass.session }
        ensures blamed { IsBlamed conversation.old.account.fault conversation.new.account.fault
            (K.faults link.old) (K.faults link.new) }
        ensures talk { Tells (Converses conversation.old conversation.new)
            (K.told link.old) (K.told link.new) }
        ensures whole { Tells (Leaves conversation.new.account)
            (K.told link.old) (K.told link.new) }
    {
        'turns: for _ in self.rt.forever() {
            if !self.turn(link, conversation) {
                return;
            }
            if !conversation.account.is_open() {
                return;
            }
        }
        unreachable!()
    }

    // Takes what comes next: hears a text, and at an Idle sends what there is for the session. Returns whether something
    // came: `false` where the link has ended, had a fault or was refused memory.
    fn turn<K: Link>(&self, link: &mut K, conversation: &mut Conversation) -> bool
        requires open { IsOpen conversation.old.account }
        requires own { room_of conversation.old.pass ≡ id_of self.now.room.now }
        ensures own { room_of conversation.new.pass ≡ room_of conversation.old.pass }
        ensures session { conversation.new.pass.session ≡ conversation.old.pass.session }
        ensures blamed { IsBlamed conversation.old.account.fault conversation.new.account.fault
            (K.faults link.old) (K.faults link.new) }
        ensures talk { Tells (Converses conversation.old conversation.new)
            (K.told link.old) (K.told link.new) }
        ensures whole { result ≡ false →
            Tells (Leaves conversation.new.account) (K.told link.old) (K.told link.new) }
    {
        match link.next() {
            Ok(Incoming::Text(bytes)) => {
                self.hear(link, conversation, &bytes);
                true
            }
            Ok(Incoming::Idle) => {
                self.idle(link, conversation);
                true
            }
            Ok(Incoming::End) => false,
            Err(stop) => {
                conversation.account.stop(stop);
                false
            }
        }
    }

    // Takes a text that came. Where the text completes a message, the room is given that, and what the session is given goes
    // out. Where the text is refused, the link is closed.
    fn hear<K: Link>(&self, link: &mut K, conversation: &mut Conversation, bytes: &[u8])
        requires open { IsOpen conversation.old.account }
        requires own { room_of conversation.old.pass ≡ id_of self.now.room.now }
        ensures own { room_of conversation.new.pass ≡ room_of conversation.old.pass }
        ensures session { conversation.new.pass.session ≡ conversation.old.pass.session }
        ensures blamed { IsBlamed conversation.old.account.fault conversation.new.account.fault
            (K.faults link.old) (K.faults link.new) }
        ensures talk { Tells (Reacts (arrival.text bytes.now) conversation.old conversation.new)
            (K.told link.old) (K.told link.new) }
    {
        let number = conversation.account.count();
        match hear(self.alloc, &mut conversation.assembler, bytes) {
            Ok(None) => {}
            Ok(Some(message)) => self.answer(link, conversation, number, &message),
            Err(Unheard::Refused(wire)) => conversation.account.refuse(link, wire),
            Err(Unheard::OutOfMemory) => conversation.account.memory = true,
        }
    }

    // Gives the room a message, and sends what the session is given. The gate is entered before the room's turn,
    // and told afterwards, also where a reply couldn't go out: who is held there is let go.
    fn answer<K: Link>(
        &self,
        link: &mut K,
        conversation: &mut Conversation,
        text: u64,
        message: &ClientMessage,
    )
        requires own { room_of conversation.old.pass ≡ id_of self.now.room.now }
        ensures own { room_of conversation.new.pass ≡ room_of conversation.old.pass }
        ensures session { conversation.new.pass.session ≡ conversation.old.pass.session }
        ensures assembler { conversation.new.assembler ≡ conversation.old.assembler }
        ensures blamed { IsBlamed conversation.old.account.fault conversation.new.account.fault
            (K.faults link.old) (K.faults link.new) }
        ensures talk { Tells (Answers (said message.now) conversation.old conversation.new)
            (K.told link.old) (K.told link.new) }
    {
        self.enter(conversation, text);
        let outs = self.handle(conversation, text, message);
        conversation.account.reply(self.alloc, link, outs);
        self.gate.answered(self.worker, text);
    }

    // Enters the gate with a text.
    fn enter(&self, conversation: &mut Conversation, text: u64)
        ensures { conversation.new ≡ record conversation.old { entered = Some text } }
    {
        self.gate.enter(self.worker, text);
        conversation.entered = Some(text);
    }

    // Gives the room the message of a text with which the gate was entered: what the session is given.
    fn handle(
        &self,
        conversation: &mut Conversation,
        text: u64,
        message: &ClientMessage,
    ) -> Mem<Vec<Out>>
        requires entered { conversation.old.entered ≡ Some text }
        requires own { room_of conversation.old.pass ≡ id_of self.now.room.now }
        ensures own { room_of conversation.new.pass ≡ room_of conversation.old.pass }
        ensures session { conversation.new.pass.session ≡ conversation.old.pass.session }
        ensures assembler { conversation.new.assembler ≡ conversation.old.assembler }
        ensures account { conversation.new.account ≡ conversation.old.account }
        ensures asked { IsAsked (said message.now) result
            conversation.old.pass conversation.new.pass }
    {
        self.room.handle(self.rt, &mut conversation.pass, message)
    }

    // Sends what there is for the session.
    fn idle<K: Link>(&self, link: &mut K, conversation: &mut Conversation)
        requires own { room_of conversation.old.pass ≡ id_of self.now.room.now }
        ensures own { room_of conversation.new.pass ≡ room_of conversation.old.pass }
        ensures session { conversation.new.pass.session ≡ conversation.old.pass.session }
        ensures assembler { conversation.new.assembler ≡ conversation.old.assembler }
        ensures blamed { IsBlamed conversation.old.account.fault conversation.new.account.fault
            (K.faults link.old) (K.faults link.new) }
        ensures talk { Tells (Answers idled conversation.old conversation.new)
            (K.told link.old) (K.told link.new) }
    {
        let outs = self.look(conversation);
        conversation.account.reply(self.alloc, link, outs);
    }

    // Asks the room what there is for the session.
    fn look(&self, conversation: &mut Conversation) -> Mem<Vec<Out>>
        requires own { room_of conversation.old.pass ≡ id_of self.now.room.now }
        ensures own { room_of conversation.new.pass ≡ room_of conversation.old.pass }
        ensures session { conversation.new.pass.session ≡ conversation.old.pass.session }
        ensures assembler { conversation.new.assembler ≡ conversation.old.assembler }
        ensures account { conversation.new.account ≡ conversation.old.account }
        ensures asked { IsAsked idled result conversation.old.pass conversation.new.pass }
    {
        self.room.idle(self.rt, &mut conversation.pass)
    }
}
