//! How a client waits for a message, and takes it.
ghost use Rattle.std.specs.Prelude.{◌≡◌, ◌≤◌, ◌<◌, IfOk};
ghost use Rattle.client_link.specs.declared.waiting.Heard.{Heard};
ghost use Rattle.room_link.specs.Exchange.{Tells};
ghost use Rattle.room_link.specs.Stops.{OnFailed};
ghost use Rattle.room_model.specs.Schemas.{WorldSchemas};
ghost use Rattle.side_effects.specs.declared.fault.EditFault.{EditFault};
ghost use Rattle.room_join.specs.Hearing.{Waited, Heeds, SaysNothing};
ghost use Rattle.room_join.specs.Joiners as model;
ghost use Rattle.room_join.specs.Standing.{Stands};

use crate::join_line::JoinLine;
use crate::joiner::{Joiner, one_line};
use crate::texts::{take_fault_text, wire_fault_text};
use client_link::{Heard, wait_for_message};
use room_link::link::Link;
use room_link::passing::Stop;
use rooms_val::{Mem, Steps, Text};
use std::alloc::Global;
use std::sync::ledger::Ledger;
use sync_msgs::ServerMessage;

/// The lines that a wait prints, or the text of why a text that came is refused.
pub type Delivery = Result<Vec<JoinLine>, Text>;

impl Joiner {
    /// Waits for the next message and takes it, or learns that the link has ended or that nothing came
    /// for long. It costs what came, and what the message brings.
    ///
    /// # Errors
    ///
    /// As of `wait_for_message`.
    pub fn deliver<K: Link, L: Ledger>(
        &mut self,
        alloc: Global,
        link: &mut K,
        steps: &mut Steps<L>,
    ) -> Result<Delivery, Stop>
        ensures faults_stay { K.faults link.old ≤ K.faults link.new }
        ensures failed { OnFailed result (K.faults link.old < K.faults link.new) }
        ensures unsaid { Tells SaysNothing (K.told link.old) (K.told link.new) }
        ensures waited { (schemas : WorldSchemas EditFault) (joiner : model.Joiner)
            → Stands schemas joiner self.old
            → Tells (Waited schemas joiner result self.new) (K.told link.old) (K.told link.new) }
    {
        let heard = wait_for_message(alloc, link, &mut self.assembler)?;
        Ok(self.heed(alloc, heard, steps)?)
    }

    // Makes of the client what it waited for makes of it.
    fn heed<L: Ledger>(
        &mut self,
        alloc: Global,
        heard: Heard,
        steps: &mut Steps<L>,
    ) -> Mem<Delivery>
        ensures { IfOk result (λ delivery. (schemas : WorldSchemas EditFault)
            (joiner : model.Joiner) → Stands schemas joiner self.old
            → Heeds schemas joiner heard delivery self.new) }
    {
        match heard {
            Heard::Message(message) => self.take(alloc, &message, steps),
            Heard::Refused(fault) => Ok(Err(wire_fault_text(alloc, fault)?)),
            Heard::Lost => {
                self.peer.lost(alloc);
                self.is_lost = true;
                Ok(Ok(one_line(alloc, JoinLine::Lost)?))
            }
            Heard::Idle => Ok(Ok(one_line(alloc, JoinLine::Idle)?)),
        }
    }

    // Takes a message of the room.
    fn take<L: Ledger>(
        &mut self,
        alloc: Global,
        message: &ServerMessage,
        steps: &mut Steps<L>,
    ) -> Mem<Delivery>
        ensures { IfOk result (λ delivery. (schemas : WorldSchemas EditFault)
            (joiner : model.Joiner) → Stands schemas joiner self.old
            → Heeds schemas joiner (Heard.Message message.now) delivery self.new) }
    {
        match self.peer.take(alloc, message, steps) {
            Ok(()) => Ok(Ok(Vec::new(alloc))),
            Err(fault) => Ok(Err(take_fault_text(alloc, fault)?)),
        }
    }
}
