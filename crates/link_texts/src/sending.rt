//! What goes out on a link.
ghost use Rattle.std.specs.Prelude.{◌≡◌, ◌<◌, ◌≤◌, [], ◌∷◌, None, map};
ghost use Rattle.link_texts.specs.Sending.{ArePieces, AreNumbered, IsPrinted, ArePrinted};
ghost use Rattle.link_texts.specs.Sending.{Begins, AreBegun, PutsOutAll};
ghost use Rattle.room_link.specs.Exchange.{Tells};
ghost use Rattle.room_link.specs.Stops.{OnFailed};
ghost use Rattle.room_link.specs.declared.passing.Outgoing.TheVariants as outgoing;
ghost use Rattle.rooms_val.specs.Json.{text_of};
ghost use Rattle.sync_msgs.specs.declared.out.Out.TheVariants as out;
ghost use Rattle.wire_msgs.specs.Messages.{server_val};

use room_link::link::Link;
use room_link::passing::Stop;
use std::alloc::Global;
use std::str;
use sync_msgs::{EndReason, Out, ServerMessage};
use wire_msgs::Message;
use wire_text::{LONGEST_PART, numbered_part, parts_of};

/// What went out on a link, counted.
#[derive(Clone, Copy, Debug, PartialEq, Eq)]
pub struct Sent {
    /// The number of texts; it stays at 2^64 - 1.
    pub texts: u64,
    /// The reason of the last close.
    pub ended: Option<EndReason>,
}

impl Sent {
    /// Nothing went out.
    pub fn new() -> Sent
        ensures { result ≡ record { texts = 0; ended = None } }
    {
        Sent {
            texts: 0,
            ended: None,
        }
    }

    /// Sends what a session is given, in order: a message in the pieces of its text, and an end as
    /// a close with its reason. A message is printed and cut once, and one piece of it is copied at
    /// a time, if it has several.
    ///
    /// Costs what is sent.
    ///
    /// # Errors
    ///
    /// `Failed` if the link had a fault, whose count rose; `OutOfMemory` if memory was refused. A
    /// beginning went out then.
    pub fn send_all<K: Link>(
        &mut self,
        alloc: Global,
        link: &mut K,
        outs: &[Out],
    ) -> Result<(), Stop>
        ensures faults_stay { K.faults link.old ≤ K.faults link.new }
        ensures failed { OnFailed result (K.faults link.old < K.faults link.new) }
        ensures sent { Tells
            (PutsOutAll (ArePrinted outs.now) (AreBegun outs.now) result self.old self.new)
            (K.told link.old) (K.told link.new) }
    {
        'outs: for out in outs {
            self.send_one(alloc, link, out)?;
        }
        Ok(())
    }

    /// Closes a link, and tells the peer the reason.
    ///
    /// # Errors
    ///
    /// As of `send_all`; nothing went out then.
    pub fn close<K: Link>(&mut self, link: &mut K, reason: EndReason) -> Result<(), Stop>
        ensures faults_stay { K.faults link.old ≤ K.faults link.new }
        ensures failed { OnFailed result (K.faults link.old < K.faults link.new) }
        ensures closed { Tells
            (PutsOutAll (λ put. put ≡ outgoing.Close reason ∷ []) (λ put. put ≡ [])
            result self.old self.new)
            (K.told link.old) (K.told link.new) }
    {
        link.close(reason)?;
        self.ended = Some(reason);
        Ok(())
    }

    // Sends one thing that a session is given.
    fn send_one<K: Link>(&mut self, alloc: Global, link: &mut K, out: &Out) -> Result<(), Stop>
        ensures faults_stay { K.faults link.old ≤ K.faults link.new }
        ensures failed { OnFailed result (K.faults link.old < K.faults link.new) }
        ensures sent { let printed = IsPrinted out.now in
            Tells (PutsOutAll printed (Begins printed) result self.old self.new)
            (K.told link.old) (K.told link.new) }
    {
        match out {
            Out::Message(message) => self.send_message(alloc, link, message),
            Out::End(reason) => self.close(link, *reason),
        }
    }

    // Sends a message in the pieces of its text.
    fn send_message<K: Link>(
        &mut self,
        alloc: Global,
        link: &mut K,
        message: &ServerMessage,
    ) -> Result<(), Stop>
        ensures faults_stay { K.faults link.old ≤ K.faults link.new }
        ensures failed { OnFailed result (K.faults link.old < K.faults link.new) }
        ensures sent { let pieces = ArePieces (text_of (server_val message.now)) in
            Tells (PutsOutAll pieces (Begins pieces) result self.old self.new)
            (K.told link.old) (K.told link.new) }
    {
        let bytes = message.print(alloc)?;
        // A printed text is UTF-8.
        let text = unsafe { str::from_utf8_unchecked(bytes.as_slice()) };
        self.send_text(alloc, link, text)
    }

    // Sends a text in its pieces.
    fn send_text<K: Link>(&mut self, alloc: Global, link: &mut K, text: &str) -> Result<(), Stop>
        ensures faults_stay { K.faults link.old ≤ K.faults link.new }
        ensures failed { OnFailed result (K.faults link.old < K.faults link.new) }
        ensures sent { let pieces = ArePieces text.now in
            Tells (PutsOutAll pieces (Begins pieces) result self.old self.new)
            (K.told link.old) (K.told link.new) }
    {
        if text.len() <= LONGEST_PART {
            return self.send_piece(link, text);
        }
        let parts = parts_of(alloc, text)?;
        self.send_parts(alloc, link, parts.as_slice())
    }

    // Sends the pieces of a long text's parts.
    fn send_parts<K: Link>(
        &mut self,
        alloc: Global,
        link: &mut K,
        parts: &[&str],
    ) -> Result<(), Stop>
        ensures faults_stay { K.faults link.old ≤ K.faults link.new }
        ensures failed { OnFailed result (K.faults link.old < K.faults link.new) }
        ensures sent { let pieces = AreNumbered (map (λ part. part.now) parts.now) in
            Tells (PutsOutAll pieces (Begins pieces) result self.old self.new)
            (K.told link.old) (K.told link.new) }
    {
        let mut to_come = parts.len();
        'parts: for part in parts {
            to_come -= 1;
            let piece = numbered_part(alloc, to_come, part)?;
            self.send_piece(link, piece.as_str())?;
        }
        Ok(())
    }

    // Sends a text as it is, and counts it.
    fn send_piece<K: Link>(&mut self, link: &mut K, piece: &str) -> Result<(), Stop>
        ensures faults_stay { K.faults link.old ≤ K.faults link.new }
        ensures failed { OnFailed result (K.faults link.old < K.faults link.new) }
        ensures sent { Tells
            (PutsOutAll (λ put. put ≡ outgoing.Text piece.now ∷ []) (λ put. put ≡ [])
            result self.old self.new)
            (K.told link.old) (K.told link.new) }
    {
        link.send(piece)?;
        self.texts = self.texts.saturating_add(1);
        Ok(())
    }
}
