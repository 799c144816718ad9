//! How a client waits for a message of its room.
ghost use Rattle.std.specs.Prelude.{◌≤◌, ◌<◌, IfOk};
ghost use Rattle.client_link.specs.Waiting.{Ends, Hears};
ghost use Rattle.room_link.specs.Exchange.{Tells};
ghost use Rattle.room_link.specs.Stops.{OnFailed};

use crate::hearing::hear;
use link_texts::{Unheard, WireFault};
use room_link::link::Link;
use room_link::passing::{Incoming, Stop};
use rooms_val::{Mem, OutOfMemory};
use std::alloc::Global;
use sync_msgs::ServerMessage;
use wire_text::Assembler;

/// The Idles with which a wait ends.
pub const MOST_IDLES: u32 = 1_200;

/// How a wait for a message ends.
#[derive(Drop)]
pub enum Heard {
    /// A message came whole.
    Message(ServerMessage),
    /// A text was refused, for this cause.
    Refused(WireFault),
    /// The link ended.
    Lost,
    /// So many Idles came that the wait is over.
    Idle,
}

/// Waits for the next message: takes what comes, up to the text that completes a message or is refused, the end of the link,
/// or the 1,200th Idle. Pieces of a message that isn't whole then are kept by the assembler, for the next wait.
///
/// Costs what it takes.
///
/// # Errors
///
/// `Failed` if the link had a fault, whose count rose; `OutOfMemory` if memory was refused. Nothing went out then either.
pub fn wait_for_message<K: Link>(
    alloc: Global,
    link: &mut K,
    assembler: &mut Assembler,
) -> Result<Heard, Stop>
    ensures faults_stay { K.faults link.old ≤ K.faults link.new }
    ensures failed { OnFailed result (K.faults link.old < K.faults link.new) }
    ensures ends { Tells (Ends assembler.old result assembler.new)
        (K.told link.old) (K.told link.new) }
{
    let mut idles = 0;
    'arrivals: loop {
        match link.next()? {
            Incoming::Text(bytes) => match take_text(alloc, assembler, &bytes)? {
                Some(end) => return Ok(end),
                None => {}
            },
            Incoming::Idle => {
                idles += 1;
                if idles == MOST_IDLES {
                    return Ok(Heard::Idle);
                }
            }
            Incoming::End => return Ok(Heard::Lost),
        }
    }
}

// How a wait ends with a text, or none if more pieces follow.
fn take_text(alloc: Global, assembler: &mut Assembler, bytes: &[u8]) -> Mem<Option<Heard>>
    ensures hears { IfOk result (λ end. Hears assembler.old bytes.now end assembler.new) }
{
    match hear(alloc, assembler, bytes) {
        Ok(None) => Ok(None),
        Ok(Some(message)) => Ok(Some(Heard::Message(message))),
        Err(Unheard::Refused(fault)) => Ok(Some(Heard::Refused(fault))),
        Err(Unheard::OutOfMemory) => Err(OutOfMemory),
    }
}
