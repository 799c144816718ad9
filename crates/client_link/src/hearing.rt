//! What a text says that comes from a room.
ghost use Rattle.std.specs.Prelude.{IfOk, IfErr};
ghost use Rattle.client_link.specs.Hearing.{IsHeard, Refuses};
ghost use Rattle.link_texts.specs.Hearing.{IfRefused};

use link_texts::{Unheard, take_piece};
use std::alloc::Global;
use sync_msgs::ServerMessage;
use wire_msgs::read_server;
use wire_text::Assembler;

/// The most bytes of a room's message.
pub const LONGEST_REPLY: usize = 67_108_864;

/// Takes the next text of a room: the message that it completes, or none if more pieces follow.
///
/// # Errors
///
/// `Refused` exactly if the text is no piece in UTF-8, isn't the piece that comes next, makes a text that is too long for
/// the assembler, or completes one that is no room's message. `OutOfMemory` if memory was refused. Of the assembler nothing
/// is said then.
///
/// Costs the text, and the message that it completes.
pub fn hear(
    alloc: Global,
    assembler: &mut Assembler,
    bytes: &[u8],
) -> Result<Option<ServerMessage>, Unheard>
    ensures heard { IfOk result (λ said. IsHeard assembler.old bytes.now said assembler.new) }
    ensures refused { IfErr result (IfRefused (Refuses assembler.old bytes.now)) }
{
    match take_piece(alloc, assembler, bytes)? {
        None => Ok(None),
        Some(text) => Ok(Some(read_server(alloc, text.as_str().as_bytes())?)),
    }
}
