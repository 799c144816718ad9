//! What a text of a link says.
ghost use Rattle.std.specs.Prelude.{◌≡◌, IfOk, IfErr};
ghost use Rattle.link_texts.specs.Hearing.{IsHeard, IsTaken, Refuses, RefusesText, IfRefused};

use crate::fault::Unheard;
use rooms_val::Text;
use std::alloc::Global;
use std::str;
use sync_msgs::ClientMessage;
use wire_msgs::read_client;
use wire_text::{Assembler, PieceFault};

/// The most bytes of a client's message.
pub const LONGEST_MESSAGE: usize = 4_194_304;

/// Takes the next text of a client that has joined: the message that it completes, or none if more
/// pieces follow.
///
/// # Errors
///
/// `Refused` exactly if the text is no piece in UTF-8, isn't the piece that comes next, makes a
/// text that is too long for the assembler, or completes one that is no client's message.
/// `OutOfMemory` if memory was refused. Of the assembler nothing is said then.
///
/// Costs the text, and the message that it completes.
pub fn hear(
    alloc: Global,
    assembler: &mut Assembler,
    bytes: &[u8],
) -> Result<Option<ClientMessage>, Unheard>
    ensures heard { IfOk result (λ said. IsHeard assembler.old bytes.now said assembler.new) }
    ensures refused { IfErr result (IfRefused (Refuses assembler.old bytes.now)) }
{
    match take_piece(alloc, assembler, bytes)? {
        None => Ok(None),
        Some(text) => Ok(Some(read_client(alloc, text.as_str().as_bytes())?)),
    }
}

/// What an assembler gives for a text: another one that it completes, or none if more pieces follow.
///
/// # Errors
///
/// `BadPiece` exactly if the text is no piece in UTF-8. Else the fault of the piece, if it isn't the
/// one that comes next, or makes a text that is too long for the assembler. `OutOfMemory` if memory
/// was refused. Of the assembler nothing is said then.
///
/// Costs the text, and the one that it completes.
pub fn take_piece(
    alloc: Global,
    assembler: &mut Assembler,
    bytes: &[u8],
) -> Result<Option<Text>, PieceFault>
    ensures taken { IfOk result (λ text. IsTaken assembler.old bytes.now text assembler.new) }
    ensures refused { IfErr result (RefusesText assembler.old bytes.now) }
{
    let Ok(piece) = str::from_utf8(bytes) else {
        return Err(PieceFault::BadPiece);
    };
    Ok(assembler.feed(alloc, piece)?)
}
