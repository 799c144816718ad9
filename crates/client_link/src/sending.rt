//! What goes out on a client's link.
ghost use Rattle.std.specs.Prelude.{◌<◌, ◌≤◌};
ghost use Rattle.client_link.specs.Sending.{AreBegun, ArePut, AreTexts, IsPut, PutsAll};
ghost use Rattle.link_texts.specs.Sending.{ArePieces, Begins};
ghost use Rattle.room_link.specs.Exchange.{Tells};
ghost use Rattle.room_link.specs.Stops.{OnFailed};

use crate::saying::Saying;
use room_link::link::Link;
use room_link::passing::Stop;
use rooms_val::Text;
use std::alloc::Global;
use std::str;
use wire_text::pieces;

/// Sends what a client says, in order, each in the pieces of its text. A saying is printed and cut once.
///
/// Costs what is sent.
///
/// # Errors
///
/// `Failed` if the link had a fault, whose count rose; `OutOfMemory` if memory was refused. A beginning went out then.
pub fn send_all<K: Link>(alloc: Global, link: &mut K, sayings: &[Saying]) -> Result<(), Stop>
    ensures faults_stay { K.faults link.old ≤ K.faults link.new }
    ensures failed { OnFailed result (K.faults link.old < K.faults link.new) }
    ensures sent { Tells (PutsAll (ArePut sayings.now) (AreBegun sayings.now) result)
        (K.told link.old) (K.told link.new) }
{
    'sayings: for saying in sayings {
        send_one(alloc, link, saying)?;
    }
    Ok(())
}

// Sends one saying in the pieces of its text.
fn send_one<K: Link>(alloc: Global, link: &mut K, saying: &Saying) -> Result<(), Stop>
    ensures faults_stay { K.faults link.old ≤ K.faults link.new }
    ensures failed { OnFailed result (K.faults link.old < K.faults link.new) }
    ensures sent { let put = IsPut saying.now in
        Tells (PutsAll put (Begins put) result) (K.told link.old) (K.told link.new) }
{
    let bytes = saying.print(alloc)?;
    // A printed text is UTF-8.
    let text = unsafe { str::from_utf8_unchecked(bytes.as_slice()) };
    send_text(alloc, link, text)
}

// Sends a text in its pieces.
fn send_text<K: Link>(alloc: Global, link: &mut K, text: &str) -> Result<(), Stop>
    ensures faults_stay { K.faults link.old ≤ K.faults link.new }
    ensures failed { OnFailed result (K.faults link.old < K.faults link.new) }
    ensures sent { let put = ArePieces text.now in
        Tells (PutsAll put (Begins put) result) (K.told link.old) (K.told link.new) }
{
    let pieces = pieces(alloc, text)?;
    send_pieces(link, pieces.as_slice())
}

// Sends pieces, in order.
fn send_pieces<K: Link>(link: &mut K, pieces: &[Text]) -> Result<(), Stop>
    ensures faults_stay { K.faults link.old ≤ K.faults link.new }
    ensures failed { OnFailed result (K.faults link.old < K.faults link.new) }
    ensures sent { let put = AreTexts pieces.now in
        Tells (PutsAll put (Begins put) result) (K.told link.old) (K.told link.new) }
{
    'pieces: for piece in pieces {
        link.send(piece.as_str())?;
    }
    Ok(())
}
