//! Laws of the texts by which messages come.
ghost use Rattle.std.specs.Prelude.{List};
ghost use Rattle.client_link.specs.Waiting.{Waits};
ghost use Rattle.client_link.specs.declared.hearing.TheConstants.{LONGEST_REPLY};
ghost use Rattle.client_link.specs.declared.waiting.Heard.{Heard};
ghost use Rattle.room_link.specs.Exchange.{Arrival};
ghost use Rattle.sync_msgs.specs.declared.server_message.ServerMessage.{ServerMessage};
ghost use Rattle.wire_text.specs.Feeding.{Assembly, empty};
ghost use Rattle.join_laws.specs.Texts.{texts_in, AllPieces, AreDue, GivesNext};

use wire_text::laws::pieces_come_back;

/// Where all texts that are to come over a link are the pieces of messages, in order, each wait gives the
/// next of these messages, whatever Idles come between: by the pieces the messages are due at an
/// assembler that gathered nothing (`begins`), and a wait gives the next that is due, or ends with Idles,
/// and what is left is due then (`goes_on`). So none is refused, and the link's end is told where no
/// message is left. The messages' texts have at most 67,108,864 bytes each and are read as the messages
/// again, so they nest at most 64 deep and have only numbers within 2^53 - 1 on either side.
pub fn waits_give_messages()
    ensures begins { (messages : List ServerMessage) (coming : List Arrival)
        → AllPieces messages (texts_in coming)
        → AreDue (empty LONGEST_REPLY) (texts_in coming) messages }
    ensures goes_on { (before now : Assembly) (coming left : List Arrival) (heard : Heard)
        (messages : List ServerMessage)
        → AreDue before (texts_in coming) messages → Waits before coming heard now left
        → GivesNext heard now (texts_in left) messages }
{
    pieces_come_back();
}
