//! The text of a reason.
ghost use Rattle.std.specs.Prelude.{◌≡◌};
ghost use Rattle.socket_link.specs.Reasons.{reason_text};

use sync_msgs::EndReason;

/// The text of a reason, with which a link is closed. It takes no memory.
pub fn reason_text(reason: EndReason) -> &'static str
    ensures { result.now ≡ reason_text reason }
{
    match reason {
        EndReason::ClientTooOld => "CLIENT_TOO_OLD",
        EndReason::ServerTooOld => "SERVER_TOO_OLD",
        EndReason::InvalidRecord => "INVALID_RECORD",
        EndReason::RoomFull => "ROOM_FULL",
        EndReason::Slow => "SLOW",
    }
}
