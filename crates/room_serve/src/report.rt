//! What is told of a link that was served.
ghost use Rattle.std.specs.Prelude.{◌≡◌};
ghost use Rattle.room_serve.specs.Reports.{account_of, session_of};

use crate::account::Account;
use link_texts::WireFault;
use room_run::Gone;
use sync_msgs::EndReason;

/// What is told of a link that was served.
#[derive(Drop)]
pub struct Report {
    /// The number of the room that the link named; none if it named none.
    pub room: Option<u32>,
    /// The number of the session in the room; none if there was none.
    pub session: Option<u64>,
    /// How many texts came, the one that named the room among them. It stays at 2^64 - 1.
    pub texts: u64,
    /// How many texts went out. It stays at 2^64 - 1.
    pub sent: u64,
    /// The reason for which the link was closed; none if it wasn't.
    pub ended: Option<EndReason>,
    /// Why a text was refused; none if none was.
    pub wire: Option<WireFault>,
    /// Whether the link had a fault.
    pub fault: bool,
    /// Whether memory was refused.
    pub memory: bool,
    /// The session that has left, or what was seen of a full room. It is handed in when the room is closed. None only
    /// if the link named no room or memory was refused.
    pub gone: Option<Gone>,
}

impl Report {
    // What is told by what was noted.
    pub(crate) fn new(account: Account, room: Option<u32>, gone: Option<Gone>) -> Report
        ensures account { account_of result ≡ account }
        ensures room { result.room ≡ room }
        ensures gone { result.gone ≡ gone }
        ensures session { result.session ≡ session_of gone }
    {
        Report {
            room,
            session: session_of(&gone),
            texts: account.texts,
            sent: account.sent.texts,
            ended: account.sent.ended,
            wire: account.wire,
            fault: account.fault,
            memory: account.memory,
            gone,
        }
    }
}

// The session of one that is gone, if there is one.
fn session_of(gone: &Option<Gone>) -> Option<u64>
    ensures { result ≡ session_of gone.now }
{
    match gone {
        Some(gone) => gone.session(),
        None => None,
    }
}
