//! What a room gives out to a session.
ghost use Rattle.std.specs.Prelude.{◌≡◌, IfOk};

use crate::end_reason::EndReason;
use crate::server_message::ServerMessage;
use rooms_val::Mem;
use std::alloc::Global;

/// What a session is sent next.
#[derive(Drop)]
pub enum Out {
    /// A message.
    Message(ServerMessage),
    /// That the session is ended, and why. Nothing comes after it.
    End(EndReason),
}

impl Out {
    /// An equal value.
    pub fn copy(&self, alloc: Global) -> Mem<Out>
        ensures { IfOk result (λ out. out ≡ self.now) }
    {
        Ok(match self {
            Out::Message(message) => Out::Message(message.copy(alloc)?),
            Out::End(reason) => Out::End(*reason),
        })
    }
}
