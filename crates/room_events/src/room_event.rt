//! What happens in a room.
ghost use Rattle.std.specs.Prelude.{◌≡◌, IfOk};

use room_model::Handled;
use rooms_val::Mem;
use std::alloc::Global;
use sync_msgs::{ClientMessage, Out};

/// A call of a room: the number of its session, what was asked, and what the room replied.
#[derive(Drop)]
pub enum RoomEvent {
    /// The session has entered under this number; whether the room looks at no diff of its pushes.
    Enter(u64, bool),
    /// The session sent a message, and the room replied.
    Message(u64, ClientMessage, Handled),
    /// The session was given what was next for it, or there was nothing.
    Drain(u64, Option<Out>),
    /// The session has left.
    Leave(u64),
}

impl RoomEvent {
    /// An equal event. It costs what the messages in it cost to copy: values are shared.
    ///
    /// # Errors
    ///
    /// Memory was refused.
    pub fn copy(&self, alloc: Global) -> Mem<RoomEvent>
        ensures { IfOk result (λ event. event ≡ self.now) }
    {
        Ok(match self {
            RoomEvent::Enter(number, readonly) => RoomEvent::Enter(*number, *readonly),
            RoomEvent::Message(number, message, reply) => {
                RoomEvent::Message(*number, message.copy(alloc)?, *reply)
            }
            RoomEvent::Drain(number, out) => RoomEvent::Drain(*number, copy_out(alloc, out)?),
            RoomEvent::Leave(number) => RoomEvent::Leave(*number),
        })
    }
}

// What a session was given, copied.
fn copy_out(alloc: Global, out: &Option<Out>) -> Mem<Option<Out>>
    ensures { IfOk result (λ copy. copy ≡ out.now) }
{
    match out {
        Some(out) => Ok(Some(out.copy(alloc)?)),
        None => Ok(None),
    }
}
