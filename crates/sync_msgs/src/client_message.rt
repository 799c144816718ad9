//! What a client sends.
ghost use Rattle.std.specs.Prelude.{◌≡◌, IfOk};

use field_ops::{Diff, RecordOp};
use migrate_seq::Serialized;
use rooms_val::{Mem, Text};
use std::alloc::Global;

/// A message of a client to its room.
#[derive(Drop)]
pub enum ClientMessage {
    /// It wants to be connected.
    Connect {
        /// A text by which the answer is known.
        connect_request_id: Text,
        /// The clock that the client has reached, -1 where it was never connected.
        last_server_clock: i64,
        /// The number of the protocol that it speaks; this project's is 2.
        protocol_version: i64,
        /// The newest migration of each sequence that it knows.
        schema: Serialized,
    },
    /// It has edited its document, or its presence has changed.
    Push {
        /// The number of the push among the client's, from 1 to 2^53 - 1; from 0 on the wire.
        client_clock: i64,
        /// What the edit does; a push without one is one with the empty diff.
        diff: Option<Diff>,
        /// What happens to the record by which others see the client: a put or a patch.
        presence: Option<RecordOp>,
    },
    /// It asks for a sign of life.
    Ping,
}

impl ClientMessage {
    /// An equal message.
    pub fn copy(&self, alloc: Global) -> Mem<ClientMessage>
        ensures { IfOk result (λ message. message ≡ self.now) }
    {
        Ok(match self {
            ClientMessage::Connect {
                connect_request_id,
                last_server_clock,
                protocol_version,
                schema,
            } => ClientMessage::Connect {
                connect_request_id: connect_request_id.copy(alloc)?,
                last_server_clock: *last_server_clock,
                protocol_version: *protocol_version,
                schema: schema.copy(alloc)?,
            },
            ClientMessage::Push {
                client_clock,
                diff,
                presence,
            } => ClientMessage::Push {
                client_clock: *client_clock,
                diff: copy_diff(alloc, diff)?,
                presence: copy_presence(alloc, presence)?,
            },
            ClientMessage::Ping => ClientMessage::Ping,
        })
    }
}

fn copy_diff(alloc: Global, diff: &Option<Diff>) -> Mem<Option<Diff>>
    ensures { IfOk result (λ copy. copy ≡ diff.now) }
{
    match diff {
        Some(diff) => Ok(Some(diff.copy(alloc)?)),
        None => Ok(None),
    }
}

fn copy_presence(alloc: Global, presence: &Option<RecordOp>) -> Mem<Option<RecordOp>>
    ensures { IfOk result (λ copy. copy ≡ presence.now) }
{
    match presence {
        Some(op) => Ok(Some(op.copy(alloc)?)),
        None => Ok(None),
    }
}
