//! What a room sends.
ghost use Rattle.std.specs.Prelude.{◌≡◌, IfOk};

use crate::events::Events;
use field_ops::Diff;
use migrate_seq::Serialized;
use rooms_val::{Mem, Text};
use std::alloc::Global;

/// What a client keeps of its base where its answer comes.
#[derive(Clone, Copy, Debug, PartialEq, Eq)]
pub enum Hydration {
    /// Nothing: the diff puts the whole document and the presence of others.
    WipeAll,
    /// Its document alone: the diff has what changed in it since, and puts the presence of others.
    WipePresence,
}

/// A message of a room to a client.
#[derive(Drop)]
pub enum ServerMessage {
    /// The answer to a client that wants to be connected.
    Connect {
        /// What the client keeps of its base before the diff.
        hydration_type: Hydration,
        /// The text that the client gave.
        connect_request_id: Text,
        /// The number of the protocol, which is 2.
        protocol_version: i64,
        /// The room's own schema.
        schema: Serialized,
        /// What brings the client's base to the room's clock.
        diff: Diff,
        /// The room's clock, from 0.
        server_clock: i64,
        /// Whether the room looks at no diff of the session.
        is_readonly: bool,
    },
    /// What happened since the last message.
    Data {
        /// Events in the order of their clocks.
        events: Events,
    },
    /// The answer to a ping.
    Pong,
}

impl ServerMessage {
    /// An equal message.
    pub fn copy(&self, alloc: Global) -> Mem<ServerMessage>
        ensures { IfOk result (λ message. message ≡ self.now) }
    {
        Ok(match self {
            ServerMessage::Connect {
                hydration_type,
                connect_request_id,
                protocol_version,
                schema,
                diff,
                server_clock,
                is_readonly,
            } => ServerMessage::Connect {
                hydration_type: *hydration_type,
                connect_request_id: connect_request_id.copy(alloc)?,
                protocol_version: *protocol_version,
                schema: schema.copy(alloc)?,
                diff: diff.copy(alloc)?,
                server_clock: *server_clock,
                is_readonly: *is_readonly,
            },
            ServerMessage::Data { events } => ServerMessage::Data {
                events: events.copy(alloc)?,
            },
            ServerMessage::Pong => ServerMessage::Pong,
        })
    }
}
