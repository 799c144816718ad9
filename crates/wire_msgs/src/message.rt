//! The value and the text of each message.
ghost use Rattle.std.specs.Prelude.{◌≡◌, IfOk, IsUtf8};
ghost use Rattle.rooms_val.specs.Json.{text_of};
ghost use Rattle.rooms_val.specs.View.{data_of};
ghost use Rattle.wire_msgs.specs.Messages.{client_val, IsProperClient};
ghost use Rattle.wire_msgs.specs.Messages.{server_val, IsProperServer};
ghost use Rattle.wire_msgs.specs.Printing.{IsReadable};
ghost use Rattle.wire_msgs.specs.Readings.{IsClient, IsServer};
ghost use Rattle.wire_msgs.specs.declared.read.TheConstants.{DEEPEST_FROM_CLIENT};
ghost use Rattle.rooms_val.specs.Json.{deepest};

use crate::print::{client_fields, server_fields};
use rooms_val::{Mem, Val};
use std::alloc::Global;
use sync_msgs::{ClientMessage, ServerMessage};

/// A message of a client or a room.
pub trait Message {
    /// The one value that stands for the message. It costs what it holds.
    fn val(&self, alloc: Global) -> Mem<Val>;

    /// The text of that value in UTF-8, in the compact form. It costs what is printed.
    fn print(&self, alloc: Global) -> Mem<Vec<u8>>;
}

impl Message for ClientMessage {
    fn val(&self, alloc: Global) -> Mem<Val>
        ensures { IfOk result (λ v. data_of v ≡ client_val self.now) }
    {
        Ok(Val::Map(client_fields(alloc, self)?))
    }

    fn print(&self, alloc: Global) -> Mem<Vec<u8>>
        ensures text { IfOk result (λ text. text.items ≡ text_of (client_val self.now)) }
        ensures utf8 { IfOk result (λ text. IsUtf8 text.items) }
        // It is read as the message, where its fields are in their ranges, its numbers within
        // 2^53 - 1 and its depth at most 56.
        ensures reads_back { IfOk result (λ text. IsProperClient self.now
            → IsReadable DEEPEST_FROM_CLIENT (client_val self.now) → IsClient text.items self.now) }
    {
        self.val(alloc)?.print(alloc)
    }
}

impl Message for ServerMessage {
    fn val(&self, alloc: Global) -> Mem<Val>
        ensures { IfOk result (λ v. data_of v ≡ server_val self.now) }
    {
        Ok(Val::Map(server_fields(alloc, self)?))
    }

    fn print(&self, alloc: Global) -> Mem<Vec<u8>>
        ensures text { IfOk result (λ text. text.items ≡ text_of (server_val self.now)) }
        ensures utf8 { IfOk result (λ text. IsUtf8 text.items) }
        // It is read as the message, where its fields are in their ranges, its numbers within
        // 2^53 - 1 and its depth at most 64.
        ensures reads_back { IfOk result (λ text. IsProperServer self.now
            → IsReadable deepest (server_val self.now) → IsServer text.items self.now) }
    {
        self.val(alloc)?.print(alloc)
    }
}
