//! What a client says over a link.
ghost use Rattle.std.specs.Prelude.{◌≡◌, IfOk, IsUtf8};
ghost use Rattle.client_link.specs.Sayings.{saying_val};
ghost use Rattle.link_texts.specs.Joins.{join_val};
ghost use Rattle.rooms_val.specs.Json.{text_of};
ghost use Rattle.rooms_val.specs.View.{data_of};

use link_texts::Join;
use rooms_val::{Fields, Mem, Text, Val};
use std::alloc::Global;
use sync_msgs::ClientMessage;
use wire_msgs::Message;

/// Something that a client says.
#[derive(Drop)]
pub enum Saying {
    /// Which room it joins, and how: its first text.
    Join(Join),
    /// A message to the room.
    Message(ClientMessage),
}

impl Saying {
    /// The text of the saying, in UTF-8. Costs what is printed.
    pub fn print(&self, alloc: Global) -> Mem<Vec<u8>>
        ensures text { IfOk result (λ text. text.items ≡ text_of (saying_val self.now)) }
        ensures utf8 { IfOk result (λ text. IsUtf8 text.items) }
    {
        self.val(alloc)?.print(alloc)
    }

    // The value of the saying.
    fn val(&self, alloc: Global) -> Mem<Val>
        ensures { IfOk result (λ val. data_of val ≡ saying_val self.now) }
    {
        match self {
            Saying::Join(join) => val_of_join(alloc, *join),
            Saying::Message(message) => message.val(alloc),
        }
    }
}

// The value of a join.
fn val_of_join(alloc: Global, join: Join) -> Mem<Val>
    ensures { IfOk result (λ val. data_of val ≡ join_val join) }
{
    let fields = Fields::new(alloc).with(alloc, "readonly", Val::Bool(join.readonly))?;
    let fields = fields.with(alloc, "room", Val::Int(i64::from(join.room)))?;
    let fields = fields.with(alloc, "type", Val::Text(Text::of(alloc, "join")?))?;
    Ok(Val::Map(fields))
}
