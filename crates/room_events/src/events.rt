//! What happened in a room, as a list.
ghost use Rattle.std.specs.Prelude.{◌≡◌, IfOk};

use crate::room_event::RoomEvent;
use rooms_val::Mem;
use std::alloc::Global;
use std::marker::Model;

/// Events of a room, the oldest first. Contracts see a list.
#[derive(Drop)]
pub struct RoomEvents {
    items: Vec<RoomEvent>,
}

impl Model for RoomEvents {
    ghost use Rattle.std.specs.Prelude.{List};
    ghost use Rattle.std.specs.Coded.{codes};
    ghost use Rattle.rooms_val.specs.Code.{coded_data};
    ghost use Rattle.field_ops.specs.Wire.{coded_edit};
    ghost use Rattle.field_ops.specs.WireRecordOps.{coded_changes};
    ghost use Rattle.room_events.specs.declared.room_event.RoomEvent.{RoomEvent};

    ghost Value = { List RoomEvent };

    ghost coded = { Prim.hlevel (codes, coded_changes, coded_edit, coded_data) };

    ghost view = { λ events. events.items.items };
}

impl RoomEvents {
    /// These events.
    pub fn of(items: Vec<RoomEvent>) -> RoomEvents
        ensures { result ≡ items.items }
    {
        RoomEvents { items }
    }

    /// The events in order.
    pub fn as_slice(&self) -> &[RoomEvent]
        ensures { result.now ≡ self.now }
    {
        &self.items
    }

    /// The events in order, given back.
    pub fn into_vec(self) -> Vec<RoomEvent>
        ensures { result.items ≡ self }
    {
        self.items
    }

    /// Equal events. It costs what the messages in them cost to copy.
    ///
    /// # Errors
    ///
    /// Memory was refused.
    pub fn copy(&self, alloc: Global) -> Mem<RoomEvents>
        ensures { IfOk result (λ events. events ≡ self.now) }
    {
        let mut items = Vec::with_capacity(alloc, self.items.len())?;
        for event in &self.items {
            items.push(event.copy(alloc)?)?;
        }
        Ok(RoomEvents { items })
    }
}
