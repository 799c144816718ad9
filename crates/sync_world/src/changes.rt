//! Whose document an event may change.
ghost use Rattle.std.specs.Prelude.{◌≡◌};
ghost use Rattle.sync_world.specs.Viewing.{changed_by};

use room_model::Event;

/// The client whose document an event may change, if there is one: that of an edit, an undo, a redo, a
/// bail, a paste or a delivery.
pub fn changed_by(event: &Event) -> Option<u64>
    ensures { result ≡ changed_by event.now }
{
    match event {
        Event::Edit { client, .. } => Some(*client),
        Event::Undo { client } => Some(*client),
        Event::Redo { client } => Some(*client),
        Event::Bail { client, .. } => Some(*client),
        Event::Paste { client, .. } => Some(*client),
        Event::Deliver { client } => Some(*client),
        _ => None,
    }
}
