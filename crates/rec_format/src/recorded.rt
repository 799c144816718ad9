//! What a recording says, watches and queries among it.
use room_model::Event;
use rooms_val::Text;
use shape_tree::{Query, View};

/// What a line of a recording says.
#[derive(Drop)]
pub enum RecordedEvent {
    /// Something happens in the world.
    World(Event),
    /// A client begins to watch a view of its document.
    Watch {
        client: u64,
        view: View,
    },
    /// A client asks for the ids of the records of a type that meet a query.
    Query {
        client: u64,
        type_name: Text,
        where_: Query,
    },
}
