//! What passes know, and what is in a room's slot, as contracts see it. No value of these types is made: the views are those
//! of a table's seats.
use room_events::RoomEvent;
use std::collections::LinkedList;
use std::snapshot::Snapshot;
use sync_room::Room;

/// A running room's history, and the room that was opened.
pub struct Story {
    /// The room as it was opened.
    pub opening: Snapshot<Room>,
    /// What happened in it since, the oldest first.
    pub pen: LinkedList<RoomEvent>,
}

/// What a pass knew that was handed in: the part of the history that it had seen, and the events that it made.
pub struct Note {
    /// A beginning of the history.
    pub seen: LinkedList<RoomEvent>,
    /// The events that the pass made, in order.
    pub mine: LinkedList<RoomEvent>,
}

/// What a pass knows of its room.
pub struct View {
    /// The room as it was opened; none once the pass was handed in.
    pub opening: Option<Snapshot<Room>>,
    /// Whether it has the turn.
    pub turn: bool,
    /// The part of the history that it has seen, a beginning.
    pub seen: LinkedList<RoomEvent>,
    /// The events that it made, in order: all those of its session.
    pub mine: LinkedList<RoomEvent>,
    /// What those passes knew that were handed to it.
    pub notes: LinkedList<Note>,
}
