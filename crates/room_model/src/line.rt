//! What a recording prints.
use rooms_val::{Text, Val};
use sync_msgs::{ClientMessage, EndReason, ServerMessage};

/// A printed line.
#[derive(Drop)]
pub enum OutLine {
    /// Whether a client had edits to take back.
    Undo {
        client: u64,
        done: bool,
    },
    /// Whether a client had edits to do again.
    Redo {
        client: u64,
        done: bool,
    },
    /// A client was told that its session is ended.
    Ended {
        client: u64,
        reason: EndReason,
    },
    /// What a client shows: the clock that it has reached, -1 before the first connection; its document, and the presence of
    /// others, each as a map by id; and how many edits and presences are pending.
    Show {
        client: u64,
        clock: i64,
        doc: Val,
        others: Val,
        owed: u64,
    },
    /// The room at the end: its clock, and its document and presence, each as a map by id.
    End {
        clock: i64,
        doc: Val,
        presence: Val,
    },
    /// In a trace: the message that was given to the room.
    From {
        session: u64,
        message: ClientMessage,
    },
    /// In a trace: the message that the room gave out.
    To {
        session: u64,
        message: ServerMessage,
    },
    /// In a trace: the room gave out that the session is ended.
    Ending {
        session: u64,
        reason: EndReason,
    },
    /// A line of the recording that is refused: its number, from 1, and why.
    Fault {
        at: u64,
        text: Text,
    },
}
