//! What a recording says.
use crate::id_list::IdList;
use field_ops::Diff;
use rooms_val::{Text, Val};

/// The first line of a recording.
#[derive(Clone, Copy, Debug, PartialEq, Eq)]
pub struct Header {
    /// The version of the room's schema, from 1.
    pub version: u32,
}

/// What happens in a recording. Clients and sessions are numbered from 0 as they are made.
#[derive(Drop)]
pub enum Event {
    /// A client joins, whose schema has this version.
    Client {
        version: u32,
    },
    /// A client asks to be connected, by a new session, of which the room looks at no diff if it is read-only.
    Connect {
        client: u64,
        readonly: bool,
    },
    /// A client edits its document.
    Edit {
        client: u64,
        diff: Diff,
    },
    /// A client sets the record by which others see it.
    Presence {
        client: u64,
        stored: Val,
    },
    /// A client makes a mark, to which it may go back.
    Mark {
        client: u64,
        name: Text,
    },
    /// A client takes back its edits since the mark before them.
    Undo {
        client: u64,
    },
    /// A client does again what it took back last.
    Redo {
        client: u64,
    },
    /// A client takes its edits back to a mark, and forgets them.
    Bail {
        client: u64,
        name: Text,
    },
    /// A client copies shapes of its document with all that hangs under them.
    Copy {
        client: u64,
        ids: IdList,
    },
    /// A client pastes what it copied last, under a page or shape, as an edit. The new ids begin with the prefix; the shapes
    /// whose parents weren't copied are moved by `dx` and `dy`.
    Paste {
        client: u64,
        dx: i64,
        dy: i64,
        parent: Text,
        prefix: Text,
    },
    /// The first message that is in flight from a session is given to the room.
    Handle {
        session: u64,
    },
    /// The room gives out what is next for a session.
    Send {
        session: u64,
    },
    /// A client is given the first that is in flight to its session.
    Deliver {
        client: u64,
    },
    /// A client learns that its connection is lost; the room doesn't.
    Cut {
        client: u64,
    },
    /// The room learns that a session is lost; its client doesn't.
    Lose {
        session: u64,
    },
    /// A client shows what it has.
    Show {
        client: u64,
    },
    /// The recording ends.
    End,
}
