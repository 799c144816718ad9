//! What a client does by itself.

use field_ops::Diff;
use rooms_val::{Text, Val};
use shape_tree::{Query, View};

/// What a client does by itself.
#[derive(Drop)]
pub enum Act {
    /// It edits its document.
    Edit(Diff),
    /// It sets the record by which others see it.
    Presence(Val),
    /// It makes a mark, to which it may go back.
    Mark(Text),
    /// It takes back its edits since the mark before them.
    Undo,
    /// It does again what it took back last.
    Redo,
    /// It takes its edits back to a mark, and forgets them.
    Bail(Text),
    /// It begins to watch a view of its document.
    Watch(View),
    /// It asks for the ids of the records of a type that meet a query.
    Query(Text, Query),
    /// It shows what it has.
    Show,
}
