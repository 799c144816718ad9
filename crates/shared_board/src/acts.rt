//! What clients of a board do.
ghost use Rattle.std.specs.Prelude.{◌≡◌};
ghost use Rattle.room_model.specs.Schemas.{WorldSchemas};
ghost use Rattle.room_model.specs.Worlds as model;
ghost use Rattle.room_model.specs.declared.event.Event.TheVariants as event;
ghost use Rattle.side_effects.specs.declared.fault.EditFault.{EditFault};
ghost use Rattle.sync_world.specs.Playing.{IsPlayed};
ghost use Rattle.shared_board.specs.Apart.{IsApart};
ghost use Rattle.shared_board.specs.Calls.{Happens, HappensIf, Edits, done_in, is_done};
ghost use Rattle.shared_board.specs.Standing.{Stands};
ghost use Rattle.shared_board.specs.Texts.{diff_of_text};

use crate::board::{Board, ClientId};
use crate::fault::BoardFault;
use crate::texts::diff_of;
use field_ops::Diff;
use room_model::{Event, IdList, OutLine};
use rooms_val::{Text, Val};

impl Board {
    /// A client makes the edit that a text says, a D of `docs/FORMATS.md`. The edit is completed first, and what the client
    /// shows has it at once. It is pending until the room answered it. It costs what the edit names.
    ///
    /// # Errors
    /// `NotAnEdit` exactly where the text is no diff; `NoSuchClient`; `Edit` where the edit is refused, with the cause; or
    /// `OutOfMemory`.
    pub fn edit(&mut self, client: ClientId, text: &str) -> Result<(), BoardFault>
        ensures { (schemas : WorldSchemas EditFault) (state : model.World)
            → Stands schemas state self.old
            → Edits schemas state client.number (diff_of_text text.now) result self.new }
    {
        match diff_of(self.alloc, text) {
            Ok(diff) => self.change(client, diff),
            Err(fault) => Err(fault),
        }
    }

    /// The same where the edit is at hand as a diff.
    ///
    /// # Errors
    /// `NoSuchClient`, `Edit` or `OutOfMemory`, as of `edit`.
    pub fn change(&mut self, client: ClientId, diff: Diff) -> Result<(), BoardFault>
        ensures { (schemas : WorldSchemas EditFault) (state : model.World)
            → Stands schemas state self.old
            → Happens schemas state (event.Edit client.number diff) result self.new }
    {
        self.act(Event::Edit {
            client: client.number,
            diff,
        })
    }

    /// A client makes a mark, to which an undo or a bail goes back.
    ///
    /// # Errors
    /// `NoSuchClient` or `OutOfMemory`.
    pub fn mark(&mut self, client: ClientId, name: &str) -> Result<(), BoardFault>
        ensures { (schemas : WorldSchemas EditFault) (state : model.World)
            → Stands schemas state self.old
            → Happens schemas state (event.Mark client.number name.now) result self.new }
    {
        match Text::of(self.alloc, name) {
            Ok(name) => self.act(Event::Mark {
                client: client.number,
                name,
            }),
            Err(_) => Err(BoardFault::OutOfMemory),
        }
    }

    /// A client takes its own edits back to its last mark, or all where it has none; what others did since stays. Returns
    /// whether there was an edit to take back. It costs what these edits name.
    ///
    /// # Errors
    /// `NoSuchClient` or `OutOfMemory`.
    pub fn undo(&mut self, client: ClientId) -> Result<bool, BoardFault>
        ensures { (schemas : WorldSchemas EditFault) (state : model.World)
            → Stands schemas state self.old
            → HappensIf schemas state (event.Undo client.number) result self.new }
    {
        self.act_if(Event::Undo {
            client: client.number,
        })
    }

    /// A client does again what its last undo took back. Returns whether there was something to do again.
    ///
    /// # Errors
    /// `NoSuchClient` or `OutOfMemory`.
    pub fn redo(&mut self, client: ClientId) -> Result<bool, BoardFault>
        ensures { (schemas : WorldSchemas EditFault) (state : model.World)
            → Stands schemas state self.old
            → HappensIf schemas state (event.Redo client.number) result self.new }
    {
        self.act_if(Event::Redo {
            client: client.number,
        })
    }

    /// A client takes its own edits back to its last mark of a name, and forgets them and the mark.
    ///
    /// # Errors
    /// `NoSuchClient`, `NoMark` exactly where the client has no mark of the name, or `OutOfMemory`.
    pub fn bail(&mut self, client: ClientId, name: &str) -> Result<(), BoardFault>
        ensures { (schemas : WorldSchemas EditFault) (state : model.World)
            → Stands schemas state self.old
            → Happens schemas state (event.Bail client.number name.now) result self.new }
    {
        match Text::of(self.alloc, name) {
            Ok(name) => self.act(Event::Bail {
                client: client.number,
                name,
            }),
            Err(_) => Err(BoardFault::OutOfMemory),
        }
    }

    /// A client sets the record by which others see it, with its cursor.
    ///
    /// # Errors
    /// `NoSuchClient`, `Edit` where the record is refused, with the cause, or `OutOfMemory`.
    pub fn set_presence(&mut self, client: ClientId, presence: Val) -> Result<(), BoardFault>
        ensures { (schemas : WorldSchemas EditFault) (state : model.World)
            → Stands schemas state self.old
            → Happens schemas state (event.Presence client.number presence) result self.new }
    {
        self.act(Event::Presence {
            client: client.number,
            stored: presence,
        })
    }

    /// A client copies shapes that it shows, with all that hangs under them. It costs a copy of the document.
    ///
    /// # Errors
    /// `NoSuchClient`, `Clip` where there is no copy of these shapes, or `OutOfMemory`.
    pub fn copy(&mut self, client: ClientId, ids: IdList) -> Result<(), BoardFault>
        ensures { (schemas : WorldSchemas EditFault) (state : model.World)
            → Stands schemas state self.old
            → Happens schemas state (event.Copy client.number ids) result self.new }
    {
        self.act(Event::Copy {
            client: client.number,
            ids,
        })
    }

    /// A client loses its connection: its edits are pending until it is connected again. The room isn't told, so that the
    /// connection that was lost still counts among those in the room.
    ///
    /// # Errors
    /// `NoSuchClient`, `NotConnected` exactly where the client has no connection, or `OutOfMemory`.
    pub fn cut(&mut self, client: ClientId) -> Result<(), BoardFault>
        ensures { (schemas : WorldSchemas EditFault) (state : model.World)
            → Stands schemas state self.old
            → Happens schemas state (event.Cut client.number) result self.new }
    {
        self.act(Event::Cut {
            client: client.number,
        })
    }

    // An event happens by which nobody connects.
    fn act(&mut self, event: Event) -> Result<(), BoardFault>
        requires played { IsPlayed event }
        requires apart { IsApart event }
        ensures { (schemas : WorldSchemas EditFault) (state : model.World)
            → Stands schemas state self.old
            → Happens schemas state event result self.new }
    {
        match self.happen(event) {
            Ok(_) => Ok(()),
            Err(refusal) => Err(refusal),
        }
    }

    // The same. Returns whether something was done.
    fn act_if(&mut self, event: Event) -> Result<bool, BoardFault>
        requires played { IsPlayed event }
        requires apart { IsApart event }
        ensures { (schemas : WorldSchemas EditFault) (state : model.World)
            → Stands schemas state self.old
            → HappensIf schemas state event result self.new }
    {
        match self.happen(event) {
            Ok(lines) => Ok(done_in(&lines)),
            Err(fault) => Err(fault),
        }
    }
}

// Whether the first line says that something was done.
fn done_in(lines: &[OutLine]) -> bool
    ensures { result ≡ done_in lines.now }
{
    match lines.split_first() {
        Some((line, _)) => is_done(line),
        None => false,
    }
}

// Whether a line says so.
fn is_done(line: &OutLine) -> bool
    ensures { result ≡ is_done line.now }
{
    match line {
        OutLine::Undo { done, .. } => *done,
        OutLine::Redo { done, .. } => *done,
        _ => false,
    }
}
