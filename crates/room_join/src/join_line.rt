//! What a client prints.
ghost use Rattle.std.specs.Prelude.{◌≡◌, true, IfOk};
ghost use Rattle.rooms_val.specs.Data.{boolean};
ghost use Rattle.rooms_val.specs.Maps.{with_key};
ghost use Rattle.room_join.specs.Lines.{client_alone, line_fields, end_fields, fields_text, written_line};

use rec_format::fields::number;
use rec_format::{PrintedLine, print_line};
use rooms_val::{Fields, Mem, Val};
use std::alloc::Global;

/// A line that a client prints.
#[derive(Drop)]
pub enum JoinLine {
    /// A line that recordings print too.
    Printed(PrintedLine),
    /// Its link has ended.
    Lost,
    /// Nothing came for so long that a wait was over.
    Idle,
    /// The script has ended.
    End {
        /// The clock of the room that was reached, -1 before the first.
        clock: i64,
        /// How many works are pending.
        owed: u64,
    },
}

impl JoinLine {
    /// The text of the line, with its newline. It costs what is printed.
    pub fn print(&self, alloc: Global) -> Mem<Vec<u8>>
        ensures { IfOk result (λ text. text.items
            ≡ written_line (fields_text (line_fields self.now))) }
    {
        let mut text = self.text(alloc)?;
        text.push(b'\n')?;
        Ok(text)
    }

    // The text of the line.
    fn text(&self, alloc: Global) -> Mem<Vec<u8>>
        ensures { IfOk result (λ text. text.items ≡ fields_text (line_fields self.now)) }
    {
        match self {
            JoinLine::Printed(line) => print_line(alloc, line),
            JoinLine::Lost => Val::Map(client_fields(alloc, "lost")?).print(alloc),
            JoinLine::Idle => Val::Map(client_fields(alloc, "idle")?).print(alloc),
            JoinLine::End { clock, owed } => Val::Map(end_fields(alloc, *clock, *owed)?).print(
                alloc,
            ),
        }
    }
}

// The fields of a line that says one thing of the client, which has number 0.
fn client_fields(alloc: Global, what: &str) -> Mem<Fields>
    ensures { IfOk result (λ fields. fields ≡ with_key client_alone what.now (boolean true)) }
{
    let fields = Fields::new(alloc).with(alloc, "client", Val::Int(0))?;
    fields.with(alloc, what, Val::Bool(true))
}

// The fields of the line at the end.
fn end_fields(alloc: Global, clock: i64, owed: u64) -> Mem<Fields>
    ensures { IfOk result (λ fields. fields ≡ end_fields clock owed) }
{
    let fields = Fields::new(alloc).with(alloc, "clock", Val::Int(clock))?;
    let fields = fields.with(alloc, "end", Val::Bool(true))?;
    fields.with(alloc, "owed", number(owed))
}
