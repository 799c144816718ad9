//! The printing of lines, each without a newline.
ghost use Rattle.std.specs.Prelude.{◌≡◌, map, IfOk};
ghost use Rattle.rooms_val.specs.Data.{text};
ghost use Rattle.rooms_val.specs.View.{data_of};
ghost use Rattle.rec_format.specs.Outs.{reason_text, line_fields, line_text};
ghost use Rattle.rec_format.specs.Outs.{undo_fields, redo_fields, ended_fields, fault_fields};
ghost use Rattle.rec_format.specs.Outs.{clock_and_doc, show_fields, end_fields, ending_fields};
ghost use Rattle.rec_format.specs.Outs.{from_fields, to_fields};
ghost use Rattle.rec_format.specs.Printed.{printed_fields, printed_text, ids_fields, told_fields};

use crate::fields::number;
use crate::printed::PrintedLine;
use room_model::OutLine;
use rooms_val::{Fields, Mem, Text, Val, Vals};
use std::alloc::Global;
use sync_msgs::{ClientMessage, EndReason, ServerMessage};
use wire_msgs::Message;

/// The text of a line. It costs what is printed.
///
/// A number from 2^63 on is printed as 2^63 - 1.
pub fn print_out(alloc: Global, line: &OutLine) -> Mem<Vec<u8>>
    ensures { IfOk result (λ printed. printed.items ≡ line_text line.now) }
{
    let fields = fields_of(alloc, line)?;
    Ok(Val::Map(fields).print(alloc)?)
}

/// The text of a line of the world, of a query or of a watch. It costs what is printed.
///
/// A number from 2^63 on is printed as 2^63 - 1.
pub fn print_line(alloc: Global, line: &PrintedLine) -> Mem<Vec<u8>>
    ensures { IfOk result (λ printed. printed.items ≡ printed_text line.now) }
{
    let fields = printed_fields(alloc, line)?;
    Ok(Val::Map(fields).print(alloc)?)
}

// The fields of a line of the world, of a query or of a watch.
fn printed_fields(alloc: Global, line: &PrintedLine) -> Mem<Fields>
    ensures { IfOk result (λ fields. fields ≡ printed_fields line.now) }
{
    match line {
        PrintedLine::World(line) => fields_of(alloc, line),
        PrintedLine::Ids { client, ids } => ids_fields(alloc, *client, ids.as_slice()),
        PrintedLine::Told {
            client,
            told,
            watch,
        } => told_fields(alloc, *client, told, *watch),
    }
}

// The fields of a line.
fn fields_of(alloc: Global, line: &OutLine) -> Mem<Fields>
    ensures { IfOk result (λ fields. fields ≡ line_fields line.now) }
{
    match line {
        OutLine::Undo { client, done } => undo_fields(alloc, *client, *done),
        OutLine::Redo { client, done } => redo_fields(alloc, *client, *done),
        OutLine::Ended { client, reason } => ended_fields(alloc, *client, *reason),
        OutLine::Show {
            client,
            clock,
            doc,
            others,
            owed,
        } => show_fields(alloc, *client, *clock, doc, others, *owed),
        OutLine::End {
            clock,
            doc,
            presence,
        } => end_fields(alloc, *clock, doc, presence),
        OutLine::From { session, message } => from_fields(alloc, *session, message),
        OutLine::To { session, message } => to_fields(alloc, *session, message),
        OutLine::Ending { session, reason } => ending_fields(alloc, *session, *reason),
        OutLine::Fault { at, text } => fault_fields(alloc, *at, text),
    }
}

fn undo_fields(alloc: Global, client: u64, done: bool) -> Mem<Fields>
    ensures { IfOk result (λ fields. fields ≡ undo_fields client done) }
{
    let fields = Fields::new(alloc).with(alloc, "client", number(client))?;
    fields.with(alloc, "undo", Val::Bool(done))
}

fn redo_fields(alloc: Global, client: u64, done: bool) -> Mem<Fields>
    ensures { IfOk result (λ fields. fields ≡ redo_fields client done) }
{
    let fields = Fields::new(alloc).with(alloc, "client", number(client))?;
    fields.with(alloc, "redo", Val::Bool(done))
}

fn ended_fields(alloc: Global, client: u64, reason: EndReason) -> Mem<Fields>
    ensures { IfOk result (λ fields. fields ≡ ended_fields client reason) }
{
    let fields = Fields::new(alloc).with(alloc, "client", number(client))?;
    fields.with(alloc, "ended", reason_val(alloc, reason)?)
}

fn show_fields(
    alloc: Global,
    client: u64,
    clock: i64,
    doc: &Val,
    others: &Val,
    owed: u64,
) -> Mem<Fields>
    ensures { IfOk result (λ fields.
        fields ≡ show_fields client clock (data_of doc.now) (data_of others.now) owed) }
{
    let fields = clock_and_doc(alloc, Val::Int(clock), doc)?;
    let fields = fields.with(alloc, "others", others.copy(alloc)?)?;
    let fields = fields.with(alloc, "owed", number(owed))?;
    Ok(fields.with(alloc, "show", number(client))?)
}

fn end_fields(alloc: Global, clock: i64, doc: &Val, presence: &Val) -> Mem<Fields>
    ensures { IfOk result (λ fields.
        fields ≡ end_fields clock (data_of doc.now) (data_of presence.now)) }
{
    let fields = clock_and_doc(alloc, Val::Int(clock), doc)?;
    let fields = fields.with(alloc, "end", Val::Bool(true))?;
    fields.with(alloc, "presence", presence.copy(alloc)?)
}

// The fields that a client and the room show alike.
fn clock_and_doc(alloc: Global, clock: Val, doc: &Val) -> Mem<Fields>
    ensures { IfOk result (λ fields. fields ≡ clock_and_doc (data_of clock) (data_of doc.now)) }
{
    let fields = Fields::new(alloc).with(alloc, "clock", clock)?;
    fields.with(alloc, "doc", doc.copy(alloc)?)
}

fn from_fields(alloc: Global, session: u64, message: &ClientMessage) -> Mem<Fields>
    ensures { IfOk result (λ fields. fields ≡ from_fields session message.now) }
{
    let fields = Fields::new(alloc).with(alloc, "from", number(session))?;
    fields.with(alloc, "message", message.val(alloc)?)
}

fn to_fields(alloc: Global, session: u64, message: &ServerMessage) -> Mem<Fields>
    ensures { IfOk result (λ fields. fields ≡ to_fields session message.now) }
{
    let fields = Fields::new(alloc).with(alloc, "message", message.val(alloc)?)?;
    fields.with(alloc, "to", number(session))
}

fn ending_fields(alloc: Global, session: u64, reason: EndReason) -> Mem<Fields>
    ensures { IfOk result (λ fields. fields ≡ ending_fields session reason) }
{
    let fields = Fields::new(alloc).with(alloc, "end", reason_val(alloc, reason)?)?;
    fields.with(alloc, "to", number(session))
}

fn fault_fields(alloc: Global, at: u64, name: &Text) -> Mem<Fields>
    ensures { IfOk result (λ fields. fields ≡ fault_fields at name.now) }
{
    let fields = Fields::new(alloc).with(alloc, "at", number(at))?;
    fields.with(alloc, "fault", Val::Text(name.copy(alloc)?))
}

fn ids_fields(alloc: Global, client: u64, ids: &[Text]) -> Mem<Fields>
    ensures { IfOk result (λ fields. fields ≡ ids_fields client ids.now) }
{
    let fields = Fields::new(alloc).with(alloc, "client", number(client))?;
    let fields = fields.with(alloc, "ids", Val::List(ids_vals(alloc, ids)?))?;
    fields.with(alloc, "query", Val::Bool(true))
}

// Each id as a value.
pub(crate) fn ids_vals(alloc: Global, ids: &[Text]) -> Mem<Vals>
    ensures { IfOk result (λ vals. vals ≡ map text ids.now) }
{
    let mut vals = Vals::new(alloc);
    'ids: for id in ids {
        vals.push(Val::Text(id.copy(alloc)?))?;
    }
    Ok(vals)
}

fn told_fields(alloc: Global, client: u64, told: &Val, watch: u32) -> Mem<Fields>
    ensures { IfOk result (λ fields. fields ≡ told_fields client (data_of told.now) watch) }
{
    let fields = Fields::new(alloc).with(alloc, "client", number(client))?;
    let fields = fields.with(alloc, "told", told.copy(alloc)?)?;
    fields.with(alloc, "watch", Val::Int(i64::from(watch)))
}

// The name of a reason, as a value.
fn reason_val(alloc: Global, reason: EndReason) -> Mem<Val>
    ensures { IfOk result (λ v. data_of v ≡ text (reason_text reason)) }
{
    Ok(Val::Text(Text::of(alloc, reason_text(reason))?))
}

/// The name of a reason. It takes no memory.
pub fn reason_text(reason: EndReason) -> &'static str
    ensures { result.now ≡ reason_text reason }
{
    match reason {
        EndReason::ClientTooOld => "CLIENT_TOO_OLD",
        EndReason::ServerTooOld => "SERVER_TOO_OLD",
        EndReason::InvalidRecord => "INVALID_RECORD",
        EndReason::RoomFull => "ROOM_FULL",
        EndReason::Slow => "SLOW",
    }
}
