//! The reading of lines, each without its newline.
ghost use Rattle.std.specs.Prelude.{◌≡◌, IfOk, IfErr, codes, option_map, option_and_then};
ghost use Rattle.rooms_val.specs.Maps.{value_at};
ghost use Rattle.rooms_val.specs.View.{data_of};
ghost use Rattle.rec_format.specs.Events.{header_val};
ghost use Rattle.tl_tables.specs.Tables.{IsVersion};
ghost use Rattle.rec_format.specs.Lines.{IsOf, IsHeader, IsEvent, IsNoHeader, text_in};
ghost use Rattle.rec_format.specs.Lines.{RefusesBytes, RefusesHeader, RefusesLine, RefusesVal};
ghost use Rattle.rec_format.specs.Recorded.{recorded_val, IsProperRecorded};

use crate::fault::{IllFormed, LineFault};
use crate::recorded::RecordedEvent;
use crate::rows::{event_in, header_of};
use crate::verb::Verb;
use room_model::Header;
use rooms_val::{Fields, Val};
use std::alloc::Global;

/// How many bytes a line may have without its newline.
pub const LONGEST_LINE: usize = 1_048_576;

/// The header that a line stands for: `{"recording":1,"version":V}` with V a version of the tables.
/// It costs the line.
///
/// # Errors
///
/// The first of these that applies: `LineTooLong` over 1,048,576 bytes; `Val` where the line is no
/// value; `NoHeader` where the value is that of no header. `OutOfMemory` may come in place of any.
pub fn read_header(alloc: Global, line: &[u8]) -> Result<Header, LineFault>
    ensures found { IfOk result (IsHeader line.now) }
    ensures refused { IfErr result (RefusesHeader line.now) }
{
    let val = read_val(alloc, line)?;
    match header_in(&val) {
        Ok(header) => Ok(header),
        Err(IllFormed) => Err(LineFault::NoHeader),
    }
}

/// The event, watch or query that a line stands for. It costs the line.
///
/// # Errors
///
/// The first of these that applies: `LineTooLong` over 1,048,576 bytes; `Val` where the line is no
/// value; `UnknownEvent` where the value has under `do` a text that is no event's word; `Field`
/// where the value is that of no event. Never `NoHeader`. `OutOfMemory` may come in place of any.
pub fn read_line(alloc: Global, line: &[u8]) -> Result<RecordedEvent, LineFault>
    ensures found { IfOk result (IsEvent line.now) }
    ensures refused { IfErr result (RefusesLine line.now) }
{
    let val = read_val(alloc, line)?;
    Ok(event_of(alloc, &val)?)
}

// The value of a line.
fn read_val(alloc: Global, line: &[u8]) -> Result<Val, LineFault>
    ensures found { IfOk result (λ v. IsOf line.now (data_of v)) }
    ensures refused { IfErr result (RefusesBytes line.now) }
{
    if line.len() > LONGEST_LINE {
        return Err(LineFault::LineTooLong);
    }
    Ok(Val::read(alloc, line)?)
}

// The header of a value. Refused where it is that of none.
fn header_in(val: &Val) -> Result<Header, IllFormed>
    ensures found { IfOk result (λ h. (data_of val.now ≡ header_val h) × IsVersion h.version) }
    ensures only { IfErr result (λ _. IsNoHeader (data_of val.now)) }
{
    let Val::Map(fields) = val else {
        return Err(IllFormed);
    };
    Ok(header_of(fields.as_slice())?)
}

// The event of a value.
fn event_of(alloc: Global, val: &Val) -> Result<RecordedEvent, LineFault>
    ensures found { IfOk result (λ e.
        (data_of val.now ≡ recorded_val e) × IsProperRecorded e) }
    ensures refused { IfErr result (RefusesVal (data_of val.now)) }
{
    let Val::Map(fields) = val else {
        return Err(LineFault::Field);
    };
    let Some(word) = word_in(fields) else {
        return Err(LineFault::Field);
    };
    let Some(verb) = Verb::of(word) else {
        return Err(LineFault::UnknownEvent);
    };
    Ok(event_in(alloc, verb, fields.as_slice())?)
}

// The text that says what to do.
fn word_in(fields: &Fields) -> Option<&str>
    ensures { option_map (λ word. word.now) result
        ≡ option_and_then text_in (value_at fields.now (codes "do")) }
{
    match fields.get("do")? {
        Val::Text(text) => Some(text.as_str()),
        _ => None,
    }
}
