//! What a line of a script says.
ghost use Rattle.std.specs.Prelude.{◌≡◌, codes, option_and_then, option_map, IfOk};
ghost use Rattle.rec_format.specs.Lines.{IsOf, RefusesLine, text_in};
ghost use Rattle.rooms_val.specs.Data.{Data};
ghost use Rattle.rooms_val.specs.Maps.{value_at};
ghost use Rattle.rooms_val.specs.View.{data_of};
ghost use Rattle.join_job.specs.Steps.{step_of, is_scripted, IsUnscripted, IsUnscriptedWord, RefusesStep};
ghost use Rattle.join_job.specs.Turning.{IsRead, TellsWhether};

use fault_texts::line_fault_text;
use rec_format::{Event, LineFault, RecordedEvent, Verb, read_line};
use room_join::Act;
use rooms_val::{Fields, Mem, OutOfMemory, Text, Val, ValFault};
use std::alloc::Global;

/// What a client is to do.
#[derive(Drop)]
pub enum Step {
    /// It does something by itself.
    Act(Act),
    /// It waits for a message, and takes it.
    Deliver,
    /// The script ends.
    End,
}

/// What a line behind the header says that client 0 is to do, or the text of why it says nothing. It costs the line; a line
/// with a wrong field is read once more.
pub(crate) fn read_step(alloc: Global, line: &[u8]) -> Mem<Result<Step, Text>>
    ensures { IfOk result (IsRead line.now) }
{
    let event = match read_line(alloc, line) {
        Ok(event) => event,
        Err(fault) => {
            let fault = step_fault(alloc, line, fault)?;
            return Ok(Err(line_fault_text(alloc, fault)?));
        }
    };
    let Some((client, step)) = step_of(event) else {
        return Ok(Err(Text::of(alloc, "UnknownEvent")?));
    };
    if client != 0 {
        return Ok(Err(Text::of(alloc, "NoSuchClient")?));
    }
    Ok(Ok(step))
}

// What an event of scripts lets a client do, and the client's number.
fn step_of(event: RecordedEvent) -> Option<(u64, Step)>
    ensures { result ≡ step_of event }
{
    let (client, act) = match event {
        RecordedEvent::World(Event::Edit { client, diff }) => (client, Act::Edit(diff)),
        RecordedEvent::World(Event::Presence { client, stored }) => (client, Act::Presence(stored)),
        RecordedEvent::World(Event::Mark { client, name }) => (client, Act::Mark(name)),
        RecordedEvent::World(Event::Undo { client }) => (client, Act::Undo),
        RecordedEvent::World(Event::Redo { client }) => (client, Act::Redo),
        RecordedEvent::World(Event::Bail { client, name }) => (client, Act::Bail(name)),
        RecordedEvent::World(Event::Show { client }) => (client, Act::Show),
        RecordedEvent::World(Event::Deliver { client }) => return Some((client, Step::Deliver)),
        RecordedEvent::World(Event::End) => return Some((0, Step::End)),
        RecordedEvent::World(_) => return None,
        RecordedEvent::Watch { client, view } => (client, Act::Watch(view)),
        RecordedEvent::Query {
            client,
            type_name,
            where_,
        } => (client, Act::Query(type_name, where_)),
    };
    Some((client, Step::Act(act)))
}

// The fault of a line that scripts don't have: a word is unknown that they don't have, whatever its other fields are.
fn step_fault(alloc: Global, line: &[u8], fault: LineFault) -> Mem<LineFault>
    ensures { IfOk result (λ told. RefusesLine line.now fault → RefusesStep line.now told) }
{
    match fault {
        LineFault::Field => {
            let unknown = is_unscripted(alloc, line)?;
            Ok(if unknown {
                LineFault::UnknownEvent
            } else {
                LineFault::Field
            })
        }
        other => Ok(other),
    }
}

// Whether a line has a word that scripts don't have.
fn is_unscripted(alloc: Global, line: &[u8]) -> Mem<bool>
    ensures { IfOk result (λ unknown. (d : Data) → IsOf line.now d
        → TellsWhether unknown (IsUnscripted d)) }
{
    match Val::read(alloc, line) {
        Ok(val) => Ok(has_unscripted(&val)),
        Err(ValFault::OutOfMemory) => Err(OutOfMemory),
        Err(_) => Ok(false),
    }
}

// The same of its value.
fn has_unscripted(val: &Val) -> bool
    ensures { TellsWhether result (IsUnscripted (data_of val.now)) }
{
    let Val::Map(fields) = val else {
        return false;
    };
    match word_in(fields) {
        Some(word) => is_unscripted_word(word),
        None => false,
    }
}

// The text that says what to do.
fn word_in(fields: &Fields) -> Option<&str>
    ensures { option_map (λ word. word.now) result
        ≡ option_and_then text_in (value_at fields.now (codes "do")) }
{
    match fields.get("do")? {
        Val::Text(text) => Some(text.as_str()),
        _ => None,
    }
}

// Whether scripts don't have a word.
fn is_unscripted_word(word: &str) -> bool
    ensures { TellsWhether result (IsUnscriptedWord word.now) }
{
    match Verb::of(word) {
        Some(verb) => !is_scripted(verb),
        None => true,
    }
}

// Whether scripts have such events.
fn is_scripted(verb: Verb) -> bool
    ensures { result ≡ is_scripted verb }
{
    match verb {
        Verb::Edit
        | Verb::Presence
        | Verb::Mark
        | Verb::Undo
        | Verb::Redo
        | Verb::Bail
        | Verb::Watch
        | Verb::Query
        | Verb::Show
        | Verb::Deliver
        | Verb::End => true,
        _ => false,
    }
}
