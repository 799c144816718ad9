//! A recording that is taken line by line.
ghost use Rattle.std.specs.Prelude.{◌≡◌, None, Some, IfOk, false, option_map};
ghost use Rattle.room_model.specs.Schemas.{WorldSchemas};
ghost use Rattle.side_effects.specs.declared.fault.EditFault.{EditFault};
ghost use Rattle.world_views.specs.Standing.{Stands, IsPlayable};
ghost use Rattle.world_views.specs.Views.{Viewed};
ghost use Rattle.replay_job.specs.Taking.{Progress, is_end, is_passed_by};
ghost use Rattle.replay_job.specs.Replies.{Reads, Becomes, BecomesHeader, BecomesEvent, BecomesOf};

use fault_texts::{line_fault_text, step_fault_text};
use rec_format::read::LONGEST_LINE;
use rec_format::{Event, PrintedLine, RecordedEvent, read_header, read_line};
use recording_lines::lines::is_blank;
use rooms_val::{Mem, Steps, Text};
use std::alloc::Global;
use std::sync::ledger::Ledger;
use world_views::ViewedWorld;

/// What a line makes of a recording.
#[derive(Drop)]
pub enum Reply {
    /// The line is refused, for the cause that this text names.
    Refused(Text),
    /// The line prints these lines.
    Wrote(Vec<PrintedLine>),
    /// The line prints these lines, and the recording ends with it.
    Ended(Vec<PrintedLine>),
}

/// How far a recording was read.
#[derive(Drop)]
pub struct Replay {
    // Whether the messages are printed too.
    trace: bool,
    // The world of the header and of the events since, with what its clients watch; none before the
    // header.
    pub(crate) world: Option<ViewedWorld>,
}

impl Replay {
    /// Nothing was read. With `trace` the messages are printed too.
    pub fn new(trace: bool) -> Replay
        ensures { result ≡ record { trace = trace; world = None } }
    {
        Replay { trace, world: None }
    }

    /// The header was read, and events go on in a world; messages aren't printed.
    pub fn over(world: ViewedWorld) -> Replay
        ensures { result ≡ record { trace = false; world = Some world } }
    {
        Replay {
            trace: false,
            world: Some(world),
        }
    }

    /// The world after the lines that were taken; none before the header.
    pub fn world(&self) -> Option<&ViewedWorld>
        ensures { option_map (λ world. world.now) result ≡ self.now.world }
    {
        self.world.as_ref()
    }

    /// Takes a line without its newline. The reply says what it prints, why it is refused, or that
    /// the recording ends with it. It costs the line and its event.
    pub fn take_line<L: Ledger>(
        &mut self,
        alloc: Global,
        line: &[u8],
        steps: &mut Steps<L>,
    ) -> Mem<Reply>
        ensures taken { IfOk result (λ reply. (progress : Progress)
            → Reads progress self.old.world
            → Becomes self.old.trace progress line.now reply self.new.world) }
        ensures trace { self.new.trace ≡ self.old.trace }
    {
        if is_passed_by(line) {
            return Ok(Reply::Wrote(Vec::new(alloc)));
        }
        match &mut self.world {
            None => self.take_header(alloc, line),
            Some(world) => take_event(world, alloc, self.trace, line, steps),
        }
    }

    // Takes the first line that isn't passed by.
    fn take_header(&mut self, alloc: Global, line: &[u8]) -> Mem<Reply>
        requires { self.old.world ≡ None }
        ensures taken { IfOk result (λ reply. BecomesHeader line.now reply self.new.world) }
        ensures trace { self.new.trace ≡ self.old.trace }
    {
        match read_header(alloc, line) {
            Ok(header) => {
                self.world = Some(ViewedWorld::new(alloc, header.version)?);
                Ok(Reply::Wrote(Vec::new(alloc)))
            }
            Err(fault) => Ok(Reply::Refused(line_fault_text(alloc, fault)?)),
        }
    }
}

/// Whether a line is passed by: it is blank, and not too long.
pub fn is_passed_by(line: &[u8]) -> bool
    ensures { result ≡ is_passed_by line.now }
{
    line.len() <= LONGEST_LINE && is_blank(line)
}

// Takes a line behind the header.
fn take_event<L: Ledger>(
    world: &mut ViewedWorld,
    alloc: Global,
    trace: bool,
    line: &[u8],
    steps: &mut Steps<L>,
) -> Mem<Reply>
    ensures { IfOk result (λ reply. (schemas : WorldSchemas EditFault) (viewed : Viewed)
        → Stands schemas viewed world.old
        → BecomesEvent trace schemas viewed line.now reply (Some world.new)) }
{
    match read_line(alloc, line) {
        Ok(event) => happen(world, alloc, trace, event, steps),
        Err(fault) => Ok(Reply::Refused(line_fault_text(alloc, fault)?)),
    }
}

// Lets an event happen in the world.
fn happen<L: Ledger>(
    world: &mut ViewedWorld,
    alloc: Global,
    trace: bool,
    event: RecordedEvent,
    steps: &mut Steps<L>,
) -> Mem<Reply>
    requires { IsPlayable event }
    ensures { IfOk result (λ reply. (schemas : WorldSchemas EditFault) (viewed : Viewed)
        → Stands schemas viewed world.old
        → BecomesOf trace schemas viewed event reply (Some world.new)) }
{
    let ends = is_end(&event);
    match world.step(alloc, event, trace, steps) {
        Ok(lines) => if ends {
            Ok(Reply::Ended(lines))
        } else {
            Ok(Reply::Wrote(lines))
        },
        Err(fault) => Ok(Reply::Refused(step_fault_text(alloc, &fault)?)),
    }
}

// Whether an event ends the recording.
fn is_end(event: &RecordedEvent) -> bool
    ensures { result ≡ is_end event.now }
{
    match event {
        RecordedEvent::World(event) => matches!(event, Event::End),
        _ => false,
    }
}
