//! A recording that is made: its events happen as they are drawn, and are printed if that is asked.
ghost use Rattle.std.specs.Prelude.{◌≡◌, Bool, true, false, ◌+◌, ◌<◌, ◌≤◌, ◌^◌, ℕ, List, Option, length, Some, slice_set, IfOk, OnOk, OnErr, IsErrOf};
ghost use Rattle.room_model.specs.Schemas.{WorldSchemas};
ghost use Rattle.room_model.specs.Worlds.{after_event};
ghost use Rattle.rec_format.specs.Printing.{IsPrintable};
ghost use Rattle.side_effects.specs.declared.fault.EditFault.{EditFault};
ghost use Rattle.sync_world.specs.Standing.{IsAtVersion};
ghost use Rattle.room_link.specs.Held.{Extends};
ghost use Rattle.make_job.specs.Made as made;
ghost use Rattle.make_job.specs.Made.{header_line, event_line, if_printed, asking_client, after_asking, nothing_made, with_outcome, with_events};
ghost use Rattle.make_job.specs.Making.{IsMaking, HasPlace, IsReady, AreReady, AddsFront, is_refusal};
ghost use Rattle.replay_job.specs.declared.play.Stop.TheVariants as stop;

use rec_format::{Event, print_event};
use replay_job::play::Stop;
use room_link::sink::Sink;
use room_link::writing::write_all;
use room_model::fault::StepFault;
use rooms_val::{Mem, OutOfMemory, Steps};
use side_effects::EditFault;
use std::alloc::Global;
use std::sync::ledger::Ledger;
use sync_world::World;

/// The version of the room's schema.
const VERSION: u32 = 3;

/// A recording in the making.
#[derive(Drop)]
pub(crate) struct Making {
    // The world that the events make.
    pub(crate) world: World,
    // How many sessions the clients asked for, below 2^63. They are numbered from 0.
    sessions: u64,
    // The last session of each client.
    pub(crate) last: [u64; 4],
    // How many events of the draws were taken, and how many left out, below 2^63.
    pub(crate) taken: u64,
    pub(crate) refused: u64,
}

impl Making {
    /// Nothing happened. It costs the schema.
    pub(crate) fn new(alloc: Global) -> Mem<Making>
        ensures stands { IfOk result (λ making. (schemas : WorldSchemas EditFault)
            × (IsAtVersion 3 schemas) × ((print : Bool) (old new : Option (List ℕ))
            → Extends old new (if_printed print header_line)
            → IsMaking schemas (nothing_made print) making old new)) }
        ensures place { IfOk result (HasPlace (2 ^ 62)) }
    {
        let world = World::new(alloc, VERSION)?;
        Ok(Making {
            world,
            sessions: 0,
            last: [0; 4],
            taken: 0,
            refused: 0,
        })
    }

    /// Counts the events anew that are taken and left out.
    pub(crate) fn count_anew(&mut self)
        ensures { self.new ≡ record self.old { taken = 0; refused = 0 } }
    {
        self.taken = 0;
        self.refused = 0;
    }

    /// Lets events happen one after another. One that the world refuses is left out; with `print` the
    /// others are printed, each as soon as it happened.
    ///
    /// # Errors
    ///
    /// `SinkFailed` where a write failed, and `OutOfMemory`; a front of the events' lines is written
    /// then.
    pub(crate) fn take_all<K: Sink, L: Ledger>(
        &mut self,
        alloc: Global,
        events: Vec<Event>,
        print: bool,
        sink: &mut K,
        steps: &mut Steps<L>,
    ) -> Result<(), Stop>
        requires ready { AreReady events.items }
        requires place { HasPlace (length events.items) self.old }
        ensures ok { OnOk result ((schemas : WorldSchemas EditFault) (m : made.Making)
            (old : Option (List ℕ)) → IsMaking schemas m self.old old (K.held sink.old)
            → IsMaking schemas (with_events print schemas m events.items) self.new
            old (K.held sink.new)) }
        ensures place { OnOk result ((more : ℕ) → HasPlace (length events.items + more) self.old
            → HasPlace more self.new) }
        ensures err { OnErr result ((schemas : WorldSchemas EditFault) (m : made.Making)
            (old : Option (List ℕ)) → IsMaking schemas m self.old old (K.held sink.old)
            → AddsFront (with_events print schemas m events.items).text old (K.held sink.new)) }
        ensures faults_stay { K.faults sink.old ≤ K.faults sink.new }
        ensures sink_failed { IsErrOf result stop.SinkFailed
            → K.faults sink.old < K.faults sink.new }
        ensures no_source { IsErrOf result stop.SourceFailed → ⊥ }
    {
        'events: for event in events {
            self.take(alloc, event, print, sink, steps)?;
        }
        Ok(())
    }

    // Lets an event happen, and prints it, unless the world refuses it.
    fn take<K: Sink, L: Ledger>(
        &mut self,
        alloc: Global,
        event: Event,
        print: bool,
        sink: &mut K,
        steps: &mut Steps<L>,
    ) -> Result<(), Stop>
        requires ready { IsReady event }
        requires place { HasPlace 1 self.old }
        ensures ok { OnOk result ((schemas : WorldSchemas EditFault) (m : made.Making)
            (old : Option (List ℕ)) → IsMaking schemas m self.old old (K.held sink.old)
            → IsMaking schemas (with_outcome print m event
            (after_event schemas false m.world event))
            self.new old (K.held sink.new)) }
        ensures place { OnOk result ((more : ℕ) → HasPlace (1 + more) self.old
            → HasPlace more self.new) }
        ensures err { OnErr result ((schemas : WorldSchemas EditFault) (m : made.Making)
            (old : Option (List ℕ)) → IsMaking schemas m self.old old (K.held sink.old)
            → AddsFront (with_outcome print m event (after_event schemas false m.world event)).text
            old (K.held sink.new)) }
        ensures faults_stay { K.faults sink.old ≤ K.faults sink.new }
        ensures sink_failed { IsErrOf result stop.SinkFailed
            → K.faults sink.old < K.faults sink.new }
        ensures no_source { IsErrOf result stop.SourceFailed → ⊥ }
    {
        let line = line_if(alloc, print, &event)?;
        let asking = asking_client(&event);
        match self.world.step(alloc, event, false, steps) {
            Ok(_) => {
                self.note_taken(asking);
                Ok(write_all(sink, &line)?)
            }
            Err(fault) => Ok(self.leave_out(fault)?),
        }
    }

    // Counts an event that was taken. If a client asked for a session by it, that is its last one.
    fn note_taken(&mut self, asking: Option<u64>)
        requires { HasPlace 1 self.old }
        ensures world { self.new.world ≡ self.old.world }
        ensures refused { self.new.refused ≡ self.old.refused }
        ensures taken { self.new.taken ≡ self.old.taken + 1 }
        ensures asked { (m : made.Making) → self.old.sessions ≡ m.sessions → self.old.last ≡ m.last
            → (self.new.sessions ≡ (after_asking m asking).sessions)
            × (self.new.last ≡ (after_asking m asking).last) }
        ensures place { (more : ℕ) → HasPlace (1 + more) self.old → HasPlace more self.new }
    {
        self.taken += 1;
        match asking {
            Some(client) => self.ask(client),
            None => {}
        }
    }

    // A client asks for a session, which has the next number and is its last one.
    fn ask(&mut self, client: u64)
        requires { self.old.sessions + 1 < 2 ^ 64 }
        ensures { self.new ≡ record self.old {
          sessions = self.old.sessions + 1;
          last = slice_set self.old.last client self.old.sessions;
        } }
    {
        set_at(&mut self.last, client, self.sessions);
        self.sessions += 1;
    }

    // Counts an event that was refused, unless memory ran out.
    fn leave_out(&mut self, fault: StepFault<EditFault>) -> Mem<()>
        requires { HasPlace 1 self.old }
        ensures { OnOk result ((is_refusal fault ≡ true)
            × (self.new ≡ record self.old { refused = self.old.refused + 1 })) }
    {
        match fault {
            StepFault::OutOfMemory => Err(OutOfMemory),
            _ => {
                self.refused += 1;
                Ok(())
            }
        }
    }
}

// Puts a number at a place, if there is one.
fn set_at(numbers: &mut [u64; 4], place: u64, number: u64)
    ensures { numbers.new ≡ slice_set numbers.old place number }
{
    if place < 4 {
        numbers[place as usize] = number;
    }
}

// The line of an event, if it is to be printed.
fn line_if(alloc: Global, print: bool, event: &Event) -> Mem<Vec<u8>>
    ensures { IfOk result (λ line. IsPrintable event.now
        → line.items ≡ if_printed print (event_line event.now)) }
{
    if print {
        event_line(alloc, event)
    } else {
        Ok(Vec::new(alloc))
    }
}

/// The line of an event.
pub(crate) fn event_line(alloc: Global, event: &Event) -> Mem<Vec<u8>>
    ensures { IfOk result (λ line. IsPrintable event.now → line.items ≡ event_line event.now) }
{
    let mut line = print_event(alloc, event)?;
    line.push(b'\n')?;
    Ok(line)
}

// The client that asks for a session by an event, if one does.
fn asking_client(event: &Event) -> Option<u64>
    ensures { result ≡ asking_client event.now }
{
    match event {
        Event::Connect { client, .. } => Some(*client),
        _ => None,
    }
}
