//! A script that is taken line by line.
ghost use Rattle.std.specs.Prelude.{◌≡◌, ◌≤◌, ◌<◌, [], IfOk, IsErrOf, None, Some};
ghost use Rattle.client_link.specs.declared.saying.Saying.{Saying};
ghost use Rattle.peer_schemas.specs.Clients.{AreOfTables};
ghost use Rattle.room_join.specs.Joiners as model;
ghost use Rattle.room_join.specs.Joiners.{Acted};
ghost use Rattle.room_join.specs.Standing.{Stands};
ghost use Rattle.room_link.specs.Exchange.{Tells};
ghost use Rattle.room_model.specs.Schemas.{WorldSchemas};
ghost use Rattle.side_effects.specs.declared.fault.EditFault.{EditFault};
ghost use Rattle.join_job.specs.Texts.{is_passed_by, fault_line};
ghost use Rattle.join_job.specs.Turning.{Reads, Comes};
ghost use Rattle.join_job.specs.Turns.{Progress, Takes, TakesHeader, TakesStep, Does, IsDone, Delivers, followed};
ghost use Rattle.join_job.specs.declared.ending.Stop.TheVariants as stop;

use crate::ending::{End, Stop};
use crate::step::{Step, read_step};
use crate::texts::{fault_line, lines_text};
use client_link::send_all;
use fault_texts::line_fault_text;
use rec_format::read::LONGEST_LINE;
use rec_format::read_header;
use recording_lines::lines::is_blank;
use room_join::{Act, JoinLine, Joiner};
use room_link::link::Link;
use rooms_val::{Mem, Steps, Text};
use std::alloc::Global;
use std::sync::ledger::Ledger;

/// What a line comes to.
#[derive(Drop)]
pub(crate) struct Reply {
    // What is to be written for it.
    pub(crate) text: Vec<u8>,
    // How the script ends with it, if it does.
    pub(crate) end: Option<End>,
}

/// A script of a client that joins a room.
#[derive(Drop)]
pub(crate) struct Script {
    room: u32,
    // The client after the lines that were taken; none before the header.
    joiner: Option<Joiner>,
}

impl Script {
    /// Nothing was taken.
    pub(crate) fn new(room: u32) -> Script
        ensures { result ≡ record { room = room; joiner = None } }
    {
        Script { room, joiner: None }
    }

    /// Takes a line, of this number, without its newline. What it says goes out on the link. It costs the line and its
    /// event.
    ///
    /// # Errors
    ///
    /// `Link` where the link had a fault, whose count rose; `Memory`. A beginning of what the line says went out then.
    pub(crate) fn take_line<K: Link, L: Ledger>(
        &mut self,
        alloc: Global,
        at: u64,
        line: &[u8],
        link: &mut K,
        steps: &mut Steps<L>,
    ) -> Result<Reply, Stop>
        ensures comes { Tells (λ old new. (schemas : WorldSchemas EditFault) → AreOfTables schemas
            → (progress : Progress) → Reads schemas progress self.old.joiner
            → Comes schemas (Takes schemas at self.old.room progress line.now) result
            self.new.joiner old new)
            (K.told link.old) (K.told link.new) }
        ensures room { self.new.room ≡ self.old.room }
        ensures faults_stay { K.faults link.old ≤ K.faults link.new }
        ensures failed { IsErrOf result stop.Link → K.faults link.old < K.faults link.new }
        ensures no_read { IsErrOf result stop.Read → ⊥ }
        ensures no_write { IsErrOf result stop.Write → ⊥ }
    {
        if is_passed_by(line) {
            return Ok(nothing(alloc));
        }
        match &mut self.joiner {
            None => self.take_header(alloc, at, line, link),
            Some(joiner) => take_step(joiner, alloc, at, line, link, steps),
        }
    }

    // Takes the first line that isn't passed by.
    fn take_header<K: Link>(
        &mut self,
        alloc: Global,
        at: u64,
        line: &[u8],
        link: &mut K,
    ) -> Result<Reply, Stop>
        ensures comes { Tells (λ old new. (schemas : WorldSchemas EditFault) → AreOfTables schemas
            → Comes schemas (TakesHeader schemas at self.old.room line.now) result
            self.new.joiner old new)
            (K.told link.old) (K.told link.new) }
        ensures room { self.new.room ≡ self.old.room }
        ensures faults_stay { K.faults link.old ≤ K.faults link.new }
        ensures failed { IsErrOf result stop.Link → K.faults link.old < K.faults link.new }
        ensures no_read { IsErrOf result stop.Read → ⊥ }
        ensures no_write { IsErrOf result stop.Write → ⊥ }
    {
        match read_header(alloc, line) {
            Ok(header) => {
                let (joiner, said) = Joiner::begin(alloc, header.version, self.room)?;
                drop(self.joiner.replace(joiner));
                send_all(alloc, link, &said)?;
                Ok(nothing(alloc))
            }
            Err(fault) => {
                let text = line_fault_text(alloc, fault)?;
                Ok(fault_reply(alloc, End::Refused, at, text)?)
            }
        }
    }
}

// Takes a line behind the header.
fn take_step<K: Link, L: Ledger>(
    joiner: &mut Joiner,
    alloc: Global,
    at: u64,
    line: &[u8],
    link: &mut K,
    steps: &mut Steps<L>,
) -> Result<Reply, Stop>
    ensures comes { Tells (λ old new. (schemas : WorldSchemas EditFault) (client : model.Joiner)
        → Stands schemas client joiner.old
        → Comes schemas (TakesStep schemas at client line.now)
        result (Some joiner.new) old new) (K.told link.old) (K.told link.new) }
    ensures faults_stay { K.faults link.old ≤ K.faults link.new }
    ensures failed { IsErrOf result stop.Link → K.faults link.old < K.faults link.new }
    ensures no_read { IsErrOf result stop.Read → ⊥ }
    ensures no_write { IsErrOf result stop.Write → ⊥ }
{
    let found = read_step(alloc, line)?;
    match found {
        Ok(step) => do_step(joiner, alloc, at, step, link, steps),
        Err(text) => Ok(fault_reply(alloc, End::Refused, at, text)?),
    }
}

// Does what a line says.
fn do_step<K: Link, L: Ledger>(
    joiner: &mut Joiner,
    alloc: Global,
    at: u64,
    step: Step,
    link: &mut K,
    steps: &mut Steps<L>,
) -> Result<Reply, Stop>
    ensures comes { Tells (λ old new. (schemas : WorldSchemas EditFault) (client : model.Joiner)
        → Stands schemas client joiner.old
        → Comes schemas (Does schemas at client step)
        result (Some joiner.new) old new) (K.told link.old) (K.told link.new) }
    ensures faults_stay { K.faults link.old ≤ K.faults link.new }
    ensures failed { IsErrOf result stop.Link → K.faults link.old < K.faults link.new }
    ensures no_read { IsErrOf result stop.Read → ⊥ }
    ensures no_write { IsErrOf result stop.Write → ⊥ }
{
    match step {
        Step::Act(act) => do_act(joiner, alloc, at, act, link, steps),
        Step::Deliver => deliver(joiner, alloc, at, link, steps),
        Step::End => {
            let lines = joiner.end(alloc)?;
            let text = lines_text(alloc, &lines)?;
            Ok(Reply {
                text,
                end: Some(End::Done),
            })
        }
    }
}

// Lets the client do something by itself.
fn do_act<K: Link, L: Ledger>(
    joiner: &mut Joiner,
    alloc: Global,
    at: u64,
    act: Act,
    link: &mut K,
    steps: &mut Steps<L>,
) -> Result<Reply, Stop>
    ensures comes { Tells (λ old new. (schemas : WorldSchemas EditFault) (client : model.Joiner)
        → Stands schemas client joiner.old
        → Comes schemas (IsDone schemas at (model.acts schemas act client))
        result (Some joiner.new) old new) (K.told link.old) (K.told link.new) }
    ensures faults_stay { K.faults link.old ≤ K.faults link.new }
    ensures failed { IsErrOf result stop.Link → K.faults link.old < K.faults link.new }
    ensures no_read { IsErrOf result stop.Read → ⊥ }
    ensures no_write { IsErrOf result stop.Write → ⊥ }
{
    let answer = joiner.act(alloc, act, steps)?;
    match answer {
        Ok(lines) => follow(joiner, alloc, lines, link, steps),
        Err(text) => Ok(fault_reply(alloc, End::Refused, at, text)?),
    }
}

// Lets the client wait for a message, unless it was told that its link has ended.
fn deliver<K: Link, L: Ledger>(
    joiner: &mut Joiner,
    alloc: Global,
    at: u64,
    link: &mut K,
    steps: &mut Steps<L>,
) -> Result<Reply, Stop>
    ensures comes { Tells (λ old new. (schemas : WorldSchemas EditFault) (client : model.Joiner)
        → Stands schemas client joiner.old
        → Comes schemas (Delivers schemas at client.is_lost client)
        result (Some joiner.new) old new) (K.told link.old) (K.told link.new) }
    ensures faults_stay { K.faults link.old ≤ K.faults link.new }
    ensures failed { IsErrOf result stop.Link → K.faults link.old < K.faults link.new }
    ensures no_read { IsErrOf result stop.Read → ⊥ }
    ensures no_write { IsErrOf result stop.Write → ⊥ }
{
    let is_lost = joiner.has_lost();
    if is_lost {
        let text = Text::of(alloc, "NoSuchSession")?;
        return Ok(fault_reply(alloc, End::Refused, at, text)?);
    }
    let delivery = joiner.deliver(alloc, link, steps)?;
    match delivery {
        Ok(lines) => follow(joiner, alloc, lines, link, steps),
        Err(text) => Ok(fault_reply(alloc, End::Server, at, text)?),
    }
}

// Says what the client can push, and tells its views behind these lines.
fn follow<K: Link, L: Ledger>(
    joiner: &mut Joiner,
    alloc: Global,
    lines: Vec<JoinLine>,
    link: &mut K,
    steps: &mut Steps<L>,
) -> Result<Reply, Stop>
    ensures comes { Tells (λ old new. (schemas : WorldSchemas EditFault) (client : model.Joiner)
        → Stands schemas client joiner.old
        → Comes schemas (λ coming turn.
        turn ≡ followed schemas (record { joiner = client; lines = lines.items }) coming)
        result (Some joiner.new) old new) (K.told link.old) (K.told link.new) }
    ensures faults_stay { K.faults link.old ≤ K.faults link.new }
    ensures failed { IsErrOf result stop.Link → K.faults link.old < K.faults link.new }
    ensures no_read { IsErrOf result stop.Read → ⊥ }
    ensures no_write { IsErrOf result stop.Write → ⊥ }
{
    let said = joiner.push(alloc)?;
    send_all(alloc, link, &said)?;
    let all = joiner.tell(alloc, lines, steps)?;
    let text = lines_text(alloc, &all)?;
    Ok(Reply { text, end: None })
}

// A blank line that isn't too long is passed by.
fn is_passed_by(line: &[u8]) -> bool
    ensures { result ≡ is_passed_by line.now }
{
    line.len() <= LONGEST_LINE && is_blank(line)
}

// Nothing comes of a line.
fn nothing(alloc: Global) -> Reply
    ensures text { result.text.items ≡ [] }
    ensures end { result.end ≡ None }
{
    Reply {
        text: Vec::new(alloc),
        end: None,
    }
}

/// The script ends at a line, for a cause of this text.
pub(crate) fn fault_reply(alloc: Global, by: End, at: u64, text: Text) -> Mem<Reply>
    ensures text { IfOk result (λ reply. reply.text.items ≡ fault_line at text) }
    ensures end { IfOk result (λ reply. reply.end ≡ Some by) }
{
    let text = fault_line(alloc, at, text)?;
    Ok(Reply {
        text,
        end: Some(by),
    })
}
