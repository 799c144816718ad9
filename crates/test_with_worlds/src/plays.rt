//! The playing of scripts.
ghost use Rattle.std.specs.Prelude.{◌≡◌, ◌<◌, true};
ghost use Rattle.rooms_val.specs.Json.{greatest_whole};
ghost use Rattle.shape_tree.specs.Boxes.{IsWithin};
ghost use Rattle.sync_world.specs.Playing.{IsPlayed};
ghost use Rattle.world_views.specs.Standing.{IsPlayable};

use crate::lines::lines_of;
use fault_texts::step_fault_text;
use rec_format::{Event, PrintedLine, RecordedEvent, print_line, read_header, read_line};
use rooms_val::Steps;
use rooms_val::limits::GREATEST_WHOLE;
use std::alloc::Global;
use std::marker::Brand;
use std::sync::ledger::{Blank, Ledger};
use std::test::Fail;
use test_with_boards::board_text;
use test_with_cases::{cells, rows, val_text};
use tl_tables::NEWEST_VERSION;
use world_views::ViewedWorld;

/// Plays scripts, one after the other, in the new world of a header. `None` if each answer is the one that stands there, else
/// the first step with another answer, and both.
///
/// # Errors
/// A header that is none, a line that is no event, and where memory is refused.
pub fn first_difference(
    alloc: Global,
    header: &str,
    scripts: &[&str],
) -> Result<Option<String>, Fail> {
    let header = read_header(alloc, header.as_bytes())?;
    let mut world = ViewedWorld::new(alloc, header.version)?;
    for script in scripts {
        if let Some(difference) = difference_in(alloc, &mut world, script)? {
            return Ok(Some(difference));
        }
    }
    Ok(None)
}

// The first difference that playing a script in a world shows.
fn difference_in(
    alloc: Global,
    world: &mut ViewedWorld,
    script: &str,
) -> Result<Option<String>, Fail> {
    for row in &rows(alloc, script)? {
        let [step, wanted, ..] = cells(row);
        if let Some(difference) = difference_at(alloc, world, step, wanted)? {
            return Ok(Some(difference));
        }
    }
    Ok(None)
}

// How what a world answers to a step differs from what is wanted.
fn difference_at(
    alloc: Global,
    world: &mut ViewedWorld,
    step: &str,
    wanted: &str,
) -> Result<Option<String>, Fail> {
    let found = answer(alloc, world, step)?;
    let wanted = board_text(alloc, wanted)?;
    if found.as_str() == wanted.as_str() {
        return Ok(None);
    }
    Ok(Some(format!(in alloc; "at {step}: {found}, and not {wanted}")?))
}

// What a world answers to the lines of a step, or what the peer has of which a step asks.
fn answer(alloc: Global, world: &mut ViewedWorld, step: &str) -> Result<String, Fail> {
    if let Some(client) = step.strip_prefix("peer ") {
        return peer_text(alloc, world, client.parse::<u64>()?);
    }
    let lines = lines_of(alloc, step)?;
    let mut out = String::new(alloc);
    for line in lines.as_str().lines() {
        let text = line_answer(alloc, world, line)?;
        add(&mut out, text.as_str())?;
    }
    Ok(out)
}

// What the peer of a client has: the clock that it has reached, how much it owes, and its document.
fn peer_text(alloc: Global, world: &ViewedWorld, client: u64) -> Result<String, Fail> {
    let world = world.world();
    if !world.has_client(client) {
        return Ok(String::from_str(alloc, "no client")?);
    }
    let peer = world.peer(client);
    let clock = peer.reached();
    let owed = peer.owed();
    let document = val_text(alloc, &peer.document(alloc)?)?;
    Ok(format!(in alloc; "{clock} owes {owed}: {}", document.as_str())?)
}

// Adds a text, if there is any, after what is there.
fn add(out: &mut String, text: &str) -> Result<(), Fail> {
    if !out.is_empty() && !text.is_empty() {
        out.push_str(" and ")?;
    }
    out.push_str(text)?;
    Ok(())
}

// What a world answers to a line. The steps are counted for nobody.
fn line_answer(alloc: Global, world: &mut ViewedWorld, line: &str) -> Result<String, Fail> {
    let event = read_line(alloc, line.as_bytes())?;
    if !is_playable(&event) {
        return Err(Fail::from("no event that a world plays"));
    }
    step_in::<Brand>(Blank::new(1), alloc, world, event)
}

// Whether a world plays an event of a recording.
fn is_playable(event: &RecordedEvent) -> bool
    ensures { result ≡ true → IsPlayable event.now }
{
    match event {
        RecordedEvent::World(event) => is_played(event),
        _ => true,
    }
}

// The same of an event of the world itself.
fn is_played(event: &Event) -> bool
    ensures { result ≡ true → IsPlayed event.now }
{
    match event {
        Event::Client { version } => 1 <= *version && *version <= NEWEST_VERSION,
        Event::Paste { dx, dy, .. } => is_move(*dx) && is_move(*dy),
        _ => true,
    }
}

// Whether a number is at most 2^53 - 1 on either side of 0.
fn is_move(number: i64) -> bool
    ensures { result ≡ true → IsWithin greatest_whole number }
{
    -GREATEST_WHOLE <= number && number <= GREATEST_WHOLE
}

fn step_in<L: Ledger>(
    blank: Blank,
    alloc: Global,
    world: &mut ViewedWorld,
    event: RecordedEvent,
) -> Result<String, Fail>
    requires name { blank.name ≡ L.name }
    requires parts { blank.parts ≡ L.parts }
    requires some { 0 < blank.parts }
    requires played { IsPlayable event }
{
    let mut steps = Steps::<L>::new(blank);
    match world.step(alloc, event, false, &mut steps) {
        Ok(lines) => lines_text(alloc, &lines),
        Err(fault) => {
            let text = step_fault_text(alloc, &fault)?;
            Ok(String::from_str(alloc, text.as_str())?)
        }
    }
}

// The lines that are printed.
fn lines_text(alloc: Global, lines: &[PrintedLine]) -> Result<String, Fail> {
    let mut out = String::new(alloc);
    for line in lines {
        let text = String::from_utf8(print_line(alloc, line)?)?;
        add(&mut out, text.as_str())?;
    }
    Ok(out)
}
