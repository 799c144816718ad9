//! The events before the draws, and those of a draw.
ghost use Rattle.std.specs.Prelude.{◌≡◌, ◌<◌, [], ◌∷◌, ◌++◌, map, IfOk, OnOk, false};
ghost use Rattle.field_ops.specs.ViewRecordOps.{change_of};
ghost use Rattle.room_model.specs.declared.event.Event.TheVariants as event;
ghost use Rattle.load_maker.specs.Made.{versions, enters, gets, page_diff, makes_page, edits, moves};
ghost use Rattle.load_maker.specs.Made.{first_events, events_of};

use crate::draw::{Act, Draw};
use crate::records::{page, presence, shape, shape_id};
use field_ops::{Diff, ObjectDiff, RecordOp, ValueOp};
use room_model::Event;
use rooms_val::{Mem, Text, Val};
use std::alloc::Global;

// The version of each client.
const VERSIONS: [u32; 4] = [3, 3, 2, 1];

/// The events before the draws.
#[tactic(auto, unfolding(crate::specs::Made::first_events))]
pub(crate) fn first_events(alloc: Global) -> Mem<Vec<Event>>
    ensures { IfOk result (λ events. events.items ≡ first_events) }
{
    let mut events = clients(alloc)?;
    enter(&mut events, 0)?;
    enter(&mut events, 1)?;
    enter(&mut events, 2)?;
    enter(&mut events, 3)?;
    make_page(alloc, &mut events)?;
    get(&mut events, 0)?;
    get(&mut events, 1)?;
    get(&mut events, 2)?;
    get(&mut events, 3)?;
    Ok(events)
}

// The clients come.
fn clients(alloc: Global) -> Mem<Vec<Event>>
    ensures { IfOk result (λ events. events.items ≡ map event.Client versions) }
{
    let mut events = Vec::new(alloc);
    for version in VERSIONS {
        events.push(Event::Client { version })?;
    }
    Ok(events)
}

// A client enters by the session with its number.
fn enter(events: &mut Vec<Event>, client: u64) -> Mem<()>
    ensures { OnOk result (events.new.items ≡ events.old.items ++ enters client) }
{
    events.push(Event::Connect {
        client,
        readonly: false,
    })?;
    events.push(Event::Handle { session: client })?;
    get(events, client)
}

// The edit that makes the page.
fn page_diff(alloc: Global) -> Mem<Diff>
    ensures { IfOk result (λ diff. diff ≡ page_diff) }
{
    let page = RecordOp::Put(Val::Map(page(alloc)?));
    let mut diff = Diff::new(alloc);
    drop(diff.put(Text::of(alloc, "page:p")?, page)?);
    Ok(diff)
}

// Client 0 makes the page, and the room is told.
fn make_page(alloc: Global, events: &mut Vec<Event>) -> Mem<()>
    ensures { OnOk result (events.new.items ≡ events.old.items ++ makes_page) }
{
    let diff = page_diff(alloc)?;
    events.push(Event::Edit { client: 0, diff })?;
    events.push(Event::Handle { session: 0 })?;
    Ok(())
}

// The session with a client's number is told something, and the client takes it.
fn get(events: &mut Vec<Event>, client: u64) -> Mem<()>
    ensures { OnOk result (events.new.items ≡ events.old.items ++ gets client) }
{
    events.push(Event::Send { session: client })?;
    events.push(Event::Deliver { client })?;
    Ok(())
}

/// The events of a draw, where the clients' last sessions are the given ones.
#[tactic(auto, unfolding(crate::specs::Made::events_of))]
pub(crate) fn events_of(alloc: Global, draw: Draw, last: &[u64; 4]) -> Mem<Vec<Event>>
    requires { draw.client < 4 }
    ensures { IfOk result (λ events. events.items ≡ events_of draw last.now) }
{
    let place = draw.client as usize;
    let client = u64::from(draw.client);
    let session = last[place];
    match draw.act {
        Act::Put { shape: number, x } => {
            let record = shape(alloc, VERSIONS[place], number, x)?;
            edit(alloc, client, number, RecordOp::Put(Val::Map(record)))
        }
        Act::Move { shape, x } => edit(alloc, client, shape, shift(alloc, x)?),
        Act::Remove { shape } => edit(alloc, client, shape, RecordOp::Remove),
        Act::Point { x } => {
            let stored = Val::Map(presence(alloc, draw.client, x)?);
            only(alloc, Event::Presence { client, stored })
        }
        Act::Mark => {
            let name = Text::of(alloc, "m")?;
            only(alloc, Event::Mark { client, name })
        }
        Act::Undo => only(alloc, Event::Undo { client }),
        Act::Redo => only(alloc, Event::Redo { client }),
        Act::Handle => only(alloc, Event::Handle { session }),
        Act::Send => only(alloc, Event::Send { session }),
        Act::Deliver => only(alloc, Event::Deliver { client }),
        Act::Cut => only(alloc, Event::Cut { client }),
        Act::Reconnect => reconnect(alloc, client, session),
    }
}

// A client's edit of the one shape with a number.
fn edit(alloc: Global, client: u64, number: u32, op: RecordOp) -> Mem<Vec<Event>>
    ensures { IfOk result (λ events. events.items ≡ edits client number (change_of op)) }
{
    let mut diff = Diff::new(alloc);
    drop(diff.put(shape_id(alloc, number)?, op)?);
    only(alloc, Event::Edit { client, diff })
}

// The patch that moves a shape to this x.
fn shift(alloc: Global, x: u32) -> Mem<RecordOp>
    ensures { IfOk result (λ op. change_of op ≡ moves x) }
{
    let mut patch = ObjectDiff::new(alloc);
    let x = ValueOp::Put(Val::Int(i64::from(x)));
    drop(patch.put(Text::of(alloc, "x")?, x)?);
    Ok(RecordOp::Patch(patch))
}

// One event.
fn only(alloc: Global, event: Event) -> Mem<Vec<Event>>
    ensures { IfOk result (λ events. events.items ≡ event ∷ []) }
{
    let mut events = Vec::new(alloc);
    events.push(event)?;
    Ok(events)
}

// The room loses a session, and its client asks for another.
fn reconnect(alloc: Global, client: u64, session: u64) -> Mem<Vec<Event>>
    ensures { IfOk result (λ events.
        events.items ≡ event.Lose session ∷ event.Connect client false ∷ []) }
{
    let mut events = only(alloc, Event::Lose { session })?;
    events.push(Event::Connect {
        client,
        readonly: false,
    })?;
    Ok(events)
}
