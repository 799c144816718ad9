//! Data messages of many operations, printed and read.
use field_ops::{Diff, ObjectDiff, RecordOp, ValueOp};
use rooms_val::{Mem, OutOfMemory, Text, Val};
use std::alloc::Global;
use sync_msgs::{DataEvent, Events, ServerMessage};
use wire_msgs::{Message, read_server};

/// How many operations an event has.
const OF_AN_EVENT: usize = 10;

/// Reads a data message with a patch of each id so many times. It returns how many events were read.
pub(crate) fn read(alloc: Global, ids: &[Text], times: u32) -> Mem<i64> {
    let text = message(alloc, ids)?.print(alloc)?;
    let mut events = 0i64;
    for _ in 0..times {
        events = events.saturating_add(events_in(alloc, &text)?);
    }
    Ok(events)
}

/// Prints the same message so many times. It returns how many bytes were printed.
pub(crate) fn print_times(alloc: Global, ids: &[Text], times: u32) -> Mem<i64> {
    let message = message(alloc, ids)?;
    let mut bytes = 0i64;
    for _ in 0..times {
        let text = message.print(alloc)?;
        bytes = bytes.saturating_add(text.len().min(1 << 40) as i64);
    }
    Ok(bytes)
}

/// How many events a text is read as. Any fault counts as that of memory: the text was printed.
fn events_in(alloc: Global, text: &[u8]) -> Mem<i64> {
    match read_server(alloc, text) {
        Ok(ServerMessage::Data { events }) => Ok(events.as_slice().len().min(1 << 40) as i64),
        Ok(_) => Ok(0),
        Err(_) => Err(OutOfMemory),
    }
}

/// A data message with a patch of each id, ten in an event.
fn message(alloc: Global, ids: &[Text]) -> Mem<ServerMessage> {
    let mut events = Events::new(alloc);
    push_events(alloc, &mut events, ids)?;
    Ok(ServerMessage::Data { events })
}

/// Adds an event for each ten of these ids.
fn push_events(alloc: Global, events: &mut Events, ids: &[Text]) -> Mem<()> {
    let mut server_clock = 0i64;
    for ten in ids.chunks_exact(OF_AN_EVENT) {
        server_clock = server_clock.saturating_add(1);
        let diff = diff(alloc, ten)?;
        events.push(DataEvent::Patch { diff, server_clock })?;
    }
    Ok(())
}

/// A diff with a patch of each id.
fn diff(alloc: Global, ids: &[Text]) -> Mem<Diff> {
    let mut diff = Diff::new(alloc);
    put_patches(alloc, &mut diff, ids)?;
    Ok(diff)
}

/// Adds the patch of two fields by which the shape of each id moves.
fn put_patches(alloc: Global, diff: &mut Diff, ids: &[Text]) -> Mem<()> {
    for id in ids {
        let mut fields = ObjectDiff::new(alloc);
        put_numbers(alloc, &mut fields, &[("x", 1200), ("y", -340)])?;
        drop(diff.put(id.copy(alloc)?, RecordOp::Patch(fields))?);
    }
    Ok(())
}

/// Adds the puts of these numbers under their keys.
fn put_numbers(alloc: Global, fields: &mut ObjectDiff, rows: &[(&str, i64)]) -> Mem<()> {
    for (key, number) in rows {
        drop(fields.put(Text::of(alloc, key)?, ValueOp::Put(Val::Int(*number)))?);
    }
    Ok(())
}
