//! What a room answers, as text.
use crate::texts::diff_text;
use field_ops::{Diff, RecordOp};
use room_model::Handled;
use std::alloc::Global;
use std::test::Fail;
use sync_msgs::{Action, DataEvent, EndReason, Events, Hydration, Out, ServerMessage};

/// What became of a message, as text.
///
/// # Errors
/// Where memory is refused.
pub fn handled_text(alloc: Global, handled: Handled) -> Result<String, Fail> {
    let text = match handled {
        Handled::Taken => "taken",
        Handled::Entered => "entered",
        Handled::Pong => "pong",
        Handled::Ended(reason) => reason_text(reason),
    };
    Ok(String::from_str(alloc, text)?)
}

// Why a session is ended.
fn reason_text(reason: EndReason) -> &'static str {
    match reason {
        EndReason::ClientTooOld => "CLIENT_TOO_OLD",
        EndReason::ServerTooOld => "SERVER_TOO_OLD",
        EndReason::InvalidRecord => "INVALID_RECORD",
        EndReason::RoomFull => "ROOM_FULL",
        EndReason::Slow => "SLOW",
    }
}

/// What a session is given, as text with its diffs.
///
/// # Errors
/// Where memory is refused.
pub fn out_text(alloc: Global, out: &Out) -> Result<String, Fail> {
    match out {
        Out::Message(message) => message_text(alloc, message),
        Out::End(reason) => Ok(format!(in alloc; "end {}", reason_text(*reason))?),
    }
}

// A message of a room.
fn message_text(alloc: Global, message: &ServerMessage) -> Result<String, Fail> {
    match message {
        ServerMessage::Connect {
            hydration_type,
            diff,
            server_clock,
            is_readonly,
            ..
        } => snapshot_text(alloc, *hydration_type, diff, *server_clock, *is_readonly),
        ServerMessage::Data { events } => events_text(alloc, events),
        ServerMessage::Pong => Ok(String::from_str(alloc, "pong")?),
    }
}

// The name of what a client keeps of its base.
fn hydration_name(hydration: Hydration) -> &'static str {
    match hydration {
        Hydration::WipeAll => "wipe_all",
        Hydration::WipePresence => "wipe_presence",
    }
}

// The answer to a connect.
fn snapshot_text(
    alloc: Global,
    hydration: Hydration,
    diff: &Diff,
    clock: i64,
    readonly: bool,
) -> Result<String, Fail> {
    let name = hydration_name(hydration);
    let diff = diff_text(alloc, diff)?;
    let readonly = if readonly { " readonly" } else { "" };
    Ok(format!(in alloc; "{name} {clock}{readonly} {}", diff.as_str())?)
}

// The events of a message, each after a blank and a comma.
fn events_text(alloc: Global, events: &Events) -> Result<String, Fail> {
    let mut out = String::new(alloc);
    for event in events.as_slice() {
        if !out.is_empty() {
            out.push_str(", ")?;
        }
        let text = event_text(alloc, event)?;
        out.push_str(text.as_str())?;
    }
    Ok(out)
}

// An event.
fn event_text(alloc: Global, event: &DataEvent) -> Result<String, Fail> {
    match event {
        DataEvent::Patch { diff, server_clock } => {
            let diff = diff_text(alloc, diff)?;
            Ok(format!(in alloc; "{server_clock} {}", diff.as_str())?)
        }
        DataEvent::PushResult {
            client_clock,
            server_clock,
            action,
        } => {
            let action = action_text(alloc, action)?;
            Ok(format!(in alloc; "{server_clock} push {client_clock} {}", action.as_str())?)
        }
    }
}

// What was made of a push.
fn action_text(alloc: Global, action: &Action) -> Result<String, Fail> {
    match action {
        Action::Commit => Ok(String::from_str(alloc, "commit")?),
        Action::Discard => Ok(String::from_str(alloc, "discard")?),
        Action::Rebase(diff) => {
            let diff = diff_text(alloc, diff)?;
            Ok(format!(in alloc; "rebase {}", diff.as_str())?)
        }
    }
}

// How much a message has.
#[derive(Clone, Copy)]
struct Amount {
    // How many operations its diffs have.
    operations: usize,
    // How many of them are removes.
    removes: usize,
}

// How much a session is given: how many events, operations in them, and removes among those.
pub(crate) fn amount_text(alloc: Global, out: &Out) -> Result<String, Fail> {
    let Out::Message(message) = out else {
        return out_text(alloc, out);
    };
    match message {
        ServerMessage::Connect {
            hydration_type,
            diff,
            server_clock,
            ..
        } => {
            let Amount {
                operations,
                removes,
            } = diff_amount(diff);
            let name = hydration_name(*hydration_type);
            Ok(format!(in alloc;
                "{name} {server_clock}: {operations} operations, {removes} removes"
            )?)
        }
        ServerMessage::Data { events } => {
            let Amount {
                operations,
                removes,
            } = events_amount(events);
            let count = events.as_slice().len();
            Ok(format!(in alloc; "{count} events: {operations} operations, {removes} removes")?)
        }
        ServerMessage::Pong => Ok(String::from_str(alloc, "pong")?),
    }
}

// How much a diff has.
fn diff_amount(diff: &Diff) -> Amount {
    let mut removes = 0usize;
    for (_, op) in diff.as_slice() {
        if let RecordOp::Remove = op {
            removes = removes.saturating_add(1);
        }
    }
    Amount {
        operations: diff.len(),
        removes,
    }
}

// How much the diffs of events have.
fn events_amount(events: &Events) -> Amount {
    let mut sum = Amount {
        operations: 0,
        removes: 0,
    };
    for event in events.as_slice() {
        if let DataEvent::Patch { diff, .. } = event {
            let one = diff_amount(diff);
            sum = Amount {
                operations: sum.operations.saturating_add(one.operations),
                removes: sum.removes.saturating_add(one.removes),
            };
        }
    }
    sum
}
