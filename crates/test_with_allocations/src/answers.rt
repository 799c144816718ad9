//! What calls give, and the texts of that.
use field_ops::{Diff, RecordOp, diff_val, op_val};
use live_views::WatchId;
use rooms_val::{Mem, OutOfMemory, Val};
use shape_tree::Rect;
use std::alloc::Global;
use std::test::Fail;
use sync_client::{ConnectFault, PresenceFault, TakeFault};
use sync_msgs::ClientMessage;
use test_with_cases::val_text;
use tl_rules::TlValue;

/// What a call gives, where memory wasn't refused.
#[derive(Drop)]
pub(crate) enum Answer {
    // That it was done, or why not.
    Word(&'static str),
    Number(u32),
    Back(Diff),
    Said(ClientMessage),
    Before(Option<Val>),
    Found(TlValue),
    Told(Vec<(WatchId, Val)>),
    Due(Vec<(WatchId, TlValue)>),
}

impl Answer {
    /// That the call was done.
    pub(crate) fn done_word() -> Answer {
        Answer::Word("done")
    }

    /// Its text.
    pub(crate) fn text(&self, alloc: Global) -> Result<String, Fail> {
        match self {
            Answer::Word(word) => Ok(String::from_str(alloc, word)?),
            Answer::Number(number) => Ok(format!(in alloc; "{number}")?),
            Answer::Back(diff) => val_text(alloc, &diff_val(alloc, diff)?),
            Answer::Said(message) => message_text(alloc, message),
            Answer::Before(stored) => maybe_text(alloc, stored.as_ref()),
            Answer::Found(value) => value_text(alloc, value),
            Answer::Told(told) => told_text(alloc, told),
            Answer::Due(due) => due_text(alloc, due),
        }
    }
}

/// What came of a message.
pub(crate) fn take_answer(given: Result<(), TakeFault>) -> Mem<Answer> {
    match given {
        Ok(()) => Ok(Answer::done_word()),
        Err(TakeFault::NotOpen) => Ok(Answer::Word("NotOpen")),
        Err(TakeFault::WrongRequest) => Ok(Answer::Word("WrongRequest")),
        Err(TakeFault::NoPending(_)) => Ok(Answer::Word("NoPending")),
        Err(TakeFault::WrongPending(_, _)) => Ok(Answer::Word("WrongPending")),
        Err(TakeFault::ClockBack(_, _)) => Ok(Answer::Word("ClockBack")),
        Err(TakeFault::OutOfMemory) => Err(OutOfMemory),
    }
}

/// What came of a presence.
pub(crate) fn presence_answer(given: Result<(), PresenceFault>) -> Mem<Answer> {
    match given {
        Ok(()) => Ok(Answer::done_word()),
        Err(PresenceFault::WrongScope(_)) => Ok(Answer::Word("WrongScope")),
        Err(PresenceFault::Invalid(_, _)) => Ok(Answer::Word("Invalid")),
        Err(PresenceFault::OutOfMemory) => Err(OutOfMemory),
    }
}

/// What came of asking to be connected.
pub(crate) fn connect_answer(given: Result<ClientMessage, ConnectFault>) -> Mem<Answer> {
    match given {
        Ok(message) => Ok(Answer::Said(message)),
        Err(ConnectFault::AlreadyOpen) => Ok(Answer::Word("AlreadyOpen")),
        Err(ConnectFault::Refused(_)) => Ok(Answer::Word("Refused")),
        Err(ConnectFault::OutOfMemory) => Err(OutOfMemory),
    }
}

/// The next push, if there is one.
pub(crate) fn push_answer(given: Option<ClientMessage>) -> Answer {
    match given {
        Some(message) => Answer::Said(message),
        None => Answer::Word("none"),
    }
}

/// What a client says: its request with the clock that it has reached, or its push.
fn message_text(alloc: Global, message: &ClientMessage) -> Result<String, Fail> {
    match message {
        ClientMessage::Connect {
            connect_request_id,
            last_server_clock,
            ..
        } => {
            let request = connect_request_id.as_str();
            Ok(format!(in alloc; "connect {request} {last_server_clock}")?)
        }
        ClientMessage::Push {
            client_clock,
            diff,
            presence,
        } => {
            let work = work(alloc, diff.as_ref(), presence.as_ref())?;
            let work = work.as_str();
            Ok(format!(in alloc; "push {client_clock} {work}")?)
        }
        ClientMessage::Ping => Ok(String::from_str(alloc, "ping")?),
    }
}

/// What a push has: a diff or the operation on a presence.
fn work(alloc: Global, diff: Option<&Diff>, presence: Option<&RecordOp>) -> Result<String, Fail> {
    match (diff, presence) {
        (Some(diff), None) => val_text(alloc, &diff_val(alloc, diff)?),
        (None, Some(op)) => val_text(alloc, &op_val(alloc, op)?),
        _ => Ok(String::from_str(alloc, "something else")?),
    }
}

/// A record, if there is one.
fn maybe_text(alloc: Global, stored: Option<&Val>) -> Result<String, Fail> {
    match stored {
        Some(val) => val_text(alloc, val),
        None => Ok(String::from_str(alloc, "none")?),
    }
}

/// What a key comes to.
fn value_text(alloc: Global, value: &TlValue) -> Result<String, Fail> {
    match value {
        TlValue::Rec(stored) => maybe_text(alloc, stored.as_ref()),
        TlValue::Ids(_) => ids_text(alloc, value),
        TlValue::Number(number) => Ok(format!(in alloc; "{number}")?),
        TlValue::Rect(rect) => box_text(alloc, *rect),
    }
}

/// Ids, parted by blanks.
fn ids_text(alloc: Global, value: &TlValue) -> Result<String, Fail> {
    let mut text = String::from_str(alloc, "ids")?;
    for part in value.parts() {
        for id in part.as_slice() {
            text.push_str(" ")?;
            text.push_str(id.as_str())?;
        }
    }
    Ok(text)
}

/// A box by its x, its y, its width and its height, if there is one.
fn box_text(alloc: Global, found: Option<Rect>) -> Result<String, Fail> {
    match found {
        Some(rect) => {
            let Rect { x, y, w, h } = rect;
            Ok(format!(in alloc; "{x} {y} {w} {h}")?)
        }
        None => Ok(String::from_str(alloc, "none")?),
    }
}

/// The number of each watch, and what it tells, as a view or as a key.
fn told_text(alloc: Global, told: &[(WatchId, Val)]) -> Result<String, Fail> {
    let mut text = String::from_str(alloc, "told")?;
    for (watch, val) in told {
        let val = val_text(alloc, val)?;
        let part = format!(in alloc; ", {} is {val}", watch.number)?;
        text.push_str(part.as_str())?;
    }
    Ok(text)
}

fn due_text(alloc: Global, due: &[(WatchId, TlValue)]) -> Result<String, Fail> {
    let mut text = String::from_str(alloc, "due")?;
    for (watch, value) in due {
        let value = value_text(alloc, value)?;
        let part = format!(in alloc; ", {} is {value}", watch.number)?;
        text.push_str(part.as_str())?;
    }
    Ok(text)
}
