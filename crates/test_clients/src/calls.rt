//! Calls of a client by lines, and what it answers and shows.
ghost use Rattle.std.specs.Prelude.{◌≡◌, ◌<◌};

use crate::client::{Client, new_client};
use crate::messages::{answer, data, diff, diff_text, first, message_text, number, reason};
use doc_store::DocStore;
use field_ops::Diff;
use rooms_val::{Fields, Mem, Steps, Val};
use std::alloc::Global;
use std::marker::Brand;
use std::sync::ledger::{Blank, Ledger};
use std::test::Fail;
use sync_client::{PresenceFault, TakeFault};
use sync_msgs::ServerMessage;
use test_with_cases::value;

/// Does a call by its line, and answers the text of what it gives.
pub(crate) fn call(alloc: Global, client: &mut Client, line: &str) -> Result<String, Fail> {
    let (verb, rest) = first(line);
    match verb {
        "new" => {
            *client = new_client(alloc)?;
            Ok(String::from_str(alloc, "done")?)
        }
        "edit" => edit(alloc, client, rest),
        "presence" => presence(alloc, client, rest),
        "connect" => connect(alloc, client, rest),
        "push" => push(alloc, client),
        "take" => take(alloc, client, rest),
        "lost" => {
            client.lost(alloc);
            Ok(String::from_str(alloc, "done")?)
        }
        "ended" => {
            client.ended(alloc, reason(rest)?);
            Ok(String::from_str(alloc, "done")?)
        }
        _ => Err(Fail::from("no call")),
    }
}

fn edit_in<L: Ledger>(blank: Blank, alloc: Global, client: &mut Client, edit: Diff) -> Mem<Diff>
    requires name { blank.name ≡ L.name }
    requires parts { blank.parts ≡ L.parts }
    requires some { 0 < blank.parts }
{
    let mut steps = Steps::<L>::new(blank);
    client.edit(alloc, edit, false, &mut steps)
}

/// Does an edit, and answers what undoes it. The steps are counted for nobody.
fn edit(alloc: Global, client: &mut Client, text: &str) -> Result<String, Fail> {
    let edit = diff(alloc, text)?;
    let back = edit_in::<Brand>(Blank::new(1), alloc, client, edit)?;
    diff_text(alloc, &back)
}

fn take_in<L: Ledger>(
    blank: Blank,
    alloc: Global,
    client: &mut Client,
    message: &ServerMessage,
) -> Result<(), TakeFault>
    requires name { blank.name ≡ L.name }
    requires parts { blank.parts ≡ L.parts }
    requires some { 0 < blank.parts }
{
    let mut steps = Steps::<L>::new(blank);
    client.take(alloc, message, &mut steps)
}

/// The message of a text.
pub(crate) fn message(alloc: Global, text: &str) -> Result<ServerMessage, Fail> {
    let (word, rest) = first(text);
    match word {
        "answer" => answer(alloc, rest),
        "data" => data(alloc, rest),
        _ => Ok(ServerMessage::Pong),
    }
}

/// Takes a message, and answers the fault if there is one. The steps are counted for nobody.
fn take(alloc: Global, client: &mut Client, text: &str) -> Result<String, Fail> {
    let message = message(alloc, text)?;
    match take_in::<Brand>(Blank::new(1), alloc, client, &message) {
        Ok(()) => Ok(String::from_str(alloc, "taken")?),
        Err(fault) => Ok(format!(in alloc; "{fault:?}")?),
    }
}

/// Sets a presence, and answers the name of the fault if there is one.
fn presence(alloc: Global, client: &mut Client, text: &str) -> Result<String, Fail> {
    let told = match client.presence(alloc, value(alloc, text)?) {
        Ok(()) => "set",
        Err(PresenceFault::WrongScope(_)) => "WrongScope",
        Err(PresenceFault::Invalid(_, _)) => "Invalid",
        Err(PresenceFault::OutOfMemory) => "OutOfMemory",
    };
    Ok(String::from_str(alloc, told)?)
}

/// Asks to be connected, and answers what is said, or the fault.
fn connect(alloc: Global, client: &mut Client, text: &str) -> Result<String, Fail> {
    match client.connect(alloc, text.parse::<u64>()?) {
        Ok(message) => message_text(alloc, &message),
        Err(fault) => Ok(format!(in alloc; "{fault:?}")?),
    }
}

/// The next push, or `none`.
fn push(alloc: Global, client: &mut Client) -> Result<String, Fail> {
    match client.next_push(alloc)? {
        Some(message) => message_text(alloc, &message),
        None => Ok(String::from_str(alloc, "none")?),
    }
}

/// What a client has: the clock, how much is owed, the notes and the pointers of others, each as its id and its `x`.
pub(crate) fn client_text(alloc: Global, client: &Client) -> Result<String, Fail> {
    let clock = client.reached();
    let owed = client.owed();
    let mut text = format!(in alloc; "{clock} owes {owed}:")?;
    let store = client.store();
    for id in &store.ids(alloc)? {
        add(alloc, &mut text, id.as_str(), store.get(id.as_str()))?;
    }
    add_others(alloc, &mut text, client.others())?;
    Ok(text)
}

fn add_others(alloc: Global, text: &mut String, others: &Fields) -> Result<(), Fail> {
    for (id, record) in others.as_slice() {
        add(alloc, text, id.as_str(), Some(record))?;
    }
    Ok(())
}

fn add(alloc: Global, text: &mut String, id: &str, record: Option<&Val>) -> Result<(), Fail> {
    let x = x_of(record);
    let part = format!(in alloc; " {id}={x}")?;
    text.push_str(part.as_str())?;
    Ok(())
}

/// The `x` of a record, and -1 where it has none.
fn x_of(record: Option<&Val>) -> i64 {
    match record {
        Some(val) => match val.get("x") {
            Some(x) => x.as_int().unwrap_or(-1),
            None => -1,
        },
        None => -1,
    }
}
