//! How often a client writes to its store where it takes a message over pending patches: once under each id that the message
//! brings or that an edit names which it ends, and not at all where it commits the first edits alone.
use crate::calls::call;
use crate::client::{Client, new_client};
use crate::scripts::difference;
use std::alloc::Global;
use std::test::Fail;
use test_with_cases::{cells, rows};

/// How many patches are pending.
const PENDING: u32 = 400;

/// How many notes a client has, in how many edits it patches them, calls, which ` & ` parts and of which the last takes a
/// message, and how often they write.
const WRITES: &str = r#"
# A patch of one id, which one pending patch names, or each.
400 | 400 | take data patch 4 {"note:0":["patch",{"x":["put",3]}]} | 1
1 | 400 | take data patch 4 {"note:0":["patch",{"x":["put",3]}]} | 1
400 | 1 | take data patch 4 {"note:0":["patch",{"x":["put",3]}]} | 1
# The same in an answer.
400 | 400 | lost & connect 5 & take answer 5 wipe_presence 4 {"note:0":["patch",{"x":["put",3]}]} | 1
# A commit of the first edit, alone and beside a patch of another id.
400 | 400 | push & take data commit 4 1 | 0
400 | 400 | push & take data commit 4 1; patch 5 {"note:1":["patch",{"x":["put",3]}]} | 2
# A discard of the first edit, of one patch and of 400.
400 | 400 | push & take data discard 4 1 | 1
400 | 1 | push & take data discard 4 1 | 400
# A rebase of the first edit by a patch of the same id and of another one.
400 | 400 | push & take data rebase 4 1 {"note:0":["patch",{"x":["put",3]}]} | 1
400 | 400 | push & take data rebase 4 1 {"note:1":["patch",{"x":["put",3]}]} | 2
"#;

/// The part of a diff that puts a note.
fn put(alloc: Global, number: u32) -> Result<String, Fail> {
    let comma = if number == 0 { "" } else { "," };
    Ok(format!(in alloc;
        r#"{comma}"note:{number}":["put",{{"id":"note:{number}","typeName":"note","x":1}}]"#
    )?)
}

/// The line of an answer that brings so many notes.
fn answer_of(alloc: Global, notes: u32) -> Result<String, Fail> {
    let mut answer = String::from_str(alloc, "take answer 4 wipe_all 3 {")?;
    for number in 0..notes {
        answer.push_str(put(alloc, number)?.as_str())?;
    }
    answer.push_str("}")?;
    Ok(answer)
}

/// Does a call by its line.
fn do_call(alloc: Global, client: &mut Client, line: &str) -> Result<(), Fail> {
    drop(call(alloc, client, line)?);
    Ok(())
}

/// Connects a client, whose base has so many notes then.
fn connect(alloc: Global, client: &mut Client, notes: u32) -> Result<(), Fail> {
    do_call(alloc, client, "connect 4")?;
    let answer = answer_of(alloc, notes)?;
    do_call(alloc, client, answer.as_str())
}

/// The part of a diff that patches a note.
fn patch(alloc: Global, note: u32, place: u32) -> Result<String, Fail> {
    let comma = if place == 0 { "" } else { "," };
    Ok(format!(in alloc; r#"{comma}"note:{note}":["patch",{{"x":["put",2]}}]"#)?)
}

/// Makes an edit of so many patches, which has a number: of each note in turn, where there are so many notes.
fn edit(
    alloc: Global,
    client: &mut Client,
    number: u32,
    patches: u32,
    notes: u32,
) -> Result<(), Fail> {
    let mut edit = String::from_str(alloc, "edit {")?;
    for place in 0..patches {
        let note = number.saturating_mul(patches).saturating_add(place) % notes.max(1);
        edit.push_str(patch(alloc, note, place)?.as_str())?;
    }
    edit.push_str("}")?;
    do_call(alloc, client, edit.as_str())
}

/// Makes a connected client's pending patches in so many edits, of so many notes.
fn edit_all(alloc: Global, client: &mut Client, edits: u32, notes: u32) -> Result<(), Fail> {
    let patches = PENDING / edits.max(1);
    for number in 0..edits {
        edit(alloc, client, number, patches, notes)?;
    }
    Ok(())
}

/// How often a client writes at calls, of which the last takes a message.
fn count_writes(alloc: Global, client: &mut Client, calls: &str) -> Result<u64, Fail> {
    let before = client.store().writes();
    let mut told = String::new(alloc);
    for line in calls.split(" & ") {
        told = call(alloc, client, line)?;
    }
    if told.as_str() != "taken" {
        return Err(Fail::from("not taken"));
    }
    Ok(client.store().writes().saturating_sub(before))
}

/// What a new client gives in place of what a row says, if it does.
fn difference_at(alloc: Global, row: &str) -> Result<Option<String>, Fail> {
    let [notes, edits, calls, wanted] = cells(row);
    let notes = notes.parse::<u32>()?;
    let mut client = new_client(alloc)?;
    connect(alloc, &mut client, notes)?;
    edit_all(alloc, &mut client, edits.parse::<u32>()?, notes)?;
    let writes = count_writes(alloc, &mut client, calls)?;
    let writes = format!(in alloc; "{writes}")?;
    if writes.as_str() == wanted {
        return Ok(None);
    }
    difference(alloc, row, writes.as_str())
}

/// The first row that isn't met, with what is given in its place.
fn difference_in(alloc: Global, table: &str) -> Result<Option<String>, Fail> {
    for row in &rows(alloc, table)? {
        if let Some(difference) = difference_at(alloc, row)? {
            return Ok(Some(difference));
        }
    }
    Ok(None)
}

#[test]
fn writes_once_under_each_id_that_a_message_may_change(rt: HostRuntime) -> Result<(), Fail> {
    if let Some(difference) = difference_in(rt.alloc(), WRITES)? {
        assert_eq!(rt; difference.as_str(), "");
    }
    Ok(())
}
