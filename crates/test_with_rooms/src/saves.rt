//! Saved rooms as texts.
//!
//! A saved room is written as `{"clock":3,"documents":[[1,{..}]],"start":0,"tombstones":[[3,"shape:a"]]}`: each record and each
//! removed id stands behind its clock.
use crate::texts::{with_letters, with_parts};
use rooms_val::{Text, Val};
use std::alloc::Global;
use std::test::Fail;
use sync_room::{LoadFault, SavedRecord, SavedRoom, SavedTomb};
use test_with_boards::board_text;
use test_with_cases::{val_text, value};

// The text of a saved room.
pub(crate) fn saved_text(alloc: Global, saved: &SavedRoom) -> Result<String, Fail> {
    let clock = saved.clock;
    let start = saved.start;
    let documents = records_text(alloc, &saved.documents)?;
    let tombs = tombs_text(alloc, &saved.tombstones)?;
    Ok(format!(in alloc;
        r#"{{"clock":{clock},"documents":[{}],"start":{start},"tombstones":[{}]}}"#,
        documents.as_str(),
        tombs.as_str()
    )?)
}

// Saved records, each behind its clock.
fn records_text(alloc: Global, documents: &[SavedRecord]) -> Result<String, Fail> {
    let mut out = String::new(alloc);
    for saved in documents {
        let text = val_text(alloc, &saved.record)?;
        add_pair(alloc, &mut out, saved.clock, text.as_str())?;
    }
    Ok(out)
}

// Removed ids, each behind its clock.
fn tombs_text(alloc: Global, tombstones: &[SavedTomb]) -> Result<String, Fail> {
    let mut out = String::new(alloc);
    for tomb in tombstones {
        let text = val_text(alloc, &Val::Text(tomb.id.copy(alloc)?))?;
        add_pair(alloc, &mut out, tomb.clock, text.as_str())?;
    }
    Ok(out)
}

// Adds a text behind a clock to others.
fn add_pair(alloc: Global, out: &mut String, clock: i64, text: &str) -> Result<(), Fail> {
    if !out.is_empty() {
        out.push_str(",")?;
    }
    let pair = format!(in alloc; "[{clock},{text}]")?;
    out.push_str(pair.as_str())?;
    Ok(())
}

// The saved room of a text.
pub(crate) fn saved_of(alloc: Global, text: &str) -> Result<SavedRoom, Fail> {
    let text = with_letters(alloc, text)?;
    let text = board_text(alloc, text.as_str())?;
    let text = with_parts(alloc, text.as_str())?;
    let val = value(alloc, text.as_str())?;
    Ok(SavedRoom {
        clock: clock_in(val.get("clock"))?,
        start: clock_in(val.get("start"))?,
        documents: records_of(alloc, list_in(val.get("documents"))?)?,
        tombstones: tombs_of(alloc, list_in(val.get("tombstones"))?)?,
    })
}

// The records of a list of them, each behind its clock.
fn records_of(alloc: Global, list: &[Val]) -> Result<Vec<SavedRecord>, Fail> {
    let mut documents = Vec::new(alloc);
    for val in list {
        let (clock, found) = pair_of(val)?;
        documents.push(SavedRecord {
            record: found.copy(alloc)?,
            clock,
        })?;
    }
    Ok(documents)
}

// The removed ids of a list of them, each behind its clock.
fn tombs_of(alloc: Global, list: &[Val]) -> Result<Vec<SavedTomb>, Fail> {
    let mut tombstones = Vec::new(alloc);
    for val in list {
        let (clock, found) = pair_of(val)?;
        let id = found.as_text().ok_or(NOT_SAVED)?;
        tombstones.push(SavedTomb {
            id: Text::of(alloc, id)?,
            clock,
        })?;
    }
    Ok(tombstones)
}

// What is told of a text that is no saved room.
const NOT_SAVED: &str = "no saved room";

// A clock, and the value behind it.
fn pair_of(val: &Val) -> Result<(i64, &Val), Fail> {
    let list = list_in(Some(val))?;
    let found = list.get(1).ok_or(NOT_SAVED)?;
    Ok((clock_in(list.first())?, found))
}

// The clock that a value is.
fn clock_in(val: Option<&Val>) -> Result<i64, Fail> {
    match val {
        Some(Val::Int(clock)) => Ok(*clock),
        _ => Err(Fail::from(NOT_SAVED)),
    }
}

// The list that a value is.
fn list_in(val: Option<&Val>) -> Result<&[Val], Fail> {
    match val {
        Some(Val::List(items)) => Ok(items.as_slice()),
        _ => Err(Fail::from(NOT_SAVED)),
    }
}

// Why no room begins from a saved one, as text.
pub(crate) fn fault_text(alloc: Global, fault: &LoadFault) -> Result<String, Fail> {
    match fault {
        LoadFault::Clocks => Ok(String::from_str(alloc, "Clocks")?),
        LoadFault::BadRecord(id) => Ok(format!(in alloc; "BadRecord {}", id.as_str())?),
        LoadFault::TooLarge => Ok(String::from_str(alloc, "TooLarge")?),
        LoadFault::OutOfMemory => Err(Fail::from("out of memory")),
    }
}
