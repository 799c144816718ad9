//! Scripts of steps with a map or a list and with copies of it:
//! - `map`, `list`: an empty one;
//! - `put k v`: a field is put, and what stood at its key, or `-`; a k of `.` is the empty text;
//! - `take k`: what is taken, or `-`;
//! - `get k`, `of k`: what stands there, by the fields and by the value;
//! - `push v`, `at n`: an item is pushed, and the item at a place;
//! - `into_vec`: how many items a list gives, which is no more then;
//! - `copy`: a copy is made, which has the next number;
//! - `turn n`: the map or list is exchanged for the copy of a number;
//! - `show`: what is printed of it.
use crate::played::differs;
use rooms_val::{Fields, Text, Val, Vals};
use std::alloc::Global;
use std::mem::{replace, swap};
use std::test::Fail;
use test_with_cases::{cells, rows, val_text, value};

/// The first step of a script that gives something else, with what it gives.
pub(crate) fn script_difference(alloc: Global, table: &str) -> Result<Option<String>, Fail> {
    let mut now = Val::Null;
    let mut copies = Vec::new(alloc);
    for row in &rows(alloc, table)? {
        let [step, wanted, ..] = cells(row);
        let found = answer(alloc, &mut now, &mut copies, step)?;
        if let Some(difference) = differs(alloc, row, found.as_str(), wanted)? {
            return Ok(Some(difference));
        }
    }
    Ok(None)
}

// The first word of a text, and what comes after it.
fn cut(text: &str) -> (&str, &str) {
    text.split_once(' ').unwrap_or((text, ""))
}

// What a step gives.
fn answer(alloc: Global, now: &mut Val, copies: &mut Vec<Val>, step: &str) -> Result<String, Fail> {
    let (word, rest) = cut(step);
    match word {
        "map" => begin(alloc, now, Val::Map(Fields::new(alloc))),
        "list" => begin(alloc, now, Val::List(Vals::new(alloc))),
        "put" => put(alloc, now, rest),
        "take" => take(alloc, now, rest),
        "push" => push(alloc, now, rest),
        "into_vec" => into_vec(alloc, now),
        "copy" => copy(alloc, now, copies),
        "turn" => turn(alloc, now, copies, rest),
        _ => look(alloc, now, word, rest),
    }
}

// What a step gives that only looks.
fn look(alloc: Global, now: &Val, word: &str, rest: &str) -> Result<String, Fail> {
    match (word, now) {
        ("get", Val::Map(fields)) => text_of(alloc, fields.get(rest)),
        ("of", _) => text_of(alloc, now.get(rest)),
        ("at", Val::List(items)) => text_of(alloc, items.at(rest.parse::<usize>()?)),
        ("show", _) => val_text(alloc, now),
        _ => Err(Fail::from("no step of a script")),
    }
}

// What is printed of a value that there may be, or `-`.
fn text_of(alloc: Global, val: Option<&Val>) -> Result<String, Fail> {
    match val {
        Some(val) => val_text(alloc, val),
        None => Ok(String::from_str(alloc, "-")?),
    }
}

fn begin(alloc: Global, now: &mut Val, val: Val) -> Result<String, Fail> {
    *now = val;
    val_text(alloc, now)
}

fn put(alloc: Global, now: &mut Val, rest: &str) -> Result<String, Fail> {
    let (key, text) = cut(rest);
    let key = if key == "." { "" } else { key };
    let Val::Map(fields) = now else {
        return Err(Fail::from("a map was wanted"));
    };
    let old = fields.put(Text::of(alloc, key)?, value(alloc, text)?)?;
    text_of(alloc, old.as_ref())
}

fn take(alloc: Global, now: &mut Val, key: &str) -> Result<String, Fail> {
    let Val::Map(fields) = now else {
        return Err(Fail::from("a map was wanted"));
    };
    let old = fields.take(key)?;
    text_of(alloc, old.as_ref())
}

fn push(alloc: Global, now: &mut Val, text: &str) -> Result<String, Fail> {
    let Val::List(items) = now else {
        return Err(Fail::from("a list was wanted"));
    };
    items.push(value(alloc, text)?)?;
    Ok(String::from_str(alloc, "pushed")?)
}

fn into_vec(alloc: Global, now: &mut Val) -> Result<String, Fail> {
    let Val::List(items) = replace(now, Val::Null) else {
        return Err(Fail::from("a list was wanted"));
    };
    let items = items.into_vec()?;
    Ok(format!(in alloc; "{}", items.len())?)
}

fn copy(alloc: Global, now: &Val, copies: &mut Vec<Val>) -> Result<String, Fail> {
    let made = match now {
        Val::Map(fields) => Val::Map(fields.copy(alloc)?),
        Val::List(items) => Val::List(items.copy(alloc)?),
        _ => return Err(Fail::from("a map or a list was wanted")),
    };
    copies.push(made)?;
    Ok(String::from_str(alloc, "copied")?)
}

fn turn(alloc: Global, now: &mut Val, copies: &mut [Val], number: &str) -> Result<String, Fail> {
    let Some(copy) = copies.get_mut(number.parse::<usize>()?) else {
        return Err(Fail::from("a copy was wanted"));
    };
    swap(now, copy);
    Ok(String::from_str(alloc, "turned")?)
}
