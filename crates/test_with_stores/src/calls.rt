//! The calls by which steps change records, and the records that they put.
use crate::texts::{cut, with_words};
use rooms_val::{Text, Val};
use std::alloc::Global;
use std::test::Fail;
use test_with_cases::value;

/// A page, of which `@` stands for its name.
const PAGE: &str = r#"{"id":"page:@","typeName":"page"}"#;

/// A binding, of which `@` stands for its name and those of the shapes from which and to which it goes.
const BINDING: &str =
    r#"{"id":"binding:@","fromId":"shape:@","toId":"shape:@","typeName":"binding"}"#;

/// A geo shape of 10 by 10, of which `@` stands for its name, its index, its parent's id, its x and its y.
const GEO: &str =
    r#"{"id":"shape:@","index":"@","parentId":"@","props":{"h":10,"w":10},"type":"geo","typeName":"shape","x":@,"y":@}"#;

/// A frame of 100 by 50, with the same.
const FRAME: &str =
    r#"{"id":"shape:@","index":"@","parentId":"@","props":{"h":50,"w":100},"type":"frame","typeName":"shape","x":@,"y":@}"#;

/// A group, with the same. It has no size of its own.
const GROUP: &str =
    r#"{"id":"shape:@","index":"@","parentId":"@","props":{},"type":"group","typeName":"shape","x":@,"y":@}"#;

/// A call that changes the records of a store.
#[derive(Drop)]
pub(crate) enum Call {
    // Puts a record under an id.
    Put(Text, Val),
    // Sets a field of the record of an id to a value.
    Set(Text, Text, Val),
    // Takes the record of an id away.
    Take(Text),
    // Opens a transaction.
    Begin,
    // Closes the newest transaction, and keeps what was written in it.
    Commit,
    // Closes the newest transaction, and takes back what was written in it.
    Abort,
}

impl Call {
    /// The call of a step.
    pub(crate) fn read(alloc: Global, step: &str) -> Result<Call, Fail> {
        let (word, rest) = cut(step);
        match word {
            "page" => put(alloc, PAGE, rest),
            "bind" => put(alloc, BINDING, rest),
            "geo" => put(alloc, GEO, rest),
            "frame" => put(alloc, FRAME, rest),
            "group" => put(alloc, GROUP, rest),
            "set" => set(alloc, rest),
            "take" => Ok(Call::Take(Text::of(alloc, rest)?)),
            "begin" => Ok(Call::Begin),
            "commit" => Ok(Call::Commit),
            "abort" => Ok(Call::Abort),
            _ => Err(Fail::from("no step of a script")),
        }
    }
}

// Puts a record of a text under its id, with the words in the places of the text.
fn put(alloc: Global, text: &str, words: &str) -> Result<Call, Fail> {
    let found = value(alloc, with_words(alloc, text, words)?.as_str())?;
    let id = Text::of(alloc, text_at(&found, "id"))?;
    Ok(Call::Put(id, found))
}

// Sets a field of a record.
fn set(alloc: Global, rest: &str) -> Result<Call, Fail> {
    let (id, rest) = cut(rest);
    let (field, given) = cut(rest);
    let value = value(alloc, given)?;
    Ok(Call::Set(Text::of(alloc, id)?, Text::of(alloc, field)?, value))
}

// The text under a key of a record, which is empty where there is none.
pub(crate) fn text_at<'a>(holder: &'a Val, key: &str) -> &'a str {
    match holder.get(key) {
        Some(found) => found.as_text().unwrap_or(""),
        None => "",
    }
}
