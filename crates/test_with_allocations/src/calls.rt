//! Calls, as lines have them.
use field_ops::{Diff, read_diff};
use rooms_val::{Text, Val};
use shape_tree::View;
use shape_tree::limits::MOST_LEVELS;
use std::alloc::Global;
use std::test::Fail;
use sync_msgs::ServerMessage;
use test_with_cases::value;
use tl_rules::{Level, TlKey};
use wire_msgs::read_server;

/// A call, with what it is given.
#[derive(Drop)]
pub(crate) enum Call {
    // Calls of a client and of a peer.
    Edit(Diff),
    Presence(Val),
    Connect(u64),
    NextPush,
    Take(ServerMessage),
    Lost,
    // Calls of a peer.
    Mark(Text),
    Undo,
    Redo,
    Bail(Text),
    View(View),
    Told,
    // Calls of a store.
    Write(Text, Option<Val>),
    Apply(Diff),
    // Calls of a store of which views are asked.
    Begin,
    Commit,
    Abort,
    Ask(TlKey),
    Watch(TlKey),
    Due,
}

impl Call {
    /// The call of a line.
    pub(crate) fn read(alloc: Global, line: &str) -> Result<Call, Fail> {
        let (word, rest) = cut(line);
        match word {
            "edit" => Ok(Call::Edit(diff_of(alloc, rest)?)),
            "presence" => Ok(Call::Presence(value(alloc, rest)?)),
            "connect" => Ok(Call::Connect(rest.parse::<u64>()?)),
            "next_push" => Ok(Call::NextPush),
            "take" => Ok(Call::Take(read_server(alloc, rest.as_bytes())?)),
            "lost" => Ok(Call::Lost),
            "mark" => Ok(Call::Mark(Text::of(alloc, rest)?)),
            "undo" => Ok(Call::Undo),
            "redo" => Ok(Call::Redo),
            "bail" => Ok(Call::Bail(Text::of(alloc, rest)?)),
            "view" => Ok(Call::View(view_of(alloc, rest)?)),
            "told" => Ok(Call::Told),
            "write" => write_of(alloc, rest),
            "remove" => Ok(Call::Write(Text::of(alloc, rest)?, None)),
            "apply" => Ok(Call::Apply(diff_of(alloc, rest)?)),
            "begin" => Ok(Call::Begin),
            "commit" => Ok(Call::Commit),
            "abort" => Ok(Call::Abort),
            "ask" => Ok(Call::Ask(key_of(alloc, rest)?)),
            "watch" => Ok(Call::Watch(key_of(alloc, rest)?)),
            "due" => Ok(Call::Due),
            _ => Err(Fail::from("no call")),
        }
    }
}

/// The first word of a text, and what comes after it.
pub(crate) fn cut(text: &str) -> (&str, &str) {
    text.split_once(' ').unwrap_or((text, ""))
}

/// The diff of a text.
fn diff_of(alloc: Global, text: &str) -> Result<Diff, Fail> {
    Ok(read_diff(alloc, &value(alloc, text)?)?)
}

/// The write of a record under an id.
fn write_of(alloc: Global, text: &str) -> Result<Call, Fail> {
    let (id, record) = cut(text);
    let id = Text::of(alloc, id)?;
    Ok(Call::Write(id, Some(value(alloc, record)?)))
}

/// The view of a text.
fn view_of(alloc: Global, text: &str) -> Result<View, Fail> {
    let (kind, id) = cut(text);
    let id = Text::of(alloc, id)?;
    match kind {
        "box" => Ok(View::Box(id)),
        "tree" => Ok(View::Tree(id)),
        "count" => Ok(View::Count(id)),
        _ => Err(Fail::from("no view")),
    }
}

/// The key of a text.
fn key_of(alloc: Global, text: &str) -> Result<TlKey, Fail> {
    let (kind, id) = cut(text);
    let id = Text::of(alloc, id)?;
    match kind {
        "record" => Ok(TlKey::Rec(id)),
        "children" => Ok(TlKey::ByParent(id)),
        "bound" => Ok(TlKey::Bound(id)),
        "tree" => Ok(TlKey::Tree(id)),
        "count" => Ok(TlKey::Count(id)),
        "box" => Ok(TlKey::Box(id, Level::of(MOST_LEVELS))),
        _ => Err(Fail::from("no key")),
    }
}
