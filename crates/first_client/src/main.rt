//! Ann and Bob draw on one board, each at once, and hear of each other when the board settles.
#![tactic(auto)]

use anyhow::Result;
use shared_board::{Board, ClientId};
use std::io;
use std::io::Write;

/// The version of the schema of all that take part.
const VERSION: u32 = 3;

// A new page, and two changes of it.
const DRAW: &str =
    r#"{"page:p":["put",{"id":"page:p","index":"a0","meta":{},"name":"Plan","typeName":"page"}]}"#;

const RENAME: &str = r#"{"page:p":["patch",{"name":["put","Plan B"]}]}"#;

const MOVE: &str = r#"{"page:p":["patch",{"index":["put","a1"]}]}"#;

fn main(rt: HostRuntime) -> Result<()> {
    let mut board = Board::new(rt.alloc(), VERSION)?;
    let ann = board.join(VERSION)?;
    let bob = board.join(VERSION)?;
    draw(&rt, &mut board, ann, bob)
}

/// What Ann and Bob do, with what both show after each step.
fn draw(rt: &HostRuntime, board: &mut Board, ann: ClientId, bob: ClientId) -> Result<()> {
    board.edit(ann, DRAW)?;
    show(rt, "Ann draws a page by herself", board, ann, bob)?;

    board.connect(ann)?;
    board.connect(bob)?;
    board.settle()?;
    show(rt, "both are connected", board, ann, bob)?;

    board.edit(ann, MOVE)?;
    board.edit(bob, RENAME)?;
    show(rt, "Ann moves it while Bob renames it", board, ann, bob)?;

    board.settle()?;
    show(rt, "both have heard", board, ann, bob)
}

/// Prints what both show.
fn show(rt: &HostRuntime, when: &str, board: &Board, ann: ClientId, bob: ClientId) -> Result<()> {
    println!(rt; "{when}")?;
    show_one(rt, "Ann", board, ann)?;
    show_one(rt, "Bob", board, bob)
}

/// Prints what a client shows, and how much it has pending.
fn show_one(rt: &HostRuntime, name: &str, board: &Board, client: ClientId) -> Result<()> {
    let text = board.document(client)?.print(rt.alloc())?;
    let owed = board.owed(client)?;
    print!(rt; "  {name}, {owed} pending: ")?;
    io::writer(rt).write_all(text.as_slice())?;
    println!(rt; "")?;
    Ok(())
}
