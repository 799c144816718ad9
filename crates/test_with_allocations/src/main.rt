//! The program `test_with_allocations`: it plays courses of calls, so that `checks/allocations` can have each allocation of a course
//! refused. Two lines come in: `again` or `beside` with how many allocations are made before, and the names of courses.
//!
//! Of a course it prints `begun`, then the word of a call of which memory was refused, if there is one, and `as written` or `as
//! beside`, or what isn't so. Where something isn't so, and where memory is refused outside of the calls, it ends with status 1.
#![tactic(auto)]

mod answers;
mod calls;
mod clients;
mod courses;
mod peers;
mod player;
mod records;
mod stores;

use clients::PlayedClient;
use courses::{BOARD, CLIENT, MARKS, PEER, PROBES, SEEN, STORE, STORE_PROBES};
use peers::PlayedPeer;
use player::{Manner, play};
use records::PlayedBoard;
use std::alloc::Global;
use std::io;
use std::io::Print;
use std::test::Fail;
use stores::{counting_store, plain_store};

/// Plays the course of a name. `false` if something isn't as it is to be, which is printed.
fn play_named(rt: &impl Print, alloc: Global, name: &str, how: &Manner) -> Result<bool, Fail> {
    match name {
        "peer" => play_peer(rt, alloc, PEER, how),
        "marks" => play_peer(rt, alloc, MARKS, how),
        "seen" => play_peer(rt, alloc, SEEN, how),
        "client" => play_client(rt, alloc, how),
        "map" => play_map(rt, alloc, how),
        "counting" => play_counting(rt, alloc, how),
        "board" => play_board(rt, alloc, how),
        _ => Err(Fail::from("no course")),
    }
}

fn play_peer(rt: &impl Print, alloc: Global, course: &str, how: &Manner) -> Result<bool, Fail> {
    let mut peer = PlayedPeer::new(alloc)?;
    let mut twin = PlayedPeer::new(alloc)?;
    play(rt, alloc, &mut peer, &mut twin, course, PROBES, how)
}

fn play_client(rt: &impl Print, alloc: Global, how: &Manner) -> Result<bool, Fail> {
    let mut client = PlayedClient::new(alloc)?;
    let mut twin = PlayedClient::new(alloc)?;
    play(rt, alloc, &mut client, &mut twin, CLIENT, PROBES, how)
}

fn play_map(rt: &impl Print, alloc: Global, how: &Manner) -> Result<bool, Fail> {
    let mut store = plain_store(alloc)?;
    let mut twin = plain_store(alloc)?;
    play(rt, alloc, &mut store, &mut twin, STORE, STORE_PROBES, how)
}

fn play_counting(rt: &impl Print, alloc: Global, how: &Manner) -> Result<bool, Fail> {
    let mut store = counting_store(alloc)?;
    let mut twin = counting_store(alloc)?;
    play(rt, alloc, &mut store, &mut twin, STORE, STORE_PROBES, how)
}

fn play_board(rt: &impl Print, alloc: Global, how: &Manner) -> Result<bool, Fail> {
    let mut board = PlayedBoard::new(alloc)?;
    let mut twin = PlayedBoard::new(alloc)?;
    play(rt, alloc, &mut board, &mut twin, BOARD, STORE_PROBES, how)
}

fn main(rt: HostRuntime) -> Result<(), Fail> {
    let alloc = rt.alloc();
    let input = io::read_to_string(alloc, rt.stdin())?;
    let (first, names) = input.as_str().split_once('\n').unwrap_or(("", ""));
    let how = Manner::read(first)?;
    for name in names.trim_end().split(' ') {
        if !play_named(&rt, alloc, name, &how)? {
            return Err(Fail::from("not as it is to be"));
        }
    }
    Ok(())
}
