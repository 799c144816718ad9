//! What the words of the command line ask for.
ghost use Rattle.std.specs.Prelude.{◌≡◌, string_bytes, map, IfSome};
ghost use Rattle.rooms.specs.Jobs.{job_named, word_named, replay_named, make_named, serve_named, join_named, numbers_named, HasRooms};

use crate::numbers::number_between;

/// What a run is to do.
#[derive(Clone, Copy, Debug, PartialEq, Eq)]
pub enum Job {
    /// The recording in the source is replayed; with `trace` its messages are printed too.
    Replay {
        trace: bool,
    },
    /// The recording in the source is replayed, and the line of the room that it leaves is printed.
    Save,
    /// The recording in the source goes on from a saved room, whose line stands before it.
    Restore,
    /// A recording of so many draws, 1 to 100,000, is made by a seed and stepped; with `print` it is
    /// printed, and else summed up.
    Make {
        seed: u64,
        size: u32,
        print: bool,
    },
    /// So many rooms, 1 to 16, are served on a port, 1 to 65,535, by so many workers, 1 to 16, each for so many links, 1
    /// to 1,000,000.
    Serve {
        port: u16,
        workers: u32,
        rooms: u32,
        links: u32,
    },
    /// The script in the source is played by a client of a room, 0 to 15, of the server on a port, 1 to 65,535.
    Join {
        port: u16,
        room: u32,
    },
}

/// The most draws of a made recording.
pub const MOST_DRAWS: u32 = 100_000;

/// The greatest port.
pub const MOST_PORT: u16 = 65_535;

/// The most workers of a server.
pub const MOST_WORKERS: u32 = 16;

/// The most rooms of a server.
pub const MOST_ROOMS: u32 = 16;

/// The greatest number of a room.
pub const LAST_ROOM: u32 = 15;

/// The most links of a worker.
pub const MOST_LINKS: u32 = 1_000_000;

/// The job that the words ask for, without the program's name; none where they are in no row of the
/// usage.
pub fn job_of(words: &[String]) -> Option<Job>
    ensures job { result ≡ job_named (map string_bytes words.now) }
    ensures rooms { IfSome result HasRooms }
{
    match words {
        [word] => alone(word.as_str()),
        [word, flag] => if word.as_str() == "replay" {
            replay_of(flag.as_str())
        } else {
            None
        },
        [word, first, second] => by_numbers(word.as_str(), first.as_str(), second.as_str()),
        [word, seed, size, flag] => if word.as_str() == "make" && flag.as_str() == "--print" {
            make_of(seed.as_str(), size.as_str(), true)
        } else {
            None
        },
        [word, port, workers, rooms, links] => if word.as_str() == "serve" {
            serve_of(
                port.as_str(),
                workers.as_str(),
                rooms.as_str(),
                links.as_str(),
            )
        } else {
            None
        },
        _ => None,
    }
}

// The job that a word alone asks for.
fn alone(word: &str) -> Option<Job>
    ensures job { result ≡ word_named word.now }
    ensures rooms { IfSome result HasRooms }
{
    match word {
        "replay" => Some(Job::Replay { trace: false }),
        "restore" => Some(Job::Restore),
        _ => None,
    }
}

// The job that a flag of `replay` asks for.
fn replay_of(flag: &str) -> Option<Job>
    ensures job { result ≡ replay_named flag.now }
    ensures rooms { IfSome result HasRooms }
{
    match flag {
        "--trace" => Some(Job::Replay { trace: true }),
        "--save" => Some(Job::Save),
        _ => None,
    }
}

// The job that a word with two numbers asks for.
fn by_numbers(word: &str, first: &str, second: &str) -> Option<Job>
    ensures job { result ≡ numbers_named word.now first.now second.now }
    ensures rooms { IfSome result HasRooms }
{
    match word {
        "make" => make_of(first, second, false),
        "join" => join_of(first, second),
        _ => None,
    }
}

// The job that a seed and a size ask for.
fn make_of(seed: &str, size: &str, print: bool) -> Option<Job>
    ensures job { result ≡ make_named seed.now size.now print }
    ensures rooms { IfSome result HasRooms }
{
    let seed = number_between(seed, 0, u64::MAX)?;
    let size = number_between(size, 1, MOST_DRAWS as u64)?;
    Some(Job::Make {
        seed,
        size: size as u32,
        print,
    })
}

// The job that the numbers of a server ask for.
fn serve_of(port: &str, workers: &str, rooms: &str, links: &str) -> Option<Job>
    ensures job { result ≡ serve_named port.now workers.now rooms.now links.now }
    ensures rooms { IfSome result HasRooms }
{
    let port = number_between(port, 1, MOST_PORT as u64)?;
    let workers = number_between(workers, 1, MOST_WORKERS as u64)?;
    let rooms = number_between(rooms, 1, MOST_ROOMS as u64)?;
    let links = number_between(links, 1, MOST_LINKS as u64)?;
    Some(Job::Serve {
        port: port as u16,
        workers: workers as u32,
        rooms: rooms as u32,
        links: links as u32,
    })
}

// The job that the numbers of a client ask for.
fn join_of(port: &str, room: &str) -> Option<Job>
    ensures job { result ≡ join_named port.now room.now }
    ensures rooms { IfSome result HasRooms }
{
    let port = number_between(port, 1, MOST_PORT as u64)?;
    let room = number_between(room, 0, LAST_ROOM as u64)?;
    Some(Job::Join {
        port: port as u16,
        room: room as u32,
    })
}
