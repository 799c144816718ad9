//! The words of the command line, and what the program says of itself.
ghost use Rattle.std.specs.Prelude.{◌≡◌, [], string_bytes, map, option_map, OnOk};
ghost use Rattle.std.specs.Io.KnownBytes.{Appends};
ghost use Rattle.rooms.specs.Words.{text_asked, text_of};

use std::io::Write;
use std::{env, io};

/// The rows of words that the program takes.
const USAGE_LINE: &str =
    "usage: rooms replay [--trace / --save] / restore / make SEED SIZE [--print] / serve PORT WORKERS ROOMS LINKS / join PORT ROOM\n";

/// What each word means.
pub(crate) const HELP: &str = "\
usage: rooms replay [--trace / --save] / restore / make SEED SIZE [--print] / serve PORT WORKERS ROOMS LINKS / join PORT ROOM

  replay                   replays the recording on standard input, as it comes: prints what its clients show and watch,
                           and what the room holds at its end
  replay --trace           prints the messages between the clients and the room too
  replay --save            prints the line of the saved room at the recording's end instead
  restore                  reads the line of a saved room, and then replays a recording that goes on from that room; a room of
                           an older version is brought to that of the recording's header
  make SEED SIZE           makes a recording of SIZE draws, 1 to 100,000, by a seed below 2^64, and prints a line: what
                           the room holds at its end, and how many events were taken and left out
  make SEED SIZE --print   prints the recording itself
  serve PORT WORKERS ROOMS LINKS
                           serves ROOMS rooms, 1 to 16, over WebSocket on 127.0.0.1:PORT, by WORKERS workers, 1 to 16: each
                           serves one client after another, up to LINKS, 1 to 1,000,000; then prints what came of them
  join PORT ROOM           joins a room, 0 to 15, of the server on 127.0.0.1:PORT, as a client that plays the script on standard
                           input, as it comes: sends what the client does, and prints what it shows and watches
  --help                   prints this
  --version                prints the program's name and version
";

/// The program's name and version.
pub(crate) const VERSION: &str = "rooms 0.1.0\n";

/// The words of the command line, without the program's name.
pub(crate) fn words_of(rt: &HostRuntime) -> io::Result<Vec<String>> {
    let mut words = Vec::new(rt.alloc());
    for word in env::args(rt)?.skip(1) {
        words.push(word)?;
    }
    Ok(words)
}

/// The help or the version, where the one word asks for it.
pub(crate) fn help_or_version(words: &[String]) -> Option<&'static str>
    ensures { option_map (λ text. text.now) result
        ≡ text_asked HELP.now VERSION.now (map string_bytes words.now) }
{
    match words {
        [word] => text_of(word.as_str()),
        _ => None,
    }
}

fn text_of(word: &str) -> Option<&'static str>
    ensures { option_map (λ text. text.now) result ≡ text_of HELP.now VERSION.now word.now }
{
    match word {
        "--help" => Some(HELP),
        "--version" => Some(VERSION),
        _ => None,
    }
}

/// What is told of a status on standard error; nothing of 0.
fn message_of(status: u8) -> &'static str
    ensures usage { status ≡ 2 → result.now ≡ USAGE_LINE.now }
    ensures silent { status ≡ 0 → result.now ≡ [] }
{
    match status {
        2 => USAGE_LINE,
        3 => "rooms: the recording is refused; the last line printed says where and why\n",
        4 => "rooms: standard input can't be read\n",
        5 => "rooms: standard output can't be written\n",
        6 => "rooms: out of memory\n",
        8 => "rooms: the link failed\n",
        9 => "rooms: what the room sent is refused; the last line printed says where and why\n",
        _ => "",
    }
}

/// Tells on standard error why the program ends with a status: for words that ask for nothing, which
/// words there are.
pub(crate) fn tell<W: Write>(status: u8, errors: &mut W) -> io::Result<()>
    ensures told { status ≡ 2
        → OnOk result (Appends (W.contents errors.old) (W.contents errors.new) USAGE_LINE.now) }
    ensures silent { status ≡ 0 → errors.new ≡ errors.old }
{
    let message = message_of(status);
    if !message.is_empty() {
        errors.write_all(message.as_bytes())?;
    }
    Ok(())
}
