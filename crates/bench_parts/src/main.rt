//! The program `bench_parts`: one call of a crate below the program done many times, so that a script can time it. Its words are
//! `bench_parts WORD SIZE CALLS STEP`:
//!
//! - `read_value` reads a value of about SIZE bytes at each call, `weigh_value` weighs it, `copy_value` copies it and
//!   `print_value` prints it. They come to what the value weighs.
//! - `touch` touches SIZE ids in a `ChangeList`, and then one of them at each call, STEP further than that of the call before. It
//!   comes to the last clock.
//! - `copy` makes the texts of the same calls, and touches nothing by them. It comes to how many bytes were copied.
//! - `push` pushes a patch of one of SIZE pages into a room at each call. It comes to the room's clock.
//! - `return` lets at each call a session come back to a room of SIZE pages that has reached its clock, gives it the answer and lets
//!   it leave. It comes to how many were told to keep what they have.
//! - `take` lets a client of SIZE shapes take a data message at each call, which patches one of them, and `make` makes the same
//!   client and messages and takes none. They come to the clock that the client reached.
//! - `read_data` reads at each call a data message with SIZE patches, and `print_data` prints it. They come to how many events
//!   were read, or how many bytes were printed.
//! - `marks` keeps at each call the inverse of an edit of one of SIZE shapes, without a mark. It comes to how many shapes an undo
//!   of all of them changes.
//! - `cut` cuts a text of SIZE bytes into pieces at each call, and puts them together again. It comes to how many bytes came
//!   together.
//! - `compute` sets one of SIZE atoms of a `Graph` at each call, STEP further than that of the call before, and asks for ten keys
//!   that hang on it. It comes to the sum of their values.
//! - `write` writes an atom of SIZE ids at each call, all in one transaction. It comes to how often the atom changed. `hold` only
//!   makes and holds such a list at each call. It comes to how many are held.
//! - `views` moves one of SIZE shapes at each call, which stand in frames of 40 on a page, and has the watches of the page's
//!   count and of the first frame's box tell what changed. It comes to how much they told.
//! - `put` puts SIZE shapes on one page at each call, in one transaction of a new store. It comes to how many records there are.
//! - `seek` asks at each call for those of SIZE shapes that have one x, with an index, and `walk` without. They come to how many
//!   there were.
//! - `turn` lets SIZE sessions, 1 to 8, push a patch of a page of its own at each call, by turns, into STEP rooms, 1 to 8. `share`
//!   has as many threads do the same in running rooms, each for a session. They come to the sum of the rooms' clocks.
//! - `wait` has STEP threads, 1 to 8, each push a patch of SIZE pages of its own into one running room at each call. It comes to the
//!   room's clock.
//! - `raise` takes SIZE shapes of version 1 up to version 4 at each call, as one map, and `raise_each` one by one, into a list.
//!   They come to how many were taken up.
//! - `all` is each of these, one after another.
//!
//! For each call that was asked for the program prints its words, and what the call comes to.
//!
//! A call's value, as a store or a room, is made in one function and passed on by reference, so that its end is proved once.
#![tactic(auto)]

ghost use Rattle.std.specs.Prelude.{◌≡◌, ◌<◌};

mod boards;
mod clients;
mod cutting;
mod made;
mod marks;
mod messages;
mod raising;
mod returns;
mod rooms;
mod sharing;
mod signals;
mod touching;
mod transactions;
mod turns;
mod values;

use boards::Work;
use clients::Messages;
use made::ids_of;
use raising::Raise;
use rooms_val::{Mem, Steps, Text};
use sharing::SHARED;
use std::alloc::Global;
use std::marker::Brand;
use std::process::ExitCode;
use std::sync::Wait;
use std::sync::ledger::{Blank, Ledger};
use std::thread::Threads;
use std::{env, io};
use touching::Calls;
use values::OnValue;

const USAGE: &str =
    "usage: bench_parts WORD SIZE CALLS STEP, where WORD is all or one of read_value weigh_value copy_value print_value touch copy push return take make read_data print_data marks cut compute write hold views put seek walk raise raise_each turn share wait";

/// Which call is done many times.
#[derive(Clone, Copy)]
enum Call {
    OnValue(OnValue),
    OnShapes(OnShapes),
    Push,
    Return,
    Turn,
    Cut,
    Compute,
    Write,
    Hold,
}

/// A call that is given the ids of shapes.
#[derive(Clone, Copy)]
enum OnShapes {
    Touch,
    Copy,
    Client(Messages),
    ReadData,
    PrintData,
    Marks,
    Store(Work),
    Raise(Raise),
}

/// Each call, by its word.
const CALLS: [(&str, Call); 24] = [
    ("read_value", Call::OnValue(OnValue::Read)),
    ("weigh_value", Call::OnValue(OnValue::Weigh)),
    ("copy_value", Call::OnValue(OnValue::Copy)),
    ("print_value", Call::OnValue(OnValue::Print)),
    ("touch", Call::OnShapes(OnShapes::Touch)),
    ("copy", Call::OnShapes(OnShapes::Copy)),
    ("push", Call::Push),
    ("return", Call::Return),
    ("turn", Call::Turn),
    ("take", Call::OnShapes(OnShapes::Client(Messages::Taken))),
    ("make", Call::OnShapes(OnShapes::Client(Messages::Made))),
    ("read_data", Call::OnShapes(OnShapes::ReadData)),
    ("print_data", Call::OnShapes(OnShapes::PrintData)),
    ("marks", Call::OnShapes(OnShapes::Marks)),
    ("cut", Call::Cut),
    ("compute", Call::Compute),
    ("write", Call::Write),
    ("hold", Call::Hold),
    ("views", Call::OnShapes(OnShapes::Store(Work::View))),
    ("put", Call::OnShapes(OnShapes::Store(Work::Put))),
    ("seek", Call::OnShapes(OnShapes::Store(Work::Seek))),
    ("walk", Call::OnShapes(OnShapes::Store(Work::Walk))),
    ("raise", Call::OnShapes(OnShapes::Raise(Raise::Together))),
    ("raise_each", Call::OnShapes(OnShapes::Raise(Raise::Alone))),
];

impl Call {
    /// Does the call on so many ids, or bytes, and returns what it comes to. The steps are counted for nobody.
    fn do_times(self, alloc: Global, size: u32, calls: Calls) -> Mem<i64> {
        self.repeated_in::<Brand>(Blank::new(1), alloc, size, calls)
    }

    fn repeated_in<L: Ledger>(
        self,
        blank: Blank,
        alloc: Global,
        size: u32,
        calls: Calls,
    ) -> Mem<i64>
        requires name { blank.name ≡ L.name }
        requires parts { blank.parts ≡ L.parts }
        requires some { 0 < blank.parts }
    {
        let mut steps = Steps::<L>::new(blank);
        match self {
            Call::OnValue(call) => values::do_on_value(call, alloc, size, calls.count),
            Call::OnShapes(call) => {
                call.do_on_shapes(alloc, &ids_of(alloc, "shape", size)?, calls, &mut steps)
            }
            Call::Push => rooms::push_times(alloc, size, calls, &mut steps),
            Call::Return => returns::return_times(alloc, size, calls.count, &mut steps),
            Call::Turn => turns::push_by_turns(alloc, size, calls, &mut steps),
            Call::Cut => cutting::cut(alloc, size, calls.count),
            Call::Compute => signals::compute_times(alloc, size, calls, &mut steps),
            Call::Write => transactions::write_times(alloc, size, calls.count),
            Call::Hold => transactions::hold_times(alloc, size, calls.count),
        }
    }
}

impl OnShapes {
    /// Does the call on the shapes of these ids.
    fn do_on_shapes<L: Ledger>(
        self,
        alloc: Global,
        ids: &[Text],
        calls: Calls,
        steps: &mut Steps<L>,
    ) -> Mem<i64> {
        match self {
            OnShapes::Touch => touching::touch_times(alloc, ids, calls),
            OnShapes::Copy => touching::copy_times(alloc, ids, calls),
            OnShapes::Client(messages) => clients::call_client(messages, alloc, ids, calls, steps),
            OnShapes::ReadData => messages::read(alloc, ids, calls.count),
            OnShapes::PrintData => messages::print_times(alloc, ids, calls.count),
            OnShapes::Marks => marks::keep_times(alloc, ids, calls),
            OnShapes::Store(Work::Put) => boards::put_times(alloc, ids, calls, steps),
            OnShapes::Raise(way) => raising::raise_times(way, alloc, ids, calls.count),
            OnShapes::Store(work) => boards::do_work(work, alloc, ids, calls, steps),
        }
    }
}

/// What the words ask for, where they are a word and three numbers.
fn request_of(words: &[String]) -> Option<(&str, u32, Calls)> {
    let [word, size, count, step] = words else {
        return None;
    };
    let size = size.parse::<u32>().ok()?;
    let count = count.parse::<u32>().ok()?;
    let step = step.parse::<u32>().ok()?;
    Some((word.as_str(), size, Calls { count, step }))
}

/// Does the call that the words ask for, or each. It returns a line for each that was done.
fn do_calls<R: Threads + Wait + Sync>(rt: &R, alloc: Global, words: &[String]) -> Mem<String> {
    let mut lines = String::new(alloc);
    if let Some((asked, size, calls)) = request_of(words) {
        for (word, call) in &CALLS {
            if asked == *word || asked == "all" {
                let comes_to = call.do_times(alloc, size, calls)?;
                add_line(alloc, &mut lines, word, size, calls, comes_to)?;
            }
        }
        for (word, call) in &SHARED {
            if asked == *word || asked == "all" {
                let comes_to = call.do_in_rooms(rt, alloc, size, calls)?;
                add_line(alloc, &mut lines, word, size, calls, comes_to)?;
            }
        }
    }
    Ok(lines)
}

/// Adds the line that tells what a call comes to.
fn add_line(
    alloc: Global,
    lines: &mut String,
    word: &str,
    size: u32,
    calls: Calls,
    comes_to: i64,
) -> Mem<()> {
    let Calls { count, step } = calls;
    let line = format!(in alloc; "{word} {size} {count} {step} {comes_to}\n")?;
    lines.push_str(line.as_str())?;
    Ok(())
}

fn main(rt: HostRuntime) -> io::Result<ExitCode> {
    let alloc = rt.alloc();
    let mut words = Vec::new(alloc);
    for word in env::args(&rt)?.skip(1) {
        words.push(word)?;
    }
    let Ok(lines) = do_calls(&rt, alloc, &words) else {
        eprintln!(rt; "bench_parts: out of memory")?;
        return Ok(ExitCode::FAILURE);
    };
    if lines.is_empty() {
        eprintln!(rt; "{USAGE}")?;
        return Ok(ExitCode::from(2));
    }
    print!(rt; "{lines}")?;
    Ok(ExitCode::SUCCESS)
}
