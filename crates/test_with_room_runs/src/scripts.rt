//! Scripts of calls of a running room by one thread.
ghost use Rattle.std.specs.Prelude.{OnOk};
ghost use Rattle.test_with_room_runs.specs.Casts.{AreOf};

use crate::cast::Cast;
use crate::pens::{open_new_room, pen_difference, replay_difference};
use room_run::RunningRoom;
use std::alloc::Global;
use std::sync::Wait;
use std::test::Fail;
use test_with_boards::board_text;
use test_with_cases::{cells, rows};
use test_with_rooms::message_of;

/// Plays a script in a new running room, and closes it with those that are gone. `None` if each answer is the one that stands
/// there, the history ends with the rows of `pen`, and one thread that does what it says in a new room is given the same and
/// makes the same room; else the first difference.
///
/// The steps of the script are those of `test_with_rooms` that send a message, with what the session is given then; `enter`,
/// `enter readonly`, `fill n` and `leave s` of `test_with_rooms`; and `idle s`: session s asks what there is for it.
///
/// # Errors
/// A step that is none, and where memory is refused.
pub fn first_difference<R: Wait>(
    rt: &R,
    alloc: Global,
    script: &str,
    pen: &str,
) -> Result<Option<String>, Fail> {
    let room = open_new_room(alloc)?;
    let mut cast = Cast {
        passes: Vec::new(alloc),
        gones: Vec::new(alloc),
    };
    if let Some(difference) = difference_in(rt, alloc, &room, &mut cast, script)? {
        return Ok(Some(difference));
    }
    let Cast { gones, .. } = cast;
    let closed = room.close(rt, gones);
    if let Some(difference) = pen_difference(alloc, closed.pen.as_slice(), pen)? {
        return Ok(Some(difference));
    }
    replay_difference(alloc, &closed)
}

// The first difference that playing a script in a running room shows.
fn difference_in<R: Wait>(
    rt: &R,
    alloc: Global,
    room: &RunningRoom,
    cast: &mut Cast,
    script: &str,
) -> Result<Option<String>, Fail>
    requires own { AreOf room.now cast.old }
    ensures own { OnOk result (AreOf room.now cast.new) }
{
    'rows: for row in &rows(alloc, script)? {
        let [step, wanted, ..] = cells(row);
        let found = answer(rt, alloc, room, cast, step)?;
        let wanted = board_text(alloc, wanted)?;
        if found.as_str() != wanted.as_str() {
            let text = format!(in alloc; "at {step}: {found}, and not {wanted}")?;
            return Ok(Some(text));
        }
    }
    Ok(None)
}

// What a running room answers to a step.
fn answer<R: Wait>(
    rt: &R,
    alloc: Global,
    room: &RunningRoom,
    cast: &mut Cast,
    step: &str,
) -> Result<String, Fail>
    requires own { AreOf room.now cast.old }
    ensures own { OnOk result (AreOf room.now cast.new) }
{
    if let Some((number, message)) = message_of(alloc, step)? {
        return cast.say(rt, alloc, room, number, &message);
    }
    let (word, rest) = step.split_once(' ').unwrap_or((step, ""));
    match word {
        "enter" => cast.enter(rt, alloc, room, rest == "readonly"),
        "fill" => cast.fill(rt, alloc, room, rest.parse::<u64>()?),
        "idle" => cast.idle(rt, alloc, room, rest.parse::<u64>()?),
        "leave" => cast.leave(rt, alloc, room, rest.parse::<u64>()?),
        _ => Err(Fail::from("no step of a script")),
    }
}
