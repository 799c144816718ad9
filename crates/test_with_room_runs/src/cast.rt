//! The passes of a script.
ghost use Rattle.std.specs.Prelude.{◌≡◌, ◌<◌, IfSome, OnOk, vec_len};
ghost use Rattle.room_run.specs.Passes.{room_of_gone, IfFull};
ghost use Rattle.room_run.specs.Rooms.{id_of};
ghost use Rattle.test_with_room_runs.specs.Casts.{AreOf};

use room_run::{Gone, Pass, PassFault, RunningRoom};
use std::alloc::Global;
use std::sync::Wait;
use std::test::Fail;
use sync_msgs::{ClientMessage, Out};
use test_with_rooms::out_text;

// The passes that a script has, and those that are gone.
#[derive(Drop)]
pub(crate) struct Cast {
    pub(crate) passes: Vec<Pass>,
    pub(crate) gones: Vec<Gone>,
}

impl Cast {
    // A session enters: its number, or `Full`.
    pub(crate) fn enter<R: Wait>(
        &mut self,
        rt: &R,
        alloc: Global,
        room: &RunningRoom,
        readonly: bool,
    ) -> Result<String, Fail>
        requires own { AreOf room.now self.old }
        ensures own { OnOk result (AreOf room.now self.new) }
    {
        match room.pass(rt, readonly) {
            Ok(pass) => {
                let number = pass.session();
                self.passes.push(pass)?;
                Ok(format!(in alloc; "{number}")?)
            }
            Err(fault) => self.refuse(alloc, room, fault),
        }
    }

    // Why no session entered.
    fn refuse(
        &mut self,
        alloc: Global,
        room: &RunningRoom,
        fault: PassFault,
    ) -> Result<String, Fail>
        requires own { AreOf room.now self.old }
        requires gone { IfFull (λ gone. room_of_gone gone ≡ id_of room.now) fault }
        ensures own { OnOk result (AreOf room.now self.new) }
    {
        match fault {
            PassFault::Full(gone) => {
                let text = full_text(&gone);
                self.gones.push(gone)?;
                Ok(String::from_str(alloc, text)?)
            }
            PassFault::OutOfMemory => Err(Fail::from("out of memory")),
        }
    }

    // So many sessions enter: how many did.
    pub(crate) fn fill<R: Wait>(
        &mut self,
        rt: &R,
        alloc: Global,
        room: &RunningRoom,
        count: u64,
    ) -> Result<String, Fail>
        requires own { AreOf room.now self.old }
        ensures own { OnOk result (AreOf room.now self.new) }
    {
        let before = self.passes.len();
        'sessions: for _ in 0..count {
            drop(self.enter(rt, alloc, room, false)?);
        }
        let entered = self.passes.len().saturating_sub(before);
        Ok(format!(in alloc; "{entered}")?)
    }

    // A session sends a message: what it is given then.
    pub(crate) fn say<R: Wait>(
        &mut self,
        rt: &R,
        alloc: Global,
        room: &RunningRoom,
        number: u64,
        message: &ClientMessage,
    ) -> Result<String, Fail>
        requires own { AreOf room.now self.old }
        ensures own { OnOk result (AreOf room.now self.new) }
    {
        let Some(place) = self.place_of(number) else {
            return Err(Fail::from("no session of the script"));
        };
        let outs = room.handle(rt, &mut self.passes[place], message)?;
        outs_text(alloc, &outs)
    }

    // A session looks: what it is given.
    pub(crate) fn idle<R: Wait>(
        &mut self,
        rt: &R,
        alloc: Global,
        room: &RunningRoom,
        number: u64,
    ) -> Result<String, Fail>
        requires own { AreOf room.now self.old }
        ensures own { OnOk result (AreOf room.now self.new) }
    {
        let Some(place) = self.place_of(number) else {
            return Err(Fail::from("no session of the script"));
        };
        let outs = room.idle(rt, &mut self.passes[place])?;
        outs_text(alloc, &outs)
    }

    // A session leaves.
    pub(crate) fn leave<R: Wait>(
        &mut self,
        rt: &R,
        alloc: Global,
        room: &RunningRoom,
        number: u64,
    ) -> Result<String, Fail>
        requires own { AreOf room.now self.old }
        ensures own { OnOk result (AreOf room.now self.new) }
    {
        let Some(place) = self.place_of(number) else {
            return Err(Fail::from("no session of the script"));
        };
        let pass = self.passes.remove(place);
        let gone = room.leave(rt, pass);
        let text = gone_text(&gone, number);
        self.gones.push(gone)?;
        Ok(String::from_str(alloc, text)?)
    }

    // Where the pass of a session is.
    fn place_of(&self, number: u64) -> Option<usize>
        ensures { IfSome result (λ place. place < vec_len self.now.passes) }
    {
        for place in 0..self.passes.len() {
            if self.passes[place].session() == number {
                return Some(place);
            }
        }
        None
    }
}

// What becomes of a caller that finds the room full. It has no session.
fn full_text(gone: &Gone) -> &'static str {
    match gone.session() {
        None => "Full",
        Some(_) => "Full, with a session",
    }
}

// What becomes of a session that leaves.
fn gone_text(gone: &Gone, number: u64) -> &'static str {
    match gone.session() {
        None => "left, without a session",
        Some(left) => {
            if left == number {
                "left"
            } else {
                "left, as another session"
            }
        }
    }
}

// What a session is given, one after the other.
fn outs_text(alloc: Global, outs: &[Out]) -> Result<String, Fail> {
    let mut text = String::new(alloc);
    for out in outs {
        if !text.is_empty() {
            text.push_str("; ")?;
        }
        let given = out_text(alloc, out)?;
        text.push_str(given.as_str())?;
    }
    if text.is_empty() {
        text.push_str("nothing")?;
    }
    Ok(text)
}
