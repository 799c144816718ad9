//! Serving a link.
ghost use Rattle.std.specs.Prelude.{◌≡◌, ◌⊎◌, ◌<◌, ◌^◌, length, true, false, Some, None, IfSome, IsSome};
ghost use Rattle.room_link.specs.Exchange.{Tells};
ghost use Rattle.room_run.specs.Passes.{room_of_gone};
ghost use Rattle.room_run.specs.Calls.{IsEntered};
ghost use Rattle.room_run.specs.Passes.{view_of};
ghost use Rattle.room_run.specs.Passes as passes;
ghost use Rattle.room_run.specs.Rooms.{id_of, opening_of};
ghost use Rattle.room_serve.specs.Accounts.{IsOpen, IsBlamed};
ghost use Rattle.room_serve.specs.Reports.{IsReport, ServesIn, session_of};
ghost use Rattle.room_serve.specs.Visits.{Visits, TurnsAway, full_gone};

use crate::account::Account;
use crate::conversation::{Conversation, Door};
use crate::joining::wait_for_join;
use crate::report::Report;
use link_texts::{Join, LONGEST_MESSAGE};
use room_link::gate::Gate;
use room_link::link::Link;
use room_run::{Gone, Pass, PassFault, RunningRoom};
use std::alloc::Global;
use std::sync::Wait;
use sync_msgs::EndReason;
use wire_text::Assembler;

/// Serves a link of a worker, to its end: the first text names a room, by its place; those after it are the
/// messages of a session there, and what the session is given goes out. An idle gives the session what there
/// is for it. It waits for the link, and for the room's turn. A room has all memory of what happened in it; here
/// there is only the message that comes in and the one that goes out.
///
/// The link is closed with `InvalidRecord` if a text is refused, with `RoomFull` if the room is full, and with the
/// reason of an end that the session is given. After a fault of the link, and where memory is refused, nothing more
/// is sent. In each case the session leaves its room.
pub fn serve_link<R: Wait, K: Link, G: Gate>(
    rt: &R,
    alloc: Global,
    rooms: &[RunningRoom],
    worker: u32,
    link: &mut K,
    gate: &G,
) -> Report
    requires few { length rooms.now < 2 ^ 32 }
    ensures report { IsReport rooms.now result }
    ensures faults { IsBlamed false result.fault (K.faults link.old) (K.faults link.new) }
    ensures served { Tells (ServesIn rooms.now result) (K.told link.old) (K.told link.new) }
{
    let mut account = Account::new();
    let Some(join) = wait_for_join(rt, alloc, rooms.len() as u32, link, &mut account) else {
        return Report::new(account, None, None);
    };
    let room = &rooms[join.room as usize];
    let door = Door {
        rt,
        alloc,
        room,
        worker,
        gate,
    };
    door.admit(link, join, account)
}

impl<'a, R: Wait, G: Gate> Door<'a, R, G> {
    // Lets a link into its room, and serves its session.
    fn admit<K: Link>(&self, link: &mut K, join: Join, account: Account) -> Report
        requires open { IsOpen account }
        ensures room { result.room ≡ Some join.room }
        ensures gone { IfSome result.gone (λ gone. room_of_gone gone ≡ id_of self.now.room.now) }
        ensures session { result.session ≡ session_of result.gone }
        ensures none { result.gone ≡ None → result.memory ≡ true }
        ensures faults { IsBlamed account.fault result.fault
            (K.faults link.old) (K.faults link.new) }
        ensures visits { Tells (Visits self.now.room.now join.readonly account result)
            (K.told link.old) (K.told link.new) }
    {
        match self.room.pass(self.rt, join.readonly) {
            Ok(pass) => self.serve_pass(link, join, account, pass),
            Err(fault) => turn_away(link, join, account, gone_of(fault)),
        }
    }

    // Serves a session, which leaves then.
    fn serve_pass<K: Link>(&self, link: &mut K, join: Join, account: Account, pass: Pass) -> Report
        requires open { IsOpen account }
        requires own { passes.room_of pass ≡ id_of self.now.room.now }
        requires entered { IsEntered (opening_of self.now.room.now) pass.session join.readonly
            (view_of pass) }
        ensures room { result.room ≡ Some join.room }
        ensures gone { IfSome result.gone (λ gone. room_of_gone gone ≡ id_of self.now.room.now) }
        ensures session { result.session ≡ session_of result.gone }
        ensures some { IsSome result.gone }
        ensures faults { IsBlamed account.fault result.fault
            (K.faults link.old) (K.faults link.new) }
        ensures visits { Tells (Visits self.now.room.now join.readonly account result)
            (K.told link.old) (K.told link.new) }
    {
        let assembler = Assembler::new(LONGEST_MESSAGE);
        let mut conversation = Conversation {
            pass,
            assembler,
            account,
            entered: None,
        };
        self.converse(link, &mut conversation);
        let Conversation { pass, account, .. } = conversation;
        let gone = self.room.leave(self.rt, pass);
        Report::new(account, Some(join.room), Some(gone))
    }
}

// Closes a link whose room is full, or for which memory was refused.
fn turn_away<K: Link>(link: &mut K, join: Join, account: Account, gone: Option<Gone>) -> Report
    requires open { IsOpen account }
    ensures room { result.room ≡ Some join.room }
    ensures gone { result.gone ≡ gone }
    ensures session { result.session ≡ session_of gone }
    ensures none { gone ≡ None → result.memory ≡ true }
    ensures faults { IsBlamed account.fault result.fault (K.faults link.old) (K.faults link.new) }
    ensures away { Tells (TurnsAway gone account result) (K.told link.old) (K.told link.new) }
{
    let mut account = account;
    match gone {
        Some(gone) => {
            account.close(link, EndReason::RoomFull);
            Report::new(account, Some(join.room), Some(gone))
        }
        None => {
            account.memory = true;
            Report::new(account, Some(join.room), None)
        }
    }
}

// What was seen of a room that is full.
fn gone_of(fault: PassFault) -> Option<Gone>
    ensures { result ≡ full_gone fault }
{
    match fault {
        PassFault::Full(gone) => Some(gone),
        PassFault::OutOfMemory => None,
    }
}
