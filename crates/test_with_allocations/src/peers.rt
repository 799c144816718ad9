//! Calls of a peer.
ghost use Rattle.std.specs.Prelude.{◌≡◌, ◌<◌};

use crate::answers::{Answer, connect_answer, presence_answer, push_answer, take_answer};
use crate::calls::Call;
use crate::player::Subject;
use crate::stores::VERSION;
use live_views::{WatchFault, WatchId};
use rooms_val::{Mem, OutOfMemory, Steps};
use side_effects::EditFault;
use std::alloc::Global;
use std::marker::Brand;
use std::sync::ledger::{Blank, Ledger};
use std::test::Fail;
use sync_peer::Peer;
use test_with_cases::val_text;
use undo_marks::BailFault;

/// A peer that calls are done on.
#[derive(Drop)]
pub(crate) struct PlayedPeer {
    peer: Peer,
}

impl PlayedPeer {
    /// A peer that did nothing.
    pub(crate) fn new(alloc: Global) -> Result<PlayedPeer, Fail> {
        Ok(PlayedPeer {
            peer: Peer::new(alloc, VERSION)?,
        })
    }
}

impl Subject for PlayedPeer {
    fn do_call(&mut self, alloc: Global, call: &Call) -> Mem<Answer> {
        call_peer(alloc, &mut self.peer, call)
    }

    /// The clock that it has reached, how much it owes, its document, and the presence of others.
    fn state_text(&self, alloc: Global) -> Result<String, Fail> {
        let clock = self.peer.reached();
        let owed = self.peer.owed();
        let document = val_text(alloc, &self.peer.document(alloc)?)?;
        let others = val_text(alloc, &self.peer.others(alloc)?)?;
        Ok(format!(in alloc; "{clock} owes {owed}: {document} {others}")?)
    }
}

/// Does a call. The steps are counted for nobody.
fn call_peer(alloc: Global, peer: &mut Peer, call: &Call) -> Mem<Answer> {
    call_in::<Brand>(Blank::new(1), alloc, peer, call)
}

fn call_in<L: Ledger>(blank: Blank, alloc: Global, peer: &mut Peer, call: &Call) -> Mem<Answer>
    requires name { blank.name ≡ L.name }
    requires parts { blank.parts ≡ L.parts }
    requires some { 0 < blank.parts }
{
    let mut steps = Steps::<L>::new(blank);
    match call {
        Call::Edit(diff) => edit_answer(peer.edit(alloc, diff, &mut steps)),
        Call::Take(message) => take_answer(peer.take(alloc, message, &mut steps)),
        Call::Undo => Ok(was(peer.undo(alloc, &mut steps)?)),
        Call::Redo => Ok(was(peer.redo(alloc, &mut steps)?)),
        Call::Bail(name) => bail_answer(peer.bail(alloc, name.as_str(), &mut steps)),
        Call::Told => Ok(Answer::Told(peer.told(alloc, &mut steps)?)),
        _ => call_uncounted(alloc, peer, call),
    }
}

/// Does a call of which no steps are counted.
fn call_uncounted(alloc: Global, peer: &mut Peer, call: &Call) -> Mem<Answer> {
    match call {
        Call::Presence(val) => presence_answer(peer.presence(alloc, val.copy(alloc)?)),
        Call::Connect(request) => connect_answer(peer.connect(alloc, *request)),
        Call::NextPush => Ok(push_answer(peer.next_push(alloc)?)),
        Call::Lost => {
            peer.lost(alloc);
            Ok(Answer::done_word())
        }
        Call::Mark(name) => {
            peer.mark(name.copy(alloc)?)?;
            Ok(Answer::done_word())
        }
        Call::View(view) => watch_answer(peer.watch(alloc, view)),
        _ => Ok(Answer::Word("no call of a peer")),
    }
}

/// What came of an edit.
fn edit_answer(given: Result<(), EditFault>) -> Mem<Answer> {
    match given {
        Ok(()) => Ok(Answer::done_word()),
        Err(EditFault::OutOfMemory) => Err(OutOfMemory),
        Err(_) => Ok(Answer::Word("refused")),
    }
}

/// Whether there was something to take back or to do again.
fn was(given: bool) -> Answer {
    if given {
        Answer::done_word()
    } else {
        Answer::Word("nothing")
    }
}

/// What came of a bail.
fn bail_answer(given: Result<(), BailFault>) -> Mem<Answer> {
    match given {
        Ok(()) => Ok(Answer::done_word()),
        Err(BailFault::NoMark) => Ok(Answer::Word("NoMark")),
        Err(BailFault::OutOfMemory) => Err(OutOfMemory),
    }
}

/// The number of a watch.
pub(crate) fn watch_answer(given: Result<WatchId, WatchFault>) -> Mem<Answer> {
    match given {
        Ok(id) => Ok(Answer::Number(id.number)),
        Err(WatchFault::Full) => Ok(Answer::Word("Full")),
        Err(WatchFault::OutOfMemory) => Err(OutOfMemory),
    }
}
