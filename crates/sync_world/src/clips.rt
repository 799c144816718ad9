//! What clients copy and paste.
ghost use Rattle.std.specs.Prelude.{◌≡◌, ◌≢◌, IfOk, OnOk, Ok, Err, option_map};
ghost use Rattle.rooms_val.specs.Json.{greatest_whole};
ghost use Rattle.shape_tree.specs.Boxes.{IsWithin};
ghost use Rattle.room_model.specs.Schemas.{WorldSchemas};
ghost use Rattle.room_model.specs.Worlds as model;
ghost use Rattle.room_model.specs.Worlds.{on_copy, on_paste};
ghost use Rattle.clip_content.specs.View.{target_tree};
ghost use Rattle.side_effects.specs.declared.fault.EditFault.{EditFault};
ghost use Rattle.sync_client.specs.Calls.{ClientState};
ghost use Rattle.sync_peer.specs.Standing as peer_of;
ghost use Rattle.sync_world.specs.Clips.{IsCopyOf, IsPasteOf};
ghost use Rattle.sync_world.specs.Standing.{Keeps};
ghost use Rattle.sync_world.specs.Answers.{Answers};
ghost use Rattle.sync_world.specs.Viewing.{stores_in, ChangesOne};

use crate::live::{Answer, Live};
use clip_content::{Clip, ClipFault, PasteFault, Target};
use field_ops::Diff;
use room_model::fault::StepFault;
use rooms_val::{Mem, OutOfMemory, Steps, Text};
use side_effects::EditFault;
use std::alloc::Global;
use std::sync::ledger::Ledger;
use sync_peer::Peer;

impl Live {
    // A client copies shapes of what it shows. It costs a copy of the document.
    pub(crate) fn copy(&mut self, alloc: Global, number: u64, ids: &[Text]) -> Mem<Answer>
        ensures step { IfOk result (λ answer. (schemas : WorldSchemas EditFault)
            (world : model.World)
            → Keeps schemas world self.old
            → Answers schemas world (on_copy schemas number ids.now world) answer self.new) }
        ensures stores { OnOk result (stores_in self.new ≡ stores_in self.old) }
    {
        let Some(at) = self.place(number) else {
            return Ok(Err(StepFault::NoSuchClient));
        };
        match clip_of(alloc, &self.clients[at].peer, ids)? {
            Ok(clip) => {
                self.clients[at].clip = Some(clip);
                Ok(Ok(Vec::new(alloc)))
            }
            Err(fault) => Ok(Err(StepFault::Clip(fault))),
        }
    }

    // A client pastes what it copied last into what it shows, as an edit. It costs a copy of the document, and the edit.
    pub(crate) fn paste<L: Ledger>(
        &mut self,
        alloc: Global,
        number: u64,
        target: &Target,
        steps: &mut Steps<L>,
    ) -> Mem<Answer>
        requires dx { IsWithin greatest_whole target.now.dx }
        requires dy { IsWithin greatest_whole target.now.dy }
        ensures step { IfOk result (λ answer. (schemas : WorldSchemas EditFault)
            (world : model.World)
            → Keeps schemas world self.old
            → Answers schemas world (on_paste schemas number (target_tree target.now) world) answer
            self.new) }
        ensures stores { OnOk result (ChangesOne number (stores_in self.old) (stores_in self.new)) }
    {
        let Some(at) = self.place(number) else {
            return Ok(Err(StepFault::NoSuchClient));
        };
        let client = &self.clients[at];
        let Some(clip) = &client.clip else {
            return Ok(Err(StepFault::NoClip));
        };
        match diff_to_paste(alloc, clip, &client.peer, target)? {
            Ok(wanted) => self.edit(alloc, number, &wanted, steps),
            Err(fault) => Ok(Err(StepFault::Paste(fault))),
        }
    }
}

// The copy of shapes that a peer shows, or why there is none.
fn clip_of(alloc: Global, peer: &Peer, ids: &[Text]) -> Mem<Result<Clip, ClipFault>>
    ensures { IfOk result (IsCopyOf peer.now ids.now) }
{
    let records = peer.records(alloc)?;
    match Clip::take(alloc, &records, ids) {
        Ok(clip) => Ok(Ok(clip)),
        Err(ClipFault::NoShape(id)) => Ok(Err(ClipFault::NoShape(id))),
        Err(ClipFault::Doubled(id)) => Ok(Err(ClipFault::Doubled(id))),
        Err(ClipFault::TooMany) => Ok(Err(ClipFault::TooMany)),
        Err(ClipFault::OutOfMemory) => Err(OutOfMemory),
    }
}

// The diff that pastes a clip into what a peer shows, or why there is none.
fn diff_to_paste(
    alloc: Global,
    clip: &Clip,
    peer: &Peer,
    target: &Target,
) -> Mem<Result<Diff, PasteFault>>
    requires dx { IsWithin greatest_whole target.now.dx }
    requires dy { IsWithin greatest_whole target.now.dy }
    ensures { IfOk result (IsPasteOf clip.now peer.now target.now) }
{
    let records = peer.records(alloc)?;
    match clip.paste(
        alloc,
        &records,
        target.prefix,
        target.parent,
        target.dx,
        target.dy,
    ) {
        Ok(wanted) => Ok(Ok(wanted)),
        Err(PasteFault::Taken(id)) => Ok(Err(PasteFault::Taken(id))),
        Err(PasteFault::NoKey(fault)) => Ok(Err(PasteFault::NoKey(fault))),
        Err(PasteFault::OutOfMemory) => Err(OutOfMemory),
    }
}
