//! What clients and the room show.
ghost use Rattle.std.specs.Prelude.{◌∷◌, [], IfOk};
ghost use Rattle.room_model.specs.Schemas.{WorldSchemas};
ghost use Rattle.room_model.specs.Worlds as model;
ghost use Rattle.room_model.specs.Worlds.{on_show, happens, end_line};
ghost use Rattle.side_effects.specs.declared.fault.EditFault.{EditFault};
ghost use Rattle.sync_world.specs.Standing.{Keeps};
ghost use Rattle.sync_world.specs.Answers.{Answers};

use crate::live::{Answer, Live};
use crate::sessions::one_line;
use room_model::OutLine;
use room_model::fault::StepFault;
use rooms_val::Mem;
use std::alloc::Global;

impl Live {
    // A client shows what it has. It costs a copy of the document.
    pub(crate) fn show(&self, alloc: Global, number: u64) -> Mem<Answer>
        ensures { IfOk result (λ answer. (schemas : WorldSchemas EditFault) (world : model.World)
            → Keeps schemas world self.now
            → Answers schemas world (on_show schemas number world) answer self.now) }
    {
        let Some(at) = self.place(number) else {
            return Ok(Err(StepFault::NoSuchClient));
        };
        let peer = &self.clients[at].peer;
        let line = OutLine::Show {
            client: number,
            clock: peer.reached(),
            doc: peer.document(alloc)?,
            others: peer.others(alloc)?,
            owed: peer.owed() as u64,
        };
        Ok(Ok(one_line(alloc, line)?))
    }

    // The recording ends: the room shows its clock, its document and its presence. It costs a copy
    // of all records.
    pub(crate) fn end(&self, alloc: Global) -> Mem<Answer>
        ensures { IfOk result (λ answer. (schemas : WorldSchemas EditFault) (world : model.World)
            → Keeps schemas world self.now
            → Answers schemas world (happens (end_line schemas world ∷ []) world) answer self.now) }
    {
        let line = OutLine::End {
            clock: self.room.clock(),
            doc: self.room.document(alloc)?,
            presence: self.room.presence(alloc)?,
        };
        Ok(Ok(one_line(alloc, line)?))
    }
}
