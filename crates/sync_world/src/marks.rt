//! What clients take back, and do again.
ghost use Rattle.std.specs.Prelude.{◌≡◌, ◌<◌, IfOk, OnOk, Some, slice_get, vec_len};
ghost use Rattle.room_model.specs.Schemas.{WorldSchemas};
ghost use Rattle.room_model.specs.Replicas.{Client};
ghost use Rattle.room_model.specs.Worlds as model;
ghost use Rattle.room_model.specs.Worlds.{with_pushing, on_mark, on_undo, on_redo, on_bail};
ghost use Rattle.side_effects.specs.declared.fault.EditFault.{EditFault};
ghost use Rattle.world_queues.specs.Queues.{to_client};
ghost use Rattle.sync_world.specs.Pushing.{push_more};
ghost use Rattle.sync_world.specs.Standing.{Fits, Keeps};
ghost use Rattle.sync_world.specs.Answers.{Answers};
ghost use Rattle.sync_world.specs.Viewing.{stores_in, ChangesOne};

use crate::live::{Answer, Live};
use crate::sessions::one_line;
use room_model::OutLine;
use room_model::fault::StepFault;
use rooms_val::{Mem, OutOfMemory, Steps, Text};
use std::alloc::Global;
use std::sync::ledger::Ledger;
use undo_marks::BailFault;

impl Live {
    // A client makes a mark.
    pub(crate) fn mark(&mut self, alloc: Global, number: u64, name: Text) -> Mem<Answer>
        ensures step { IfOk result (λ answer. (schemas : WorldSchemas EditFault)
            (world : model.World)
            → Keeps schemas world self.old
            → Answers schemas world (on_mark number name world) answer self.new) }
        ensures stores { OnOk result (stores_in self.new ≡ stores_in self.old) }
    {
        let Some(at) = self.place(number) else {
            return Ok(Err(StepFault::NoSuchClient));
        };
        self.clients[at].peer.mark(name)?;
        Ok(Ok(Vec::new(alloc)))
    }

    // A client takes its edits back to its last mark.
    pub(crate) fn undo<L: Ledger>(
        &mut self,
        alloc: Global,
        number: u64,
        steps: &mut Steps<L>,
    ) -> Mem<Answer>
        ensures step { IfOk result (λ answer. (schemas : WorldSchemas EditFault)
            (world : model.World)
            → Keeps schemas world self.old
            → Answers schemas world (on_undo schemas number world) answer self.new) }
        ensures stores { OnOk result (ChangesOne number (stores_in self.old) (stores_in self.new)) }
    {
        let Some(at) = self.place(number) else {
            return Ok(Err(StepFault::NoSuchClient));
        };
        let peer = &mut self.clients[at].peer;
        let owed = peer.owed();
        if peer.undo(alloc, steps)? {
            self.push_more(alloc, at, owed)?;
            let line = OutLine::Undo {
                client: number,
                done: true,
            };
            return Ok(Ok(one_line(alloc, line)?));
        }
        let line = OutLine::Undo {
            client: number,
            done: false,
        };
        Ok(Ok(one_line(alloc, line)?))
    }

    // A client does again what it took back last.
    pub(crate) fn redo<L: Ledger>(
        &mut self,
        alloc: Global,
        number: u64,
        steps: &mut Steps<L>,
    ) -> Mem<Answer>
        ensures step { IfOk result (λ answer. (schemas : WorldSchemas EditFault)
            (world : model.World)
            → Keeps schemas world self.old
            → Answers schemas world (on_redo schemas number world) answer self.new) }
        ensures stores { OnOk result (ChangesOne number (stores_in self.old) (stores_in self.new)) }
    {
        let Some(at) = self.place(number) else {
            return Ok(Err(StepFault::NoSuchClient));
        };
        let peer = &mut self.clients[at].peer;
        let owed = peer.owed();
        if peer.redo(alloc, steps)? {
            self.push_more(alloc, at, owed)?;
            let line = OutLine::Redo {
                client: number,
                done: true,
            };
            return Ok(Ok(one_line(alloc, line)?));
        }
        let line = OutLine::Redo {
            client: number,
            done: false,
        };
        Ok(Ok(one_line(alloc, line)?))
    }

    // A client takes its edits back to its last mark of a name, and forgets them.
    pub(crate) fn bail<L: Ledger>(
        &mut self,
        alloc: Global,
        number: u64,
        name: &Text,
        steps: &mut Steps<L>,
    ) -> Mem<Answer>
        ensures step { IfOk result (λ answer. (schemas : WorldSchemas EditFault)
            (world : model.World)
            → Keeps schemas world self.old
            → Answers schemas world (on_bail schemas number name.now world) answer self.new) }
        ensures stores { OnOk result (ChangesOne number (stores_in self.old) (stores_in self.new)) }
    {
        let Some(at) = self.place(number) else {
            return Ok(Err(StepFault::NoSuchClient));
        };
        let peer = &mut self.clients[at].peer;
        let owed = peer.owed();
        match peer.bail(alloc, name.as_str(), steps) {
            Ok(()) => {
                self.push_more(alloc, at, owed)?;
                Ok(Ok(Vec::new(alloc)))
            }
            Err(BailFault::NoMark) => Ok(Err(StepFault::NoMark)),
            Err(BailFault::OutOfMemory) => Err(OutOfMemory),
        }
    }

    // Puts what a client can push into the queue of its session, if more is pending than before.
    fn push_more(&mut self, alloc: Global, at: usize, owed: usize) -> Mem<()>
        requires { at < vec_len self.old.clients }
        ensures pushed { OnOk result ((schemas : WorldSchemas EditFault) (world : model.World)
            (client : Client)
            → Fits schemas world self.old → slice_get world.clients at ≡ Some client
            → Fits schemas (with_pushing at (push_more owed client) world) self.new) }
        ensures given { OnOk result (to_client self.new.queues ≡ to_client self.old.queues) }
        ensures stores { OnOk result (stores_in self.new ≡ stores_in self.old) }
    {
        if owed < self.clients[at].peer.owed() {
            return self.push(alloc, at);
        }
        Ok(())
    }
}
