//! What is kept of a room's history.
ghost use Rattle.std.specs.Prelude.{◌≡◌, ℕ, ◌<ℤ◌, ◌≤ℤ◌, ◌+ℤ◌, ◌^◌, pos, ◌∷◌, ◌+◌, ◌≤◌, OnOk, OnErr, is_some, length, if◌then◌else◌};
ghost use Rattle.rooms_val.specs.Maps.{AreRising, value_at};
ghost use Rattle.schema_core.specs.SchemaOf.{schema_tree};
ghost use Rattle.room_model.specs.Schemas.{presence_id};
ghost use Rattle.room_model.specs.Histories.{History};
ghost use Rattle.room_model.specs.Rooms as rooms;
ghost use Rattle.room_accept.specs.Suiting.{HasPresences, Suits};

use crate::marks::{mark_all, marks};
use crate::recent_entry::{RecentEntry, remember};
use crate::records::{take, write_all};
use crate::removal::Removal;
use change_list::ChangeList;
use circular_buffer::HeapCircularBuffer;
use doc_store::MapDoc;
use field_ops::Diff;
use room_accept::{Accepted, DocumentSize};
use room_model::Entry;
use rooms_val::{Mem, Steps};
use schema_core::Schema;
use std::alloc::Global;
use std::sync::ledger::Ledger;

/// What is kept of a room's history.
#[derive(Drop)]
pub struct Kept {
    // The schema by which pushes are accepted.
    pub(crate) schema: Schema,
    // The records by id. No transaction is open between calls.
    pub(crate) records: MapDoc,
    // How large the document among the records is.
    pub(crate) size: DocumentSize,
    // The ids of the records with the clocks of their last entries, and those not long removed.
    pub(crate) changes: ChangeList,
    // The last 32 entries, the oldest first.
    pub(crate) recent: HeapCircularBuffer<RecentEntry>,
    // How many entries there were, at most 2^54.
    pub(crate) clock: i64,
}

impl Kept {
    ghost use Rattle.room_history.specs.Keeps.{Keeps, KeepsSome};

    // Appends the entry of a push that was accepted.
    pub(crate) fn append<L: Ledger>(
        &mut self,
        alloc: Global,
        accepted: Accepted,
        steps: &mut Steps<L>,
    ) -> Mem<()>
        requires sound { ∥ KeepsSome self.old ∥₁ }
        requires suits { Suits (schema_tree self.old.schema) self.old.records.0 accepted }
        requires below { self.old.clock <ℤ pos (2 ^ 53) }
        ensures ok { OnOk result ((first : ℕ) (history : History) → Keeps first history self.old
            → Keeps first (accepted.entry ∷ history) self.new) }
        ensures err { OnErr result ((first : ℕ) (history : History) → Keeps first history self.old
            → Keeps first history self.new) }
        ensures schema { self.new.schema ≡ self.old.schema }
        ensures ticks { steps.new ≤ steps.old + length accepted.entry.diff }
    {
        let Accepted { entry, after, size } = accepted;
        tell_rising(&entry.diff);
        let marks = marks(alloc, &after)?;
        self.changes.reserve(marks.len())?;
        write_all(alloc, &mut self.records, &after, steps)?;
        self.size = size;
        let clock = next(self.clock);
        self.clock = clock;
        mark_all(&mut self.changes, marks, clock);
        self.changes.prune();
        remember(&mut self.recent, clock, entry, after);
        Ok(())
    }

    // Removes the presence of a session, where it is there.
    pub(crate) fn remove_presence(&mut self, removal: Removal) -> bool
        requires sound { ∥ KeepsSome self.old ∥₁ }
        requires presence { HasPresences (schema_tree self.old.schema) }
        ensures was_there { result
            ≡ is_some (value_at self.old.records.0 (presence_id removal.session)) }
        ensures keeps { (first : ℕ) (history : History) → Keeps first history self.old
            → Keeps first
            (if result then rooms.removal removal.session ∷ history else history) self.new }
        ensures schema { self.new.schema ≡ self.old.schema }
    {
        if !take(&mut self.records, removal.id.as_str()) {
            return false;
        }
        let clock = next(self.clock);
        self.clock = clock;
        self.changes.bury(removal.id.as_str(), clock);
        self.changes.prune();
        let Removal { diff, after, .. } = removal;
        let entry = Entry { diff, author: None };
        remember(&mut self.recent, clock, entry, after);
        true
    }
}

// That the ids of a diff rise is told by its length.
fn tell_rising(diff: &Diff)
    ensures { AreRising diff.now }
{
    let _ = diff.len();
}

// The clock after the next entry.
fn next(clock: i64) -> i64
    requires { clock ≤ℤ pos (2 ^ 54) }
    ensures { result ≡ clock +ℤ pos 1 }
{
    clock + 1
}
