//! What a room keeps of its history.
ghost use Rattle.std.specs.Prelude.{◌≡◌, ℕ, List, ◌<ℤ◌, ◌≤ℤ◌, ◌^◌, ℤ, pos, [], ◌∷◌, ◌+◌, ◌≤◌, IfOk, IfSome, OnOk, OnErr, is_some, length, map, filter, IsPermutation, IsSortedBy, option_map, if◌then◌else◌};
ghost use Rattle.rooms_val.specs.Maps.{value_at, keys_of};
ghost use Rattle.rooms_val.specs.View.{data_of};
ghost use Rattle.schema_core.specs.Admits.{is_document};
ghost use Rattle.schema_core.specs.SchemaOf.{schema_tree};
ghost use Rattle.change_list.specs.Changes.{listed, is_below, AreSince};
ghost use Rattle.room_model.specs.Schemas.{presence_id};
ghost use Rattle.room_model.specs.Histories.{History, start_of, changed_after};
ghost use Rattle.room_model.specs.Accepting.{is_taken, entry_of};
ghost use Rattle.room_model.specs.Rooms as rooms;
ghost use Rattle.room_schemas.specs.Decided.{decided};
ghost use Rattle.room_accept.specs.Pushes.{member_of, push_of};
ghost use Rattle.room_accept.specs.Suiting.{HasPresences, Suits};
ghost use Rattle.room_history.specs.Keeps.{Keeps, KeepsSome};
ghost use Rattle.room_history.specs.Saving.{IsSavedOf};

use crate::kept::Kept;
use crate::recent_entry::RecentEntry;
use crate::removal::Removal;
use change_list::{Change, ChangeList};
use circular_buffer::HeapCircularBuffer;
use doc_store::{DocStore, MapDoc};
use room_accept::{Accepted, DocumentSize, Member, Push, accept};
use room_model::SavedRoom;
use room_model::limits::MOST_TOLD;
use rooms_val::{Mem, Steps, Text, Val};
use schema_core::Schema;
use std::alloc::Global;
use std::sync::ledger::Ledger;

/// What a room keeps of its history: the records with the size of the document, what changed when,
/// the last 32 entries, and the clock. It keeps no list of entries, so its memory doesn't grow with
/// the history.
#[derive(Drop)]
pub struct RoomHistory {
    pub(crate) kept: Kept,
    ghost sound: { ∥ KeepsSome kept ∥₁ },
    ghost presence: { HasPresences (schema_tree kept.schema) },
}

impl RoomHistory {
    /// The history without an entry, in a room with a schema to which the ids of sessions' presence
    /// are presence.
    pub fn new(alloc: Global, schema: Schema) -> Mem<RoomHistory>
        requires { HasPresences (schema_tree schema) }
        ensures keeps { IfOk result (λ h. Keeps 0 [] h.kept) }
        ensures schema { IfOk result (λ h. h.kept.schema ≡ schema) }
    {
        let changes = ChangeList::new(alloc)?;
        let recent = HeapCircularBuffer::with_capacity(alloc, MOST_TOLD as usize)?;
        Ok(RoomHistory {
            kept: Kept {
                schema,
                records: MapDoc::new(alloc),
                size: DocumentSize {
                    count: 0,
                    weight: 0,
                },
                changes,
                recent,
                clock: 0,
            },
        })
    }

    /// The schema.
    pub fn schema(&self) -> &Schema
        ensures schema { result.now ≡ self.now.kept.schema }
        ensures presence { HasPresences (schema_tree result.now) }
    {
        &self.kept.schema
    }

    /// The clock: how many entries there were, at most 2^54.
    pub fn clock(&self) -> i64
        ensures clock { result ≡ self.now.kept.clock }
        ensures low { pos 0 ≤ℤ result }
        ensures high { result ≤ℤ pos (2 ^ 54) }
    {
        self.kept.clock
    }

    /// The clock up to which removals are forgotten.
    pub fn starts_at(&self) -> i64
        ensures { result ≡ self.now.kept.changes.start }
    {
        self.kept.changes.starts_at()
    }

    /// The record of an id. `None` exactly where there is none. It costs a logarithm of the records.
    pub fn record(&self, id: &str) -> Option<&Val>
        ensures { option_map (λ v. data_of v.now) result ≡ value_at self.now.kept.records.0 id.now }
    {
        self.kept.records.get(id)
    }

    /// The ids of the records, in order. It costs the records.
    pub fn ids(&self, alloc: Global) -> Mem<Vec<Text>>
        ensures { IfOk result (λ ids. ids.items ≡ keys_of self.now.kept.records.0) }
    {
        self.kept.records.ids(alloc)
    }

    /// The last 32 entries, the oldest first.
    pub fn recent(&self) -> &HeapCircularBuffer<RecentEntry>
        ensures { result.now ≡ self.now.kept.recent }
    {
        &self.kept.recent
    }

    /// The ids whose last entry lies above a clock, by rising id, with that entry's clock and whether
    /// the id is there; below `starts_at` some of the removed ones are missing. It counts a step for
    /// each and one more, and costs what it gives, and the sorting of that.
    pub fn changed_since<L: Ledger>(
        &self,
        alloc: Global,
        clock: i64,
        steps: &mut Steps<L>,
    ) -> Mem<Vec<Change>>
        ensures since { IfOk result (λ found.
            AreSince (listed self.now.kept.changes) clock found.items) }
        ensures rising { IfOk result (λ found. IsSortedBy is_below found.items) }
        ensures changed { IfOk result (λ found. (first : ℕ) (history : History) (known : ℕ)
            → Keeps first history self.now.kept → clock ≡ pos known → start_of first history ≤ known
            → IsPermutation {X = List ℕ × ℤ}
            (map (λ p. (p.0, pos p.1)) (changed_after known history))
            (map (λ c. (c.id, c.clock)) found.items)) }
        ensures ticked { IfOk result (λ found. steps.new ≡ steps.old + (length found.items + 1)) }
    {
        self.kept.changes.since(alloc, clock, steps)
    }

    /// What is saved of the history: the clock, the records of the document, and the removed ids of
    /// the document that are remembered. The presence of sessions isn't saved. It copies the
    /// records, and costs a logarithm for each id that is there or remembered.
    pub fn saved<L: Ledger>(&self, alloc: Global, steps: &mut Steps<L>) -> Mem<SavedRoom>
        ensures { IfOk result (λ saved. (first : ℕ) (history : History)
            → Keeps first history self.now.kept
            → IsSavedOf (is_document (schema_tree self.now.kept.schema)) first history saved) }
    {
        self.kept.saved(alloc, steps)
    }

    /// What is accepted of a push of a session. `None` exactly where the push is refused. Nothing
    /// changes. It costs what the diff names, and a logarithm of the records for each id.
    pub fn accept(&self, alloc: Global, member: Member<'_>, push: Push<'_>) -> Mem<Option<Accepted>>
        ensures taken { IfOk result (λ accepted. is_some accepted
            ≡ is_taken (decided (schema_tree self.now.kept.schema)) (member_of member.entry)
            (push_of push.entry)) }
        ensures entry { IfOk result (λ accepted. IfSome accepted (λ a. a.entry
            ≡ entry_of (decided (schema_tree self.now.kept.schema)) (member_of member.entry)
            self.now.kept.records.0 (push_of push.entry))) }
        ensures suits { IfOk result (λ accepted. IfSome accepted
            (Suits (schema_tree self.now.kept.schema) self.now.kept.records.0)) }
    {
        let kept = &self.kept;
        accept(alloc, &kept.schema, &kept.records, kept.size, member, push)
    }

    /// Appends the entry of a push that was accepted, in this room as it is, and forgets the oldest
    /// removed ids where too many are remembered. It counts at most a step for each id that the entry
    /// names. It costs what the entry names, a logarithm of the records for each id, and, where ids are
    /// forgotten, those and a pass over the ids.
    ///
    /// # Errors
    ///
    /// Memory was refused; the room keeps what it kept.
    pub fn append<L: Ledger>(
        &mut self,
        alloc: Global,
        accepted: Accepted,
        steps: &mut Steps<L>,
    ) -> Mem<()>
        requires suits { Suits (schema_tree self.old.kept.schema) self.old.kept.records.0 accepted }
        requires below { self.old.kept.clock <ℤ pos (2 ^ 53) }
        ensures ok { OnOk result ((first : ℕ) (history : History)
            → Keeps first history self.old.kept
            → Keeps first (accepted.entry ∷ history) self.new.kept) }
        ensures err { OnErr result ((first : ℕ) (history : History)
            → Keeps first history self.old.kept → Keeps first history self.new.kept) }
        ensures schema { self.new.kept.schema ≡ self.old.kept.schema }
        ensures ticks { steps.new ≤ steps.old + length accepted.entry.diff }
    {
        self.kept.append(alloc, accepted, steps)
    }

    /// Removes the presence of a session, where it is there, by an entry, and forgets the oldest
    /// removed ids where too many are remembered. It tells whether the presence was there, and takes
    /// no memory.
    pub fn remove_presence(&mut self, removal: Removal) -> bool
        ensures was_there { result
            ≡ is_some (value_at self.old.kept.records.0 (presence_id removal.session)) }
        ensures keeps { (first : ℕ) (history : History) → Keeps first history self.old.kept
            → Keeps first
            (if result then rooms.removal removal.session ∷ history else history) self.new.kept }
        ensures schema { self.new.kept.schema ≡ self.old.kept.schema }
    {
        self.kept.remove_presence(removal)
    }
}
