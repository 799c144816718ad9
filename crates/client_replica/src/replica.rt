//! A replica of a room's document, with edits over it that the room hasn't answered.
ghost use Rattle.std.specs.Prelude.{◌≡◌, ◌+◌, ◌*◌, ◌≤◌, ◌∷◌, [], ℕ, List, length, drop, take, map, slice_get, is_some, ◌||◌, true, false, IfOk, OnOk, OnErr};
ghost use Rattle.std.specs.Option.{option_copied};
ghost use Rattle.std.specs.Borrow.{sem};
ghost use Rattle.rooms_val.specs.View.{data_of};
ghost use Rattle.field_ops.specs.View.{maybe_data};
ghost use Rattle.doc_model.specs.Inverses.{inverse_diff};
ghost use Rattle.doc_store.specs.Checking.{admits_by, IsChecked};
ghost use Rattle.field_ops.specs.RecordOps.{RecordOps};
ghost use Rattle.client_replica.specs.Stashes.{under, AreCounted};
ghost use Rattle.room_model.specs.Replicas.{edit, presence, diff_in};
ghost use Rattle.room_model.specs.Schemas.{records_with};
ghost use Rattle.schema_core.specs.SchemaOf.{schema_tree};
ghost use Rattle.room_model.specs.Taking as model;
ghost use Rattle.room_model.specs.Taking.{after_events, after_hydration};
ghost use Rattle.client_replica.specs.Parts.{wiped};
ghost use Rattle.client_replica.specs.Works.{work_of, works_in, diffs_in, operations, brought, ended};
ghost use Rattle.rooms_val.specs.Data.{Pairs};
ghost use Rattle.rooms_val.specs.Maps.{AreRising, value_at};
ghost use Rattle.doc_model.specs.Documents.{step, replay};
ghost use Rattle.sync_msgs.specs.declared.server_message.Hydration.TheVariants.{WipeAll, WipePresence};
ghost use Rattle.client_replica.specs.NewBases.{IsOf, NamesWithin};
ghost use Rattle.client_replica.specs.Owns.{are_own, settled};
ghost use Rattle.client_replica.specs.Standing.{IsReplica, Stands, admits_of, document_of, presence_of, with_work, alone, after_snapshot};

use crate::new_base::NewBase;
use crate::own::{are_own, forget_first, settle};
use crate::replay::replay;
use crate::stash::Stash;
use crate::stepping::{clear, step_base};
use crate::work::Work;
use doc_store::{DocStore, apply};
use edit_names::EditNames;
use field_ops::Diff;
use rooms_val::{Fields, Mem, OutOfMemory, Steps, Val};
use schema_core::Schema;
use std::alloc::Global;
use std::collections::VecDeque;
use std::mem;
use std::sync::ledger::Ledger;
use sync_msgs::{Events, Hydration};

/// A base and pending works over it. Contracts say for which of `room_model`'s replicas it stands.
#[derive(Drop)]
pub struct Replica<D> {
    // What is admitted, and whose the ids are.
    schema: Schema,
    // The base's document with the pending edits replayed. No transaction is open between calls.
    store: D,
    // What stood in the base's document under the ids that pending edits name, and no other id.
    stash: Stash,
    // What no room has answered, the oldest first.
    works: VecDeque<Work>,
    // How many of the edits among the works name each id.
    names: EditNames,
    // The base's other part: the presence of others, by id.
    others: Fields,
}

impl<D: DocStore> Replica<D> {
    ghost use Rattle.client_replica.specs.Lending.{LendsStore};

    /// A replica over a store without a record: its base is empty, and nothing is pending.
    pub fn new(alloc: Global, schema: Schema, store: D) -> Replica<D>
        requires { D.records store ≡ [] }
        ensures stands { Stands D.records (record { base = []; pending = [] }) result }
        ensures store { result.store ≡ store }
        ensures schema { result.schema ≡ schema }
    {
        Replica {
            schema,
            store,
            stash: Stash::new(alloc),
            works: VecDeque::new(alloc),
            names: EditNames::new(alloc),
            others: Fields::new(alloc),
        }
    }

    /// Does an edit, whose ids are the document's: its operations act as the step has it, and it is pending. Returns the
    /// diff that undoes what acted. An edit costs what the diff names, at most a step for each operation. Where memory is
    /// refused the replica is as before.
    ///
    /// By `checked` the caller vouches for the diff. Where `checked` is true, the caller knows that each patch of the diff
    /// acts: the patch leaves a record, and that record is admitted. A patch then acts wherever it leaves a record, and
    /// those records aren't looked at again. Where the caller is wrong, nothing is said of what the replica stands for, or
    /// of the diff that is returned. Where `checked` is false, the caller vouches for nothing, and each patch is checked.
    pub fn edit<L: Ledger>(
        &mut self,
        alloc: Global,
        diff: Diff,
        checked: bool,
        steps: &mut Steps<L>,
    ) -> Mem<Diff>
        ensures ok { OnOk result ((replica : model.Replica) → Stands D.records replica self.old
            → IsChecked checked (admits_of self.old) (D.records self.old.store) diff
            → Stands D.records (with_work (edit diff) replica) self.new) }
        ensures back { IfOk result (λ back.
            IsChecked checked (admits_of self.old) (D.records self.old.store) diff
            → back ≡ inverse_diff (admits_of self.old) (D.records self.old.store) diff) }
        ensures err { OnErr result ((replica : model.Replica) → Stands D.records replica self.old
            → Stands D.records replica self.new) }
        ensures schema { self.new.schema ≡ self.old.schema }
        ensures begun { D.begun self.new.store ≡ D.begun self.old.store }
        ensures rest { D.rest self.new.store ≡ D.rest self.old.store }
        ensures ticks { steps.new ≤ steps.old + length diff }
    {
        self.works.reserve(1)?;
        self.names.add(alloc, &diff)?;
        match write_edit(
            alloc,
            &self.schema,
            &mut self.store,
            &mut self.stash,
            &diff,
            checked,
            steps,
        ) {
            Ok(back) => {
                self.works.push_back_reserved(Work::Edit(diff));
                Ok(back)
            }
            Err(_) => {
                self.names.remove(&diff);
                Err(OutOfMemory)
            }
        }
    }

    /// A presence is pending. Where memory is refused nothing changes.
    pub fn show(&mut self, stored: Val) -> Mem<()>
        ensures ok { OnOk result ((replica : model.Replica) → Stands D.records replica self.old
            → Stands D.records (with_work (presence (data_of stored)) replica) self.new) }
        ensures err { OnErr result ((replica : model.Replica) → Stands D.records replica self.old
            → Stands D.records replica self.new) }
        ensures schema { self.new.schema ≡ self.old.schema }
        ensures store { self.new.store ≡ self.old.store }
    {
        self.works.push_back(Work::Presence(stored))?;
        Ok(())
    }

    /// The room is lost: the pending presences go, and those of others. It takes no memory.
    pub fn part(&mut self, alloc: Global)
        ensures ok { (replica : model.Replica) → Stands D.records replica self.old
            → Stands D.records (alone (document_of self.old) replica) self.new }
        ensures schema { self.new.schema ≡ self.old.schema }
        ensures store { self.new.store ≡ self.old.store }
    {
        self.works.retain(is_edit);
        self.others = Fields::new(alloc);
    }

    /// Takes what happened in the room: the events are done to the base in order, and each result ends the first pending
    /// work. Where memory is refused the replica is as before.
    ///
    /// Where each event commits the first work that is left then, and these works name ids of the document alone, the store
    /// stays, no step is counted, and no work left is walked. The scope of each id that the ended works name is looked up.
    /// Where works are left, the ended works are also done to the base. Where no work is left, the stash and the counts are
    /// dropped instead; they have ids of the ended works alone.
    ///
    /// Else what is shown is written under the ids that the events bring and under those that the ended works name. At most
    /// one step is counted for each operation that the events bring, and two for each operation of the ended works. The
    /// works left are walked for each of these ids that pending edits name. The events cost that. Where a presence changes,
    /// they also cost a copy of the list of presences. They never cost the document.
    pub fn take_events<L: Ledger>(
        &mut self,
        alloc: Global,
        events: &Events,
        steps: &mut Steps<L>,
    ) -> Mem<()>
        ensures ok { OnOk result ((replica : model.Replica) → Stands D.records replica self.old
            → Stands D.records (after_events (admits_of self.old) replica events.now) self.new) }
        ensures err { OnErr result ((replica : model.Replica) → Stands D.records replica self.old
            → Stands D.records replica self.new) }
        ensures schema { self.new.schema ≡ self.old.schema }
        ensures begun { D.begun self.new.store ≡ D.begun self.old.store }
        ensures rest { D.rest self.new.store ≡ D.rest self.old.store }
        ensures ticks { (replica : model.Replica) → Stands D.records replica self.old
            → steps.new ≤ steps.old + (2 * operations (diffs_in
            (works_in replica.pending)) + brought events.now) }
        ensures few { (replica : model.Replica) → Stands D.records replica self.old
            → steps.new ≤ steps.old + (brought events.now + 2 * operations (diffs_in
            (take (ended events.now) (works_in replica.pending)))) }
        ensures own { OnOk result ((replica : model.Replica) → Stands D.records replica self.old
            → are_own (document_of self.old) (works_in replica.pending) events.now ≡ true
            → (steps.new ≡ steps.old) × (self.new.store ≡ self.old.store)) }
    {
        let own = are_own(&self.schema, &self.works, events);
        let count = events.as_slice().len();
        if own && self.works.len() <= count {
            self.stash = Stash::new(alloc);
            self.names = EditNames::new(alloc);
            drop_first(&mut self.works, count);
            return Ok(());
        }
        let mut base = NewBase::new(alloc, self.others.copy(alloc)?);
        let answered = base.take_events(
            alloc,
            &self.schema,
            &self.store,
            &self.stash,
            &self.works,
            events,
        )?;
        if own {
            forget_first(&mut self.names, &self.works, answered);
            self.settle(base);
            drop_first(&mut self.works, answered);
            return Ok(());
        }
        self.write_changes(alloc, &base.changes, answered, steps)?;
        forget_first(&mut self.names, &self.works, answered);
        self.settle(base);
        drop_first(&mut self.works, answered);
        Ok(())
    }

    /// Takes what the room has: the base is brought to the room's by the diff, and the edits stay pending; the replica's own
    /// presence is pending last, if there is one. For `WipePresence` it costs what the diff names, with a walk over the
    /// works for each of these ids that pending edits name; for `WipeAll` the base's document, the diff, and what is
    /// pending, which is undone and replayed. Where memory is refused the replica is as before.
    pub fn take_snapshot<L: Ledger>(
        &mut self,
        alloc: Global,
        hydration: Hydration,
        diff: &Diff,
        own: Option<Val>,
        steps: &mut Steps<L>,
    ) -> Mem<()>
        ensures ok { OnOk result ((replica : model.Replica) → Stands D.records replica self.old
            → Stands D.records (after_snapshot (admits_of self.old)
            (document_of self.old) hydration diff.now (maybe_data own) replica) self.new) }
        ensures err { OnErr result ((replica : model.Replica) → Stands D.records replica self.old
            → Stands D.records replica self.new) }
        ensures schema { self.new.schema ≡ self.old.schema }
        ensures begun { D.begun self.new.store ≡ D.begun self.old.store }
        ensures rest { D.rest self.new.store ≡ D.rest self.old.store }
        ensures ticks { (replica : model.Replica) → Stands D.records replica self.old
            → steps.new ≤ steps.old + (2 * operations (diffs_in
            (works_in replica.pending)) + length diff.now + wiped hydration (records_with
            (document_of self.old) replica.base)) }
        ensures few { hydration ≡ WipePresence → steps.new ≤ steps.old + length diff.now }
    {
        self.works.reserve(1)?;
        self.hydrate(alloc, hydration, diff, steps)?;
        if let Some(stored) = own {
            self.works.push_back_reserved(Work::Presence(stored));
        }
        Ok(())
    }

    // Brings the base to what a room has.
    fn hydrate<L: Ledger>(
        &mut self,
        alloc: Global,
        hydration: Hydration,
        diff: &Diff,
        steps: &mut Steps<L>,
    ) -> Mem<()>
        ensures ok { OnOk result ((replica : model.Replica) → Stands D.records replica self.old
            → Stands D.records (record replica {
              base = after_hydration (admits_of self.old)
                  (document_of self.old) replica.base hydration diff.now;
            }) self.new) }
        ensures err { OnErr result ((replica : model.Replica) → Stands D.records replica self.old
            → Stands D.records replica self.new) }
        ensures schema { self.new.schema ≡ self.old.schema }
        ensures works { self.new.works ≡ self.old.works }
        ensures begun { D.begun self.new.store ≡ D.begun self.old.store }
        ensures rest { D.rest self.new.store ≡ D.rest self.old.store }
        ensures ticks { (replica : model.Replica) → Stands D.records replica self.old
            → steps.new ≤ steps.old + (2 * operations (diffs_in
            (works_in replica.pending)) + length diff.now + wiped hydration (records_with
            (document_of self.old) replica.base)) }
        ensures few { hydration ≡ WipePresence → steps.new ≤ steps.old + length diff.now }
    {
        match hydration {
            Hydration::WipeAll => self.restart(alloc, diff, steps),
            Hydration::WipePresence => self.go_on(alloc, diff, steps),
        }
    }

    // Brings the base to what a room has that remembers what changed since: what is shown is written where the diff changes
    // it.
    fn go_on<L: Ledger>(&mut self, alloc: Global, diff: &Diff, steps: &mut Steps<L>) -> Mem<()>
        ensures ok { OnOk result ((replica : model.Replica) → Stands D.records replica self.old
            → Stands D.records (record replica {
              base = after_hydration (admits_of self.old)
                  (document_of self.old) replica.base WipePresence diff.now;
            }) self.new) }
        ensures err { OnErr result ((replica : model.Replica) → Stands D.records replica self.old
            → Stands D.records replica self.new) }
        ensures schema { self.new.schema ≡ self.old.schema }
        ensures works { self.new.works ≡ self.old.works }
        ensures begun { D.begun self.new.store ≡ D.begun self.old.store }
        ensures rest { D.rest self.new.store ≡ D.rest self.old.store }
        ensures ticks { steps.new ≤ steps.old + length diff.now }
    {
        let mut base = NewBase::new(alloc, Fields::new(alloc));
        base.step(alloc, &self.schema, &self.store, &self.stash, diff)?;
        self.write_changes(alloc, &base.changes, 0, steps)?;
        self.settle(base);
        Ok(())
    }

    // Replays the works from a place on over what changed of the base, and writes that to the store.
    fn write_changes<L: Ledger>(
        &mut self,
        alloc: Global,
        changes: &Stash,
        from: usize,
        steps: &mut Steps<L>,
    ) -> Mem<()>
        ensures ok { OnOk result ((base : Pairs) → AreRising base
            → AreRising (D.records self.old.store) → IsOf base changes.now
            → NamesWithin (diffs_in (map work_of (drop from self.old.works.items))) self.old.stash
            → ((id : List ℕ) → is_some (value_at changes.now id) ≡ false
            → value_at (D.records self.old.store) id ≡ value_at (replay (admits_of self.old) base
            (diffs_in (map work_of (drop from self.old.works.items)))) id)
            → D.records self.new.store ≡ replay (admits_of self.old) base
            (diffs_in (map work_of (drop from self.old.works.items)))) }
        ensures err { OnErr result (D.records self.new.store ≡ D.records self.old.store) }
        ensures kept { self.new ≡ record self.old { store = self.new.store } }
        ensures begun { D.begun self.new.store ≡ D.begun self.old.store }
        ensures rest { D.rest self.new.store ≡ D.rest self.old.store }
        ensures ticks { steps.new ≤ steps.old + length changes.now }
    {
        let shown = changes.with_edits(alloc, &self.schema, &self.stash, &self.works, from)?;
        shown.tell_rising();
        begin(&mut self.store)?;
        match shown.write_back(alloc, &mut self.store, steps) {
            Ok(()) => {
                self.store.commit();
                Ok(())
            }
            Err(_) => {
                self.store.abort();
                Err(OutOfMemory)
            }
        }
    }

    // Keeps a base that went on: of the ids that changed the stash holds those that a counted edit names. It takes no
    // memory.
    fn settle(&mut self, base: NewBase)
        ensures stash { (diffs : List RecordOps) → AreCounted diffs self.old.names
            → NamesWithin diffs self.old.stash → (id : List ℕ) → value_at self.new.stash id
            ≡ settled diffs base.changes self.old.stash id }
        ensures rising { AreRising self.new.stash }
        ensures kept { self.new
            ≡ record self.old { stash = self.new.stash; others = base.others } }
    {
        let NewBase { changes, others } = base;
        settle(&mut self.stash, &self.names, changes);
        self.stash.tell_rising();
        self.others = others;
    }

    // Begins anew from what a room has: the document is wiped, the diff is done, and the edits are replayed.
    fn restart<L: Ledger>(&mut self, alloc: Global, diff: &Diff, steps: &mut Steps<L>) -> Mem<()>
        ensures ok { OnOk result ((replica : model.Replica) → Stands D.records replica self.old
            → Stands D.records (record replica {
              base = after_hydration (admits_of self.old)
                  (document_of self.old) replica.base WipeAll diff.now;
            }) self.new) }
        ensures err { OnErr result ((replica : model.Replica) → Stands D.records replica self.old
            → Stands D.records replica self.new) }
        ensures schema { self.new.schema ≡ self.old.schema }
        ensures works { self.new.works ≡ self.old.works }
        ensures begun { D.begun self.new.store ≡ D.begun self.old.store }
        ensures rest { D.rest self.new.store ≡ D.rest self.old.store }
        ensures ticks { (replica : model.Replica) → Stands D.records replica self.old
            → steps.new ≤ steps.old + (2 * operations (diffs_in
            (works_in replica.pending)) + length diff.now + length (records_with
            (document_of self.old) replica.base)) }
    {
        let mut others = Fields::new(alloc);
        begin(&mut self.store)?;
        match self.rebuild(alloc, &mut others, diff, steps) {
            Ok(stash) => {
                self.store.commit();
                self.stash = stash;
                self.others = others;
                Ok(())
            }
            Err(_) => {
                self.store.abort();
                Err(OutOfMemory)
            }
        }
    }

    // Wipes the store, does the diff, and replays the edits.
    fn rebuild<L: Ledger>(
        &mut self,
        alloc: Global,
        others: &mut Fields,
        diff: &Diff,
        steps: &mut Steps<L>,
    ) -> Mem<Stash>
        ensures ok { IfOk result (λ stash. (replica : model.Replica)
            → Stands D.records replica self.old → others.old ≡ []
            → IsReplica (schema_tree self.old.schema) (D.records self.new.store)
            (map work_of self.old.works.items) stash others.new
            (record replica {
              base = after_hydration (admits_of self.old)
                  (document_of self.old) replica.base WipeAll diff.now;
            })) }
        ensures kept { self.new ≡ record self.old { store = self.new.store } }
        ensures begun { D.begun self.new.store ≡ D.begun self.old.store }
        ensures rest { D.rest self.new.store ≡ D.rest self.old.store }
        ensures ticks { (replica : model.Replica) → Stands D.records replica self.old
            → steps.new ≤ steps.old + (2 * operations (diffs_in
            (works_in replica.pending)) + length diff.now + length (records_with
            (document_of self.old) replica.base)) }
    {
        self.stash.write_back(alloc, &mut self.store, steps)?;
        clear(alloc, &mut self.store, steps)?;
        step_base(alloc, &self.schema, &mut self.store, others, diff, steps)?;
        let stash = replay(alloc, &self.schema, &mut self.store, &self.works, 0, steps)?;
        Ok(stash)
    }

    /// The schema that says what is admitted.
    pub fn schema(&self) -> &Schema
        ensures { result.now ≡ self.now.schema }
    {
        &self.schema
    }

    /// The store: the base's document with the pending edits replayed.
    pub fn store(&self) -> &D
        ensures { result.now ≡ self.now.store }
    {
        &self.store
    }

    /// The store, whose rest may be changed. Afterwards its records are to be as before, and no transaction is to be open.
    pub fn store_mut(&mut self) -> &mut D
        ensures* writes_back { sem 𝓛 (LendsStore D.row self.entry result) }
        ensures value { result.now ≡ self.old.store }
    {
        &mut self.store
    }

    /// The presence of others, by id.
    pub fn others(&self) -> &Fields
        ensures { result.now ≡ self.now.others }
    {
        &self.others
    }

    /// How many works are pending.
    pub fn len(&self) -> usize
        ensures { result ≡ length self.now.works.items }
    {
        self.works.len()
    }

    /// The pending work at a place, the oldest at 0. `None` exactly past the end.
    pub fn at(&self, place: usize) -> Option<&Work>
        ensures { option_copied result ≡ slice_get self.now.works.items place }
    {
        self.works.get(place)
    }
}

// Does an edit to a store, and holds what stood there before. Where memory is refused store and stash are as before.
fn write_edit<D: DocStore, L: Ledger>(
    alloc: Global,
    schema: &Schema,
    store: &mut D,
    stash: &mut Stash,
    diff: &Diff,
    checked: bool,
    steps: &mut Steps<L>,
) -> Mem<Diff>
    ensures shown { OnOk result (D.records store.new
        ≡ step (admits_by checked (schema_tree schema.now)) (D.records store.old) diff.now) }
    ensures base { OnOk result ((id : List ℕ)
        → under stash.new (D.records store.old) id ≡ under stash.old (D.records store.old) id) }
    ensures exact { OnOk result ((id : List ℕ) → is_some (value_at stash.new id)
        ≡ is_some (value_at stash.old id) || is_some (value_at diff.now id)) }
    ensures few { OnOk result (length stash.new ≤ length stash.old + length diff.now) }
    ensures rising { OnOk result (AreRising stash.new) }
    ensures back { IfOk result (λ back. back
        ≡ inverse_diff (admits_by checked (schema_tree schema.now))
        (D.records store.old) diff.now) }
    ensures records { OnErr result (D.records store.new ≡ D.records store.old) }
    ensures err { OnErr result (stash.new ≡ stash.old) }
    ensures begun { D.begun store.new ≡ D.begun store.old }
    ensures rest { D.rest store.new ≡ D.rest store.old }
    ensures ticks { steps.new ≤ steps.old + length diff.now }
{
    let fresh = stash.keep_all(alloc, &*store, diff)?;
    match apply(alloc, store, schema, checked, diff, steps) {
        Ok(back) => Ok(back),
        Err(_) => {
            stash.forget(&fresh);
            Err(OutOfMemory)
        }
    }
}

// Opens a transaction of a store.
fn begin<D: DocStore>(store: &mut D) -> Mem<()>
    ensures ok { OnOk result (D.begun store.new ≡ D.records store.old ∷ D.begun store.old) }
    ensures err { OnErr result (D.begun store.new ≡ D.begun store.old) }
    ensures records { D.records store.new ≡ D.records store.old }
    ensures rest { D.rest store.new ≡ D.rest store.old }
{
    match store.begin() {
        Ok(()) => Ok(()),
        // Fewer than 16 are open, as none was.
        Err(_) => Err(OutOfMemory),
    }
}

// Drops the first works, which takes no memory.
fn drop_first(works: &mut VecDeque<Work>, count: usize)
    ensures { works.new.items ≡ drop count works.old.items }
{
    for _ in 0..count {
        drop(works.pop_front());
    }
}

// Whether a work is an edit.
fn is_edit(work: &Work) -> bool
    ensures { result ≡ is_some (diff_in (work_of work.now)) }
{
    match work {
        Work::Edit(_) => true,
        Work::Presence(_) => false,
    }
}
