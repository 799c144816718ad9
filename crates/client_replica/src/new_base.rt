//! How a base goes on while store and stash stay: what changed of it is held beside them.
ghost use Rattle.std.specs.Prelude.{◌≡◌, ◌+◌, ◌*◌, ◌≤◌, [], ◌∷◌, ℕ, List, true, length, drop, take, map, option_map, IfOk, OnOk, is_some};
ghost use Rattle.std.specs.Option.{option_copied};
ghost use Rattle.rooms_val.specs.Data.{Pairs};
ghost use Rattle.rooms_val.specs.Maps.{value_at, AreRising};
ghost use Rattle.field_ops.specs.ViewRecordOps.{change_of};
ghost use Rattle.schema_core.specs.Admits.{is_admitted, is_document};
ghost use Rattle.schema_core.specs.SchemaOf.{schema_tree};
ghost use Rattle.doc_model.specs.Documents.{step};
ghost use Rattle.room_model.specs.Taking as model;
ghost use Rattle.room_model.specs.Taking.{after_events, result_diff};
ghost use Rattle.room_schemas.specs.Decided.{is_presence};
ghost use Rattle.client_replica.specs.Parts.{ops_with};
ghost use Rattle.client_replica.specs.Works.{work_of, works_in, diffs_in, operations, event_diff, ended_diff, brought_diff, brought, ended_by, ended};
ghost use Rattle.client_replica.specs.Stashes.{is_named};
ghost use Rattle.client_replica.specs.NewBases.{IsLaid, AreStepped, HasIdsOf, IsAhead};

use crate::replay::work_at;
use crate::stash::Stash;
use crate::stepping::step_others;
use crate::work::Work;
use doc_store::DocStore;
use field_ops::{Diff, RecordOp};
use rooms_val::{Fields, Mem, Text};
use schema_core::{Schema, Scope};
use std::alloc::Global;
use std::collections::VecDeque;
use sync_msgs::{Action, DataEvent, Events};

/// What a base has become, beside a store and a stash that lie over the base as it was.
#[derive(Drop)]
pub(crate) struct NewBase {
    // What its document has under the document's ids that an operation named, and under each id that an ended work named;
    // under others it is as it was.
    pub(crate) changes: Stash,
    // Its other part: the presence of others, by id.
    pub(crate) others: Fields,
}

impl NewBase {
    /// A base whose document is as it was.
    pub(crate) fn new(alloc: Global, others: Fields) -> NewBase
        ensures changes { result.changes ≡ [] }
        ensures others { result.others ≡ others }
    {
        NewBase {
            changes: Stash::new(alloc),
            others,
        }
    }

    /// Does a diff to the base.
    pub(crate) fn step<D: DocStore>(
        &mut self,
        alloc: Global,
        schema: &Schema,
        store: &D,
        stash: &Stash,
        diff: &Diff,
    ) -> Mem<()>
        ensures document { OnOk result (AreStepped (schema_tree schema.now) diff.now
            (D.records store.now) stash.now self.old.changes self.new.changes) }
        ensures presence { OnOk result (self.new.others
            ≡ step (is_admitted (schema_tree schema.now)) self.old.others (ops_with (is_presence
            (schema_tree schema.now)) diff.now)) }
        ensures more { OnOk result (HasIdsOf self.old.changes self.new.changes) }
        ensures few { OnOk result
            (length self.new.changes ≤ length self.old.changes + length diff.now) }
    {
        'ids: for (id, op) in diff.as_slice() {
            self.step_op(alloc, schema, store, stash, id, op)?;
        }
        Ok(())
    }

    // Does one operation to the part of the base that its id belongs to, or to none.
    fn step_op<D: DocStore>(
        &mut self,
        alloc: Global,
        schema: &Schema,
        store: &D,
        stash: &Stash,
        id: &Text,
        op: &RecordOp,
    ) -> Mem<()>
        ensures document { OnOk result (AreStepped (schema_tree schema.now)
            ((id.now, change_of op.now) ∷ []) (D.records store.now) stash.now
            self.old.changes self.new.changes) }
        ensures presence { OnOk result (self.new.others
            ≡ step (is_admitted (schema_tree schema.now)) self.old.others (ops_with (is_presence
            (schema_tree schema.now)) ((id.now, change_of op.now) ∷ []))) }
        ensures more { OnOk result (HasIdsOf self.old.changes self.new.changes) }
        ensures few { OnOk result (length self.new.changes ≤ length self.old.changes + 1) }
    {
        self.changes.tell_rising();
        match schema.scope_of(id.as_str()) {
            Some(Scope::Document) => self.changes.step(alloc, schema, store, stash, id, op),
            Some(Scope::Presence) => step_others(alloc, schema, &mut self.others, id, op),
            Some(Scope::Session) => Ok(()),
            None => Ok(()),
        }
    }

    // Holds the ids that a diff names too.
    fn touch<D: DocStore>(
        &mut self,
        alloc: Global,
        store: &D,
        stash: &Stash,
        diff: &Diff,
    ) -> Mem<()>
        ensures document { OnOk result ((base : Pairs)
            → IsLaid base (D.records store.now) stash.now self.old.changes
            → IsLaid base (D.records store.now) stash.now self.new.changes) }
        ensures named { OnOk result (HasIdsOf diff.now self.new.changes) }
        ensures more { OnOk result (HasIdsOf self.old.changes self.new.changes) }
        ensures few { OnOk result
            (length self.new.changes ≤ length self.old.changes + length diff.now) }
        ensures others { self.new.others ≡ self.old.others }
    {
        'ids: for (id, _) in diff.as_slice() {
            self.changes.tell_rising();
            self.changes.touch(alloc, store, stash, id)?;
        }
        Ok(())
    }

    // Does to the base what an event says, if this is the first work that is pending, and holds the ids of a work that ends.
    fn take_event<D: DocStore>(
        &mut self,
        alloc: Global,
        schema: &Schema,
        store: &D,
        stash: &Stash,
        first: Option<&Work>,
        event: &DataEvent,
    ) -> Mem<()>
        ensures document { OnOk result (AreStepped (schema_tree schema.now)
            (event_diff (option_map work_of (option_copied first.entry)) event.now)
            (D.records store.now) stash.now self.old.changes self.new.changes) }
        ensures presence { OnOk result (self.new.others
            ≡ step (is_admitted (schema_tree schema.now)) self.old.others (ops_with (is_presence
            (schema_tree schema.now)) (event_diff (option_map work_of
            (option_copied first.entry)) event.now))) }
        ensures touched { OnOk result (HasIdsOf (ended_diff (option_map work_of
            (option_copied first.entry)) event.now) self.new.changes) }
        ensures more { OnOk result (HasIdsOf self.old.changes self.new.changes) }
        ensures few { OnOk result (length self.new.changes
            ≤ length self.old.changes + (length (brought_diff event.now)
            + 2 * length (ended_diff (option_map work_of
            (option_copied first.entry)) event.now))) }
    {
        match event {
            DataEvent::Patch { diff, .. } => self.step(alloc, schema, store, stash, diff),
            DataEvent::PushResult { action, .. } => match first {
                Some(work) => match work {
                    Work::Edit(diff) => self.end_edit(alloc, schema, store, stash, diff, action),
                    Work::Presence(_) => self.end_other(alloc, schema, store, stash, action),
                },
                None => self.end_other(alloc, schema, store, stash, action),
            },
        }
    }

    // Does to the base what the result of an edit says, and holds the edit's ids.
    fn end_edit<D: DocStore>(
        &mut self,
        alloc: Global,
        schema: &Schema,
        store: &D,
        stash: &Stash,
        edit: &Diff,
        action: &Action,
    ) -> Mem<()>
        ensures document { OnOk result (AreStepped (schema_tree schema.now)
            (result_diff edit.now action.now)
            (D.records store.now) stash.now self.old.changes self.new.changes) }
        ensures presence { OnOk result (self.new.others
            ≡ step (is_admitted (schema_tree schema.now)) self.old.others (ops_with (is_presence
            (schema_tree schema.now)) (result_diff edit.now action.now))) }
        ensures touched { OnOk result (HasIdsOf edit.now self.new.changes) }
        ensures more { OnOk result (HasIdsOf self.old.changes self.new.changes) }
        ensures few { OnOk result (length self.new.changes
            ≤ length self.old.changes + (length (result_diff [] action.now)
            + 2 * length edit.now)) }
    {
        match action {
            Action::Commit => self.step_for(alloc, schema, store, stash, edit, edit),
            Action::Discard => self.touch(alloc, store, stash, edit),
            Action::Rebase(diff) => self.step_for(alloc, schema, store, stash, diff, edit),
        }
    }

    // Does a diff to the base in place of an edit, and holds the edit's ids.
    fn step_for<D: DocStore>(
        &mut self,
        alloc: Global,
        schema: &Schema,
        store: &D,
        stash: &Stash,
        diff: &Diff,
        edit: &Diff,
    ) -> Mem<()>
        ensures document { OnOk result (AreStepped (schema_tree schema.now) diff.now
            (D.records store.now) stash.now self.old.changes self.new.changes) }
        ensures presence { OnOk result (self.new.others
            ≡ step (is_admitted (schema_tree schema.now)) self.old.others (ops_with (is_presence
            (schema_tree schema.now)) diff.now)) }
        ensures touched { OnOk result (HasIdsOf edit.now self.new.changes) }
        ensures more { OnOk result (HasIdsOf self.old.changes self.new.changes) }
        ensures few { OnOk result (length self.new.changes
            ≤ length self.old.changes + (length diff.now + length edit.now)) }
    {
        self.step(alloc, schema, store, stash, diff)?;
        self.touch(alloc, store, stash, edit)
    }

    // Does to the base what the result of a presence says, or one that nothing was pending for.
    fn end_other<D: DocStore>(
        &mut self,
        alloc: Global,
        schema: &Schema,
        store: &D,
        stash: &Stash,
        action: &Action,
    ) -> Mem<()>
        ensures document { OnOk result (AreStepped (schema_tree schema.now)
            (result_diff [] action.now)
            (D.records store.now) stash.now self.old.changes self.new.changes) }
        ensures presence { OnOk result (self.new.others
            ≡ step (is_admitted (schema_tree schema.now)) self.old.others (ops_with (is_presence
            (schema_tree schema.now)) (result_diff [] action.now))) }
        ensures more { OnOk result (HasIdsOf self.old.changes self.new.changes) }
        ensures few { OnOk result (length self.new.changes
            ≤ length self.old.changes + length (result_diff [] action.now)) }
    {
        match action {
            Action::Commit => Ok(()),
            Action::Discard => Ok(()),
            Action::Rebase(diff) => self.step(alloc, schema, store, stash, diff),
        }
    }

    /// Does to the base what events say, in order, holds the ids of the works that they end, and returns how many of the
    /// events are results.
    pub(crate) fn take_events<D: DocStore>(
        &mut self,
        alloc: Global,
        schema: &Schema,
        store: &D,
        stash: &Stash,
        works: &VecDeque<Work>,
        events: &Events,
    ) -> Mem<usize>
        ensures ahead { IfOk result (λ answered. (replica : model.Replica)
            → works_in replica.pending ≡ map work_of works.now.items
            → IsAhead (schema_tree schema.now) replica replica.pending (D.records store.now)
            stash.now self.old.changes self.old.others
            → IsAhead (schema_tree schema.now) (after_events (is_admitted
            (schema_tree schema.now)) replica events.now) (drop answered replica.pending)
            (D.records store.now) stash.now self.new.changes self.new.others) }
        ensures touched { IfOk result (λ answered. (id : List ℕ)
            → is_named (diffs_in (map work_of (take answered works.now.items))) id ≡ true
            → is_some (value_at self.new.changes id) ≡ true) }
        ensures few { IfOk result (λ answered. length self.new.changes
            ≤ length self.old.changes + (brought events.now + 2 * operations (diffs_in
            (map work_of (take answered works.now.items))))) }
        ensures ended { IfOk result (λ answered. answered ≡ ended events.now) }
    {
        let mut answered = 0;
        'events: for event in events.as_slice() {
            let first = work_at(works, answered);
            self.take_event(alloc, schema, store, stash, first, event)?;
            answered += ended_by(event);
        }
        Ok(answered)
    }
}

// How many works an event ends: one if it is a result.
fn ended_by(event: &DataEvent) -> usize
    ensures { result ≡ ended_by event.now }
{
    match event {
        DataEvent::Patch { .. } => 0,
        DataEvent::PushResult { .. } => 1,
    }
}
