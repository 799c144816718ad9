//! The inverses between two marks.
ghost use Rattle.std.specs.Prelude.{◌≡◌, ◌++◌, [], ◌↔◌, None, Some, unwrap_or, IsTrue, false, IfOk, OnOk};
ghost use Rattle.field_ops.specs.RecordOps.{RecordOps, IsSoundDiff};
ghost use Rattle.doc_model.specs.Merging.{merge};
ghost use Rattle.doc_model.specs.Marks.{merge_some};
ghost use Rattle.undo_marks.specs.Inverses.{diff_has_append, AreInverses, if_has_append, unless_empty};

use crate::join::{join, tell_sound};
use field_ops::Diff;
use rooms_val::Mem;
use std::alloc::Global;

/// The inverses of the edits between two marks. All but perhaps the last are merged in one.
#[derive(Drop)]
pub(crate) struct Stretch {
    // The older ones, merged, if there are any.
    joined: Option<Diff>,
    // The newest, if it isn't merged with them.
    latest: Option<Diff>,
    ghost joined_plain: { if_has_append joined ≡ false },
    ghost latest_plain: { if_has_append latest ≡ false },
}

impl Stretch {
    ghost use Rattle.undo_marks.specs.Kept.{diffs_of};

    /// No inverse.
    pub(crate) fn new() -> Stretch
        ensures empty { diffs_of result ≡ [] }
        ensures settled { result.latest ≡ None }
    {
        Stretch {
            joined: None,
            latest: None,
        }
    }

    /// Whether there is no inverse.
    pub(crate) fn is_empty(&self) -> bool
        ensures { IsTrue result ↔ (diffs_of self.now ≡ []) }
    {
        self.joined.is_none() && self.latest.is_none()
    }

    /// Merges the newest inverse with the others, so that there is place for one more. It costs what
    /// the newest one names. Where memory is refused they still merge to the same.
    pub(crate) fn settle(&mut self, alloc: Global) -> Mem<()>
        ensures same { merge_some (diffs_of self.new) ≡ merge_some (diffs_of self.old) }
        ensures settled { OnOk result (self.new.latest ≡ None) }
        ensures stays { self.old.latest ≡ None → self.new.latest ≡ None }
    {
        let Some(newer) = self.latest.take() else {
            return Ok(());
        };
        let Some(mut older) = self.joined.take() else {
            self.joined = Some(newer);
            return Ok(());
        };
        tell_sound(&older);
        tell_sound(&newer);
        match join(alloc, &mut older, &newer) {
            Ok(()) => {
                self.joined = Some(older);
                Ok(())
            }
            Err(refused) => {
                self.joined = Some(older);
                self.latest = Some(newer);
                Err(refused)
            }
        }
    }

    /// Adds the newest inverse, unless it is empty. There is place for it.
    pub(crate) fn add(&mut self, inverse: Diff)
        requires settled { self.old.latest ≡ None }
        requires plain { diff_has_append inverse ≡ false }
        ensures added { diffs_of self.new ≡ diffs_of self.old ++ unless_empty inverse }
        ensures inverses { AreInverses (diffs_of self.old) }
        ensures sound { IsSoundDiff inverse }
    {
        self.tell_inverses();
        tell_sound(&inverse);
        if inverse.is_empty() {
            return;
        }
        self.latest = Some(inverse);
    }

    /// All of it as one diff, a copy.
    pub(crate) fn merged_diff(&self, alloc: Global) -> Mem<Diff>
        ensures merged { IfOk result (λ diff. diff ≡ merge (diffs_of self.now)) }
        ensures plain { IfOk result (λ diff. diff_has_append diff ≡ false) }
        ensures inverses { AreInverses (diffs_of self.now) }
    {
        self.tell_inverses();
        match &self.latest {
            None => copy_or_empty(alloc, &self.joined),
            Some(latest) => {
                let mut diff = copy_or_empty(alloc, &self.joined)?;
                join(alloc, &mut diff, latest)?;
                Ok(diff)
            }
        }
    }

    // That the inverses are sound is told by the types of the diffs.
    fn tell_inverses(&self)
        ensures { AreInverses (diffs_of self.now) }
    {
        tell_sound_if(&self.joined);
        tell_sound_if(&self.latest);
    }
}

// A copy of a diff, which is one without operations where there is none.
fn copy_or_empty(alloc: Global, diff: &Option<Diff>) -> Mem<Diff>
    ensures { IfOk result (λ copy. copy ≡ unwrap_or diff.now []) }
{
    match diff {
        Some(diff) => diff.copy(alloc),
        None => Ok(Diff::new(alloc)),
    }
}

// That a diff is sound, if there is one.
fn tell_sound_if(diff: &Option<Diff>)
    ensures { (given : RecordOps) → diff.now ≡ Some given → IsSoundDiff given }
{
    if let Some(given) = diff {
        tell_sound(given);
    }
}
