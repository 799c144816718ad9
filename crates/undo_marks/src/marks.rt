//! What a client can take back and do again.
ghost use Rattle.std.specs.Prelude.{◌≡◌, ◌↔◌, ℕ, List, Some, None, Err, is_some, false, IfOk, OnOk, OnErr, MatchOption};
ghost use Rattle.rooms_val.specs.Answers.{Gives};
ghost use Rattle.doc_model.specs.Marks as model;
ghost use Rattle.doc_model.specs.Marks.{no_marks, after_mark, after_edit, undo_diff, after_undo, redo_diff, after_redo, bail_diff, after_bail};
ghost use Rattle.undo_marks.specs.Inverses.{diff_has_append};
ghost use Rattle.undo_marks.specs.declared.fault.BailFault.TheVariants as bail_fault;

use crate::fault::BailFault;
use crate::stretch::Stretch;
use crate::walk;
use field_ops::Diff;
use rooms_val::{Mem, Text};
use std::alloc::Global;
use std::mem;

/// A client's marks with the inverses of its edits, and what it took back. Contracts say for which
/// history and redo list it stands, and what is begun.
#[derive(Drop)]
pub struct Marks {
    // The marks, each with the inverses between it and the mark before, the oldest first.
    pub(crate) marked: Vec<Marked>,
    // The inverses after the last mark.
    pub(crate) last: Stretch,
    // What was taken back, the newest last.
    pub(crate) undone: Vec<Undone>,
    // What is begun, with the memory for it.
    pub(crate) begun: Begun,
}

/// A mark, and what was done between it and the mark before.
#[derive(Drop)]
pub(crate) struct Marked {
    pub(crate) before: Stretch,
    pub(crate) name: Text,
}

/// What an undo took back.
#[derive(Drop)]
pub(crate) struct Undone {
    // The diff that does it again.
    diff: Diff,
    // The names of the marks that the undo dropped, the newest first.
    names: Vec<Text>,
}

/// What is begun.
#[derive(Drop)]
pub(crate) enum Begun {
    Nothing,
    Edit,
    // With place for the names of the marks that it drops.
    Undo(Vec<Text>),
    Redo,
    // To the mark after which so many stand.
    Bail(usize),
}

impl Marks {
    ghost use Rattle.undo_marks.specs.Begun.{IsBegun, KeepsBegun, bail_answer};
    ghost use Rattle.undo_marks.specs.Begun as what;
    ghost use Rattle.undo_marks.specs.Standing.{Stands, KeepsStanding};

    /// Nothing to take back, and nothing to do again. Nothing is begun.
    pub fn new(alloc: Global) -> Marks
        ensures stands { Stands no_marks result }
        ensures begun { IsBegun what.nothing result }
    {
        Marks {
            marked: Vec::new(alloc),
            last: Stretch::new(),
            undone: Vec::new(alloc),
            begun: Begun::Nothing,
        }
    }

    /// Makes a mark. Nothing is begun afterwards. Where memory is refused nothing changes.
    pub fn mark(&mut self, name: Text) -> Mem<()>
        ensures ok { OnOk result ((marks : model.Marks) → Stands marks self.old
            → Stands (after_mark name marks) self.new) }
        ensures begun { OnOk result (IsBegun what.nothing self.new) }
        ensures err { OnErr result (KeepsStanding self.old self.new) }
        ensures keeps { OnErr result (KeepsBegun self.old self.new) }
    {
        self.marked.reserve(1)?;
        self.marked.push_reserved(Marked {
            before: mem::replace(&mut self.last, Stretch::new()),
            name,
        });
        self.begun = Begun::Nothing;
        Ok(())
    }

    /// Begins an edit, in place of what was begun before. It costs what the edit before it changed.
    /// History and redo list are as before; where memory is refused, so is what was begun.
    pub fn edit(&mut self, alloc: Global) -> Mem<()>
        ensures stands { KeepsStanding self.old self.new }
        ensures begun { OnOk result (IsBegun what.edit self.new) }
        ensures keeps { OnErr result (KeepsBegun self.old self.new) }
    {
        self.last.settle(alloc)?;
        self.begun = Begun::Edit;
        Ok(())
    }

    /// Does the edit that was begun, of which this is the inverse. An empty one isn't kept. It takes
    /// no memory, and nothing is begun afterwards.
    pub fn record(&mut self, inverse: Diff)
        requires begun { IsBegun what.edit self.old }
        requires plain { diff_has_append inverse ≡ false }
        ensures stands { (marks : model.Marks) → Stands marks self.old
            → Stands (after_edit inverse marks) self.new }
        ensures begun { IsBegun what.nothing self.new }
    {
        self.last.add(inverse);
        self.undone.clear(); // An edit ends what could be done again.
        self.begun = Begun::Nothing;
    }

    /// Begins an undo, in place of what was begun before, and returns the diff that it does: the
    /// inverses since the last mark before them. `None` exactly where the history has no inverse; then
    /// nothing is begun. It costs a copy of them. History and redo list are as before; where memory is
    /// refused, so is what was begun.
    pub fn undo(&mut self, alloc: Global) -> Mem<Option<Diff>>
        ensures diff { IfOk result (λ diff. (marks : model.Marks) → Stands marks self.old
            → diff ≡ undo_diff marks) }
        ensures stands { KeepsStanding self.old self.new }
        ensures begun { IfOk result (λ diff. MatchOption diff (IsBegun what.nothing self.new)
            (λ diff. IsBegun what.undo self.new)) }
        ensures keeps { OnErr result (KeepsBegun self.old self.new) }
    {
        let Some((dropped, taken)) = walk::last_inverses(&self.marked, &self.last) else {
            self.begun = Begun::Nothing;
            return Ok(None);
        };
        let diff = taken.merged_diff(alloc)?;
        let names = Vec::with_capacity(alloc, dropped)?;
        self.undone.reserve(1)?;
        self.begun = Begun::Undo(names);
        Ok(Some(diff))
    }

    /// Does the undo that was begun, of whose diff this is the inverse. The marks after the inverses
    /// that it took back are gone. It takes no memory, and nothing is begun afterwards.
    pub fn undone(&mut self, inverse: Diff)
        requires { IsBegun what.undo self.old }
        ensures stands { (marks : model.Marks) → Stands marks self.old
            → Stands (after_undo inverse marks) self.new }
        ensures begun { IsBegun what.nothing self.new }
    {
        let Begun::Undo(mut names) = mem::replace(&mut self.begun, Begun::Nothing) else {
            unreachable!()
        };
        'marks: while self.last.is_empty() {
            let Some(marked) = self.marked.pop() else {
                unreachable!()
            };
            names.push_reserved(marked.name);
            self.last = marked.before;
        }
        self.last = Stretch::new();
        self.undone.push_reserved(Undone {
            diff: inverse,
            names,
        });
    }

    /// Begins a redo, in place of what was begun before, and returns the diff that it does. `None`
    /// exactly where the redo list is empty; then nothing is begun. It costs a copy of the diff, and
    /// what the newest inverse since the last mark names, as that one is merged with those before it.
    /// History and redo list are as before; where memory is refused, so is what was begun.
    pub fn redo(&mut self, alloc: Global) -> Mem<Option<Diff>>
        ensures diff { IfOk result (λ diff. (marks : model.Marks) → Stands marks self.old
            → diff ≡ redo_diff marks) }
        ensures stands { KeepsStanding self.old self.new }
        ensures begun { IfOk result (λ diff. MatchOption diff (IsBegun what.nothing self.new)
            (λ diff. IsBegun what.redo self.new)) }
        ensures keeps { OnErr result (KeepsBegun self.old self.new) }
    {
        let Some((newest, _)) = self.undone.split_last() else {
            self.begun = Begun::Nothing;
            return Ok(None);
        };
        let diff = newest.diff.copy(alloc)?;
        self.marked.reserve(newest.names.len())?;
        self.last.settle(alloc)?;
        self.begun = Begun::Redo;
        Ok(Some(diff))
    }

    /// Does the redo that was begun, of whose diff this is the inverse. An empty one isn't kept. The
    /// marks that the undo dropped are back. It takes no memory, and nothing is begun afterwards.
    pub fn redone(&mut self, inverse: Diff)
        requires begun { IsBegun what.redo self.old }
        requires plain { diff_has_append inverse ≡ false }
        ensures stands { (marks : model.Marks) → Stands marks self.old
            → Stands (after_redo inverse marks) self.new }
        ensures begun { IsBegun what.nothing self.new }
    {
        self.last.add(inverse);
        let Some(Undone { diff: _, mut names }) = self.undone.pop() else {
            unreachable!()
        };
        'marks: while let Some(name) = names.pop() {
            let before = mem::replace(&mut self.last, Stretch::new());
            self.marked.push_reserved(Marked { before, name });
        }
        self.begun = Begun::Nothing;
    }

    /// Begins to take back all since the last mark of a name, in place of what was begun before, and
    /// returns the diff that does so. It costs a copy of what is taken back, for each mark in between.
    /// History and redo list are as before.
    ///
    /// # Errors
    /// `NoMark` exactly where there is no mark of the name, or `OutOfMemory`. Then what was begun
    /// still is.
    pub fn bail(&mut self, alloc: Global, name: &str) -> Result<Diff, BailFault>
        ensures diff { (marks : model.Marks) → Stands marks self.old
            → Gives bail_fault.OutOfMemory (λ diff. diff) result (bail_answer name.now marks) }
        ensures stands { KeepsStanding self.old self.new }
        ensures begun { OnOk result (IsBegun (what.bail name.now) self.new) }
        ensures keeps { OnErr result (self.new ≡ self.old) }
    {
        match walk::since_mark(alloc, &self.marked, &self.last, name)? {
            Some((newer, diff)) => {
                self.begun = Begun::Bail(newer);
                Ok(diff)
            }
            None => Err(BailFault::NoMark),
        }
    }

    /// Does the bail that was begun: the mark is gone with all that is after it, and there is nothing
    /// to do again. It takes no memory, and nothing is begun afterwards.
    pub fn bailed(&mut self)
        requires { (name : List ℕ) × IsBegun (what.bail name) self.old }
        ensures stands { (name : List ℕ) (marks : model.Marks) → IsBegun (what.bail name) self.old
            → Stands marks self.old → Stands (after_bail name marks) self.new }
        ensures begun { IsBegun what.nothing self.new }
    {
        let Begun::Bail(newer) = self.begun else {
            unreachable!()
        };
        self.marked.truncate(self.marked.len() - newer);
        let Some(marked) = self.marked.pop() else {
            unreachable!()
        };
        self.last = marked.before;
        self.undone.clear(); // So does a bail.
        self.begun = Begun::Nothing;
    }
}
