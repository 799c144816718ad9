//! The ids of a diff with their operations.
ghost use Rattle.std.specs.Prelude.{◌≡◌, [], length, IfOk, OnOk, OnErr, option_map, slice_get, IsTrue, ◌↔◌};

use crate::record_op::RecordOp;
use rooms_val::{Fields, Mem, OpFault, Text, Val, entries};
use std::alloc::Global;
use std::marker::Model;

/// What happens to records. Contracts see its pairs of an id and an operation, whose ids rise by bytes.
#[derive(Drop)]
pub struct Diff {
    entries: Vec<(Text, RecordOp)>,
}

impl Model for Diff {
    ghost use Rattle.field_ops.specs.RecordOps.{RecordOps, IsSoundDiff};
    ghost use Rattle.field_ops.specs.WireRecordOps.{coded_changes};

    ghost Value = { RecordOps };

    ghost coded = { coded_changes };

    ghost use Rattle.field_ops.specs.ViewRecordOps.{changes_view};

    ghost view = { λ d. changes_view d.entries.items };

    ghost invariant = { λ d. IsSoundDiff (changes_view d.entries.items) };
}

impl Diff {
    ghost use Rattle.field_ops.specs.RecordOps.{RecordOps, IsSoundDiff};
    ghost use Rattle.rooms_val.specs.View.{data_of};
    ghost use Rattle.field_ops.specs.WireRecordOps.{diff_data, diff_pairs};
    ghost use Rattle.rooms_val.specs.Maps.{value_at, with_key};
    ghost use Rattle.field_ops.specs.ViewRecordOps.{change_of, changes_view};

    /// The diff that names no id.
    pub fn new(alloc: Global) -> Diff
        ensures { result ≡ [] }
    {
        Diff {
            entries: Vec::new(alloc),
        }
    }

    /// How many ids it names.
    pub fn len(&self) -> usize
        ensures count { result ≡ length self.now }
        ensures sound { IsSoundDiff self.now }
    {
        self.entries.len()
    }

    /// Whether it names no id.
    pub fn is_empty(&self) -> bool
        ensures { IsTrue result ↔ (self.now ≡ []) }
    {
        self.entries.is_empty()
    }

    /// The id at a place with its operation; places count from 0 in the order of the ids. `None` exactly past the end.
    pub fn at(&self, place: usize) -> Option<(&Text, &RecordOp)>
        ensures { option_map (λ e. (e.0.now, change_of e.1.now)) result ≡ slice_get self.now place }
    {
        let entry = self.entries.get(place)?;
        Some((&entry.0, &entry.1))
    }

    /// The ids with their operations, in order.
    pub fn as_slice(&self) -> &[(Text, RecordOp)]
        ensures pairs { changes_view result.now ≡ self.now }
        ensures sound { IsSoundDiff self.now }
    {
        &self.entries
    }

    /// The operation on the record of an id. `None` exactly where the diff doesn't name the id. It costs a logarithm of
    /// the diff's size.
    pub fn get(&self, id: &str) -> Option<&RecordOp>
        ensures { option_map (λ op. change_of op.now) result ≡ value_at self.now id.now }
    {
        entries::get(&self.entries, id)
    }

    /// Sets the operation on the record of an id, and returns the one before. Where memory is refused the diff is as
    /// before. An id beyond all others is added at the cost of one comparison.
    pub fn put(&mut self, id: Text, op: RecordOp) -> Mem<Option<RecordOp>>
        ensures old { IfOk result (λ o. option_map change_of o ≡ value_at self.old id) }
        ensures ok { OnOk result (self.new ≡ with_key self.old id (change_of op)) }
        ensures err { OnErr result (self.new ≡ self.old) }
    {
        // That an operation is sound is told by its name.
        let _ = op.name();
        let old = entries::put(&mut self.entries, id, op)?;
        Ok(old)
    }

    /// The value by which it is sent and kept: a map from ids to operations.
    pub(crate) fn to_val(&self, alloc: Global) -> Mem<Val>
        ensures { IfOk result (λ v. data_of v ≡ diff_data self.now) }
    {
        let mut fields = Fields::new(alloc);
        for (id, op) in &self.entries {
            fields.put(id.copy(alloc)?, op.to_val(alloc)?)?;
        }
        Ok(Val::Map(fields))
    }

    /// Reads a diff from the value by which it is sent. `WrongKind` exactly where the value is that of no diff, or
    /// `OutOfMemory`.
    pub(crate) fn read(alloc: Global, val: &Val) -> Result<Diff, OpFault>
        ensures found { IfOk result (λ d. data_of val.now ≡ diff_data d) }
        ensures only { result ≡ Err OpFault.WrongKind → (cs : RecordOps) → IsSoundDiff cs
            → ¬ (data_of val.now ≡ diff_data cs) }
    {
        match val {
            Val::Map(fields) => Ok(Diff::read_fields(alloc, fields)?),
            _ => Err(OpFault::WrongKind),
        }
    }

    fn read_fields(alloc: Global, fields: &Fields) -> Result<Diff, OpFault>
        ensures found { IfOk result (λ d. fields.now ≡ diff_pairs d) }
        ensures only { result ≡ Err OpFault.WrongKind → (cs : RecordOps) → IsSoundDiff cs
            → ¬ (fields.now ≡ diff_pairs cs) }
    {
        let mut diff = Diff::new(alloc);
        for (id, val) in fields.as_slice() {
            diff.put(id.copy(alloc)?, RecordOp::read(alloc, val)?)?;
        }
        Ok(diff)
    }

    /// An equal diff.
    pub fn copy(&self, alloc: Global) -> Mem<Diff>
        ensures { IfOk result (λ d. d ≡ self.now) }
    {
        let mut entries = Vec::with_capacity(alloc, self.entries.len())?;
        for (id, op) in &self.entries {
            entries.push((id.copy(alloc)?, op.copy(alloc)?))?;
        }
        Ok(Diff { entries })
    }
}
