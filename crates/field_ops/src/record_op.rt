//! Operations on a record.
ghost use Rattle.std.specs.Prelude.{◌≡◌, IfOk};

use crate::object_diff::ObjectDiff;
use crate::parts::{arguments, list_of_name, with};
use crate::value_op::ValueOp;
use rooms_val::{Mem, OpFault, Val};
use std::alloc::Global;

/// What happens to the record of an id.
#[derive(Drop)]
pub enum RecordOp {
    /// The id gets the record.
    Put(Val),
    /// The record is patched. Where there is none, or it is no map, nothing happens.
    Patch(ObjectDiff),
    /// The record is taken away.
    Remove,
}

impl RecordOp {
    ghost use Rattle.field_ops.specs.RecordOps.{RecordOpTree, change_name, has_append, IsSoundChange};
    ghost use Rattle.rooms_val.specs.View.{data_of};
    ghost use Rattle.field_ops.specs.WireRecordOps.{change_data};
    ghost use Rattle.field_ops.specs.ViewRecordOps.{change_of};

    /// Its name: `put`, `patch` or `remove`.
    pub fn name(&self) -> &'static str
        ensures name { result.now ≡ change_name (change_of self.now) }
        ensures sound { IsSoundChange (change_of self.now) }
    {
        match self {
            RecordOp::Put(val) => {
                let _ = val.kind();
                "put"
            }
            RecordOp::Patch(diff) => {
                let _ = diff.len();
                "patch"
            }
            RecordOp::Remove => "remove",
        }
    }

    /// Reads an operation from the value by which it is sent. `WrongKind` exactly where the value is that of no
    /// operation, or `OutOfMemory`.
    pub(crate) fn read(alloc: Global, val: &Val) -> Result<RecordOp, OpFault>
        ensures found { IfOk result (λ op. data_of val.now ≡ change_data (change_of op)) }
        ensures only { result ≡ Err OpFault.WrongKind → (c : RecordOpTree) → IsSoundChange c
            → ¬ (data_of val.now ≡ change_data c) }
    {
        if let Some(args) = arguments(val, "remove") {
            return if args.is_empty() {
                Ok(RecordOp::Remove)
            } else {
                Err(OpFault::WrongKind)
            };
        }
        match ValueOp::read(alloc, val)? {
            ValueOp::Put(val) => Ok(RecordOp::Put(val)),
            ValueOp::Patch(diff) => Ok(RecordOp::Patch(diff)),
            ValueOp::Append(_, _) => Err(OpFault::WrongKind),
            ValueOp::AppendText(_, _) => Err(OpFault::WrongKind),
            ValueOp::Delete => Err(OpFault::WrongKind),
        }
    }

    /// The value by which it is sent and kept: a list of its name and what it holds.
    pub(crate) fn to_val(&self, alloc: Global) -> Mem<Val>
        ensures { IfOk result (λ v. data_of v ≡ change_data (change_of self.now)) }
    {
        match self {
            RecordOp::Put(val) => Ok(Val::List(with(
                list_of_name(alloc, "put")?,
                val.copy(alloc)?,
            )?)),
            RecordOp::Patch(diff) => Ok(Val::List(with(
                list_of_name(alloc, "patch")?,
                Val::Map(diff.to_fields(alloc)?),
            )?)),
            RecordOp::Remove => Ok(Val::List(list_of_name(alloc, "remove")?)),
        }
    }

    /// Whether an append stands anywhere in it.
    pub(crate) fn has_append(&self) -> bool
        ensures { result ≡ has_append (change_of self.now) }
    {
        match self {
            RecordOp::Put(_) => false,
            RecordOp::Patch(diff) => diff.has_append(),
            RecordOp::Remove => false,
        }
    }

    /// An equal operation.
    pub fn copy(&self, alloc: Global) -> Mem<RecordOp>
        ensures { IfOk result (λ op. change_of op ≡ change_of self.now) }
    {
        Ok(match self {
            RecordOp::Put(val) => RecordOp::Put(val.copy(alloc)?),
            RecordOp::Patch(diff) => RecordOp::Patch(diff.copy(alloc)?),
            RecordOp::Remove => RecordOp::Remove,
        })
    }
}
