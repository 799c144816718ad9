//! The values by which operations are sent and kept.
//!
//! A record operation is `["put",record]`, `["patch",patch]` or `["remove"]`. A patch is a map from keys to value
//! operations. A value operation is `["put",value]`, `["patch",patch]`, `["append",list,offset]`,
//! `["append",text,offset]` or `["delete"]`. An offset is from 0 to 2^32 - 1. A diff is a map from ids to record
//! operations.
ghost use Rattle.std.specs.Prelude.{◌≡◌, IfOk};
ghost use Rattle.std.specs.Option.{ok_or};
ghost use Rattle.rooms_val.specs.Answers.{Gives};
ghost use Rattle.rooms_val.specs.View.{data_of};
ghost use Rattle.field_ops.specs.Readings.{op_of_data, diff_of_data};
ghost use Rattle.field_ops.specs.RecordOps as change;
ghost use Rattle.field_ops.specs.ViewRecordOps.{change_of};
ghost use Rattle.field_ops.specs.WireRecordOps.{change_data, diff_data};

use crate::diff::Diff;
use crate::record_op::RecordOp;
use rooms_val::{Mem, OpFault, Val};
use std::alloc::Global;

/// The value of an operation.
pub fn op_val(alloc: Global, op: &RecordOp) -> Mem<Val>
    ensures { IfOk result (λ v. data_of v ≡ change_data (change_of op.now)) }
{
    op.to_val(alloc)
}

/// The value of a diff.
pub fn diff_val(alloc: Global, diff: &Diff) -> Mem<Val>
    ensures { IfOk result (λ v. data_of v ≡ diff_data diff.now) }
{
    diff.to_val(alloc)
}

/// The operation of a value. `WrongKind` exactly where the value is that of no operation, or `OutOfMemory`.
pub fn read_op(alloc: Global, val: &Val) -> Result<RecordOp, OpFault>
    ensures { Gives OpFault.OutOfMemory change_of result
        (ok_or (op_of_data (data_of val.now)) OpFault.WrongKind) }
{
    // That the value is sound is told by its kind, and the same of an operation by its name.
    let _ = val.kind();
    match RecordOp::read(alloc, val) {
        Ok(op) => {
            let _ = op.name();
            Ok(op)
        }
        Err(fault) => Err(fault),
    }
}

/// The diff of a value. `WrongKind` exactly where the value is that of no diff, or `OutOfMemory`.
pub fn read_diff(alloc: Global, val: &Val) -> Result<Diff, OpFault>
    ensures { Gives OpFault.OutOfMemory (λ d. d) result
        (ok_or (diff_of_data (data_of val.now)) OpFault.WrongKind) }
{
    // That the value is sound is told by its kind, and the same of a diff by its length.
    let _ = val.kind();
    match Diff::read(alloc, val) {
        Ok(diff) => {
            let _ = diff.len();
            Ok(diff)
        }
        Err(fault) => Err(fault),
    }
}

/// Whether an append stands anywhere in an operation.
pub fn has_append(op: &RecordOp) -> bool
    ensures { result ≡ change.has_append (change_of op.now) }
{
    op.has_append()
}
