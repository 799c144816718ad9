//! Maps that are built field by field.
ghost use Rattle.std.specs.Prelude.{◌≡◌, IfOk, codes};
ghost use Rattle.rooms_val.specs.Data.{text};
ghost use Rattle.rooms_val.specs.Maps.{with_key, added};
ghost use Rattle.wire_msgs.specs.Messages.{maybe_diff, maybe_op};

use field_ops::{Diff, RecordOp, diff_val, op_val};
use rooms_val::{Fields, Mem, Text, Val};
use std::alloc::Global;

/// The map with a type.
pub(crate) fn with_type(alloc: Global, fields: Fields, word: &str) -> Mem<Fields>
    ensures { IfOk result (λ made. made ≡ with_key fields (codes "type") (text word.now)) }
{
    fields.with(alloc, "type", Val::Text(Text::of(alloc, word)?))
}

/// The map with a diff, where there is one.
pub(crate) fn with_diff(alloc: Global, fields: Fields, diff: &Option<Diff>) -> Mem<Fields>
    ensures { IfOk result (λ made. made ≡ added fields (codes "diff") (maybe_diff diff.now)) }
{
    match diff {
        Some(diff) => fields.with(alloc, "diff", diff_val(alloc, diff)?),
        None => Ok(fields),
    }
}

/// The map with an operation on a presence, where there is one.
pub(crate) fn with_presence(alloc: Global, fields: Fields, op: &Option<RecordOp>) -> Mem<Fields>
    ensures { IfOk result (λ made. made ≡ added fields (codes "presence") (maybe_op op.now)) }
{
    match op {
        Some(op) => fields.with(alloc, "presence", op_val(alloc, op)?),
        None => Ok(fields),
    }
}
