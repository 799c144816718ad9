//! What an operation leaves of a record that the schema admits.
ghost use Rattle.std.specs.Prelude.{◌≡◌, IfOk, option_map};
ghost use Rattle.std.specs.Option.{option_copied};
ghost use Rattle.field_ops.specs.Patched.{raw};
ghost use Rattle.field_ops.specs.View.{maybe_data};
ghost use Rattle.field_ops.specs.ViewRecordOps.{change_of};
ghost use Rattle.schema_core.specs.Admits.{is_admitted};
ghost use Rattle.schema_core.specs.SchemaOf.{schema_tree};
ghost use Rattle.doc_model.specs.Documents.{acts_on, left_on};
ghost use Rattle.room_accept.specs.Parts.{IsStanding};

use field_ops::{RecordOp, apply_record};
use rooms_val::{Mem, Val};
use schema_core::Schema;
use std::alloc::Global;

// What an operation leaves of a record that is admitted under the id, or of the lack of one: a
// record or none. `None` exactly where the operation is passed over. A patch is checked at the keys
// that it names.
pub(crate) fn step_admitted(
    alloc: Global,
    schema: &Schema,
    id: &str,
    stored: Option<&Val>,
    op: &RecordOp,
) -> Mem<Option<Option<Val>>>
    requires { IsStanding (schema_tree schema.now) id.now (maybe_data (option_copied stored)) }
    ensures { IfOk result (λ left. option_map maybe_data left
        ≡ left_on (is_admitted (schema_tree schema.now)) id.now
        (change_of op.now) (maybe_data (option_copied stored.entry))) }
{
    let left = apply_record(alloc, stored, op)?;
    if acts(schema, id, stored, &left, op) {
        Ok(Some(left))
    } else {
        Ok(None)
    }
}

// Whether an operation acts that makes this of an admitted record.
fn acts(schema: &Schema, id: &str, before: Option<&Val>, left: &Option<Val>, op: &RecordOp) -> bool
    requires left { maybe_data left.now
        ≡ raw (change_of op.now) (maybe_data (option_copied before)) }
    requires admitted { IsStanding (schema_tree schema.now) id.now
        (maybe_data (option_copied before)) }
    ensures { result ≡ acts_on (is_admitted (schema_tree schema.now)) id.now
        (change_of op.now) (maybe_data (option_copied before.entry)) }
{
    match op {
        RecordOp::Put(_) => true,
        RecordOp::Remove => before.is_some(),
        RecordOp::Patch(diff) => match before {
            Some(stored) => match left {
                Some(patched) => {
                    // That the record is sound is told by its kind.
                    let _ = stored.kind();
                    schema.admits_patched(id, patched, diff).is_ok()
                }
                None => false,
            },
            None => false,
        },
    }
}
