//! Types in the order of their names.
ghost use Rattle.std.specs.Prelude.{IfOk};
ghost use Rattle.rooms_val.specs.Answers.{Gives};
ghost use Rattle.rooms_val.specs.Maps.{AreRising};
ghost use Rattle.schema_core.specs.Builds.{types_by_name};
ghost use Rattle.schema_core.specs.View.{rows_view, types_view};
ghost use Rattle.schema_core.specs.declared.fault.SchemaFault.TheVariants as schema_fault;

use crate::fault::SchemaFault;
use crate::row::{RecordType, TypeRow};
use rooms_val::Text;
use rooms_val::entries::place_of;
use std::alloc::Global;

// The types of some rows in the order of their names, or the first name that stood before.
pub(crate) fn by_name(
    alloc: Global,
    rows: Vec<TypeRow>,
) -> Result<Vec<(Text, RecordType)>, SchemaFault>
    ensures answer { Gives schema_fault.OutOfMemory (λ types. types_view types.items) result
        (types_by_name (rows_view rows.items)) }
    ensures rising { IfOk result (λ types. AreRising types.items) }
{
    let mut types = Vec::new(alloc);
    'rows: for row in rows {
        let TypeRow { name, scope, check } = row;
        match place_of(&types, name.as_str()) {
            Ok(_) => return Err(SchemaFault::DoubledType(name)),
            Err(place) => types.insert(place, (name, RecordType { scope, check }))?,
        }
    }
    Ok(types)
}
