//! The schema at a version.
ghost use Rattle.std.specs.Prelude.{◌≡◌, ◌↔◌, IfOk, IsErrOf};
ghost use Rattle.schema_core.specs.SchemaOf.{schema_tree};
ghost use Rattle.tl_tables.specs.Tables.{IsVersion, IsSchemaAt};
ghost use Rattle.tl_tables.specs.declared.tables.TableFault.TheVariants as table_fault;

use crate::migrations::sequences;
use crate::types::type_rows;
use rooms_val::OutOfMemory;
use schema_core::{Schema, SchemaFault};
use std::alloc::Global;
use thiserror::Error;

/// The newest version of the tables, which have each from 1 on.
pub const NEWEST_VERSION: u32 = 5;

/// Why there is no schema.
#[derive(Clone, Copy, Debug, PartialEq, Eq, Error)]
pub enum TableFault {
    /// The tables don't have the version.
    #[error("there is no such version")]
    NoSuchVersion,
    /// Memory was refused.
    #[error("out of memory")]
    OutOfMemory,
}

impl From<OutOfMemory> for TableFault {
    ghost from_gives = { λ _ e. e ≡ table_fault.OutOfMemory };

    fn from(_refused: OutOfMemory) -> TableFault {
        TableFault::OutOfMemory
    }
}

/// The schema at a version. It costs the table.
///
/// # Errors
///
/// `NoSuchVersion` exactly if the tables don't have the version, which are 1 to `NEWEST_VERSION`. `OutOfMemory`.
pub fn schema_at(alloc: Global, version: u32) -> Result<Schema, TableFault>
    ensures unknown { IsErrOf result table_fault.NoSuchVersion ↔ (¬ (IsVersion version)) }
    ensures known { IfOk result (λ s. IsSchemaAt version (schema_tree s)) }
{
    if version < 1 || NEWEST_VERSION < version {
        return Err(TableFault::NoSuchVersion);
    }
    let types = type_rows(alloc, version)?;
    let sequences = sequences(alloc, version)?;
    match Schema::build(alloc, types, sequences) {
        Ok(schema) => Ok(schema),
        Err(SchemaFault::DoubledType(_)) => unreachable!(),
        Err(SchemaFault::OutOfMemory) => Err(TableFault::OutOfMemory),
    }
}
