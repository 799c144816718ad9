//! Which records can be a client's presence.
ghost use Rattle.std.specs.Prelude.{◌≡◌, None, Some, Ok, Err};
ghost use Rattle.std.specs.Option.{option_map_or};
ghost use Rattle.rooms_val.specs.Answers.{Gives};
ghost use Rattle.rooms_val.specs.View.{data_of};
ghost use Rattle.schema_core.specs.SchemaOf.{schema_tree};
ghost use Rattle.sync_client.specs.Presences.{id_of, presence_fault};
ghost use Rattle.sync_client.specs.declared.fault.PresenceFault.TheVariants as fault_is;

use crate::fault::PresenceFault;
use rooms_val::{Text, Val};
use schema_core::{Schema, Scope};
use std::alloc::Global;

/// That a record can be a client's presence.
pub(crate) fn check_presence(
    alloc: Global,
    schema: &Schema,
    stored: &Val,
) -> Result<(), PresenceFault>
    ensures { Gives fault_is.OutOfMemory (λ done. done) result (option_map_or
        (λ fault. Err fault) (presence_fault (schema_tree schema.now) (data_of stored.now))
        (Ok tt)) }
{
    let id = id_of(stored);
    match schema.scope_of(id) {
        Some(Scope::Presence) => match schema.admits(id, stored) {
            Ok(_) => Ok(()),
            Err(fault) => Err(PresenceFault::Invalid(Text::of(alloc, id)?, fault)),
        },
        Some(Scope::Document) => Err(PresenceFault::WrongScope(Text::of(alloc, id)?)),
        Some(Scope::Session) => Err(PresenceFault::WrongScope(Text::of(alloc, id)?)),
        None => Err(PresenceFault::WrongScope(Text::of(alloc, id)?)),
    }
}

// The id that a record says it has, and `-`, which is no id, if it says none.
fn id_of(stored: &Val) -> &str
    ensures { result.now ≡ id_of (data_of stored.now) }
{
    match stored.get("id") {
        Some(val) => match val.as_text() {
            Some(id) => id,
            None => "-",
        },
        None => "-",
    }
}
