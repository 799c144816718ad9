//! Which records are admitted.
ghost use Rattle.std.specs.Prelude.{◌≡◌, ◌↔◌, IsOk, Ok, IfSome, option_map};
ghost use Rattle.rooms_val.specs.Answers.{Gives};
ghost use Rattle.rooms_val.specs.Data.{Data, IsSound};
ghost use Rattle.rooms_val.specs.Kinds.{field, on_map};
ghost use Rattle.rooms_val.specs.Maps.{AreRising};
ghost use Rattle.rooms_val.specs.View.{data_of};
ghost use Rattle.field_ops.specs.Patched.{patched};
ghost use Rattle.field_ops.specs.ValueOps.{edits_of};
ghost use Rattle.migrate_seq.specs.SequencesOf.{sequences_of};
ghost use Rattle.migrate_steps.specs.Records.{has_text};
ghost use Rattle.schema_core.specs.Admits.{own_type};
ghost use Rattle.schema_core.specs.declared.fault.SchemaFault.TheVariants as schema_fault;

use crate::fault::{RecordFault, SchemaFault};
use crate::names::by_name;
use crate::row::{RecordType, Scope, TypeRow};
use field_ops::ObjectDiff;
use migrate_seq::Sequences;
use record_valid::fits::check;
use record_valid::{id_type, still_fits};
use rooms_val::{Text, Val, entries};
use std::alloc::Global;

/// The greatest weight of a record that is admitted.
const GREATEST_WEIGHT: u64 = 32_768;

/// The types of the records of a document, and the migrations that lead to them.
#[derive(Drop)]
pub struct Schema {
    types: Vec<(Text, RecordType)>,
    sequences: Sequences,
    ghost rising: { AreRising types.items },
}

impl Schema {
    ghost use Rattle.schema_core.specs.Admits.{IsAdmitted, admission, is_document, scope_of};
    ghost use Rattle.rooms_val.specs.Maps.{value_at};
    ghost use Rattle.schema_core.specs.Builds.{built};
    ghost use Rattle.schema_core.specs.SchemaOf.{schema_tree};
    ghost use Rattle.schema_core.specs.View.{rows_view, type_tree};

    /// The schema of these types and sequences. `DoubledType` with the first name that stood before, exactly where one did,
    /// or `OutOfMemory`.
    pub fn build(
        alloc: Global,
        types: Vec<TypeRow>,
        sequences: Sequences,
    ) -> Result<Schema, SchemaFault>
        ensures { Gives schema_fault.OutOfMemory schema_tree result
            (built (rows_view types.items) (sequences_of sequences)) }
    {
        let types = by_name(alloc, types)?;
        Ok(Schema { types, sequences })
    }

    /// The scope of a record that is admitted under an id, or the first of the causes of `RecordFault` that applies. The
    /// call takes no memory, and costs a fixed number of passes over the record.
    pub fn admits(&self, id: &str, stored: &Val) -> Result<Scope, RecordFault>
        ensures answer { result ≡ admission (schema_tree self.now) id.now (data_of stored.now) }
        ensures admitted { IsOk result
            ↔ IsAdmitted (schema_tree self.now) id.now (data_of stored.now) }
    {
        let Some(name) = own_type(id, stored) else {
            return Err(RecordFault::BadId);
        };
        let Some(found) = self.type_named(name) else {
            return Err(RecordFault::UnknownType);
        };
        if let Err(reject) = check(&found.check, stored) {
            return Err(RecordFault::Rejected(reject));
        }
        if stored.weight() > GREATEST_WEIGHT {
            return Err(RecordFault::TooHeavy);
        }
        Ok(found.scope)
    }

    /// What [`Schema::admits`] returns for what a patch left of a record that was admitted under the id. The keys that the
    /// patch names decide. Where those don't fit, or `id`, `typeName` or `type` is among them, the whole record is looked
    /// at, and its weight is counted in any case, by one pass without a look-up.
    pub fn admits_patched(
        &self,
        id: &str,
        left: &Val,
        patch: &ObjectDiff,
    ) -> Result<Scope, RecordFault>
        ensures { (before : Data) → IsSound before → IsAdmitted (schema_tree self.now) id.now before
            → data_of left.now ≡ on_map (λ f. patched (edits_of patch.now) f) before
            → result ≡ admission (schema_tree self.now) id.now (data_of left.now) }
    {
        match self.still_admits(id, left, patch) {
            Some(scope) => Ok(scope),
            None => self.admits(id, left),
        }
    }

    // The scope of the records under the id, where the keys that the patch names tell that what it left is admitted.
    fn still_admits(&self, id: &str, left: &Val, patch: &ObjectDiff) -> Option<Scope>
        ensures { (before : Data) → IsSound before → IsAdmitted (schema_tree self.now) id.now before
            → data_of left.now ≡ on_map (λ f. patched (edits_of patch.now) f) before
            → IfSome result
            (λ scope. admission (schema_tree self.now) id.now (data_of left.now) ≡ Ok scope) }
    {
        if patch.get("id").is_some() || patch.get("typeName").is_some() {
            return None;
        }
        let found = self.type_named(id_type(id)?)?;
        if still_fits(&found.check, left, patch) && left.weight() <= GREATEST_WEIGHT {
            return Some(found.scope);
        }
        None
    }

    /// The scope of the records under an id. `None` exactly where the text is no id of a type that the schema has. It takes
    /// no memory, and costs a logarithm of the number of types.
    pub fn scope_of(&self, id: &str) -> Option<Scope>
        ensures { result ≡ scope_of (schema_tree self.now) id.now }
    {
        let name = id_type(id)?;
        let found = self.type_named(name)?;
        Some(found.scope)
    }

    /// Whether the records under an id make up the document, which is so exactly where their scope is that of documents.
    /// It costs what `scope_of` does.
    pub fn is_document(&self, id: &str) -> bool
        ensures { result ≡ is_document (schema_tree self.now) id.now }
    {
        match self.scope_of(id) {
            Some(Scope::Document) => true,
            Some(Scope::Session) => false,
            Some(Scope::Presence) => false,
            None => false,
        }
    }

    /// The sequences of migrations.
    pub fn sequences(&self) -> &Sequences
        ensures { sequences_of result.now ≡ (schema_tree self.now).sequences }
    {
        &self.sequences
    }

    // The type that has the name.
    fn type_named(&self, name: &str) -> Option<&RecordType>
        ensures { option_map (λ t. type_tree t.now) result
            ≡ value_at (schema_tree self.now).types name.now }
    {
        entries::get(&self.types, name)
    }
}

// The name that the id begins with, where the record has the id and that name as its own.
fn own_type<'a>(id: &'a str, stored: &Val) -> Option<&'a str>
    ensures { option_map (λ name. name.now) result ≡ own_type id.now (data_of stored.now) }
{
    let name = id_type(id)?;
    if has_text(stored, "id", id) && has_text(stored, "typeName", name) {
        Some(name)
    } else {
        None
    }
}

// Whether the record has the text under the key.
fn has_text(stored: &Val, key: &str, text: &str) -> bool
    ensures { result ≡ has_text text.now (field (data_of stored.now) key.now) }
{
    match stored.get(key) {
        Some(val) => match val {
            Val::Text(found) => found.as_str() == text,
            _ => false,
        },
        None => false,
    }
}
