//! Clients of a small schema.
use migrate_seq::Sequences;
use record_valid::{Check, Checks};
use rooms_val::Text;
use schema_core::{Schema, Scope, TypeRow};
use std::alloc::Global;
use std::test::Fail;
use sync_client::SyncClient;
use test_with_counts::CountingStore;

/// A client over a store that isn't the plain one.
pub(crate) type Client = SyncClient<CountingStore>;

/// A type whose records have an `id`, a `typeName` and a number `x` from 0 to 9.
fn row(alloc: Global, name: &str, scope: Scope) -> Result<TypeRow, Fail> {
    let fields = Checks::new(alloc)
        .with(alloc, "id", Check::id_of(alloc, &[name])?)?
        .with(alloc, "typeName", Check::Text(9))?
        .with(alloc, "x", Check::Whole(0, 9))?;
    Ok(TypeRow {
        name: Text::of(alloc, name)?,
        scope,
        check: Check::Object(fields),
    })
}

/// Notes of the document, and pointers by which others see a client.
fn schema(alloc: Global) -> Result<Schema, Fail> {
    let mut rows = Vec::new(alloc);
    rows.push(row(alloc, "note", Scope::Document)?)?;
    rows.push(row(alloc, "pointer", Scope::Presence)?)?;
    let sequences = Sequences::build(alloc, Vec::new(alloc))?;
    Ok(Schema::build(alloc, rows, sequences)?)
}

/// A client that did nothing.
pub(crate) fn new_client(alloc: Global) -> Result<Client, Fail> {
    let schema = schema(alloc)?;
    Ok(SyncClient::new(alloc, schema, CountingStore::new(alloc)))
}
