//! What diffs make of a store, and what transactions bring back.
ghost use Rattle.std.specs.Prelude.{◌≡◌, ◌<◌};

use crate::tables::{Reading, plays};
use doc_store::{DocStore, MapDoc, TxnFault, apply};
use field_ops::{Diff, diff_val, read_diff};
use migrate_seq::Sequences;
use record_valid::{Check, Checks};
use rooms_val::{Steps, Text, Val};
use schema_core::{Schema, Scope, TypeRow};
use std::alloc::Global;
use std::marker::Brand;
use std::sync::ledger::{Blank, Ledger};
use std::test::Fail;
use test_with_cases::{val_text, value};

// A type whose records have an `id`, a `typeName` and a number `x` from 0 to 100.
fn row(alloc: Global, name: &str, scope: Scope) -> Result<TypeRow, Fail> {
    let fields = Checks::new(alloc)
        .with(alloc, "id", Check::id_of(alloc, &[name])?)?
        .with(alloc, "typeName", Check::Text(9))?
        .with(alloc, "x", Check::Whole(0, 100))?;
    Ok(TypeRow {
        name: Text::of(alloc, name)?,
        scope,
        check: Check::Object(fields),
    })
}

// Shapes and assets of the document and cameras of sessions.
pub(crate) fn schema(alloc: Global) -> Result<Schema, Fail> {
    let mut rows = Vec::new(alloc);
    rows.push(row(alloc, "shape", Scope::Document)?)?;
    rows.push(row(alloc, "asset", Scope::Document)?)?;
    rows.push(row(alloc, "camera", Scope::Session)?)?;
    let sequences = Sequences::build(alloc, Vec::new(alloc))?;
    Ok(Schema::build(alloc, rows, sequences)?)
}

// The diff of a text.
pub(crate) fn diff(alloc: Global, text: &str) -> Result<Diff, Fail> {
    Ok(read_diff(alloc, &value(alloc, text)?)?)
}

// A store with two shapes.
fn two_shapes(alloc: Global, schema: &Schema) -> Result<MapDoc, Fail> {
    let mut store = MapDoc::new(alloc);
    drop(apply_twice(alloc, &mut store, schema, &diff(alloc, BOTH)?)?);
    Ok(store)
}

// A store with two assets.
pub(crate) fn two_assets(alloc: Global, schema: &Schema) -> Result<MapDoc, Fail> {
    let mut store = MapDoc::new(alloc);
    drop(apply_twice(alloc, &mut store, schema, &diff(alloc, ASSETS)?)?);
    Ok(store)
}

const ASSETS: &str =
    r#"{"asset:1":["put",{"id":"asset:1","typeName":"asset","x":1}],"asset:2":["put",{"id":"asset:2","typeName":"asset","x":2}]}"#;

const BOTH: &str =
    r#"{"shape:1":["put",{"id":"shape:1","typeName":"shape","x":1}],"shape:2":["put",{"id":"shape:2","typeName":"shape","x":2}]}"#;

// Which records a store has, each as its id and its `x`.
fn store_text(alloc: Global, store: &MapDoc) -> Result<String, Fail> {
    let mut text = String::new(alloc);
    for id in &store.ids(alloc)? {
        if let Some(record) = store.get(id.as_str()) {
            add(alloc, &mut text, id.as_str(), record)?;
        }
    }
    Ok(text)
}

// Adds an id and the `x` of its record.
fn add(alloc: Global, text: &mut String, id: &str, record: &Val) -> Result<(), Fail> {
    if let Some(x) = record.get("x") {
        let part = format!(in alloc; "{id} {};", val_text(alloc, x)?)?;
        text.push_str(part.as_str())?;
    }
    Ok(())
}

fn apply_twice_in<L: Ledger>(
    blank: Blank,
    alloc: Global,
    store: &mut MapDoc,
    schema: &Schema,
    diff: &Diff,
) -> Result<Diff, TxnFault>
    requires name { blank.name ≡ L.name }
    requires parts { blank.parts ≡ L.parts }
    requires some { 0 < blank.parts }
    ensures { store.new.1 ≡ store.old.1 }
{
    let mut steps = Steps::<L>::new(blank);
    let back = apply(alloc, store, schema, false, diff, &mut steps)?;
    drop(apply(alloc, store, schema, false, &back, &mut steps)?);
    apply(alloc, store, schema, false, diff, &mut steps)
}

// Applies a diff and what undoes it, and then the diff again. The steps are counted for nobody.
fn apply_twice(
    alloc: Global,
    store: &mut MapDoc,
    schema: &Schema,
    diff: &Diff,
) -> Result<Diff, TxnFault>
    ensures { store.new.1 ≡ store.old.1 }
{
    apply_twice_in::<Brand>(Blank::new(1), alloc, store, schema, diff)
}

// A diff, what it leaves of two shapes, and the diff that undoes it.
const DIFFS: &str = r#"
{"shape:1":["patch",{"x":["put",7]}]} | shape:1 7;shape:2 2; {"shape:1":["patch",{"x":["put",1]}]}
# What the schema refuses is passed over, and so is a change of what isn't there.
{"shape:1":["patch",{"x":["put",700]}],"shape:2":["remove"],"shape:3":["remove"]} | shape:1 1; {"shape:2":["put",{"id":"shape:2","typeName":"shape","x":2}]}
{"shape:3":["patch",{"x":["put",7]}]} | shape:1 1;shape:2 2; {}
# A put acts always.
{"shape:1":["put",{"x":700}],"shape:3":["put",{"x":1}]} | shape:1 700;shape:2 2;shape:3 1; {"shape:1":["put",{"id":"shape:1","typeName":"shape","x":1}],"shape:3":["remove"]}
"#;

// A diff that is applied to two shapes in a transaction, what it leaves, and what is there once the transaction is aborted.
const ABORTED: &str = r#"
{"shape:1":["remove"]} | shape:2 2; shape:1 1;shape:2 2;
"#;

// How many transactions are begun one in the other, and how many of them are open before one is refused.
const NESTED: &str = r#"
16 | 16
17 | 16 TooNested
"#;

// What a diff leaves of two shapes, and the diff that undoes it.
pub(crate) fn applied_text(alloc: Global, text: &str) -> Result<String, Fail> {
    let schema = schema(alloc)?;
    let mut store = two_shapes(alloc, &schema)?;
    let undo = apply_twice(alloc, &mut store, &schema, &diff(alloc, text)?)?;
    let left = store_text(alloc, &store)?;
    let undo = val_text(alloc, &diff_val(alloc, &undo)?)?;
    Ok(format!(in alloc; "{left} {undo}")?)
}

// What a diff leaves of two shapes in a transaction, and what is there once that is aborted.
pub(crate) fn aborted_text(alloc: Global, text: &str) -> Result<String, Fail> {
    let schema = schema(alloc)?;
    let mut store = two_shapes(alloc, &schema)?;
    let diff = diff(alloc, text)?;
    store.begin()?;
    drop(apply_twice(alloc, &mut store, &schema, &diff)?);
    let left = store_text(alloc, &store)?;
    store.abort();
    let after = store_text(alloc, &store)?;
    Ok(format!(in alloc; "{left} {after}")?)
}

// How many of so many transactions are open before one is refused.
pub(crate) fn nested_text(alloc: Global, count: &str) -> Result<String, Fail> {
    let mut store = MapDoc::new(alloc);
    for opened in 0..count.parse::<u32>()? {
        match store.begin() {
            Ok(()) => {}
            Err(fault) => return Ok(format!(in alloc; "{opened} {fault:?}")?),
        }
    }
    Ok(String::from_str(alloc, count)?)
}

#[test]
fn applies_what_acts_and_tells_what_undoes_it(rt: HostRuntime) -> Result<(), Fail> {
    plays(&rt, rt.alloc(), Reading::Applied, DIFFS)
}

#[test]
fn opens_sixteen_transactions_and_aborts_one(rt: HostRuntime) -> Result<(), Fail> {
    plays(&rt, rt.alloc(), Reading::Aborted, ABORTED)?;
    plays(&rt, rt.alloc(), Reading::Nested, NESTED)
}
