//! Calls of a store.
ghost use Rattle.std.specs.Prelude.{◌≡◌, ◌<◌};

use crate::answers::Answer;
use crate::calls::Call;
use crate::player::Subject;
use doc_store::{DocStore, MapDoc, TxnFault, apply};
use field_ops::Diff;
use rooms_val::{Fields, Mem, OutOfMemory, Steps, Text, Val};
use schema_core::Schema;
use std::alloc::Global;
use std::marker::Brand;
use std::sync::ledger::{Blank, Ledger};
use std::test::Fail;
use test_with_cases::val_text;
use test_with_counts::CountingStore;
use tl_tables::schema_at;

/// The version of the tables by which records are admitted.
pub(crate) const VERSION: u32 = 3;

/// A store that calls are done on.
#[derive(Drop)]
pub(crate) struct PlayedStore<D> {
    schema: Schema,
    store: D,
}

/// The plain store.
pub(crate) fn plain_store(alloc: Global) -> Result<PlayedStore<MapDoc>, Fail> {
    Ok(PlayedStore {
        schema: schema_at(alloc, VERSION)?,
        store: MapDoc::new(alloc),
    })
}

/// A store that counts.
pub(crate) fn counting_store(alloc: Global) -> Result<PlayedStore<CountingStore>, Fail> {
    Ok(PlayedStore {
        schema: schema_at(alloc, VERSION)?,
        store: CountingStore::new(alloc),
    })
}

impl<D: DocStore> Subject for PlayedStore<D> {
    fn do_call(&mut self, alloc: Global, call: &Call) -> Mem<Answer> {
        call_store(alloc, &self.schema, &mut self.store, call)
    }

    /// Its records.
    fn state_text(&self, alloc: Global) -> Result<String, Fail> {
        records_text(alloc, &self.store)
    }
}

/// The records of a store, as a map by id.
pub(crate) fn records_text<D: DocStore>(alloc: Global, store: &D) -> Result<String, Fail> {
    let mut fields = Fields::new(alloc);
    for id in store.ids(alloc)? {
        if let Some(val) = store.get(id.as_str()) {
            let val = val.copy(alloc)?;
            drop(fields.put(id, val)?);
        }
    }
    val_text(alloc, &Val::Map(fields))
}

/// Does a call that each store has.
pub(crate) fn call_store<D: DocStore>(
    alloc: Global,
    schema: &Schema,
    store: &mut D,
    call: &Call,
) -> Mem<Answer> {
    match call {
        Call::Write(id, stored) => {
            let stored = Val::copy_slot(alloc, stored)?;
            Ok(Answer::Before(write(alloc, store, id, stored)?))
        }
        Call::Apply(diff) => apply_answer(apply_all(alloc, store, schema, diff)),
        _ => Ok(Answer::Word("no call of a store")),
    }
}

fn write_in<D: DocStore, L: Ledger>(
    blank: Blank,
    alloc: Global,
    store: &mut D,
    id: &Text,
    stored: Option<Val>,
) -> Mem<Option<Val>>
    requires name { blank.name ≡ L.name }
    requires parts { blank.parts ≡ L.parts }
    requires some { 0 < blank.parts }
{
    let mut steps = Steps::<L>::new(blank);
    store.write(alloc, id.as_str(), stored, &mut steps)
}

/// Sets the record of an id, or takes it away. The steps are counted for nobody.
fn write<D: DocStore>(
    alloc: Global,
    store: &mut D,
    id: &Text,
    stored: Option<Val>,
) -> Mem<Option<Val>> {
    write_in::<D, Brand>(Blank::new(1), alloc, store, id, stored)
}

fn apply_in<D: DocStore, L: Ledger>(
    blank: Blank,
    alloc: Global,
    store: &mut D,
    schema: &Schema,
    diff: &Diff,
) -> Result<Diff, TxnFault>
    requires name { blank.name ≡ L.name }
    requires parts { blank.parts ≡ L.parts }
    requires some { 0 < blank.parts }
{
    let mut steps = Steps::<L>::new(blank);
    apply(alloc, store, schema, false, diff, &mut steps)
}

/// Applies a diff. The steps are counted for nobody.
fn apply_all<D: DocStore>(
    alloc: Global,
    store: &mut D,
    schema: &Schema,
    diff: &Diff,
) -> Result<Diff, TxnFault> {
    apply_in::<D, Brand>(Blank::new(1), alloc, store, schema, diff)
}

/// What came of a diff.
fn apply_answer(given: Result<Diff, TxnFault>) -> Mem<Answer> {
    match given {
        Ok(back) => Ok(Answer::Back(back)),
        Err(TxnFault::TooNested) => Ok(Answer::Word("TooNested")),
        Err(TxnFault::OutOfMemory) => Err(OutOfMemory),
    }
}
