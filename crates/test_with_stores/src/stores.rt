//! Calls of stores: the one on signals, and the plain one beside it.
ghost use Rattle.std.specs.Prelude.{◌≡◌, ◌<◌, length};

use crate::calls::Call;
use doc_store::{DocStore, MapDoc, TxnFault};
use record_store::RecordStore;
use rooms_val::{Mem, Steps, Text, Val};
use std::alloc::Global;
use std::marker::Brand;
use std::sync::ledger::{Blank, Ledger};
use std::test::Fail;

fn write_in<D: DocStore, L: Ledger>(
    blank: Blank,
    alloc: Global,
    store: &mut D,
    id: &Text,
    stored: Option<Val>,
) -> Mem<()>
    requires name { blank.name ≡ L.name }
    requires parts { blank.parts ≡ L.parts }
    requires some { 0 < blank.parts }
    ensures { D.begun store.new ≡ D.begun store.old }
{
    let mut steps = Steps::<L>::new(blank);
    drop(store.write(alloc, id.as_str(), stored, &mut steps)?);
    Ok(())
}

// Sets the record of an id, or takes it away. The steps are counted for nobody.
fn write<D: DocStore>(alloc: Global, store: &mut D, id: &Text, stored: Option<Val>) -> Mem<()>
    ensures { D.begun store.new ≡ D.begun store.old }
{
    write_in::<D, Brand>(Blank::new(1), alloc, store, id, stored)
}

// Sets a field of the record of an id, where there is one.
fn set<D: DocStore>(alloc: Global, store: &mut D, id: &Text, field: Text, value: Val) -> Mem<()>
    ensures { D.begun store.new ≡ D.begun store.old }
{
    let patched = with_field(alloc, store.get(id.as_str()), field, value)?;
    write(alloc, store, id, patched)
}

// A record with a field set to a value, if there is a record.
fn with_field(alloc: Global, before: Option<&Val>, field: Text, value: Val) -> Mem<Option<Val>> {
    let Some(Val::Map(fields)) = before else {
        return Ok(None);
    };
    let mut fields = fields.copy(alloc)?;
    drop(fields.put(field, value)?);
    Ok(Some(Val::Map(fields)))
}

// What is told of a call that opens a transaction: nothing, or that it can't be done.
fn begin_text(given: Result<(), TxnFault>) -> Result<&'static str, Fail> {
    match given {
        Ok(()) => Ok(""),
        Err(TxnFault::TooNested) => Ok("too nested"),
        Err(TxnFault::OutOfMemory) => Err(Fail::from("out of memory")),
    }
}

// What is told of the end of a transaction where none is open.
const NONE_IS_OPEN: &str = "none is open";

/// Does a call on a store, and tells nothing or why it can't be done.
pub(crate) fn call(
    alloc: Global,
    store: &mut RecordStore,
    call: Call,
) -> Result<&'static str, Fail> {
    match call {
        Call::Put(id, value) => write(alloc, store, &id, Some(value))?,
        Call::Set(id, field, value) => set(alloc, store, &id, field, value)?,
        Call::Take(id) => write(alloc, store, &id, None)?,
        Call::Begin => return begin_text(store.begin()),
        Call::Commit => {
            if store.depth() == 0 {
                return Ok(NONE_IS_OPEN);
            }
            store.commit();
        }
        Call::Abort => {
            if store.depth() == 0 {
                return Ok(NONE_IS_OPEN);
            }
            store.abort();
        }
    }
    Ok("")
}

/// The plain store, with how many transactions are open.
#[derive(Drop)]
pub(crate) struct Plain {
    // The store.
    pub(crate) doc: MapDoc,
    // How many transactions are open, 0 to 16.
    depth: usize,
    ghost nested: { depth ≡ length doc.1 },
}

impl Plain {
    /// The store without a record.
    pub(crate) fn new(alloc: Global) -> Plain {
        Plain {
            doc: MapDoc::new(alloc),
            depth: 0,
        }
    }

    /// Does a call, and tells nothing or why it can't be done.
    pub(crate) fn call(&mut self, alloc: Global, call: Call) -> Result<&'static str, Fail> {
        match call {
            Call::Put(id, value) => write(alloc, &mut self.doc, &id, Some(value))?,
            Call::Set(id, field, value) => set(alloc, &mut self.doc, &id, field, value)?,
            Call::Take(id) => write(alloc, &mut self.doc, &id, None)?,
            Call::Begin => return begin_text(self.begin()),
            Call::Commit => return Ok(self.commit()),
            Call::Abort => return Ok(self.abort()),
        }
        Ok("")
    }

    // Opens a transaction.
    fn begin(&mut self) -> Result<(), TxnFault> {
        self.doc.begin()?;
        self.depth += 1;
        Ok(())
    }

    // Closes the newest transaction, if one is open, and keeps what was written in it.
    fn commit(&mut self) -> &'static str {
        if self.depth == 0 {
            return NONE_IS_OPEN;
        }
        self.doc.commit();
        self.depth -= 1;
        ""
    }

    // Closes the newest transaction, if one is open, and takes back what was written in it.
    fn abort(&mut self) -> &'static str {
        if self.depth == 0 {
            return NONE_IS_OPEN;
        }
        self.doc.abort();
        self.depth -= 1;
        ""
    }
}
