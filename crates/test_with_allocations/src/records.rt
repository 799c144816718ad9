//! Calls of the store of which views are asked.
ghost use Rattle.std.specs.Prelude.{◌≡◌, ◌<◌, []};
ghost use Rattle.record_store.specs.Seen.{begun};

use crate::answers::Answer;
use crate::calls::Call;
use crate::peers::watch_answer;
use crate::player::Subject;
use crate::stores::{VERSION, call_store, records_text};
use doc_store::{DocStore, TxnFault};
use record_store::{RecordStore, Since, WatchId};
use rooms_val::{Mem, OutOfMemory, Steps};
use schema_core::Schema;
use std::alloc::Global;
use std::marker::Brand;
use std::sync::ledger::{Blank, Ledger};
use std::test::Fail;
use tl_rules::{TlKey, TlValue};
use tl_tables::schema_at;

/// How many views may be watched.
const MOST_WATCHED: u32 = 64;

/// A store that calls are done on.
#[derive(Drop)]
pub(crate) struct PlayedBoard {
    schema: Schema,
    store: RecordStore,
}

impl PlayedBoard {
    /// The store without a record.
    pub(crate) fn new(alloc: Global) -> Result<PlayedBoard, Fail> {
        Ok(PlayedBoard {
            schema: schema_at(alloc, VERSION)?,
            store: RecordStore::new(alloc)?,
        })
    }
}

impl Subject for PlayedBoard {
    fn do_call(&mut self, alloc: Global, call: &Call) -> Mem<Answer> {
        match call {
            Call::Write(_, _) => call_store(alloc, &self.schema, &mut self.store, call),
            Call::Apply(_) => call_store(alloc, &self.schema, &mut self.store, call),
            _ => call_board(alloc, &mut self.store, call),
        }
    }

    /// How many transactions are open, which numbers are watched, how many writes were committed, and its records.
    fn state_text(&self, alloc: Global) -> Result<String, Fail> {
        let open = self.store.depth();
        let watches = numbers(alloc, &self.store)?;
        let writes = writes(alloc, &self.store)?;
        let records = records_text(alloc, &self.store)?;
        Ok(format!(in alloc; "open {open} watched{watches} wrote {writes}: {records}")?)
    }
}

/// The numbers that are watched.
fn numbers(alloc: Global, store: &RecordStore) -> Result<String, Fail> {
    let mut text = String::new(alloc);
    for number in 0..MOST_WATCHED {
        if store.is_watched(WatchId { number }) {
            let part = format!(in alloc; " {number}")?;
            text.push_str(part.as_str())?;
        }
    }
    Ok(text)
}

/// How many writes were committed.
fn writes(alloc: Global, store: &RecordStore) -> Result<usize, Fail> {
    match store.diffs_since(alloc, 0)? {
        Since::Diffs(diffs) => Ok(diffs.len()),
        Since::Reset => Err(Fail::from("too many writes")),
    }
}

/// Does a call that this store alone has.
fn call_board(alloc: Global, store: &mut RecordStore, call: &Call) -> Mem<Answer> {
    match call {
        Call::Begin => begun_by(store.begin()),
        Call::Commit => Ok(commit(store)),
        Call::Abort => Ok(abort(store)),
        Call::Ask(key) => Ok(Answer::Found(ask(alloc, store, key)?)),
        Call::Watch(key) => watch_answer(store.watch(key.copy(alloc)?)),
        Call::Due => due(alloc, store),
        _ => Ok(Answer::Word("no call of a board")),
    }
}

/// What came of the begin of a transaction.
fn begun_by(given: Result<(), TxnFault>) -> Mem<Answer> {
    match given {
        Ok(()) => Ok(Answer::done_word()),
        Err(TxnFault::TooNested) => Ok(Answer::Word("TooNested")),
        Err(TxnFault::OutOfMemory) => Err(OutOfMemory),
    }
}

/// Commits the newest transaction, if one is open.
fn commit(store: &mut RecordStore) -> Answer {
    if store.depth() == 0 {
        return Answer::Word("none is open");
    }
    store.commit();
    Answer::done_word()
}

/// Aborts the newest transaction, if one is open.
fn abort(store: &mut RecordStore) -> Answer {
    if store.depth() == 0 {
        return Answer::Word("none is open");
    }
    store.abort();
    Answer::done_word()
}

fn ask_in<L: Ledger>(
    blank: Blank,
    alloc: Global,
    store: &mut RecordStore,
    key: &TlKey,
) -> Mem<TlValue>
    requires name { blank.name ≡ L.name }
    requires parts { blank.parts ≡ L.parts }
    requires some { 0 < blank.parts }
{
    let mut steps = Steps::<L>::new(blank);
    store.ask(alloc, key, &mut steps)?.copy(alloc)
}

/// What a key comes to. The steps are counted for nobody.
fn ask(alloc: Global, store: &mut RecordStore, key: &TlKey) -> Mem<TlValue> {
    ask_in::<Brand>(Blank::new(1), alloc, store, key)
}

fn due_in<L: Ledger>(blank: Blank, alloc: Global, store: &mut RecordStore) -> Mem<Answer>
    requires name { blank.name ≡ L.name }
    requires parts { blank.parts ≡ L.parts }
    requires some { 0 < blank.parts }
    requires closed { begun store.old ≡ [] }
{
    let mut steps = Steps::<L>::new(blank);
    Ok(Answer::Due(store.due(alloc, &mut steps)?))
}

/// What the watches have to tell, where no transaction is open. The steps are counted for nobody.
fn due(alloc: Global, store: &mut RecordStore) -> Mem<Answer> {
    if store.depth() > 0 {
        return Ok(Answer::Word("one is open"));
    }
    due_in::<Brand>(Blank::new(1), alloc, store)
}
