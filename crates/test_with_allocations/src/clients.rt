//! Calls of a client, over a store that isn't the plain one.
ghost use Rattle.std.specs.Prelude.{◌≡◌, ◌<◌};

use crate::answers::{Answer, connect_answer, presence_answer, push_answer, take_answer};
use crate::calls::Call;
use crate::player::Subject;
use crate::stores::{VERSION, records_text};
use rooms_val::{Mem, Steps, Val};
use std::alloc::Global;
use std::marker::Brand;
use std::sync::ledger::{Blank, Ledger};
use std::test::Fail;
use sync_client::SyncClient;
use test_with_cases::val_text;
use test_with_counts::CountingStore;
use tl_tables::schema_at;

/// A client that calls are done on.
#[derive(Drop)]
pub(crate) struct PlayedClient {
    client: SyncClient<CountingStore>,
}

impl PlayedClient {
    /// A client that did nothing.
    pub(crate) fn new(alloc: Global) -> Result<PlayedClient, Fail> {
        let schema = schema_at(alloc, VERSION)?;
        Ok(PlayedClient {
            client: SyncClient::new(alloc, schema, CountingStore::new(alloc)),
        })
    }
}

impl Subject for PlayedClient {
    fn do_call(&mut self, alloc: Global, call: &Call) -> Mem<Answer> {
        call_client(alloc, &mut self.client, call)
    }

    /// The clock that it has reached, how much it owes, its document, and the presence of others.
    fn state_text(&self, alloc: Global) -> Result<String, Fail> {
        let clock = self.client.reached();
        let owed = self.client.owed();
        let document = records_text(alloc, self.client.store())?;
        let others = val_text(alloc, &Val::Map(self.client.others().copy(alloc)?))?;
        Ok(format!(in alloc; "{clock} owes {owed}: {document} {others}")?)
    }
}

/// Does a call. The steps are counted for nobody.
fn call_client(alloc: Global, client: &mut SyncClient<CountingStore>, call: &Call) -> Mem<Answer> {
    call_in::<Brand>(Blank::new(1), alloc, client, call)
}

fn call_in<L: Ledger>(
    blank: Blank,
    alloc: Global,
    client: &mut SyncClient<CountingStore>,
    call: &Call,
) -> Mem<Answer>
    requires name { blank.name ≡ L.name }
    requires parts { blank.parts ≡ L.parts }
    requires some { 0 < blank.parts }
{
    let mut steps = Steps::<L>::new(blank);
    match call {
        Call::Edit(diff) => Ok(Answer::Back(client.edit(
            alloc,
            diff.copy(alloc)?,
            false,
            &mut steps,
        )?)),
        Call::Take(message) => take_answer(client.take(alloc, message, &mut steps)),
        Call::Presence(val) => presence_answer(client.presence(alloc, val.copy(alloc)?)),
        Call::Connect(request) => connect_answer(client.connect(alloc, *request)),
        Call::NextPush => Ok(push_answer(client.next_push(alloc)?)),
        Call::Lost => {
            client.lost(alloc);
            Ok(Answer::done_word())
        }
        _ => Ok(Answer::Word("no call of a client")),
    }
}
