//! What an entry makes of the records.
ghost use Rattle.std.specs.Prelude.{◌≡◌, [], ◌∷◌, ◌+◌, ◌≤◌, length, IfOk, OnOk, OnErr, is_some};
ghost use Rattle.rooms_val.specs.Maps.{seen, value_at, without_key};
ghost use Rattle.field_ops.specs.View.{maybe_data};
ghost use Rattle.room_history.specs.Marks.{set_all};

use doc_store::{DocStore, MapDoc};
use rooms_val::{Mem, OutOfMemory, Steps, Text, Val};
use std::alloc::Global;
use std::sync::ledger::Ledger;

// Writes what is left under each id. Where memory is refused the records are as before.
pub(crate) fn write_all<L: Ledger>(
    alloc: Global,
    records: &mut MapDoc,
    left: &[(Text, Option<Val>)],
    steps: &mut Steps<L>,
) -> Mem<()>
    requires { records.old.1 ≡ [] }
    ensures ok { OnOk result (records.new
        ≡ (set_all records.old.0 (seen maybe_data left.now), [])) }
    ensures err { OnErr result (records.new ≡ records.old) }
    ensures ticks { steps.new ≤ steps.old + length left.now }
{
    match records.begin() {
        Ok(()) => write_begun(alloc, records, left, steps),
        Err(_) => Err(OutOfMemory),
    }
}

// Does so in the transaction that is open, and closes it.
fn write_begun<L: Ledger>(
    alloc: Global,
    records: &mut MapDoc,
    left: &[(Text, Option<Val>)],
    steps: &mut Steps<L>,
) -> Mem<()>
    requires { records.old.1 ≡ records.old.0 ∷ [] }
    ensures ok { OnOk result (records.new
        ≡ (set_all records.old.0 (seen maybe_data left.now), [])) }
    ensures err { OnErr result (records.new ≡ (records.old.0, [])) }
    ensures ticks { steps.new ≤ steps.old + length left.now }
{
    match write_each(alloc, records, left, steps) {
        Ok(()) => {
            records.commit();
            Ok(())
        }
        Err(refused) => {
            records.abort();
            Err(refused)
        }
    }
}

// Writes what is left under each id, in the transaction that is open.
fn write_each<L: Ledger>(
    alloc: Global,
    records: &mut MapDoc,
    left: &[(Text, Option<Val>)],
    steps: &mut Steps<L>,
) -> Mem<()>
    ensures ok { OnOk result (records.new.0 ≡ set_all records.old.0 (seen maybe_data left.now)) }
    ensures begun { records.new.1 ≡ records.old.1 }
    ensures ticks { steps.new ≤ steps.old + length left.now }
{
    'ids: for (id, stored) in left {
        let stored = Val::copy_slot(alloc, stored)?;
        drop(records.write(alloc, id.as_str(), stored, steps)?);
    }
    Ok(())
}

// Takes the record of an id away, and tells whether there was one. It takes no memory.
pub(crate) fn take(records: &mut MapDoc, id: &str) -> bool
    requires { records.old.1 ≡ [] }
    ensures was_there { result ≡ is_some (value_at records.old.0 id.now) }
    ensures rest { records.new ≡ (without_key records.old.0 id.now, []) }
{
    records.take(id).is_some()
}
