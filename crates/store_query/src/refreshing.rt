//! The refresh of an index from a store on signals.
ghost use Rattle.std.specs.Prelude.{◌≡◌, ◌<◌, [], Some, OnOk, OnErr};
ghost use Rattle.rooms_val.specs.Data.{Pairs};
ghost use Rattle.rooms_val.specs.Maps.{AreRising};
ghost use Rattle.record_store.specs.Seen.{records, begun, epoch};
ghost use Rattle.signal_values.specs.Seen.{top};
ghost use Rattle.store_query.specs.Asking.{IsIndexOf};
ghost use Rattle.record_store.specs.Tells.{written, written_all};
ghost use Rattle.store_query.specs.Refreshing.{CanRefresh, IsRefreshed, IsUnrefreshed, KeepsField};

use crate::asking::tell_rising;
use doc_store::DocStore;
use field_index::FieldIndex;
use record_store::{RecordStore, Since};
use rooms_val::Mem;
use std::alloc::Global;
use tl_rules::{TlKey, TlValue};

/// Brings an index up to the records of a store, in which no transaction is open, and notes the store's epoch.
///
/// The index then holds the values of the store's records if it was never refreshed, if the store doesn't tell what was
/// written since the index's epoch, or if it held the values of the records that those writes lead from. It costs what was
/// written since, and a logarithm for each record among that. It looks at all records exactly where the index was never
/// refreshed, or the store's `diffs_since` returns `Since::Reset`.
///
/// # Errors
///
/// Memory was refused. The index then holds no value, and counts as never refreshed.
pub fn refresh(index: &mut FieldIndex, alloc: Global, store: &RecordStore) -> Mem<()>
    requires { begun store.now ≡ [] }
    ensures ok { OnOk result (CanRefresh index.old store.now → IsRefreshed store.now index.new) }
    ensures epoch { OnOk result (index.new.epoch ≡ Some (epoch store.now)) }
    ensures again { OnOk result (CanRefresh index.old store.now → epoch store.now < top
        → CanRefresh index.new store.now) }
    ensures err { OnErr result (IsUnrefreshed index.new) }
    ensures field { KeepsField index.old index.new }
{
    match catch_up(index, alloc, store) {
        Ok(()) => {
            tell_rising(store, index.type_name());
            index.set_epoch(Some(store.epoch()));
            Ok(())
        }
        Err(refused) => {
            index.clear();
            index.set_epoch(None);
            Err(refused)
        }
    }
}

// The same, but for the epoch and for what is left where memory is refused.
fn catch_up(index: &mut FieldIndex, alloc: Global, store: &RecordStore) -> Mem<()>
    ensures ok { OnOk result (CanRefresh index.old store.now
        → IsIndexOf (records store.now) index.new) }
    ensures field { KeepsField index.old index.new }
{
    let Some(epoch) = index.epoch() else {
        return rebuild(index, alloc, store);
    };
    match store.diffs_since(alloc, epoch)? {
        Since::Diffs(diffs) => follow_writes(index, alloc, &diffs),
        Since::Reset => rebuild(index, alloc, store),
    }
}

// Brings an index up from records to those after some writes, the oldest first.
fn follow_writes(index: &mut FieldIndex, alloc: Global, writes: &[(TlKey, TlValue)]) -> Mem<()>
    ensures ok { OnOk result ((m : Pairs) → AreRising m
        → IsIndexOf m index.old → IsIndexOf (written_all m writes.now) index.new) }
    ensures field { KeepsField index.old index.new }
{
    'writes: for (key, value) in writes {
        follow(index, alloc, key, value)?;
    }
    Ok(())
}

// The same of one write.
fn follow(index: &mut FieldIndex, alloc: Global, key: &TlKey, value: &TlValue) -> Mem<()>
    ensures ok { OnOk result ((m : Pairs) → AreRising m
        → IsIndexOf m index.old → IsIndexOf (written m (key.now, value.now)) index.new) }
    ensures field { KeepsField index.old index.new }
{
    match key {
        TlKey::Rec(id) => index.set(alloc, id.as_str(), value.record()),
        _ => Ok(()),
    }
}

// Makes an index of all records.
fn rebuild<D: DocStore>(index: &mut FieldIndex, alloc: Global, store: &D) -> Mem<()>
    ensures ok { OnOk result (IsIndexOf (D.records store.now) index.new) }
    ensures field { KeepsField index.old index.new }
{
    index.clear();
    let ids = store.ids(alloc)?;
    'ids: for id in &ids {
        index.set(alloc, id.as_str(), store.get(id.as_str()))?;
    }
    Ok(())
}
