//! Views that are asked, watched and told.
ghost use Rattle.std.specs.Prelude.{◌≡◌, ◌↔◌, [], IsTrue, IfOk, OnOk, OnErr, Err};
ghost use Rattle.rooms_val.specs.View.{data_of};
ghost use Rattle.shape_tree.specs.Views.{told as told_view};
ghost use Rattle.signal_core.specs.Due.{AreFreshIn, AreFreshKeys};
ghost use Rattle.signal_values.specs.Seen.{IsFreshIn};
ghost use Rattle.signal_core.specs.Watches.{IsLeastFree, IsFull};
ghost use Rattle.signal_core.specs.declared.watch.WatchFault.TheVariants as watch_fault;
ghost use Rattle.record_store.specs.Calls.{IsAsked, AreAsked, KeepsBoard};
ghost use Rattle.record_store.specs.Seen.{records, begun, watches};
ghost use Rattle.live_views.specs.Telling.{key_of, as_told, by_number};
ghost use Rattle.live_views.specs.Watches.{Watches, Stand, IsWatching, news, all_told};

use crate::telling::told_value;
use record_store::{RecordStore, WatchFault, WatchId};
use rooms_val::{Mem, Steps, Val};
use shape_tree::View;
use shape_tree::limits::MOST_LEVELS;
use signal_core::MOST_WATCHES;
use std::alloc::Global;
use std::sync::ledger::Ledger;
use tl_rules::{Level, TlKey, TlValue};

/// What a view tells of the records. It is computed anew only where it may differ: it costs a look-up where nothing changed
/// on which it hangs.
///
/// # Errors
///
/// Memory was refused; the store is as it was, but that more keys may be fresh.
pub fn view<L: Ledger>(
    alloc: Global,
    store: &mut RecordStore,
    view: &View,
    steps: &mut Steps<L>,
) -> Mem<Val>
    ensures told { IfOk result (λ val. data_of val ≡ told_view (records store.old) view.now) }
    ensures asked { IsAsked store.old store.new }
    ensures free { IsFreshIn store.old.txn.graph.values (key_of view.now) → steps.new ≡ steps.old }
{
    let key = key_of(alloc, view)?;
    told_value(alloc, store.ask(alloc, &key, steps)?)
}

/// Watches a view by the least number that isn't watched. It is told at the next [`told`], whatever it comes to.
///
/// # Errors
///
/// `Full` exactly where 64 views are watched, or `OutOfMemory`; then nothing changed.
pub fn watch(alloc: Global, store: &mut RecordStore, view: &View) -> Result<WatchId, WatchFault>
    ensures number { IfOk result (λ id. IsLeastFree (watches store.old) id.number) }
    ensures ok { IfOk result (λ id. (old new : Watches) → Stand (watches store.old) old
        → IsWatching old new id.number view.now → Stand (watches store.new) new) }
    ensures full { (result ≡ Err watch_fault.Full) ↔ IsFull (watches store.old) }
    ensures err { OnErr result (store.new ≡ store.old) }
    ensures board { KeepsBoard store.old store.new }
{
    if is_full(store) {
        return Err(WatchFault::Full);
    }
    let key = key_of(alloc, view)?;
    store.watch(key)
}

/// The watched views that tell something else than what was last told of them, a new watch always, each with what it tells,
/// by rising number. From then on this counts as told. No transaction is open.
///
/// It costs a look-up for each watch on which nothing hangs that changed, and a copy of what is told.
///
/// # Errors
///
/// Memory was refused. Nothing of this call counts as told, and the store is as it was, but that more keys may be fresh.
pub fn told<L: Ledger>(
    alloc: Global,
    store: &mut RecordStore,
    steps: &mut Steps<L>,
) -> Mem<Vec<(WatchId, Val)>>
    requires { begun store.old ≡ [] }
    ensures told { IfOk result (λ told. (ws : Watches) → Stand (watches store.old) ws
        → by_number told.items ≡ news (records store.old) ws) }
    ensures ok { OnOk result ((ws : Watches) → Stand (watches store.old) ws
        → Stand (watches store.new) (all_told (records store.old) ws)) }
    ensures err { OnErr result (watches store.new ≡ watches store.old) }
    ensures asked { AreAsked store.old store.new }
    ensures fresh { OnOk result (AreFreshKeys (watches store.old) store.new.txn.graph.values) }
    ensures free { AreFreshIn (watches store.old) store.old.txn.graph.values
        → steps.new ≡ steps.old }
{
    let news = store.news(alloc, steps)?;
    let told = told_each(alloc, news.due())?;
    let _ = store.tell(news);
    Ok(told)
}

// The key that a view asks for.
fn key_of(alloc: Global, view: &View) -> Mem<TlKey>
    ensures { IfOk result (λ key. key ≡ key_of view.now) }
{
    Ok(match view {
        View::Box(id) => TlKey::Box(id.copy(alloc)?, Level::of(MOST_LEVELS)),
        View::Tree(page) => TlKey::Tree(page.copy(alloc)?),
        View::Bound(id) => TlKey::Bound(id.copy(alloc)?),
        View::Count(page) => TlKey::Count(page.copy(alloc)?),
    })
}

// Whether each number is watched. It costs a look at each.
fn is_full(store: &RecordStore) -> bool
    ensures { IsTrue result ↔ IsFull (watches store.now) }
{
    'numbers: for number in 0..MOST_WATCHES as u32 {
        if !store.is_watched(WatchId { number }) {
            return false;
        }
    }
    true
}

// The answers that are due, each as it is told.
fn told_each(alloc: Global, due: &[(WatchId, TlValue)]) -> Mem<Vec<(WatchId, Val)>>
    ensures { IfOk result (λ told. by_number told.items ≡ as_told due.now) }
{
    let mut told = Vec::with_capacity(alloc, due.len())?;
    'due: for (id, value) in due {
        told.push((*id, told_value(alloc, value)?))?;
    }
    Ok(told)
}
