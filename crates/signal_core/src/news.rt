//! What watches have to tell.
ghost use Rattle.std.specs.Prelude.{◌≡◌, ◌≢◌, ◌<◌, ◌≤◌, true, false, length, Some, IfOk, IfSome, OnOk};
ghost use Rattle.std.specs.Option.{option_map_or};
ghost use Rattle.signal_values.specs.Seen.{value_in, IsFreshIn};
ghost use Rattle.signal_values.specs.Kept.{IsFreshKey};
ghost use Rattle.signal_core.specs.Gots.{AreGot};
ghost use Rattle.signal_core.specs.Due.{AreFreshKeys, AreFreshIn};
ghost use Rattle.signal_core.specs.News.{AddsNews, AreNews, told_slot, AreToldBy};
ghost use Rattle.signal_core.specs.Watches.{most_watches};

use crate::watch::{Watch, WatchId};
use rooms_val::{Mem, Steps};
use signal_values::{Rules, Values};
use std::alloc::Global;
use std::sync::ledger::Ledger;

/// What the watches of one [`crate::Graph`] have to tell, which counts as told only once it is told.
#[derive(Drop)]
pub struct News<V> {
    // Which watches are due, each with its value, by rising number.
    pub(crate) due: Vec<(WatchId, V)>,
    // By number the value that is to count as told: none where nothing is told.
    pub(crate) told: Vec<Option<V>>,
}

impl<V> News<V> {
    /// Which watches are due, each with its value, by rising number.
    pub fn due(&self) -> &[(WatchId, V)]
        ensures { result.now ≡ self.now.due.items }
    {
        &self.due
    }
}

// Whether a value is what was last told of a watch.
fn is_as_told<K, V: Eq>(watch: &Watch<K, V>, value: &V) -> bool
    ensures { result ≡ option_map_or (λ told. V.eq told value.now) watch.now.told false }
{
    match &watch.told {
        Some(told) => told == value,
        None => false,
    }
}

// Whether the value of a watch differs from what was last told.
fn differs<R: Rules + Drop, L: Ledger>(
    alloc: Global,
    values: &mut Values<R>,
    watch: &Watch<R::Key, R::Value>,
    steps: &mut Steps<L>,
) -> Mem<bool>
    ensures got { AreGot (R.meaning values.old.rules) R.Key.cmp values.old values.new }
    ensures same { IfOk result (λ differs. differs ≡ false
        → watch.now.told
        ≡ Some (value_in (R.meaning values.old.rules) R.Key.cmp values.old watch.now.key)) }
    ensures differs { IfOk result (λ differs. differs ≡ true
        → watch.now.told
        ≢ Some (value_in (R.meaning values.old.rules) R.Key.cmp values.old watch.now.key)) }
    ensures fresh { OnOk result (IsFreshKey values.new.rows values.new.fresh watch.now.key) }
    ensures free { IsFreshIn values.old watch.now.key → steps.new ≡ steps.old }
{
    let value = values.get(alloc, &watch.key, steps)?;
    Ok(!is_as_told(watch, value))
}

// Adds what the watch of the next number has to tell.
fn add_news<R: Rules + Drop, L: Ledger>(
    alloc: Global,
    values: &mut Values<R>,
    slot: &Option<Watch<R::Key, R::Value>>,
    news: &mut News<R::Value>,
    steps: &mut Steps<L>,
) -> Mem<()>
    requires { length news.old.told.items < most_watches }
    ensures got { AreGot (R.meaning values.old.rules) R.Key.cmp values.old values.new }
    ensures ok { OnOk result
        (AddsNews (R.meaning values.old.rules) R.Key.cmp values.old slot.now news.old news.new) }
    ensures fresh { OnOk result
        (IfSome slot.now (λ watch. IsFreshKey values.new.rows values.new.fresh watch.key)) }
    ensures free { IfSome slot.now (λ watch. IsFreshIn values.old watch.key)
        → steps.new ≡ steps.old }
{
    let Some(watch) = slot else {
        news.told.push(None)?;
        return Ok(());
    };
    if !differs(alloc, values, watch, steps)? {
        news.told.push(None)?;
        return Ok(());
    }
    let number = news.told.len() as u32;
    let value = values.copied(alloc, &watch.key, steps)?;
    let told = values.copied(alloc, &watch.key, steps)?;
    news.due.push((WatchId { number }, value))?;
    news.told.push(Some(told))?;
    Ok(())
}

// Finds what the watches have to tell.
pub(crate) fn find_news<R: Rules + Drop, L: Ledger>(
    alloc: Global,
    values: &mut Values<R>,
    watches: &[Option<Watch<R::Key, R::Value>>],
    steps: &mut Steps<L>,
) -> Mem<News<R::Value>>
    requires { length watches.now ≤ most_watches }
    ensures got { AreGot (R.meaning values.old.rules) R.Key.cmp values.old values.new }
    ensures news { IfOk result (λ news.
        AreNews (R.meaning values.old.rules) R.Key.cmp values.old watches.now news.told.items
        news.due.items) }
    ensures length { IfOk result (λ news. length news.told.items ≡ length watches.now) }
    ensures fresh { OnOk result (AreFreshKeys watches.now values.new) }
    ensures free { AreFreshIn watches.now values.old → steps.new ≡ steps.old }
{
    let mut news = News {
        due: Vec::new(alloc),
        told: Vec::new(alloc),
    };
    'watches: for slot in watches {
        add_news(alloc, values, slot, &mut news, steps)?;
    }
    Ok(news)
}

// Tells a watch its news, if there are any.
fn tell<K, V: Drop>(slot: &mut Option<Watch<K, V>>, news: Option<V>)
    ensures { slot.new ≡ told_slot slot.old news }
{
    let Some(watch) = slot else {
        return;
    };
    let Some(value) = news else {
        return;
    };
    watch.told = Some(value);
}

// Tells each watch its news. It takes no memory.
pub(crate) fn tell_all<K, V: Drop>(watches: &mut [Option<Watch<K, V>>], mut news: Vec<Option<V>>)
    requires { length news.items ≤ length watches.old }
    ensures { AreToldBy watches.old news.items watches.new }
{
    'news: while let Some(told) = news.pop() {
        tell(&mut watches[news.len()], told);
    }
}
