//! Writing atoms.
ghost use Rattle.std.specs.Prelude.{◌≡◌, ◌≢◌, ◌<◌, true, length, slice_get, IfSome};
ghost use Rattle.signal_values.specs.Whole.{IsWhole};
ghost use Rattle.signal_values.specs.Writes.{IsWritten, written_row, or_zero};

use crate::cells::{Cells, Row};
use crate::mark::mark;
use signal_rules::Rules;
use std::mem;

// Gives a row another value, at an epoch, and gives the old one.
fn change_row<K, V>(row: &mut Row<K, V>, value: V, epoch: u64) -> V
    ensures row { row.new ≡ written_row row.old value true epoch }
    ensures before { result ≡ row.old.value }
{
    row.changed = Some(epoch);
    mem::replace(&mut row.value, value)
}

// Counts a row as set, whose value stays.
fn count_as_set<K, V>(row: &mut Row<K, V>)
    ensures { row.new ≡ record row.old { changed = or_zero row.old.changed } }
{
    row.changed = row.changed.or(Some(0));
}

// Gives an atom another value, at an epoch, and gives the old one. The keys that hang on the atom
// become stale.
pub(crate) fn change<R: Rules>(
    rules: &R,
    cells: &mut Cells<R::Key, R::Value>,
    epoch: u64,
    i: usize,
    value: R::Value,
) -> R::Value
    requires sound { IsWhole (R.meaning rules.now) R.Key.cmp cells.old }
    requires row { i < length cells.old.rows.items }
    requires atom { IfSome (slice_get cells.old.rows.items i)
        (λ row. (R.meaning rules.now).rank row.key ≡ 0) }
    requires differs { IfSome (slice_get cells.old.rows.items i) (λ row. value ≢ row.value) }
    ensures before { IfSome (slice_get cells.old.rows.items i) (λ row. result ≡ row.value) }
    ensures written { IfSome (slice_get cells.old.rows.items i)
        (λ row. IsWritten (R.meaning rules.now) R.Key.cmp cells.old cells.new i row value epoch
        true) }
{
    let before = change_row(&mut cells.rows[i], value, epoch);
    mark(&mut cells.edges, &mut cells.fresh, i);
    before
}

// Writes an atom, at an epoch: true where the value differs. An atom that gets an equal value only
// counts as set.
pub(crate) fn write<R: Rules>(
    rules: &R,
    cells: &mut Cells<R::Key, R::Value>,
    epoch: u64,
    i: usize,
    value: R::Value,
) -> bool
    requires sound { IsWhole (R.meaning rules.now) R.Key.cmp cells.old }
    requires row { i < length cells.old.rows.items }
    requires atom { IfSome (slice_get cells.old.rows.items i)
        (λ row. (R.meaning rules.now).rank row.key ≡ 0) }
    ensures { IfSome (slice_get cells.old.rows.items i)
        (λ row. IsWritten (R.meaning rules.now) R.Key.cmp cells.old cells.new i row value epoch
        result) }
{
    if cells.rows[i].value == value {
        count_as_set(&mut cells.rows[i]);
        return false;
    }
    let _ = change(rules, cells, epoch, i, value);
    true
}
