//! Finding, adding and connecting rows.
ghost use Rattle.std.specs.Prelude.{◌≡◌, ℕ, ◌+◌, ◌<◌, ◌≤◌, length, Contains, IfOk, IfSome, IfNone, OnOk, OnErr};
ghost use Rattle.std.specs.BTreeMap.{get};
ghost use Rattle.links_core.specs.Lists.{list_at};
ghost use Rattle.signal_values.specs.Kept.{IsAdded, IsSame, IsConnected, IsRenewed, IsFreshAt, IsFreshKey};
ghost use Rattle.signal_values.specs.Cells.{IsIndex};

use crate::cells::{Cells, Row};
use crate::edges::Edges;
use rooms_val::Mem;

// The row of a key.
pub(crate) fn find<K: Ord, V>(cells: &Cells<K, V>, key: &K) -> Option<usize>
    ensures { result ≡ get K.cmp cells.now.places key.now }
{
    cells.places.get(key).copied()
}

// Makes the list of the children of the next row, unless it was made and the row was not.
fn make_children(edges: &mut Edges, rows: usize) -> Mem<()>
    requires { rows ≤ length edges.old.children }
    ensures ok { OnOk result (rows + 1 ≤ length edges.new.children) }
    ensures longer { length edges.old.children ≤ length edges.new.children }
    ensures same { (n : ℕ) → list_at edges.new.children n ≡ list_at edges.old.children n }
    ensures spare { edges.new.spare ≡ edges.old.spare }
{
    if rows < edges.rows() {
        return Ok(());
    }
    edges.add_row()?;
    Ok(())
}

// Adds the row of a new key, to be found by an equal key.
//
// # Errors
//
// Memory was refused, and no row was added.
pub(crate) fn add_row<K: Ord + Drop, V: Drop>(
    cells: &mut Cells<K, V>,
    key: K,
    row: Row<K, V>,
    fresh: bool,
) -> Mem<usize>
    requires same { key ≡ row.key }
    requires room { length cells.old.rows.items ≤ length cells.old.edges.children }
    ensures ok { IfOk result (IsAdded K.cmp cells.old cells.new row fresh) }
    ensures err { OnErr result (IsSame K.cmp cells.old cells.new) }
{
    let number = cells.rows.len();
    cells.rows.reserve(1)?;
    cells.fresh.reserve(1)?;
    make_children(&mut cells.edges, number)?;
    cells.places.insert(key, number)?;
    cells.rows.push_reserved(row);
    cells.fresh.push_reserved(fresh);
    Ok(number)
}

// Links edges from the parents to a child.
pub(crate) fn connect(edges: &mut Edges, parents: &[usize], child: usize)
    requires child { child < length edges.old.children }
    requires parents { (p : ℕ) → Contains parents.now p → p < length edges.old.children }
    requires spare { length parents.now ≤ edges.old.spare }
    ensures { IsConnected edges.old.children edges.new.children parents.now child }
{
    'parents: for parent in parents {
        edges.link(*parent, child);
    }
}

// Gives a row another value, at an epoch.
pub(crate) fn renew<K, V: Eq + Drop>(row: &mut Row<K, V>, value: V, epoch: u64)
    ensures { IsRenewed V.eq epoch value row.old row.new }
{
    if row.value == value {
        return;
    }
    row.value = value;
    row.changed = Some(epoch);
}

// The row of a key that is fresh.
pub(crate) fn fresh_place<K: Ord, V>(cells: &Cells<K, V>, key: &K) -> Option<usize>
    requires index { IsIndex K.cmp cells.now.places cells.now.rows.items }
    requires columns { length cells.now.fresh.items ≡ length cells.now.rows.items }
    ensures found { IfSome result (IsFreshAt cells.now key.now) }
    ensures absent { IfNone result
        (IsFreshKey cells.now.rows.items cells.now.fresh.items key.now → ⊥) }
{
    let i = find(cells, key)?;
    if cells.fresh[i] { Some(i) } else { None }
}
