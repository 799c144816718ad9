//! What becomes stale where a row changes.
ghost use Rattle.std.specs.Prelude.{◌≡◌, ◌<◌, ◌≤◌, length};
ghost use Rattle.signal_values.specs.Marks.{AreAlive, IsMarked};

use crate::edges::Edges;

// Makes all rows stale that hang on one, and takes away the edges into them.
pub(crate) fn mark(edges: &mut Edges, fresh: &mut Vec<bool>, on: usize)
    requires on { on < length edges.old.children }
    requires rows { length fresh.old.items ≤ length edges.old.children }
    requires alive { AreAlive edges.old.children fresh.old.items }
    ensures { IsMarked on edges.old.children fresh.old.items edges.new.children fresh.new.items }
{
    'children: while let Some(child) = edges.first_child(on) {
        fresh[child] = false;
        edges.dissolve(child);
        mark(edges, fresh, child);
    }
}
