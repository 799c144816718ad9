//! The rows that a run asks.
ghost use Rattle.std.specs.Prelude.{◌≡◌, ◌<◌, ◌++◌, ◌∷◌, [], IsOk, OnOk};
ghost use Rattle.smallvec.specs.SmallVec.{small_vec_len};

use rooms_val::Mem;
use smallvec::SmallVec;

// The rows that a run asked, in their order: four in place, and more on the heap.
pub(crate) type Parents = SmallVec<usize, 4>;

// A run asked a row. The first four take no memory.
pub(crate) fn note_parent(parents: &mut Parents, parent: usize) -> Mem<()>
    ensures ok { OnOk result (parents.new.items ≡ parents.old.items ++ parent ∷ []) }
    ensures in_place { small_vec_len parents.old < 4 → IsOk result }
{
    // There is room for four at least.
    let _ = parents.capacity();
    parents.push(parent)?;
    Ok(())
}
