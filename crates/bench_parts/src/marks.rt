//! Inverses of edits, kept without a mark.
use crate::made::move_diff;
use crate::touching::Calls;
use rooms_val::{Mem, Text};
use std::alloc::Global;
use undo_marks::Marks;

/// Keeps at each call the inverse of an edit of one of the shapes under these ids, without a mark. It returns how many
/// shapes an undo of all of them changes.
pub(crate) fn keep_times(alloc: Global, ids: &[Text], calls: Calls) -> Mem<i64> {
    let mut marks = Marks::new(alloc);
    keep_all(alloc, &mut marks, ids, calls)?;
    Ok(marks.undo(alloc)?.map_or(0, |diff| diff.len() as i64))
}

/// Keeps the inverses of all calls.
fn keep_all(alloc: Global, marks: &mut Marks, ids: &[Text], calls: Calls) -> Mem<()> {
    for call in 0..calls.count {
        if let Some(id) = calls.id(ids, call) {
            let inverse = move_diff(alloc, id, i64::from(call))?;
            marks.edit(alloc)?;
            marks.record(inverse);
        }
    }
    Ok(())
}
