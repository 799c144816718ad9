//! What stands at the end of the marks.
ghost use Rattle.std.specs.Prelude.{◌≡◌, map, reverse, IfOk, MatchOption};
ghost use Rattle.doc_model.specs.Merging.{merge};
ghost use Rattle.undo_marks.specs.Histories.{AreTaken, HasNone, IsLastNamed, NamesNone, inverses_since};
ghost use Rattle.undo_marks.specs.Inverses.{AreInverses};
ghost use Rattle.undo_marks.specs.Kept.{diffs_of, section_of};

use crate::join::join;
use crate::marks::Marked;
use crate::stretch::Stretch;
use field_ops::Diff;
use rooms_val::Mem;
use std::alloc::Global;

// The last inverses, and how many marks stand after them; none where there is no inverse.
pub(crate) fn last_inverses<'a>(
    mut marked: &'a [Marked],
    mut last: &'a Stretch,
) -> Option<(usize, &'a Stretch)>
    ensures { MatchOption result
        (HasNone (reverse (map section_of marked.entry.now)) (diffs_of last.entry.now))
        (λ found. AreTaken found.0 (reverse (map section_of marked.entry.now))
        (diffs_of last.entry.now) (diffs_of found.1.now)) }
{
    let mut dropped = 0;
    'marks: while last.is_empty() {
        let (newest, older) = marked.split_last()?;
        marked = older;
        last = &newest.before;
        dropped += 1;
    }
    Some((dropped, last))
}

// How many marks stand after the last of a name, and the inverses since that as one diff; none where
// no mark has the name.
pub(crate) fn since_mark<'a>(
    alloc: Global,
    mut marked: &'a [Marked],
    mut last: &'a Stretch,
    name: &str,
) -> Mem<Option<(usize, Diff)>>
    ensures { IfOk result (λ found. MatchOption found
        (NamesNone name.now (reverse (map section_of marked.entry.now)))
        (λ found. IsLastNamed found.0 name.now (reverse (map section_of marked.entry.now))
        × (found.1 ≡ merge (inverses_since found.0
        (reverse (map section_of marked.entry.now)) (diffs_of last.entry.now)))
        × AreInverses (inverses_since found.0
        (reverse (map section_of marked.entry.now)) (diffs_of last.entry.now)))) }
{
    let mut diff = Diff::new(alloc);
    let mut newer = 0;
    'marks: while let Some((newest, older)) = marked.split_last() {
        let mut all = last.merged_diff(alloc)?;
        join(alloc, &mut all, &diff)?;
        diff = all;
        if newest.name.as_str() == name {
            return Ok(Some((newer, diff)));
        }
        marked = older;
        last = &newest.before;
        newer += 1;
    }
    Ok(None)
}
