//! What the bindings at an id, and the count of a page, ask for.
ghost use Rattle.std.specs.Prelude.{◌≡◌, ◌++◌, IfOk, OnOk};
ghost use Rattle.tl_rules.specs.Plans.{asked};
ghost use Rattle.tl_rules.specs.Asking.{merged, bound_plan, count_plan};
ghost use Rattle.tl_rules.specs.Ids.{flat};

use crate::ids::{Ids, Part};
use crate::key::TlKey;
use crate::value::TlValue;
use rooms_val::{Mem, Text};
use signal_rules::Ask;
use std::alloc::Global;
use std::cmp::Ordering;

// What the bindings at an id ask for: those that go from it, and those that go to it.
pub(crate) fn ask_bound(alloc: Global, id: &Text, got: &[TlValue]) -> Mem<Ask<TlKey, TlValue>>
    ensures { IfOk result (λ a. a ≡ asked (bound_plan id.now) got.now) }
{
    let Some((from, rest)) = got.split_first() else {
        return Ok(Ask::Need(TlKey::BoundFrom(id.copy(alloc)?)));
    };
    let Some((to, _)) = rest.split_first() else {
        return Ok(Ask::Need(TlKey::BoundTo(id.copy(alloc)?)));
    };
    let from = ids_of_parts(alloc, from.parts())?;
    let to = ids_of_parts(alloc, to.parts())?;
    Ok(Ask::Done(TlValue::Ids(merge(alloc, &from, &to)?)))
}

// What the count of a page asks for: its tree.
pub(crate) fn ask_count(alloc: Global, page: &Text, got: &[TlValue]) -> Mem<Ask<TlKey, TlValue>>
    ensures { IfOk result (λ a. a ≡ asked (count_plan page.now) got.now) }
{
    match got.split_first() {
        Some((tree, _)) => Ok(Ask::Done(TlValue::Number(tree.count() as u64))),
        None => Ok(Ask::Need(TlKey::Tree(page.copy(alloc)?))),
    }
}

// Two rising lists of ids in one, with an id that stands in both once.
fn merge(alloc: Global, left: &[Text], right: &[Text]) -> Mem<Ids>
    ensures { IfOk result (λ ids. ids ≡ merged left.now right.now) }
{
    let mut ids = Vec::new(alloc);
    let mut i = 0;
    let mut j = 0;
    'both: while i < left.len() && j < right.len() {
        match left[i].cmp(&right[j]) {
            Ordering::Less => {
                ids.push(left[i].copy(alloc)?)?;
                i += 1;
            }
            Ordering::Equal => {
                ids.push(left[i].copy(alloc)?)?;
                i += 1;
                j += 1; // The id stands in both.
            }
            Ordering::Greater => {
                ids.push(right[j].copy(alloc)?)?;
                j += 1;
            }
        }
    }
    add_all(alloc, &mut ids, &left[i..])?;
    add_all(alloc, &mut ids, &right[j..])?;
    let merged = Ids::of(alloc, ids)?;
    Ok(merged)
}

// Copies of the ids of some parts.
fn ids_of_parts(alloc: Global, parts: &[Part]) -> Mem<Vec<Text>>
    ensures { IfOk result (λ ids. ids.items ≡ flat parts.now) }
{
    let mut ids = Vec::new(alloc);
    'parts: for part in parts {
        add_all(alloc, &mut ids, part.as_slice())?;
    }
    Ok(ids)
}

// Adds copies of some ids.
fn add_all(alloc: Global, ids: &mut Vec<Text>, more: &[Text]) -> Mem<()>
    ensures { OnOk result (ids.new.items ≡ ids.old.items ++ more.now) }
{
    'ids: for id in more {
        ids.push(id.copy(alloc)?)?;
    }
    Ok(())
}
